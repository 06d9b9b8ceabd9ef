//! `Info`, where a peer is dialed, as it says itself.
ghost use Rattle.std.specs.Prelude.{◌≡◌, IfOk};

use p2p_address::Ingress;
use p2p_base::List;
use std::alloc::{AllocError, Global};

/// How many bytes the host of an ingress has at most.
pub const MAX_HOST: u32 = 253;

/// How many bytes a signature has at most.
pub const MAX_SIGNATURE: u32 = 128;

/// Where a peer is dialed, as it says itself.
///
/// Ports `Info` of commonware-p2p.
#[derive(Drop, PartialEq, Eq, Debug)]
pub struct Info<P> {
    /// Where the peer is dialed.
    pub ingress: Ingress,
    /// When it said so, in milliseconds.
    pub timestamp: u64,
    /// The peer.
    pub public_key: P,
    /// What it signed this with.
    pub signature: List<u8>,
}

impl<P: Copy> Info<P> {
    /// An equal info. `Err` only where memory runs out.
    pub fn try_clone(&self, alloc: Global) -> Result<Info<P>, AllocError>
        ensures { IfOk result (λ info. info ≡ self.now) }
    {
        let ingress = self.ingress.try_clone(alloc)?;
        let signature = self.signature.try_clone(alloc)?;
        Ok(Info {
            ingress,
            timestamp: self.timestamp,
            public_key: self.public_key,
            signature,
        })
    }
}

/// Equal infos. `Err` only where memory runs out.
pub(crate) fn clone_infos<P: Copy>(
    alloc: Global,
    infos: &[Info<P>],
) -> Result<List<Info<P>>, AllocError>
    ensures { IfOk result (λ clones. clones ≡ infos.now) }
{
    let mut clones = List::empty(alloc);
    for info in infos {
        clones.push(info.try_clone(alloc)?)?;
    }
    Ok(clones)
}
