//! `PeerSetUpdate`, what a subscriber to peer sets is told.
ghost use Rattle.std.specs.Prelude.{◌≡◌, IfOk};

use crate::TrackedPeers;
use p2p_base::PublicKey;
use std::alloc::AllocError;

/// What subscribers are told when a peer set was tracked.
///
/// Ports `PeerSetUpdate` of commonware-p2p.
#[derive(Drop, PartialEq, Eq, Debug)]
pub struct PeerSetUpdate<P: PublicKey> {
    /// The index of the set.
    pub index: u64,
    /// The peers of the set, each key in one role.
    pub latest: TrackedPeers<P>,
    /// The peers of all the sets that are tracked, each key in one role.
    pub all: TrackedPeers<P>,
}

impl<P: PublicKey> PeerSetUpdate<P> {
    /// An equal update. `Err` only where memory runs out.
    pub fn try_clone(&self) -> Result<PeerSetUpdate<P>, AllocError>
        ensures { IfOk result (λ update. update ≡ self.now) }
    {
        let latest = self.latest.try_clone()?;
        let all = self.all.try_clone()?;
        Ok(PeerSetUpdate {
            index: self.index,
            latest,
            all,
        })
    }
}
