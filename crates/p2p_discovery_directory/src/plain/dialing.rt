//! Whom a plain directory dials, and where.
ghost use Rattle.std.specs.Prelude.{◌≡◌, Some, is_some, IfOk, IfSome};
ghost use Rattle.p2p_discovery_directory.specs.Plain.{allowed_in, dialed_at};
ghost use Rattle.p2p_discovery_directory.specs.declared.metadata.Metadata.TheVariants as side;

use crate::plain::places::kept_at;
use crate::{Metadata, PlainDirectory, Reservation};
use p2p_address::Ingress;
use p2p_base::PublicKey;
use p2p_discovery::Info;
use p2p_tracker_directory::Directory;
use std::alloc::{AllocError, Global};

// The reservation of a peer that this node dials, where it is granted.
pub(super) fn dialer_of<P: Copy>(
    peer: &P,
    ingress: Ingress,
    granted: bool,
) -> Option<Reservation<P>>
    ensures granted { is_some result ≡ granted }
    ensures metadata { IfSome result (λ g. g ≡ side.Dialer peer.now ingress) }
{
    if granted {
        return Some(Reservation::new(Metadata::Dialer(*peer, ingress)));
    }
    None
}

// Where the peer of an info is dialed, if that may be dialed.
fn allowed<P: PublicKey>(
    alloc: Global,
    peers: &Directory<P>,
    info: &Info<P>,
) -> Result<Option<Ingress>, AllocError>
    ensures { IfOk result (λ o. o ≡ allowed_in peers.now.rules.private peers.now.rules.dns (Some info.now)) }
{
    if peers.allows(&info.ingress) {
        let ingress = info.ingress.try_clone(alloc)?;
        return Ok(Some(ingress));
    }
    Ok(None)
}

impl<P: PublicKey> PlainDirectory<P> {
    // Where a peer is dialed that is primary in a set and not held.
    pub(super) fn dialed_at(&self, peer: &P) -> Result<Option<Ingress>, AllocError>
        ensures { IfOk result (λ o. o ≡ dialed_at P.cmp self.now peer.now) }
    {
        if self.peers.next_dial(peer).is_none() {
            return Ok(None);
        }
        match kept_at(&self.places, peer) {
            Some(info) => allowed(self.alloc, &self.peers, info),
            None => Ok(None),
        }
    }
}
