//! `StaticProvider`, which tells of one peer set.
ghost use Rattle.std.specs.Prelude.{◌≡◌, IfOk};
ghost use Rattle.p2p_mux.specs.Provided.{primary_alone, set_at, only_update};

use p2p_base::{PublicKey, Set};
use p2p_flow::{PeerSetUpdate, TrackedPeers};
use std::alloc::{AllocError, Global};
use std::marker::Model;

/// Tells of one peer set, which stays as it is.
///
/// Ports `StaticProvider` of commonware-p2p, a `Provider` whose subscriptions are receivers.
#[derive(Drop)]
pub struct StaticProvider<P: PublicKey> {
    alloc: Global,
    id: u64,
    peers: Set<P>,
}

impl<P: PublicKey> Model for StaticProvider<P> {
    ghost use Rattle.p2p_mux.specs.Provided.{OnlySet};

    ghost Value = { OnlySet P };

    ghost view = { λ p. record { id = p.id; peers = p.peers } };
}

impl<P: PublicKey> StaticProvider<P> {
    /// Tells that these are the peers of the set with the index `id`.
    ///
    /// Ports `StaticProvider::new` of commonware-p2p.
    pub fn new(alloc: Global, id: u64, peers: Set<P>) -> StaticProvider<P>
        ensures { result ≡ record { id = id; peers = peers } }
    {
        StaticProvider { alloc, id, peers }
    }

    /// The peers of the set with the index `id`, as primary ones. `None` exactly where that is another one.
    ///
    /// `Err` only where memory runs out.
    ///
    /// Ports `StaticProvider::peer_set` of commonware-p2p, which panics at another index.
    pub fn peer_set(&self, id: u64) -> Result<Option<TrackedPeers<P>>, AllocError>
        ensures { IfOk result (λ set. set ≡ set_at self.now id) }
    {
        if id != self.id {
            return Ok(None);
        }
        Ok(Some(self.tracked()?))
    }

    /// The update that a subscriber is told: the set's index, with its peers as the latest and as all.
    ///
    /// `Err` only where memory runs out.
    ///
    /// Ports `StaticProvider::subscribe` of commonware-p2p.
    pub fn subscribe(&self) -> Result<PeerSetUpdate<P>, AllocError>
        ensures { IfOk result (λ update. update ≡ only_update self.now) }
    {
        Ok(PeerSetUpdate {
            index: self.id,
            latest: self.tracked()?,
            all: self.tracked()?,
        })
    }

    // The peers as primary ones.
    fn tracked(&self) -> Result<TrackedPeers<P>, AllocError>
        ensures { IfOk result (λ peers. peers ≡ primary_alone self.now.peers) }
    {
        Ok(TrackedPeers::primary(self.alloc, self.peers.try_clone()?))
    }
}
