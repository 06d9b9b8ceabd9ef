//! `Gossip`, what a peer tells of where others are dialed.
ghost use Rattle.std.specs.Prelude.{◌≡◌};
ghost use Rattle.p2p_discovery_peer.specs.Sparing.{kind_of};

use p2p_base::List;
use p2p_discovery::{BitVec, Info};

/// What a peer tells of where others are dialed.
#[derive(Drop, PartialEq, Eq, Debug)]
pub enum Gossip<P> {
    /// Of which peers it knows that.
    BitVec(BitVec),
    /// Where some are dialed.
    Peers(List<Info<P>>),
}

/// Which of the two a peer tells.
#[derive(Clone, Copy, PartialEq, Eq, Debug)]
pub enum GossipKind {
    /// A bit vector.
    BitVec,
    /// Infos.
    Peers,
}

impl<P> Gossip<P> {
    /// Which of the two it is.
    pub fn kind(&self) -> GossipKind
        ensures { result ≡ kind_of self.now }
    {
        match self {
            Gossip::BitVec(_) => GossipKind::BitVec,
            Gossip::Peers(_) => GossipKind::Peers,
        }
    }
}
