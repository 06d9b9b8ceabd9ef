//! `Metadata`, who is reserved and which side began.
ghost use Rattle.std.specs.Prelude.{◌≡◌};
ghost use Rattle.p2p_discovery_directory.specs.Reserved.{peer_of};

use p2p_address::Ingress;

/// The peer of a reservation, and which side began its connection.
///
/// Ports `Metadata` of commonware-p2p's discovery tracker.
#[derive(Drop, PartialEq, Eq, Debug)]
pub enum Metadata<P> {
    /// This node dials the peer, here.
    Dialer(P, Ingress),
    /// The peer dialed this node.
    Listener(P),
}

impl<P> Metadata<P> {
    /// The peer's key.
    pub fn public_key(&self) -> &P
        ensures { result.now ≡ peer_of self.now }
    {
        match self {
            Metadata::Dialer(peer, _) => peer,
            Metadata::Listener(peer) => peer,
        }
    }
}
