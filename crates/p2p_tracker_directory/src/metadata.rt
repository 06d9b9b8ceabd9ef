//! `Metadata`, who is reserved and which side began.
ghost use Rattle.std.specs.Prelude.{◌≡◌};
ghost use Rattle.p2p_tracker_directory.specs.Reserved.{peer_of};

/// The peer of a reservation, and which side began its connection.
///
/// Ports `Metadata` of commonware-p2p's lookup tracker.
#[derive(Clone, Copy, PartialEq, Eq, Debug)]
pub enum Metadata<P> {
    /// This node dials the peer.
    Dialer(P),
    /// The peer dialed this node.
    Listener(P),
}

impl<P> Metadata<P> {
    /// The peer's key.
    pub fn public_key(&self) -> &P
        ensures { result.now ≡ peer_of self.now }
    {
        match self {
            Metadata::Dialer(peer) => peer,
            Metadata::Listener(peer) => peer,
        }
    }
}
