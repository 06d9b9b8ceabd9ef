//! What waits for the dialer and for handshakes.
use p2p_address::Ingress;
use p2p_base::PublicKey;
use p2p_tracker_directory::{Dialable, Reservation};

/// What the tracker answers the dialer.
#[derive(Drop)]
pub enum DialerAnswer<P: PublicKey> {
    /// Whom to dial.
    Dialable(Dialable<P>),
    /// The reservation that it asked for, and where to dial, or that there is none.
    Dial(Option<(Reservation<P>, Ingress)>),
}

/// What a handshake is told.
#[derive(Drop)]
pub enum HandshakeItem<P: PublicKey> {
    /// By the tracker: whether the peer may connect.
    Acceptable(bool),
    /// By its link: whether the keys were exchanged.
    Finished(bool),
    /// By the tracker: the reservation that it asked for, or that there is none.
    Listen(Option<Reservation<P>>),
}
