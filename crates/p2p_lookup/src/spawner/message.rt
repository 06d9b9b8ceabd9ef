//! `Message`, what the spawner is asked.
use p2p_base::{Keep, PublicKey, UnreliablePolicy};
use p2p_tracker_directory::Reservation;

/// What the spawner is asked.
///
/// Ports `Message` of commonware-p2p's spawner.
#[derive(Drop)]
pub enum Message<P> {
    /// A connection is to be made.
    Spawn {
        /// The peer.
        peer: P,
        /// The link, by its name.
        connection: u64,
        /// The right to connect with the peer.
        reservation: Reservation<P>,
    },
}

impl<P: PublicKey> UnreliablePolicy for Message<P> {
    ghost use Rattle.p2p_base.specs.declared.policy.Keep.TheVariants as keep;

    ghost keep_of = { λ _. keep.Refuse };

    fn keep(&self) -> Keep {
        Keep::Refuse
    }
}
