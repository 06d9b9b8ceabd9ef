//! `Message`, what the router is told.
use p2p_base::{Keep, UnreliablePolicy};
use p2p_flow::{Recipients, Relay};
use p2p_wire::EncodedData;

/// What the router is told.
///
/// Ports `Message` of commonware-p2p's router, with numbers in place of the senders that it answers by.
#[derive(Drop)]
pub enum Message<P> {
    /// A connection of a peer is ready, and takes messages through this relay.
    Ready {
        /// The peer.
        peer: P,
        /// Where messages to the peer go.
        relay: Relay<EncodedData>,
        /// The connection, which is answered.
        conn: u64,
    },
    /// A peer's connection is gone.
    Release {
        /// The peer.
        peer: P,
    },
    /// A frame for peers.
    Content {
        /// To whom it goes.
        recipients: Recipients<P>,
        /// The frame.
        encoded: EncodedData,
        /// Whether it goes before frames without priority.
        priority: bool,
    },
    /// A subscription wants the list of connected peers, now and whenever it changes.
    SubscribePeers {
        /// The subscription.
        subscription: u64,
    },
}

impl<P: Drop> UnreliablePolicy for Message<P> {
    ghost use Rattle.p2p_router.specs.Mailbox.{keep_of_message};

    ghost keep_of = { keep_of_message };

    fn keep(&self) -> Keep {
        match self {
            Message::Content { .. } => Keep::Refuse,
            _ => Keep::Append,
        }
    }
}
