//! `Message`, the label of what is counted for each peer and kind of message.
ghost use Rattle.std.specs.Prelude.{◌≡◌};

use crate::labels::MessageType;

/// The label of what is counted for each peer and kind of message.
///
/// Ports the `Message` of commonware-p2p's metrics.
#[derive(Clone, Copy, PartialEq, Eq, Hash, Debug)]
pub struct Message<P> {
    /// The peer.
    pub peer: P,
    /// The kind of message.
    pub message: MessageType,
}

impl<P: Copy> Message<P> {
    /// The label of a peer's messages on a channel.
    ///
    /// Ports `Message::new_data` of commonware-p2p's metrics.
    pub fn new_data(peer: &P, channel: u64) -> Message<P>
        ensures { result ≡ record { peer = peer.now; message = MessageType.Data channel } }
    {
        Message {
            peer: *peer,
            message: MessageType::Data(channel),
        }
    }

    /// The label of a peer's pings.
    ///
    /// Ports `Message::new_ping` of commonware-p2p's metrics.
    pub fn new_ping(peer: &P) -> Message<P>
        ensures { result ≡ record { peer = peer.now; message = MessageType.Ping } }
    {
        Message {
            peer: *peer,
            message: MessageType::Ping,
        }
    }

    /// The label of a peer's greetings.
    ///
    /// Ports `Message::new_greeting` of commonware-p2p's metrics.
    pub fn new_greeting(peer: &P) -> Message<P>
        ensures { result ≡ record { peer = peer.now; message = MessageType.Greeting } }
    {
        Message {
            peer: *peer,
            message: MessageType::Greeting,
        }
    }

    /// The label of a peer's bit vectors.
    ///
    /// Ports `Message::new_bit_vec` of commonware-p2p's metrics.
    pub fn new_bit_vec(peer: &P) -> Message<P>
        ensures { result ≡ record { peer = peer.now; message = MessageType.BitVec } }
    {
        Message {
            peer: *peer,
            message: MessageType::BitVec,
        }
    }

    /// The label of a peer's lists of peers.
    ///
    /// Ports `Message::new_peers` of commonware-p2p's metrics.
    pub fn new_peers(peer: &P) -> Message<P>
        ensures { result ≡ record { peer = peer.now; message = MessageType.Peers } }
    {
        Message {
            peer: *peer,
            message: MessageType::Peers,
        }
    }

    /// The label of a peer's messages that were refused.
    ///
    /// Ports `Message::new_invalid` of commonware-p2p's metrics.
    pub fn new_invalid(peer: &P) -> Message<P>
        ensures { result ≡ record { peer = peer.now; message = MessageType.Invalid } }
    {
        Message {
            peer: *peer,
            message: MessageType::Invalid,
        }
    }
}
