//! `MessageType`, the kinds of messages that are counted.
use std::fmt::{self, Display, Formatter, Write};

/// A kind of message that is counted. It prints as the label of its kind.
///
/// Ports the `MessageType` of commonware-p2p's metrics, those of lookup and of discovery in one.
#[derive(Clone, Copy, PartialEq, Eq, Hash, Debug)]
pub enum MessageType {
    /// A message on this channel.
    Data(u64),
    /// A ping.
    Ping,
    /// A greeting.
    Greeting,
    /// A bit vector of the peers that are known.
    BitVec,
    /// Peers with where they are.
    Peers,
    /// A message that was refused.
    Invalid,
}

impl Display for MessageType {
    fn fmt<W: Write>(&self, f: &mut Formatter<W>) -> fmt::Result {
        match self {
            MessageType::Data(channel) => write!(f, "data_{channel}"),
            MessageType::Ping => f.write_str("ping"),
            MessageType::Greeting => f.write_str("greeting"),
            MessageType::BitVec => f.write_str("bit_vec"),
            MessageType::Peers => f.write_str("peers"),
            MessageType::Invalid => f.write_str("invalid"),
        }
    }
}
