//! Labels by which what a node counts is told apart: by the peer, and by the kind of message.
pub mod message;
pub mod message_type;
pub mod peer;

pub use message::Message;
pub use message_type::MessageType;
pub use peer::Peer;
