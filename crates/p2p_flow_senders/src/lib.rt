//! How messages are sent and received by channel: senders that keep to a quota for each peer, receivers, and the channels of a node.
#![tactic(auto)]

mod admission;
pub mod block;
pub mod channels;
pub mod limited;
pub mod receiver;
pub mod register_error;
pub mod registered;
pub mod send_error;
pub mod sender;
pub mod sending;
pub mod way;

pub use receiver::Receiver;
pub use register_error::RegisterError;
pub use registered::Channels;
pub use send_error::SendError;
pub use sender::{CheckedSender, LimitedSender, UnlimitedSender};
pub use sending::Sender;
pub use way::Way;
