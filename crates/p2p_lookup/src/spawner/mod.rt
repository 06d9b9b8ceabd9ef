//! What makes the connections of a node: its messages, its mailbox, and its actor with what a step of it answers.
mod actor;
mod mailbox;
mod message;
mod stepped;

pub use crate::peer::Config;
pub use actor::Actor;
pub use mailbox::Mailbox;
pub use message::Message;
pub use stepped::Stepped;
