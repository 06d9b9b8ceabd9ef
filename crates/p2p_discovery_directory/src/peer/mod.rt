//! What a connection is told: its messages, and the mailbox where they wait.
mod mailbox;
mod message;

pub use mailbox::Mailbox;
pub use message::Message;
