//! The tracker: which peers may connect, who holds the right to, and whose connection has to end.
//!
//! Whoever asks the tracker puts a message into its `Mailbox`. `Actor` takes one message a step.
#![tactic(auto)]

mod actor;
mod config;
pub mod directory;
mod stepped;

pub use actor::Actor;
pub use config::Config;
pub use p2p_tracker_directory::{
    Address, DialStatus, Dialable, Directory, Record, Reservation, ReserveResult, Status,
};
pub use p2p_tracker_mailbox::{
    Desk, DialerAnswer, HandshakeItem, Handshakes, Mailbox, Message, Metadata, Oracle, Waiting,
};
pub use stepped::{Put, Stepped};
