//! What the tracker is asked, where its messages and answers wait, and the oracle that asks it.
//!
//! Whoever asks puts a message into the `Mailbox`. The tracker takes one message a step, and puts answers there, where those who
//! asked take them. An oracle is lent the mailbox's desk alone.
//!
//! `DeskOf` and `OracleOf` go over messages of any kind among which are those of an oracle: they serve the tracker of a discovered
//! network too, whose other messages are its own.
#![tactic(auto)]

mod access;
mod answer;
mod desk;
mod handshakes;
mod mailbox;
mod message;
mod oracle;
mod oracle_message;
mod question;
mod set_size;
mod tracking;
mod waiting;

pub use access::Access;
pub use answer::{DialerAnswer, HandshakeItem};
pub use desk::DeskOf;
pub use handshakes::Handshakes;
pub use mailbox::Mailbox;
pub use message::Message;
pub use oracle::OracleOf;
pub use oracle_message::{OracleMessage, RegisterMessage};
pub use p2p_tracker_directory::Metadata;
pub use waiting::Waiting;

/// The desk of a tracker of lookup.
pub type Desk<P> = DeskOf<P, Message<P>>;

/// The oracle of a network of lookup, which also says where peers are.
///
/// Ports `Oracle` of commonware-p2p's lookup tracker.
pub type Oracle<P> = OracleOf<P, Message<P>>;
