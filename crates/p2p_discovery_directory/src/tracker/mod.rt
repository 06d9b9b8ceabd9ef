//! The tracker: what it is told and asked, its mailbox, its actor with what a step of it answers, the answers that wait, and the oracle
//! that asks it.
mod access;
mod actor;
mod answer;
mod config;
mod mailbox;
mod message;
mod put;
mod standing;
mod stepped;

pub use access::Access;
pub use actor::Actor;
pub use answer::Answer;
pub use config::Config;
pub use mailbox::Mailbox;
pub use message::Message;
use p2p_tracker_mailbox::{DeskOf, OracleOf};
pub use put::Put;
pub use stepped::Stepped;

/// The desk of a tracker of discovery.
pub type Desk<P> = DeskOf<P, Message<P>>;

/// The oracle of a discovered network.
///
/// Ports `Oracle` of commonware-p2p's discovery tracker.
pub type Oracle<P> = OracleOf<P, Message<P>>;
