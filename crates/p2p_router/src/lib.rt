//! The router: it holds the relay of each connected peer, puts content into the relays of its recipients, and tells
//! subscribers which peers are connected.
//!
//! A sender hands content to the `Messenger`, whose mailbox the `Actor` empties, one message a step.
#![tactic(auto)]

mod actor;
mod config;
mod link;
mod mailbox;
mod message;
mod messenger;
mod routing;
mod stepped;

pub use actor::Actor;
pub use config::Config;
pub use link::Link;
pub use mailbox::Mailbox;
pub use message::Message;
pub use messenger::Messenger;
pub use stepped::{Routed, Stepped, Told};
