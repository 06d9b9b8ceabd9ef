//! One connection: its sizes and quotas, what it is told, its two halves, what a step of them answers, and for what it ends.
mod actor;
mod config;
mod error;
mod live;
mod mailbox;
mod receiving;
mod sending;
mod stepped;

pub use actor::Actor;
pub use config::{Config, Limits};
pub use error::Error;
pub use live::{Live, Stage};
pub use mailbox::{Mailbox, Message};
pub use stepped::Stepped;
