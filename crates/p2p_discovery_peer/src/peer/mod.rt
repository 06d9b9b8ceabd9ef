//! One connection of a discovered network: its sizes and quotas, its two halves, what a step of them answers, and for what it ends.
mod actor;
mod after_first;
mod config;
mod error;
mod gossip;
mod gossiping;
mod judging;
mod live;
mod receiving;
mod sending;
mod stepped;

pub use actor::Actor;
pub use after_first::AfterFirst;
pub use config::{Config, Limits};
pub use error::Error;
pub use gossip::{Gossip, GossipKind};
pub use live::{Live, Stage};
pub use p2p_discovery_directory::peer::{Mailbox, Message};
pub use stepped::Stepped;
