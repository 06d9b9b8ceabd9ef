//! The spawner's mailbox of a node, and the connections that it made: how far they are, when they ping, the router's answers that
//! wait for them, and what came over them and waits for their quotas.
#![tactic(auto)]

pub mod connections;
mod ending;
pub mod holding;
pub mod pinging;
mod spawner;
mod stopping;

pub use connections::{Connection, Connections, Stage};
pub use pinging::is_past;
pub use spawner::{Spawning, Taken};
