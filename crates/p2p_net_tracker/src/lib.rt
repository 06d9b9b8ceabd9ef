//! The tracker of a node: its actor, the names of what waits for it, and what waits for those who asked it.
#![tactic(auto)]

pub mod asking;
pub mod connecting;
pub mod dialed;
pub mod ending;
pub mod finishing;
pub mod handshaking;
pub mod heeding;
pub mod naming;
pub mod question;
pub mod reading;
pub mod stopping;
pub mod telling;
pub mod tracker;

pub use question::{Question, Ticket};
pub use tracker::Tracker;
