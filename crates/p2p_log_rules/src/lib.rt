//! The rules of a log, in `specs/`: what stands of nodes, channels and connections, which entry an event makes, which input
//! is valid, and which log is lawful for it. It uses no actor.
#![tactic(auto)]

pub mod row;

pub use row::{Checked, Half, ListeningEnd, Opening, Row};
