//! The channels of a node: their capacities, their quotas, and the messages that wait in each for its reader.
#![tactic(auto)]

pub mod arrival;
pub mod channels;
pub mod offer;

pub use arrival::{Arrived, Arriving, hold, open, reopen};
pub use channels::Channels;
pub use offer::Offer;
