//! The links of a world: the frames that are in flight over each, in both directions, who dialed it, between whom keys are
//! exchanged over it, which of its ends were dropped, and whether it was cut.
#![tactic(auto)]

mod cutting;
mod dropping;
pub mod links;
mod openings;

pub use links::{Links, side_at};
