//! A node: what it is made of, with its parts, and what an act finds of it.
#![tactic(auto)]

mod configs;
mod meeting;
mod node;
mod requested;

pub use crate::configs::{config_fault, fits};
pub use crate::meeting::{Ends, Meeting, meeting_of};
pub use crate::node::Node;
pub use crate::requested::Requested;
