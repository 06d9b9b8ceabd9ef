//! The steps by which connections begin, move messages and end: of the spawner, of both halves of a connection, and of the router and
//! the tracker, which tell connections what to do.
#![tactic(auto)]

mod connecting;
mod ending;
mod receiving;
mod steps;

pub use crate::connecting::send_step;
pub use crate::receiving::recv_step;
pub use crate::steps::{route, spawn_step, track_step};
