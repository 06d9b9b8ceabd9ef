//! The router of one node: its messenger, its actor with the relays of all peers, and the names of what stands in their
//! queues.
//!
//! What moves the items are the calls of `p2p_router` alone. The names follow them, and the rows tell of both.
#![tactic(auto)]

mod batch;
mod calls;
mod copies;
mod lists;
mod name;
mod names;
mod peers;
mod release;
mod router;
mod step;
mod stopping;
mod telling;

pub use name::Name;
pub use router::Router;
pub use telling::Telling;
