//! The network: nodes and links that move messages as the events of a script say. A user names a `World`, and the plain data
//! of its log.
#![tactic(auto)]

mod applying;
mod asking;
mod error;
mod events;
mod naming;
mod valid;
mod world;

pub use crate::applying::apply_to;
pub use crate::error::{NodeError, RunError};
pub use crate::world::World;
pub use p2p_log::{
    Act, Asked, Cause, Config, End, Ended, Entry, Envelope, Event, Fate, Item, Outcome, Queue,
    Rate, Recipients, Reply, Report, Side,
};
pub use p2p_net_links::Links;
pub use p2p_net_node::{Node, fits};
pub use p2p_tracker_calls::gates::Reply as GatesReply;
