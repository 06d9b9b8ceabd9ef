//! The calls of a node: registering a channel, starting, offering messages, reading, dropping a reader, and asking its tracker.
#![tactic(auto)]

mod calls;
mod offers;
mod stopping;

pub use crate::calls::{close, read, register, start};
pub use crate::offers::{check, send, send_checked};
pub use crate::stopping::stop;
