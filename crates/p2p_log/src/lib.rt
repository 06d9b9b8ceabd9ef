//! The log of a network: what was asked of it and what came of it, as plain data. In `specs/` are the definitions of what
//! stands in a queue, of the copies of a send and of their fates. It uses no actor, and knows no rule of which log is lawful.
#![tactic(auto)]

pub mod asked;
pub mod config;
pub mod end;
pub mod entry;
pub mod event;
pub mod fate;
pub mod item;
mod preset;
pub mod queue;
pub mod report;

pub use asked::Asked;
pub use config::Config;
pub use end::{Cause, End, Outcome};
pub use entry::{Ended, Entry, Reply};
pub use event::{Act, Event, Rate, Recipients};
pub use item::{Envelope, Item};
pub use queue::{Queue, Side};
pub use report::{Fate, Report};
