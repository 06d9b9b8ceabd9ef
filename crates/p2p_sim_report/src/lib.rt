//! The report of a run, as text: a line of JSON for each entry of the log, one for each copy, and one with the counts; and its summary, one line
//! with how many copies ended how.
#![tactic(auto)]

mod address;
mod end;
mod found;
mod item;
mod peers;
mod queue;
mod reply;
pub mod report;
pub mod summary;
mod text;
mod tracker_item;

pub use report::write_report;
pub use summary::write_summary;
