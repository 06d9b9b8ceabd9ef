//! The commands of the program: `run` reads a script to its end, runs it on a network and writes the report; `gen` makes a script
//! of a number and a seed, runs it and writes how many of its copies ended how; `threads` runs sender threads over a shared mailbox,
//! and writes a line for each.
#![tactic(auto)]

mod answering;
mod commands;
pub mod fault;
mod generator;
mod network;
pub mod program;
pub mod reading;
pub mod status;
mod threads;
mod top;
mod words;
mod writing;

pub use crate::commands::p2p_sim;
pub use crate::fault::Fault;
pub use crate::program::RunError;
pub use crate::reading::LIMIT;
pub use crate::status::Status;
pub use crate::top::sim;
