//! The command `gen`: a script that is made of a number and a seed is run, and summed up in one line.
mod answering;
mod running;
mod words;

pub use answering::summarize;
pub use words::asks_script;
