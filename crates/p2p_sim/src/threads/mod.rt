//! The command `threads`: sender threads over a shared mailbox, and one line for each sender.
mod answering;
mod words;

pub use answering::{asks_threads, thread_report};
