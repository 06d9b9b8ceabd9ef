//! The gates of a node: whom it dials and whom it lets in, when, and what each waits for.
//!
//! `Dialer` asks the tracker whom to dial and begins an `Attempt` for each grant. `Listener` takes an arrival through
//! its gates and begins a `Handshake` for each that it admits. What waits for them stands in the tracker's mailbox, or
//! in themselves, and each step serves one input. An attempt and a handshake end with a reservation that is ready to
//! spawn, or without one.
#![tactic(auto)]

mod arrival;
mod attempt;
mod config;
mod dialer;
mod handshake;
mod listener;
mod stepped;
pub mod stream;

pub use arrival::Arrival;
pub use attempt::{Attempt, AttemptItem};
pub use config::Config;
pub use dialer::Dialer;
pub use handshake::Handshake;
pub use listener::Listener;
pub use p2p_tracker_calls::gates::Reply;
pub use stepped::{Input, Left, Outcome, Put, Stepped};
