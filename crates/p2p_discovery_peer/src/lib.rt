//! A node of a discovered network: what it is made of, its channels before it starts and its actors once it has, its connections, and
//! what makes them.
#![tactic(auto)]

mod config;
mod network;
pub mod peer;
mod preset;
mod sizing;
pub mod spawner;

pub use config::{Bootstrapper, Config};
pub use network::{Network, Running};
