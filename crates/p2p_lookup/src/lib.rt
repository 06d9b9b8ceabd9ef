//! A node of a network of lookup, for whoever runs its actors: what it is made of, its channels before it starts, and its actors once it has;
//! and its connections: the actor of one, what tells its halves to end, and the spawner, to which a new one is handed.
#![tactic(auto)]

mod config;
mod network;
pub mod peer;
mod preset;
mod sizing;
pub mod spawner;

pub use config::Config;
pub use network::{Network, Running};
