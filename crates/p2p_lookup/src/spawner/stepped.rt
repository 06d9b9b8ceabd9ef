//! `Stepped`, what a step of the spawner answers.
use crate::peer;

/// What a step of the spawner took, and the connection that it made.
#[derive(Drop)]
pub enum Stepped<P> {
    /// The mailbox was empty.
    Idle,
    /// A message was taken, and a connection begins.
    Spawned {
        /// The link, by its name.
        connection: u64,
        /// The connection, which hasn't begun yet.
        actor: peer::Actor<P>,
    },
}
