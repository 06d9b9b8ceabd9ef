//! `Error`, for what a connection ends.
use std::fmt::Display;
use thiserror::Error;

/// For what a connection ends, beside the faults of its link.
///
/// Ports `Error` of commonware-p2p's `connection`.
#[derive(Debug, Drop, Error)]
pub enum Error<P: Display> {
    /// A kill was taken. It holds the key of the peer that is killed.
    #[error("peer killed: {0}")]
    Killed(P),
    /// A queue's senders ended: the control or the relay.
    #[error("peer disconnected")]
    Disconnected,
    /// A frame named a channel that isn't registered.
    #[error("invalid channel")]
    InvalidChannel,
}
