//! `Error`, for what a connection ends.
use p2p_flow_connection as connection;
use p2p_wire::CodecError;
use std::fmt::Display;
use thiserror::Error;

/// For what a connection ends.
///
/// Ports `Error` of commonware-p2p's peer, whose faults of the link carry their cause.
#[derive(Debug, Drop, Error)]
pub enum Error<P: Display> {
    /// It was killed, its queues ended, or a frame named a channel that isn't registered.
    #[error("{0}")]
    Connection(connection::Error<P>),
    /// The link met a fault while a frame was written.
    #[error("send failed")]
    SendFailed,
    /// The link met a fault while a frame was read.
    #[error("receive failed")]
    ReceiveFailed,
    /// A frame isn't of the grammar.
    #[error("decode failed")]
    DecodeFailed(CodecError),
}
