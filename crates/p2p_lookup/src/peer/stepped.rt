//! `Stepped`, what a step of a connection answers.
use super::Error;
use bytes::Bytes;
use p2p_base::List;
use p2p_flow_connection::Delivered;
use p2p_wire::Data;
use std::fmt::Display;

/// What a step of one half of a connection took, put and dropped.
#[derive(Drop)]
pub enum Stepped<P: Display> {
    /// No input is ready.
    Idle,
    /// The connection began: `Connect` was put for the tracker, and then `Ready` for the router.
    Started,
    /// The router's answer was taken. The connection runs from now on.
    Running,
    /// A batch was written to the link.
    Sent {
        /// Whether it began with a ping.
        ping: bool,
        /// Its frames, in order: those from the relay, with priority first, stand behind the ping.
        frames: List<Bytes>,
    },
    /// A ping came.
    Pinged {
        /// Whether it was held before; otherwise it was read from the link.
        was_held: bool,
        /// Whether its quota admitted it, and it was dropped; otherwise it is held.
        admitted: bool,
    },
    /// A message came.
    Received {
        /// Whether it was held before; otherwise it was read from the link.
        was_held: bool,
        /// The message.
        message: Data,
        /// What became of it.
        delivered: Delivered<P>,
    },
    /// The connection ended. Its relay and its control are closed, with what waited there; what it held is dropped, and its end of the
    /// link. Its release was put for the router, and then for the tracker.
    Ended {
        /// For what it ended.
        error: Error<P>,
        /// The frames of the batch that it was writing, in order.
        frames: List<Bytes>,
        /// How many of these were written.
        written: usize,
    },
}
