//! `Stepped`, what a step of a connection answers.
use super::{Error, GossipKind};
use bytes::Bytes;
use p2p_base::List;
use p2p_flow_connection::Delivered;
use p2p_wire::Data;
use std::fmt::Display;

/// What a step of one half of a connection took, put and dropped.
#[derive(Drop)]
pub enum Stepped<P: Display> {
    /// No input is ready.
    Idle,
    /// The connection began: `Connect` was put for the tracker.
    Started,
    /// The tracker's answer was taken: the peer may connect. `Ready` was put for the router.
    Announced,
    /// The tracker's answer was taken: the peer may not connect. The connection ended: its control is closed, with what waited there, and
    /// its end of the link is dropped. Its release was put for the tracker, and nothing for the router.
    NotEligible,
    /// The router's answer was taken, and the greeting was written to the link. The connection runs from now on, and a bit vector is due.
    Running {
        /// The greeting.
        frames: List<Bytes>,
    },
    /// A bit vector was due: `Construct` was put for the tracker.
    Asked,
    /// A batch was written to the link.
    Sent {
        /// Its frames, in order: those of the control first, then those from the relay, with priority first.
        frames: List<Bytes>,
    },
    /// The peer's greeting came, and is believed: its info was put for the tracker.
    Greeted,
    /// A bit vector or infos came.
    Gossiped {
        /// Which of the two.
        kind: GossipKind,
        /// Whether they were held before; otherwise they were read from the link.
        was_held: bool,
        /// Whether their quota admitted them, and they were put for the tracker; otherwise they are held.
        admitted: bool,
    },
    /// A message came.
    Received {
        /// Whether it was held before; otherwise it was read from the link.
        was_held: bool,
        /// The message.
        message: Data,
        /// What became of it.
        delivered: Delivered<P>,
    },
    /// The connection ended. Its relay and its control are closed, with what waited there; what it held is dropped, and its end of the
    /// link. Its release was put for the router, and then for the tracker.
    Ended {
        /// For what it ended.
        error: Error<P>,
        /// The frames of the batch that it was writing, in order.
        frames: List<Bytes>,
        /// How many of these were written.
        written: usize,
    },
}
