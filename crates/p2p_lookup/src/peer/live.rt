//! `Live`, what a connection has until it ends.
use p2p_flow_connection::Inbox;
use p2p_runtime::RateLimiter;
use p2p_tracker_directory::Reservation;

/// How far a connection is.
#[derive(Clone, Copy, Debug)]
pub enum Stage {
    /// It hasn't begun.
    New,
    /// It waits for its router's answer.
    Waiting,
    /// It runs, and its next ping is due at this moment, in nanoseconds.
    Running(u128),
}

/// What a connection has until it ends. Its reservation goes with it, so it is given back once.
#[derive(Drop)]
pub struct Live<P> {
    pub(crate) reservation: Reservation<P>,
    pub(crate) stage: Stage,
    pub(crate) inbox: Inbox<P>,
    pub(crate) pings: RateLimiter,
    pub(crate) holds_ping: bool,
}
