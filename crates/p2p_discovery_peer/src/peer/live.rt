//! `Live`, what a connection has until it ends.
use super::{AfterFirst, Gossip};
use p2p_discovery::Info;
use p2p_discovery_directory::Reservation;
use p2p_flow_connection::Inbox;

/// How far a connection is.
#[derive(Drop, PartialEq, Eq, Debug)]
pub enum Stage<P> {
    /// It hasn't begun.
    New,
    /// It waits for its tracker's answer.
    Asking,
    /// It waits for its router's answer, and greets with this info then.
    Greeting(Info<P>),
    /// It runs, and its next bit vector is due at this moment, in nanoseconds.
    Running(u128),
}

/// What a connection has until it ends. Its reservation goes with it, so it is given back once.
#[derive(Drop)]
pub struct Live<P> {
    pub(crate) reservation: Reservation<P>,
    pub(crate) stage: Stage<P>,
    // Whether the peer has greeted.
    pub(crate) is_greeted: bool,
    pub(crate) inbox: Inbox<P>,
    pub(crate) bit_vecs: AfterFirst,
    pub(crate) peers: AfterFirst,
    // What waits for its quota.
    pub(crate) held: Option<Gossip<P>>,
}
