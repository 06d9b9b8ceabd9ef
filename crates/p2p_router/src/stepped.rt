//! `Stepped`, what a step of the router answers.
use crate::Link;
use p2p_base::List;
use p2p_wire::EncodedData;

/// What became of the copy of a frame for one peer.
#[derive(Drop, Clone, PartialEq, Eq, Debug)]
pub enum Routed<P> {
    /// It was put last in the relay of the peer's connection.
    Put {
        /// The peer.
        peer: P,
        /// The connection.
        conn: u64,
        /// Whether it went into the queue with priority.
        priority: bool,
    },
    /// It was dropped, since the peer has no connection.
    NoConnection {
        /// The peer.
        peer: P,
    },
    /// It was dropped, since that queue of the relay is full.
    RelayFull {
        /// The peer.
        peer: P,
        /// The connection.
        conn: u64,
    },
    /// It was dropped, since the relay is closed: the peer's connection has ended, and its release wasn't routed yet.
    Closed {
        /// The peer.
        peer: P,
        /// The connection.
        conn: u64,
    },
}

/// The list of connected peers, and to whom it was put.
#[derive(Drop)]
pub struct Told<P> {
    /// The connected peers, in order of their keys.
    pub peers: List<P>,
    /// The subscriptions to which the list was put, in order. A subscription whose receiver was dropped is left out, and kept no longer.
    pub subscriptions: List<u64>,
}

/// What a step of the router took, and what it answered, put and dropped, in order.
#[derive(Drop)]
pub enum Stepped<P> {
    /// The mailbox was empty.
    Idle,
    /// A connection's relay was taken in, the connection answered, and then the list put to each subscription.
    Ready {
        /// The peer.
        peer: P,
        /// The connection that was answered.
        conn: u64,
        /// The connection whose place it took, with its relay and what waits there, where the peer had one.
        replaced: Option<Link>,
        /// The list, and to whom it was put.
        told: Told<P>,
    },
    /// A peer's relay was dropped, and the list put to each subscription.
    Release {
        /// The peer.
        peer: P,
        /// The list, and to whom it was put.
        told: Told<P>,
    },
    /// Content was routed.
    Content {
        /// The frame that was routed.
        encoded: EncodedData,
        /// What became of the copy for each recipient, in order.
        copies: List<Routed<P>>,
    },
    /// A subscription was told the list, and kept if its receiver is there.
    SubscribePeers {
        /// The subscription.
        subscription: u64,
        /// The list, and to whom it was put: to this subscription, or to nobody.
        told: Told<P>,
    },
}
