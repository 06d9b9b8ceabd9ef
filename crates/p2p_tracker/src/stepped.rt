//! `Stepped`, what a step of the tracker answers.
use p2p_address::{Ingress, IpAddr};
use p2p_base::{List, PublicKey, Set};
use p2p_flow::{PeerSetUpdate, TrackedPeers};
use p2p_tracker_directory::{Dialable, Metadata};

/// What a step of the tracker put, with the queue into which it goes. All but a kill stands in the tracker's mailbox already; a kill
/// goes into the control of its connection.
#[derive(Drop)]
pub enum Put<C: PublicKey> {
    /// Into the control of a connection: it has to end.
    Kill {
        /// The peer.
        peer: C,
        /// The connection.
        conn: u64,
    },
    /// Into the listener's ring.
    Listenable {
        /// The addresses that peers may come from.
        addresses: List<IpAddr>,
        /// Those that made way for them.
        dropped: Option<List<IpAddr>>,
    },
    /// Into the updates of a subscription.
    Update {
        /// The subscription.
        ticket: u64,
        /// The update.
        update: PeerSetUpdate<C>,
    },
    /// Into the blocked keys of a subscription: the set stands there already.
    Blocked {
        /// The subscription.
        ticket: u64,
        /// The set.
        blocked: Set<C>,
        /// The set that made way for it.
        dropped: Option<Set<C>>,
    },
    /// Into the answer to a question for a peer set.
    PeerSet {
        /// The question.
        ticket: u64,
        /// The peers, or `None` where no set of that index is kept.
        peers: Option<TrackedPeers<C>>,
    },
    /// To the dialer: whom to dial.
    Dialable(Dialable<C>),
    /// To the dialer: who is reserved for it, and where to dial, or that nobody is.
    Dial(Option<(Metadata<C>, Ingress)>),
    /// To a handshake: whether the peer may connect.
    Acceptable {
        /// The handshake.
        handshake: u64,
        /// The answer.
        acceptable: bool,
    },
    /// To a handshake: who is reserved for it, or that nobody is.
    Listen {
        /// The handshake.
        handshake: u64,
        /// Who is reserved.
        reserved: Option<Metadata<C>>,
    },
}

/// What a step of the tracker took, and what it put, in order.
#[derive(Drop)]
pub enum Stepped<C: PublicKey> {
    /// No block had ended and no message waited.
    Idle,
    /// The blocks that had ended were taken away, and no message was taken.
    EndedBlocks {
        /// What was put.
        put: List<Put<C>>,
    },
    /// The oldest message was taken.
    Message {
        /// What was put.
        put: List<Put<C>>,
    },
}
