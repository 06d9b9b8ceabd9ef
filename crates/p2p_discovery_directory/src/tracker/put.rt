//! `Put`, what a step of the tracker puts.
use super::Answer;
use crate::Reservation;
use p2p_base::{List, PublicKey, Set};
use p2p_discovery::{BitVec, Info};
use p2p_flow::{PeerSetUpdate, TrackedPeers};
use p2p_tracker_directory::Dialable;

/// What a step of the tracker puts, with the queue that it is for. Whoever runs the tracker moves it there.
#[derive(Drop)]
pub enum Put<P: PublicKey> {
    /// Into the control of a connection: it has to end.
    Kill {
        /// The peer.
        peer: P,
        /// The connection.
        conn: u64,
    },
    /// Into the control of a connection: it is to send this.
    BitVec {
        /// The peer.
        peer: P,
        /// The connection.
        conn: u64,
        /// The bit vector.
        bit_vec: BitVec,
    },
    /// Into the control of a connection: it is to send these.
    Peers {
        /// The peer.
        peer: P,
        /// The connection.
        conn: u64,
        /// The infos.
        infos: List<Info<P>>,
    },
    /// To a connection that has begun: whether its peer may connect.
    Answer {
        /// The connection.
        conn: u64,
        /// The answer.
        answer: Answer<P>,
    },
    /// Into the updates of a subscription.
    Update {
        /// The subscription.
        ticket: u64,
        /// The update.
        update: PeerSetUpdate<P>,
    },
    /// Into the blocked keys of a subscription.
    Blocked {
        /// The subscription.
        ticket: u64,
        /// The set.
        blocked: Set<P>,
    },
    /// Into the answer to a question for a peer set.
    PeerSet {
        /// The question.
        ticket: u64,
        /// The peers, or `None` where no set of that index is kept.
        peers: Option<TrackedPeers<P>>,
    },
    /// To the dialer: whom to dial.
    Dialable(Dialable<P>),
    /// To the dialer: who is reserved for it, and where to dial, or that nobody is.
    Dial(Option<Reservation<P>>),
    /// To a handshake: whether the peer may connect.
    Acceptable {
        /// The handshake.
        handshake: u64,
        /// The answer.
        acceptable: bool,
    },
    /// To a handshake: who is reserved for it, or that nobody is.
    Listen {
        /// The handshake.
        handshake: u64,
        /// Who is reserved.
        reservation: Option<Reservation<P>>,
    },
}
