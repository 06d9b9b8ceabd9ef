//! `Message`, what the tracker is told and asked.
use super::Access;
use crate::Metadata;
use p2p_base::{Keep, List, Policy, PublicKey, UnreliablePolicy};
use p2p_discovery::{BitVec, Info};
use p2p_flow::TrackedPeers;
use p2p_tracker_mailbox::{OracleMessage, RegisterMessage};

/// What the tracker is told and asked. A full mailbox keeps it in its overflow.
///
/// Ports `Message` of commonware-p2p's discovery tracker, with numbers in place of the senders that it answers by and of a connection's
/// mailbox.
#[derive(Drop, PartialEq, Eq, Debug)]
pub enum Message<P: PublicKey> {
    /// The peers of one more set are to be tracked.
    Register {
        /// The index of the set.
        index: u64,
        /// Its peers.
        peers: TrackedPeers<P>,
    },
    /// It is asked who is in a set.
    PeerSet {
        /// The index of the set.
        index: u64,
        /// The question, which is answered.
        ticket: u64,
    },
    /// A subscription wants the peer sets that are tracked from now on, and the latest one.
    Subscribe {
        /// The subscription.
        ticket: u64,
    },
    /// A peer is to be disconnected and kept away.
    Block {
        /// The peer.
        public_key: P,
    },
    /// A subscription wants the set of blocked keys, now and whenever it changes.
    SubscribeBlocked {
        /// The subscription.
        ticket: u64,
    },
    /// A connection of a peer has begun, and waits for an answer.
    Connect {
        /// The peer.
        public_key: P,
        /// Whether this node dialed.
        dialer: bool,
        /// The connection, which is answered.
        conn: u64,
    },
    /// A connection is due to send a bit vector.
    Construct {
        /// Its peer.
        public_key: P,
    },
    /// A bit vector came.
    BitVec {
        /// The peer that sent it.
        public_key: P,
        /// The bit vector.
        bit_vec: BitVec,
    },
    /// Infos came that are believed.
    Peers {
        /// The infos.
        peers: List<Info<P>>,
    },
    /// It is asked which peers may be dialed now.
    Dialable,
    /// A peer is to be reserved for a dial, where it may be dialed.
    Dial {
        /// The peer.
        public_key: P,
    },
    /// It is asked whether a peer may connect.
    Acceptable {
        /// The peer.
        public_key: P,
        /// The handshake, which is answered.
        handshake: u64,
    },
    /// A peer that has connected is to be reserved, where it may connect.
    Listen {
        /// The peer.
        public_key: P,
        /// The handshake, which is answered.
        handshake: u64,
    },
    /// A reservation is given back.
    Release {
        /// Who was reserved.
        metadata: Metadata<P>,
    },
}

impl<P: PublicKey> UnreliablePolicy for Message<P> {
    ghost use Rattle.p2p_base.specs.declared.policy.Keep.TheVariants as keep;

    ghost keep_of = { λ _. keep.Append };

    fn keep(&self) -> Keep {
        Keep::Append
    }
}

impl<P: PublicKey> Policy for Message<P> {
    ghost use Rattle.std.specs.Prelude.{refl};
    ghost use Rattle.p2p_base.specs.Policy.{not_refused};
    ghost use Rattle.p2p_base.specs.declared.policy.Keep.TheVariants as keep;

    ghost never_refuses = { λ _. not_refused keep.Append refl };
}

impl<P: PublicKey> OracleMessage for Message<P> {
    ghost use Rattle.std.specs.Prelude.{refl};
    ghost use Rattle.p2p_discovery_directory.specs.declared.tracker.message.Message.TheVariants as message;

    type PublicKey = P;

    type Access = Access;

    ghost asks = { λ index ticket. message.PeerSet index ticket };

    ghost subscribes = { λ ticket. message.Subscribe ticket };

    ghost blocks = { λ peer. message.Block peer };

    ghost subscribes_blocked = { λ ticket. message.SubscribeBlocked ticket };

    fn peer_set(index: u64, ticket: u64) -> Message<P> {
        Message::PeerSet { index, ticket }
    }

    fn subscribe(ticket: u64) -> Message<P> {
        Message::Subscribe { ticket }
    }

    fn block(peer: P) -> Message<P> {
        Message::Block { public_key: peer }
    }

    fn subscribe_blocked(ticket: u64) -> Message<P> {
        Message::SubscribeBlocked { ticket }
    }

    ghost appends = { λ _. refl };
}

impl<P: PublicKey> RegisterMessage for Message<P> {
    ghost use Rattle.p2p_discovery_directory.specs.declared.tracker.message.Message.TheVariants as message;

    ghost registers = { λ index peers. message.Register index peers };

    fn register_given(index: u64, given: &mut Option<TrackedPeers<P>>) -> Message<P> {
        let Some(peers) = given.take() else {
            unreachable!()
        };
        Message::Register { index, peers }
    }
}
