//! `Message`, what the tracker is told and asked.
ghost use Rattle.std.specs.Prelude.{◌≡◌, IfOk};
ghost use Rattle.p2p_tracker_mailbox.specs.declared.message.Message.TheVariants as message;

use crate::{Access, Metadata, OracleMessage};
use p2p_address::{Address, IpAddr};
use p2p_base::{Keep, Map, Policy, PublicKey, UnreliablePolicy};
use p2p_flow::AddressableTrackedPeers;
use std::alloc::AllocError;

/// What the tracker is told and asked. A full mailbox keeps it in its overflow.
///
/// Ports `Message` of commonware-p2p's lookup tracker, with numbers in place of the senders that it answers by.
#[derive(Drop, PartialEq, Eq, Debug)]
pub enum Message<P: PublicKey> {
    /// The peers of one more set are to be tracked.
    Register {
        /// The index of the set.
        index: u64,
        /// Its peers.
        peers: AddressableTrackedPeers<P>,
    },
    /// Peers get these addresses in each set that is tracked.
    Overwrite {
        /// The addresses.
        peers: Map<P, Address>,
    },
    /// It is asked who is in a set.
    PeerSet {
        /// The index of the set.
        index: u64,
        /// The question, which is answered.
        ticket: u64,
    },
    /// A subscription wants the peer sets that are tracked from now on, and the latest one.
    Subscribe {
        /// The subscription.
        ticket: u64,
    },
    /// A peer is to be disconnected and kept away.
    Block {
        /// The peer.
        public_key: P,
    },
    /// A subscription wants the set of blocked keys, now and whenever it changes.
    SubscribeBlocked {
        /// The subscription.
        ticket: u64,
    },
    /// A connection of a peer has begun.
    Connect {
        /// The peer.
        public_key: P,
        /// The connection, which is ended where it isn't allowed.
        conn: u64,
    },
    /// It is asked which peers may be dialed now.
    Dialable,
    /// A peer is to be reserved for a dial, where it may be dialed.
    Dial {
        /// The peer.
        public_key: P,
    },
    /// It is asked whether a peer may connect from there.
    Acceptable {
        /// The peer.
        public_key: P,
        /// Where it connects from.
        source_ip: IpAddr,
        /// The handshake, which is answered.
        handshake: u64,
    },
    /// A peer that has connected is to be reserved, where it may connect from there.
    Listen {
        /// The peer.
        public_key: P,
        /// Where it connects from.
        source_ip: IpAddr,
        /// The handshake, which is answered.
        handshake: u64,
    },
    /// A reservation is given back.
    Release {
        /// Who was reserved.
        metadata: Metadata<P>,
    },
}

impl<P: PublicKey> Message<P> {
    /// An equal message. `Err` only where memory runs out.
    pub fn try_clone(&self) -> Result<Message<P>, AllocError>
        ensures { IfOk result (λ m. m ≡ self.now) }
    {
        match self {
            Message::Register { index, peers } => copy_register(*index, peers),
            Message::Overwrite { peers } => copy_overwrite(peers),
            Message::PeerSet { index, ticket } => Ok(Message::PeerSet {
                index: *index,
                ticket: *ticket,
            }),
            Message::Subscribe { ticket } => Ok(Message::Subscribe { ticket: *ticket }),
            Message::Block { public_key } => Ok(Message::Block {
                public_key: *public_key,
            }),
            Message::SubscribeBlocked { ticket } => {
                Ok(Message::SubscribeBlocked { ticket: *ticket })
            }
            Message::Connect { public_key, conn } => Ok(Message::Connect {
                public_key: *public_key,
                conn: *conn,
            }),
            Message::Dialable => Ok(Message::Dialable),
            Message::Dial { public_key } => Ok(Message::Dial {
                public_key: *public_key,
            }),
            Message::Acceptable {
                public_key,
                source_ip,
                handshake,
            } => Ok(Message::Acceptable {
                public_key: *public_key,
                source_ip: *source_ip,
                handshake: *handshake,
            }),
            Message::Listen {
                public_key,
                source_ip,
                handshake,
            } => Ok(Message::Listen {
                public_key: *public_key,
                source_ip: *source_ip,
                handshake: *handshake,
            }),
            Message::Release { metadata } => Ok(Message::Release {
                metadata: *metadata,
            }),
        }
    }
}

fn copy_register<P: PublicKey>(
    index: u64,
    peers: &AddressableTrackedPeers<P>,
) -> Result<Message<P>, AllocError>
    ensures { IfOk result (λ m. m ≡ message.Register index peers.now) }
{
    let peers = peers.try_clone()?;
    Ok(Message::Register { index, peers })
}

fn copy_overwrite<P: PublicKey>(peers: &Map<P, Address>) -> Result<Message<P>, AllocError>
    ensures { IfOk result (λ m. m ≡ message.Overwrite peers.now) }
{
    let peers = peers.clone()?;
    Ok(Message::Overwrite { peers })
}

impl<P: PublicKey> UnreliablePolicy for Message<P> {
    ghost use Rattle.p2p_base.specs.declared.policy.Keep.TheVariants as keep;

    ghost keep_of = { λ _. keep.Append };

    fn keep(&self) -> Keep {
        Keep::Append
    }
}

impl<P: PublicKey> Policy for Message<P> {
    ghost use Rattle.std.specs.Prelude.{refl};
    ghost use Rattle.p2p_base.specs.Policy.{not_refused};
    ghost use Rattle.p2p_base.specs.declared.policy.Keep.TheVariants as keep;

    ghost never_refuses = { λ _. not_refused keep.Append refl };
}

impl<P: PublicKey> OracleMessage for Message<P> {
    ghost use Rattle.std.specs.Prelude.{refl};
    ghost use Rattle.p2p_tracker_mailbox.specs.declared.message.Message.TheVariants as message;

    type PublicKey = P;

    type Access = Access;

    ghost asks = { λ index ticket. message.PeerSet index ticket };

    ghost subscribes = { λ ticket. message.Subscribe ticket };

    ghost blocks = { λ peer. message.Block peer };

    ghost subscribes_blocked = { λ ticket. message.SubscribeBlocked ticket };

    fn peer_set(index: u64, ticket: u64) -> Message<P> {
        Message::PeerSet { index, ticket }
    }

    fn subscribe(ticket: u64) -> Message<P> {
        Message::Subscribe { ticket }
    }

    fn block(peer: P) -> Message<P> {
        Message::Block { public_key: peer }
    }

    fn subscribe_blocked(ticket: u64) -> Message<P> {
        Message::SubscribeBlocked { ticket }
    }

    ghost appends = { λ _. refl };
}
