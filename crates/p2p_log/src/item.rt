//! What stands in queues.
ghost use Rattle.std.specs.Prelude.{◌≡◌, IfOk};

use crate::queue::Queue;
use bytes::Bytes;
use p2p_address::{Ingress, IpAddr, SocketAddr};
use p2p_base::{Key, List, Set};
use p2p_flow::{PeerSetUpdate, TrackedPeers};
use std::alloc::{AllocError, Global};

/// What stands in a queue. A copy is named by its send and its place among that send's copies.
#[derive(Drop, PartialEq, Eq, Debug)]
pub enum Item {
    /// To the router: this channel wants the lists of connected peers.
    Subscribe(u64),
    /// To the router: a connection with this peer has begun.
    Ready {
        conn: u64,
        key: Key,
    },
    /// To the router: a frame for these peers.
    Content {
        channel: u64,
        frame: Bytes,
        priority: bool,
        send: u64,
        to: List<Key>,
    },
    /// The connected peers, in order.
    Peers(List<Key>),
    /// The router's answer to a connection: it may run.
    RouterAnswer,
    /// A frame on its way to a peer.
    Frame {
        copy: Option<(u64, u64)>,
        frame: Bytes,
    },
    /// A message that came over a connection, until its channel's quota admits it.
    Held {
        channel: u64,
        bytes: Bytes,
        copy: (u64, u64),
    },
    /// A ping that came over a connection, until its quota admits it.
    Ping,
    /// A message that waits for its reader.
    Message {
        bytes: Bytes,
        copy: (u64, u64),
        from: Key,
    },
    /// To the tracker: what the event of this number asks.
    Call(u64),
    /// To the tracker: a connection of a peer has begun.
    Connect {
        conn: u64,
        key: Key,
    },
    /// To the tracker: which peers may be dialed.
    AskDialable,
    /// To the tracker: a peer is to be reserved for a dial.
    AskDial(Key),
    /// To the tracker: whether the peer of this handshake may connect.
    AskAcceptable {
        handshake: u64,
        key: Key,
    },
    /// To the tracker: the peer of this handshake, with whom keys were exchanged, is to be reserved.
    AskListen {
        handshake: u64,
        key: Key,
    },
    /// To the tracker: a reservation is given back.
    Release(Key),
    /// The addresses from which peers may come, each once, IPv4 first and each kind in the order of its bytes.
    Addresses(List<IpAddr>),
    /// The peers that may be dialed, and the moment, in nanoseconds, from which others may be.
    Dialable {
        next: Option<u128>,
        peers: List<Key>,
    },
    /// The peer that is reserved for a dial and where to dial it, or none where it is not.
    Dial(Option<(Key, Ingress)>),
    /// To an attempt: the addresses that its peer's name stands for.
    Resolved(List<SocketAddr>),
    /// To an attempt: it has a link to its peer.
    Linked,
    /// To an attempt: there is no link to its peer.
    Refused,
    /// To an attempt or a handshake: whether the keys were exchanged over its link.
    Finished(bool),
    /// To a listener: a peer with this key has come from this address, over the link of this event.
    Arrival {
        from: SocketAddr,
        key: Key,
        link: u64,
    },
    /// To a handshake: whether its peer may connect.
    Acceptable(bool),
    /// To a handshake: its peer, where it is reserved.
    Listen(Option<Key>),
    /// To the spawner: a connection with this peer, who is reserved, is to be made over the link of this event.
    Spawn {
        key: Key,
        link: u64,
    },
    /// A connection is to end.
    Kill,
    /// The peers of the set that was asked for, or none where no set of that index is kept.
    PeerSet(Option<TrackedPeers<Key>>),
    /// What a subscription to peer sets is told.
    PeerSetUpdate(PeerSetUpdate<Key>),
    /// The keys that are blocked.
    Blocked(Set<Key>),
}

/// An item in its queue, under its name: the entry that put it there, and its place among that entry's puts.
#[derive(Drop, PartialEq, Eq, Debug)]
pub struct Envelope {
    pub entry: u64,
    pub place: u64,
    pub queue: Queue,
    pub item: Item,
}

impl Item {
    /// An equal item.
    pub fn try_clone(&self, alloc: Global) -> Result<Item, AllocError>
        ensures { IfOk result (λ i. i ≡ self.now) }
    {
        match self {
            Item::Subscribe(channel) => Ok(Item::Subscribe(*channel)),
            Item::Ready { conn, key } => Ok(Item::Ready {
                conn: *conn,
                key: *key,
            }),
            Item::Content {
                channel,
                frame,
                priority,
                send,
                to,
            } => Ok(Item::Content {
                channel: *channel,
                frame: frame.clone()?,
                priority: *priority,
                send: *send,
                to: to.try_clone(alloc)?,
            }),
            Item::Peers(keys) => Ok(Item::Peers(keys.try_clone(alloc)?)),
            Item::RouterAnswer => Ok(Item::RouterAnswer),
            Item::Frame { copy, frame } => Ok(Item::Frame {
                copy: *copy,
                frame: frame.clone()?,
            }),
            Item::Held {
                channel,
                bytes,
                copy,
            } => Ok(Item::Held {
                channel: *channel,
                bytes: bytes.clone()?,
                copy: *copy,
            }),
            Item::Ping => Ok(Item::Ping),
            Item::Message { bytes, copy, from } => Ok(Item::Message {
                bytes: bytes.clone()?,
                copy: *copy,
                from: *from,
            }),
            Item::Call(event) => Ok(Item::Call(*event)),
            Item::Connect { conn, key } => Ok(Item::Connect {
                conn: *conn,
                key: *key,
            }),
            Item::AskDialable => Ok(Item::AskDialable),
            Item::AskDial(key) => Ok(Item::AskDial(*key)),
            Item::AskAcceptable { handshake, key } => Ok(Item::AskAcceptable {
                handshake: *handshake,
                key: *key,
            }),
            Item::AskListen { handshake, key } => Ok(Item::AskListen {
                handshake: *handshake,
                key: *key,
            }),
            Item::Release(key) => Ok(Item::Release(*key)),
            Item::Addresses(addresses) => Ok(Item::Addresses(addresses.try_clone(alloc)?)),
            Item::Dialable { next, peers } => Ok(Item::Dialable {
                next: *next,
                peers: peers.try_clone(alloc)?,
            }),
            Item::Dial(grant) => Ok(Item::Dial(clone_grant(alloc, grant)?)),
            Item::Resolved(addresses) => Ok(Item::Resolved(addresses.try_clone(alloc)?)),
            Item::Linked => Ok(Item::Linked),
            Item::Refused => Ok(Item::Refused),
            Item::Finished(ok) => Ok(Item::Finished(*ok)),
            Item::Arrival { from, key, link } => Ok(Item::Arrival {
                from: *from,
                key: *key,
                link: *link,
            }),
            Item::Acceptable(accepts) => Ok(Item::Acceptable(*accepts)),
            Item::Listen(grant) => Ok(Item::Listen(*grant)),
            Item::Spawn { key, link } => Ok(Item::Spawn {
                key: *key,
                link: *link,
            }),
            Item::Kill => Ok(Item::Kill),
            Item::PeerSet(peers) => Ok(Item::PeerSet(clone_peers(peers)?)),
            Item::PeerSetUpdate(update) => Ok(Item::PeerSetUpdate(update.try_clone()?)),
            Item::Blocked(keys) => Ok(Item::Blocked(keys.try_clone()?)),
        }
    }
}

impl Envelope {
    /// An equal item under the same name. `Err` only where memory runs out.
    pub fn try_clone(&self, alloc: Global) -> Result<Envelope, AllocError>
        ensures { IfOk result (λ e. e ≡ self.now) }
    {
        Ok(Envelope {
            entry: self.entry,
            place: self.place,
            queue: self.queue,
            item: self.item.try_clone(alloc)?,
        })
    }
}

/// An equal grant of a dial.
fn clone_grant(
    alloc: Global,
    grant: &Option<(Key, Ingress)>,
) -> Result<Option<(Key, Ingress)>, AllocError>
    ensures { IfOk result (λ g. g ≡ grant.now) }
{
    match grant {
        Some((key, ingress)) => Ok(Some((*key, ingress.try_clone(alloc)?))),
        None => Ok(None),
    }
}

/// An equal answer to a question for the peers of a set.
pub(crate) fn clone_peers(
    peers: &Option<TrackedPeers<Key>>,
) -> Result<Option<TrackedPeers<Key>>, AllocError>
    ensures { IfOk result (λ p. p ≡ peers.now) }
{
    match peers {
        Some(peers) => Ok(Some(peers.try_clone()?)),
        None => Ok(None),
    }
}
