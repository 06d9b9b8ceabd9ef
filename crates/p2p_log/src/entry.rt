//! What came of an event.
ghost use Rattle.std.specs.Prelude.{◌≡◌, IfOk};

use crate::end::End;
use crate::event::Event;
use crate::item::{Item, clone_peers};
use crate::queue::Queue;
use bytes::Bytes;
use p2p_base::{Feedback, Key, List, Set, Unreliable};
use p2p_flow::{PeerSetUpdate, TrackedPeers};
use p2p_tracker_calls::gates::Reply as GatesReply;
use std::alloc::{AllocError, Global};

/// Why a connection ended.
#[derive(Clone, Copy, Debug, PartialEq, Eq)]
pub enum Ended {
    /// It was told to end.
    Killed,
    /// It had something to write, and its link is broken: the other end was dropped, or the link was cut.
    SendFailed,
    /// No frame was in flight towards it, and its link is broken: the other end was dropped, or the link was cut.
    ReceiveFailed,
    /// What came was neither a message nor a ping within the limit.
    DecodeFailed,
    /// A message came on a channel that is not registered.
    InvalidChannel,
}

/// The answer to an event.
#[derive(Drop, PartialEq, Eq, Debug)]
pub enum Reply {
    /// It was done.
    Ok,
    /// No input of that actor was ready.
    Idle,
    /// Nothing waits there yet.
    Pending,
    /// What was named has ended, or never came about.
    Gone,
    /// The channel was registered, and its queue holds this many messages.
    Capacity(usize),
    /// The message was accepted for these recipients.
    Sent(List<Key>),
    /// The quota admits these keys, and a message to them may be sent.
    Checked(List<Key>),
    /// The quota admits none of the keys. Each has a moment from which it is admitted again; this is the latest of them, in
    /// nanoseconds.
    Retry(u128),
    /// What the router's mailbox made of a message to the keys that a check admitted, on this channel of this node.
    Outcome {
        outcome: Unreliable,
        node: u64,
        channel: u64,
        keys: List<Key>,
    },
    /// A message, and the key of its sender.
    Message {
        bytes: Bytes,
        from: Key,
    },
    /// The message has this many bytes, and this many it may have.
    MessageTooLarge {
        size: usize,
        limit: usize,
    },
    /// What the tracker's mailbox made of a question.
    Feedback(Feedback),
    /// The set has this many keys, and this many it may have.
    PeerSetTooLarge {
        count: usize,
        limit: usize,
    },
    /// The peers of the set, or none where no set of that index is kept.
    PeerSet(Option<TrackedPeers<Key>>),
    /// What a subscription to peer sets is told next.
    Update(PeerSetUpdate<Key>),
    /// The keys that are blocked.
    Blocked(Set<Key>),
    /// What the gates of a listener told the peer that arrived.
    Gates(GatesReply),
    /// A connection ended in this step, for this reason.
    Ended(Ended),
    /// Nothing waits in the channel, and its node has stopped: no message will come.
    NetworkClosed,
    /// Nothing waits for the subscription, and its node has stopped: nothing will come.
    StreamEnded,
}

/// An event, its reply, the names of the items that it took, what it put in which queue, and what it ended.
#[derive(PartialEq, Eq, Debug)]
pub struct Entry {
    pub event: Event,
    pub reply: Reply,
    pub takes: List<(u64, u64)>,
    pub puts: List<(Queue, Item)>,
    pub ends: List<End>,
}

impl Drop for Entry {
    fn drop(self) {
        let Entry {
            event: _event,
            reply: _reply,
            takes: _takes,
            puts: _puts,
            ends: _ends,
        } = self;
    }
}

impl Reply {
    /// An equal reply. `Err` only where memory runs out.
    pub fn try_clone(&self, alloc: Global) -> Result<Reply, AllocError>
        ensures { IfOk result (λ r. r ≡ self.now) }
    {
        match self {
            Reply::Ok => Ok(Reply::Ok),
            Reply::Idle => Ok(Reply::Idle),
            Reply::Pending => Ok(Reply::Pending),
            Reply::Gone => Ok(Reply::Gone),
            Reply::Capacity(places) => Ok(Reply::Capacity(*places)),
            Reply::Sent(keys) => Ok(Reply::Sent(keys.try_clone(alloc)?)),
            Reply::Checked(keys) => Ok(Reply::Checked(keys.try_clone(alloc)?)),
            Reply::Retry(moment) => Ok(Reply::Retry(*moment)),
            Reply::Outcome {
                outcome,
                node,
                channel,
                keys,
            } => Ok(Reply::Outcome {
                outcome: *outcome,
                node: *node,
                channel: *channel,
                keys: keys.try_clone(alloc)?,
            }),
            Reply::Message { bytes, from } => Ok(Reply::Message {
                bytes: bytes.clone()?,
                from: *from,
            }),
            Reply::MessageTooLarge { size, limit } => Ok(Reply::MessageTooLarge {
                size: *size,
                limit: *limit,
            }),
            Reply::Feedback(feedback) => Ok(Reply::Feedback(*feedback)),
            Reply::PeerSetTooLarge { count, limit } => Ok(Reply::PeerSetTooLarge {
                count: *count,
                limit: *limit,
            }),
            Reply::PeerSet(peers) => Ok(Reply::PeerSet(clone_peers(peers)?)),
            Reply::Update(update) => Ok(Reply::Update(update.try_clone()?)),
            Reply::Blocked(keys) => Ok(Reply::Blocked(keys.try_clone()?)),
            Reply::Gates(told) => Ok(Reply::Gates(*told)),
            Reply::Ended(reason) => Ok(Reply::Ended(*reason)),
            Reply::NetworkClosed => Ok(Reply::NetworkClosed),
            Reply::StreamEnded => Ok(Reply::StreamEnded),
        }
    }
}

impl Entry {
    /// An equal entry. `Err` only where memory runs out.
    pub fn try_clone(&self, alloc: Global) -> Result<Entry, AllocError>
        ensures { IfOk result (λ e. e ≡ self.now) }
    {
        Ok(Entry {
            event: self.event.try_clone(alloc)?,
            reply: self.reply.try_clone(alloc)?,
            takes: self.takes.try_clone(alloc)?,
            puts: List::new(clone_puts(alloc, self.puts.as_slice())?),
            ends: self.ends.try_clone(alloc)?,
        })
    }
}

/// Equal puts.
fn clone_puts(alloc: Global, puts: &[(Queue, Item)]) -> Result<Vec<(Queue, Item)>, AllocError>
    ensures { IfOk result (λ p. p.items ≡ puts.now) }
{
    let mut copies = Vec::with_capacity(alloc, puts.len())?;
    for put in puts {
        let item = put.1.try_clone(alloc)?;
        copies.push((put.0, item))?;
    }
    Ok(copies)
}
