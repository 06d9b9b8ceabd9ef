//! What is asked of the network.
ghost use Rattle.std.specs.Prelude.{◌≡◌, IfOk};

use crate::asked::Asked;
use bytes::Bytes;
use p2p_address::SocketAddr;
use p2p_base::{Key, List};
use std::alloc::{AllocError, Global};

/// What may be sent on a channel: `burst` messages at once to one key, and one more each `period` nanoseconds.
#[derive(Clone, Copy, Debug, PartialEq, Eq)]
pub struct Rate {
    pub burst: u32,
    pub period: u64,
}

/// Whom a message is for.
#[derive(Drop, PartialEq, Eq, Debug)]
pub enum Recipients {
    /// Each peer of the newest list that the channel was told of.
    All,
    /// One peer.
    One(Key),
    /// These peers, in order; one that is named twice is meant twice.
    Some(List<Key>),
}

/// One call, one step of one actor, or one event of a link.
#[derive(Drop, PartialEq, Eq, Debug)]
pub enum Act {
    /// Makes a sender and a receiver of a channel at a node.
    Register {
        channel: u64,
        node: u64,
        quota: Rate,
    },
    /// Starts a node.
    Start {
        node: u64,
    },
    /// Stops a node for good: what waits there ends, but for what its readers and those who asked it may still take. A start that
    /// finds no place to listen at stops the node in this way too, and is its only start.
    Stop {
        by_start: bool,
        node: u64,
    },
    /// Sends bytes on a channel.
    Send {
        bytes: Bytes,
        channel: u64,
        node: u64,
        priority: bool,
        to: Recipients,
    },
    /// Asks the quota of a channel for these peers. What it admits waits for one message, which names this event.
    Check {
        channel: u64,
        node: u64,
        to: Recipients,
    },
    /// Sends bytes to those whom the check of this event admitted, on its channel.
    SendChecked {
        bytes: Bytes,
        check: u64,
        priority: bool,
    },
    /// One step of a node's router.
    Router {
        node: u64,
    },
    /// One step of the sending half of a connection: it begins, takes its router's answer, and then writes batches.
    SendStep {
        conn: u64,
        node: u64,
    },
    /// One step of the receiving half of a connection.
    RecvStep {
        conn: u64,
        node: u64,
    },
    /// Takes a message from a channel.
    Recv {
        channel: u64,
        node: u64,
    },
    /// Drops the reader of a channel.
    Close {
        channel: u64,
        node: u64,
    },
    /// Asks a node's tracker.
    Ask {
        asked: Asked,
        node: u64,
    },
    /// Takes the answer to the question for a peer set that an event asked.
    Answer {
        question: u64,
    },
    /// Takes what comes next for the subscription that an event made.
    Next {
        question: u64,
    },
    /// One step of a node's tracker.
    Tracker {
        node: u64,
    },
    /// One step of a node's dialer.
    Dialer {
        node: u64,
    },
    /// One step of a node's listener.
    Listener {
        node: u64,
    },
    /// One step of the handshake that a step of a node's listener began.
    Handshake {
        handshake: u64,
        node: u64,
    },
    /// One step of a node's spawner, which makes a connection.
    Spawner {
        node: u64,
    },
    /// One step of the attempt that a step of a node's dialer began.
    Attempt {
        attempt: u64,
        node: u64,
    },
    /// Tells an attempt the addresses that its peer's name stands for.
    Resolve {
        addresses: List<SocketAddr>,
        attempt: u64,
        node: u64,
    },
    /// Links an attempt to the listener of a node, at which it arrives from this address. Where that node doesn't run,
    /// the attempt is told that there is no link.
    Connect {
        attempt: u64,
        from: SocketAddr,
        node: u64,
        to: u64,
    },
    /// Tells an attempt that there is no link to its peer.
    Refuse {
        attempt: u64,
        node: u64,
    },
    /// Ends the exchange of keys over the link of this event, which tells both its ends whether they were exchanged.
    Finish {
        link: u64,
        ok: bool,
    },
    /// Cuts the link of this event: what is in flight over it ends, and each later read and write of it fails.
    Cut {
        link: u64,
    },
}

/// An act at a moment, in nanoseconds, with the seed of what it draws.
#[derive(PartialEq, Eq, Debug)]
pub struct Event {
    pub at: u64,
    pub seed: u64,
    pub act: Act,
}

impl Drop for Event {
    fn drop(self) {
        let Event {
            at: _at,
            seed: _seed,
            act: _act,
        } = self;
    }
}

impl Recipients {
    ghost use Rattle.p2p_log.specs.Copies.{keys_of_recipients};

    /// Equal recipients.
    pub fn try_clone(&self, alloc: Global) -> Result<Recipients, AllocError>
        ensures { IfOk result (λ r. r ≡ self.now) }
    {
        match self {
            Recipients::All => Ok(Recipients::All),
            Recipients::One(key) => Ok(Recipients::One(*key)),
            Recipients::Some(keys) => Ok(Recipients::Some(keys.try_clone(alloc)?)),
        }
    }

    /// The keys, in order, where these are all.
    pub fn keys(&self, alloc: Global, all: List<Key>) -> Result<List<Key>, AllocError>
        ensures { IfOk result (λ keys. keys ≡ keys_of_recipients all self.now) }
    {
        match self {
            Recipients::All => Ok(all),
            Recipients::One(key) => Ok(List::from_slice(alloc, &[*key])?),
            Recipients::Some(keys) => Ok(keys.try_clone(alloc)?),
        }
    }
}

impl Act {
    /// An equal act.
    pub fn try_clone(&self, alloc: Global) -> Result<Act, AllocError>
        ensures { IfOk result (λ a. a ≡ self.now) }
    {
        match self {
            Act::Register {
                channel,
                node,
                quota,
            } => Ok(Act::Register {
                channel: *channel,
                node: *node,
                quota: *quota,
            }),
            Act::Start { node } => Ok(Act::Start { node: *node }),
            Act::Stop { by_start, node } => Ok(Act::Stop {
                by_start: *by_start,
                node: *node,
            }),
            Act::Send {
                bytes,
                channel,
                node,
                priority,
                to,
            } => Ok(Act::Send {
                bytes: bytes.clone()?,
                channel: *channel,
                node: *node,
                priority: *priority,
                to: to.try_clone(alloc)?,
            }),
            Act::Check { channel, node, to } => Ok(Act::Check {
                channel: *channel,
                node: *node,
                to: to.try_clone(alloc)?,
            }),
            Act::SendChecked {
                bytes,
                check,
                priority,
            } => Ok(Act::SendChecked {
                bytes: bytes.clone()?,
                check: *check,
                priority: *priority,
            }),
            Act::Router { node } => Ok(Act::Router { node: *node }),
            Act::SendStep { conn, node } => Ok(Act::SendStep {
                conn: *conn,
                node: *node,
            }),
            Act::RecvStep { conn, node } => Ok(Act::RecvStep {
                conn: *conn,
                node: *node,
            }),
            Act::Recv { channel, node } => Ok(Act::Recv {
                channel: *channel,
                node: *node,
            }),
            Act::Close { channel, node } => Ok(Act::Close {
                channel: *channel,
                node: *node,
            }),
            Act::Ask { asked, node } => Ok(Act::Ask {
                asked: asked.try_clone()?,
                node: *node,
            }),
            Act::Answer { question } => Ok(Act::Answer {
                question: *question,
            }),
            Act::Next { question } => Ok(Act::Next {
                question: *question,
            }),
            Act::Tracker { node } => Ok(Act::Tracker { node: *node }),
            Act::Dialer { node } => Ok(Act::Dialer { node: *node }),
            Act::Listener { node } => Ok(Act::Listener { node: *node }),
            Act::Handshake { handshake, node } => Ok(Act::Handshake {
                handshake: *handshake,
                node: *node,
            }),
            Act::Spawner { node } => Ok(Act::Spawner { node: *node }),
            Act::Attempt { attempt, node } => Ok(Act::Attempt {
                attempt: *attempt,
                node: *node,
            }),
            Act::Resolve {
                addresses,
                attempt,
                node,
            } => Ok(Act::Resolve {
                addresses: addresses.try_clone(alloc)?,
                attempt: *attempt,
                node: *node,
            }),
            Act::Connect {
                attempt,
                from,
                node,
                to,
            } => Ok(Act::Connect {
                attempt: *attempt,
                from: *from,
                node: *node,
                to: *to,
            }),
            Act::Refuse { attempt, node } => Ok(Act::Refuse {
                attempt: *attempt,
                node: *node,
            }),
            Act::Finish { link, ok } => Ok(Act::Finish {
                link: *link,
                ok: *ok,
            }),
            Act::Cut { link } => Ok(Act::Cut { link: *link }),
        }
    }
}

impl Event {
    /// An equal event.
    pub fn try_clone(&self, alloc: Global) -> Result<Event, AllocError>
        ensures { IfOk result (λ e. e ≡ self.now) }
    {
        Ok(Event {
            at: self.at,
            seed: self.seed,
            act: self.act.try_clone(alloc)?,
        })
    }
}
