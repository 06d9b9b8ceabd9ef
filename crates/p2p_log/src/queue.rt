//! The queues in which items stand.
ghost use Rattle.std.specs.Prelude.{◌≡◌};
ghost use Rattle.p2p_log.specs.QueueCode.{kind_of, owner_of, detail_of};

use std::cmp::Ordering;

/// A direction of a link: `Out` is written by the end that dialed, `In` by the end that listened.
#[derive(Clone, Copy, Debug, PartialEq, Eq)]
pub enum Side {
    /// From the dialing end.
    Out,
    /// From the listening end.
    In,
}

/// The name of a queue. Nodes, channels, connections, questions, attempts and handshakes are named by their numbers.
#[derive(Clone, Copy, Debug)]
pub enum Queue {
    /// The mailbox of a node's router.
    Router(u64),
    /// The newest list of peers of a channel.
    Peers { node: u64, channel: u64 },
    /// The router's answer to a connection.
    RouterAnswer { node: u64, conn: u64 },
    /// The messages with priority that a connection has yet to write.
    High { node: u64, conn: u64 },
    /// The messages without priority that a connection has yet to write.
    Low { node: u64, conn: u64 },
    /// The frames in flight over a link, in one direction.
    Link { link: u64, side: Side },
    /// What came over a connection and waits until its quota admits it.
    Held { node: u64, conn: u64 },
    /// The messages of a channel that wait for their reader.
    Channel { node: u64, channel: u64 },
    /// The mailbox of a node's tracker.
    Tracker(u64),
    /// The newest addresses from which peers may come, for a node's listener.
    Addresses(u64),
    /// What the tracker answered to a node's dialer.
    Dialer(u64),
    /// What an attempt of a node's dialer is told.
    Attempt { node: u64, attempt: u64 },
    /// The peers that a node's listener has yet to take.
    Arrivals(u64),
    /// What a handshake of a node's listener is told.
    Handshake { node: u64, handshake: u64 },
    /// The connections that a node's spawner is to make.
    Spawner(u64),
    /// What a connection of a node is told to do.
    Control { node: u64, conn: u64 },
    /// The answer to the question for a peer set that an event asked of a node.
    PeerSet { node: u64, question: u64 },
    /// What waits for the subscription to peer sets that an event made at a node.
    PeerSetUpdates { node: u64, question: u64 },
    /// The newest blocked keys for the subscription to them that an event made at a node.
    Blocked { node: u64, question: u64 },
}

impl Queue {
    /// The place of the queue's kind among the kinds.
    pub fn kind(&self) -> u64
        ensures { result ≡ kind_of self.now }
    {
        match self {
            Queue::Router(_) => 0,
            Queue::Peers { .. } => 1,
            Queue::RouterAnswer { .. } => 2,
            Queue::High { .. } => 3,
            Queue::Low { .. } => 4,
            Queue::Link {
                side: Side::Out,
                ..
            } => 5,
            Queue::Link { side: Side::In, .. } => 6,
            Queue::Channel { .. } => 7,
            Queue::Tracker(_) => 8,
            Queue::Addresses(_) => 9,
            Queue::Dialer(_) => 10,
            Queue::Control { .. } => 11,
            Queue::PeerSet { .. } => 12,
            Queue::PeerSetUpdates { .. } => 13,
            Queue::Blocked { .. } => 14,
            Queue::Attempt { .. } => 15,
            Queue::Arrivals(_) => 16,
            Queue::Handshake { .. } => 17,
            Queue::Spawner(_) => 18,
            Queue::Held { .. } => 19,
        }
    }

    /// The node, or the link, that the queue belongs to.
    pub fn owner(&self) -> u64
        ensures { result ≡ owner_of self.now }
    {
        match *self {
            Queue::Router(node) => node,
            Queue::Peers { node, .. } => node,
            Queue::RouterAnswer { node, .. } => node,
            Queue::High { node, .. } => node,
            Queue::Low { node, .. } => node,
            Queue::Link { link, .. } => link,
            Queue::Channel { node, .. } => node,
            Queue::Tracker(node) => node,
            Queue::Addresses(node) => node,
            Queue::Dialer(node) => node,
            Queue::Control { node, .. } => node,
            Queue::PeerSet { node, .. } => node,
            Queue::PeerSetUpdates { node, .. } => node,
            Queue::Blocked { node, .. } => node,
            Queue::Attempt { node, .. } => node,
            Queue::Arrivals(node) => node,
            Queue::Handshake { node, .. } => node,
            Queue::Spawner(node) => node,
            Queue::Held { node, .. } => node,
        }
    }

    /// The channel, the connection, the question, the attempt or the handshake of the queue, or 0 where it has none.
    pub fn detail(&self) -> u64
        ensures { result ≡ detail_of self.now }
    {
        match *self {
            Queue::Router(_) => 0,
            Queue::Peers { channel, .. } => channel,
            Queue::RouterAnswer { conn, .. } => conn,
            Queue::High { conn, .. } => conn,
            Queue::Low { conn, .. } => conn,
            Queue::Link { .. } => 0,
            Queue::Channel { channel, .. } => channel,
            Queue::Tracker(_) => 0,
            Queue::Addresses(_) => 0,
            Queue::Dialer(_) => 0,
            Queue::Control { conn, .. } => conn,
            Queue::PeerSet { question, .. } => question,
            Queue::PeerSetUpdates { question, .. } => question,
            Queue::Blocked { question, .. } => question,
            Queue::Attempt { attempt, .. } => attempt,
            Queue::Arrivals(_) => 0,
            Queue::Handshake { handshake, .. } => handshake,
            Queue::Spawner(_) => 0,
            Queue::Held { conn, .. } => conn,
        }
    }
}

impl PartialEq for Queue {
    ghost use Rattle.p2p_log.specs.QueueOrder.{queue_eq};
    ghost use Rattle.std.proofs.Common.{rules};
    ghost use Rattle.std.specs.Cmp.Rules.{comparing};

    ghost eq = { queue_eq };

    ghost laws = { Prim.search (comparing, rules) };

    fn eq(&self, other: &Queue) -> bool {
        self.kind() == other.kind()
            && (self.owner() == other.owner() && self.detail() == other.detail())
    }
}

impl Eq for Queue {
    ghost use Rattle.std.proofs.Common.{rules};
    ghost use Rattle.std.specs.Cmp.Rules.{comparing};

    ghost laws = { Prim.search (comparing, rules) };
}

impl Ord for Queue {
    ghost use Rattle.p2p_log.specs.QueueLaws.{matches_eq as queues_match};
    ghost use Rattle.p2p_log.specs.QueueOrder.{queue_cmp};
    ghost use Rattle.std.proofs.Common.{rules};
    ghost use Rattle.std.specs.Cmp.Rules.{comparing};

    ghost cmp = { queue_cmp };

    ghost total = { Prim.search (comparing, rules) };

    ghost matches_partial_cmp = { Prim.search (comparing, rules) };

    ghost matches_eq = { queues_match };

    fn cmp(&self, other: &Queue) -> Ordering {
        self.kind()
            .cmp(&other.kind())
            .then(self.owner().cmp(&other.owner()))
            .then(self.detail().cmp(&other.detail()))
    }
}

impl PartialOrd for Queue {
    ghost use Rattle.p2p_log.specs.QueueLaws.{matches_eq as queues_match};
    ghost use Rattle.p2p_log.specs.QueueOrder.{queue_cmp};
    ghost use Rattle.std.proofs.Common.{rules};
    ghost use Rattle.std.specs.Cmp.{partial_order_from_own_ties};
    ghost use Rattle.std.specs.Cmp.Rules.{comparing};
    ghost use Rattle.std.specs.Ordering.{as_partial_cmp};

    ghost partial_cmp = { as_partial_cmp queue_cmp };

    ghost laws = { partial_order_from_own_ties (Prim.search (comparing, rules)) queues_match };

    fn partial_cmp(&self, other: &Queue) -> Option<Ordering> {
        Some(self.cmp(other))
    }
}
