//! What an act comes to.
use p2p_base::{Key, List};
use p2p_log::{End, Item, Queue, Reply, Side};

/// What an act comes to: its reply, the names of the items that it takes, what it puts in which queue, and what it ends.
#[derive(Drop)]
pub struct Row {
    pub reply: Reply,
    pub takes: List<(u64, u64)>,
    pub puts: List<(Queue, Item)>,
    pub ends: List<End>,
}

/// A node's half of a connection: the key of its peer, the link that it goes over, and the direction in which it writes there.
#[derive(Clone, Copy, Debug, PartialEq, Eq)]
pub struct Half {
    pub peer: Key,
    pub link: u64,
    pub writes: Side,
}

/// A link over which keys are exchanged: the node and the attempt that dialed, and the node at which that arrived.
#[derive(Clone, Copy, Debug, PartialEq, Eq)]
pub struct Opening {
    pub node: u64,
    pub attempt: u64,
    pub to: u64,
}

/// What has the listening end of a link over which keys are exchanged.
#[derive(Clone, Copy, Debug, PartialEq, Eq)]
pub enum ListeningEnd {
    /// The arrival that its listener has yet to take.
    Arriving,
    /// The handshake of this name.
    Handshake(u64),
}

/// What a check of a node admitted, for one message.
#[derive(Drop)]
pub struct Checked {
    /// On this channel.
    pub channel: u64,
    /// To these keys, in order.
    pub keys: List<Key>,
}
