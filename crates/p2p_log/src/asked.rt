//! What a node's tracker is asked.
ghost use Rattle.std.specs.Prelude.{◌≡◌, IfOk};

use p2p_address::Address;
use p2p_base::{Key, Map};
use p2p_flow::AddressableTrackedPeers;
use std::alloc::AllocError;

/// What a node's tracker is asked.
#[derive(Drop, PartialEq, Eq, Debug)]
pub enum Asked {
    /// To track the peers of one more set.
    Track {
        index: u64,
        peers: AddressableTrackedPeers<Key>,
    },
    /// To give peers these addresses.
    Overwrite {
        peers: Map<Key, Address>,
    },
    /// To disconnect a peer and to keep it away.
    Block {
        key: Key,
    },
    /// Who is in a set.
    PeerSet {
        index: u64,
    },
    /// For the peer sets that are tracked from now on, and the latest one.
    Subscribe,
    /// For the keys that are blocked, now and whenever that changes.
    Blocked,
}

impl Asked {
    /// The same question.
    pub fn try_clone(&self) -> Result<Asked, AllocError>
        ensures { IfOk result (λ a. a ≡ self.now) }
    {
        match self {
            Asked::Track { index, peers } => Ok(Asked::Track {
                index: *index,
                peers: peers.try_clone()?,
            }),
            Asked::Overwrite { peers } => Ok(Asked::Overwrite {
                peers: peers.clone()?,
            }),
            Asked::Block { key } => Ok(Asked::Block { key: *key }),
            Asked::PeerSet { index } => Ok(Asked::PeerSet { index: *index }),
            Asked::Subscribe => Ok(Asked::Subscribe),
            Asked::Blocked => Ok(Asked::Blocked),
        }
    }
}
