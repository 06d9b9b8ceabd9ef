//! `Telling`, what the reply to a message says.
ghost use Rattle.std.specs.Prelude.{◌≡◌};
ghost use Rattle.p2p_net_router.specs.Telling.{accepted_reply, closed_reply, refused_reply};

use p2p_base::{Feedback, Key, List, Unreliable};
use p2p_log::Reply;
use std::alloc::Global;

/// What the reply to a message says.
#[derive(Clone, Copy, Debug)]
pub enum Telling {
    /// For which keys it was accepted.
    Sent,
    /// What the mailbox made of it.
    Outcome,
}

impl Telling {
    /// The reply to a message that is accepted for these keys.
    pub(crate) fn accepted(self, node: u64, channel: u64, keys: List<Key>) -> Reply
        ensures { result ≡ accepted_reply self node channel keys }
    {
        match self {
            Telling::Sent => Reply::Sent(keys),
            Telling::Outcome => Reply::Outcome {
                outcome: Unreliable::Outcome(Feedback::Ok),
                node,
                channel,
                keys,
            },
        }
    }

    /// The reply to a message for these keys at a node that has stopped, whose router's mailbox is closed.
    pub fn closed(self, alloc: Global, node: u64, channel: u64, keys: List<Key>) -> Reply
        ensures { result ≡ closed_reply self node channel keys }
    {
        match self {
            Telling::Sent => Reply::Sent(List::empty(alloc)),
            Telling::Outcome => Reply::Outcome {
                outcome: Unreliable::Outcome(Feedback::Closed),
                node,
                channel,
                keys,
            },
        }
    }

    /// The reply to a message for these keys that is refused.
    pub(crate) fn refused(self, alloc: Global, node: u64, channel: u64, keys: List<Key>) -> Reply
        ensures { result ≡ refused_reply self node channel keys }
    {
        match self {
            Telling::Sent => Reply::Sent(List::empty(alloc)),
            Telling::Outcome => Reply::Outcome {
                outcome: Unreliable::Rejected,
                node,
                channel,
                keys,
            },
        }
    }
}
