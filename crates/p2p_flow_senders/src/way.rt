//! `Way`, where a node's senders send.
ghost use Rattle.std.specs.Prelude.{◌≡◌, []};

use p2p_base::List;
use p2p_flow::Channel;
use p2p_runtime::KeyedRateLimiter;
use std::alloc::Global;
use std::marker::Model;

/// What the copies of a node's senders share: what carries content, and for each limited sender its limiter with the peers that it
/// knows.
///
/// In commonware-p2p each sender shares these behind a lock; here senders are small names, which are lent this value.
#[derive(Drop)]
pub struct Way<P: Ord, M> {
    /// What carries content.
    pub messenger: M,
    pub(crate) limits: Vec<Limit<P>>,
}

impl<P: Ord, M> Model for Way<P, M> {
    ghost use Rattle.p2p_flow_senders.specs.Limits.{Limits};

    ghost Value = { Limits P M };

    ghost view = { λ w. record { messenger = w.messenger; limits = w.limits.items } };
}

// A channel's limiter, its subscription to the lists of peers, and the peers that are known.
#[derive(Drop)]
pub(crate) struct Limit<P: Ord> {
    pub(crate) channel: Channel,
    pub(crate) limiter: KeyedRateLimiter<P>,
    pub(crate) subscription: u64,
    pub(crate) known: List<P>,
}

impl<P: Ord> Model for Limit<P> {
    ghost use Rattle.p2p_flow_senders.specs.Limits.{Limit};

    ghost Value = { Limit P };

    ghost view = { λ l. record {
      channel = l.channel;
      kept = l.limiter;
      subscription = l.subscription;
      known = l.known;
    } };
}

impl<P: Ord, M> Way<P, M> {
    /// A way without a limiter.
    pub fn new(alloc: Global, messenger: M) -> Way<P, M>
        ensures { result ≡ record { messenger = messenger; limits = [] } }
    {
        Way {
            messenger,
            limits: Vec::new(alloc),
        }
    }
}
