//! `MuxStepped`, what a step of a muxer answers.
use p2p_flow::Channel;

/// Why a message of the receiver was dropped.
#[derive(Clone, Copy, PartialEq, Eq, Debug)]
pub enum DropCause {
    /// It begins with no prefix.
    PrefixBad,
    /// Its subchannel has no route, and the muxer no backup.
    NoRoute {
        /// The subchannel.
        subchannel: Channel,
    },
    /// The queue of its subchannel is full.
    SubchannelFull {
        /// The subchannel.
        subchannel: Channel,
    },
    /// Its subchannel has no route, and the queue of the backup is full.
    BackupFull {
        /// The subchannel.
        subchannel: Channel,
    },
}

/// What a step of a muxer took, and what became of it.
#[derive(Clone, Copy, PartialEq, Eq, Debug)]
pub enum MuxStepped {
    /// Nothing was asked of the muxer, and no message waits at the receiver.
    Idle,
    /// A request was taken, which made a route.
    Registered {
        /// The request's number.
        request: u64,
        /// The subchannel.
        subchannel: Channel,
    },
    /// A request was taken, and refused, since a route of its subchannel stands.
    Refused {
        /// The request's number.
        request: u64,
        /// The subchannel.
        subchannel: Channel,
    },
    /// A request was taken that had been given up. It makes no route and has no answer.
    GivenUp {
        /// The request's number.
        request: u64,
        /// The subchannel.
        subchannel: Channel,
    },
    /// It was taken that the receiver of a subchannel is gone, and its route was removed.
    Deregistered {
        /// The subchannel.
        subchannel: Channel,
    },
    /// A message was taken, and put last in the queue of its subchannel, without its prefix.
    Routed {
        /// The number of the request that made the route.
        request: u64,
        /// The subchannel.
        subchannel: Channel,
    },
    /// A message was taken whose subchannel has no route, and put last in the queue of the backup, without its prefix.
    BackedUp {
        /// The subchannel.
        subchannel: Channel,
    },
    /// A message was taken, and dropped.
    Dropped {
        /// Why.
        cause: DropCause,
    },
    /// The muxer has ended: its receiver had ended, in this call or before, or `MuxQueues::end` was called before.
    Ended,
}
