//! `Stepped`, what a step of a gate answers.
ghost use Rattle.std.specs.Prelude.{◌≡◌};
ghost use Rattle.p2p_gates.specs.Stepping.{gone_on, is_item};

use crate::attempt::{Attempt, AttemptItem};
use crate::handshake::Handshake;
use p2p_address::IpAddr;
use p2p_base::{Deque, PublicKey};
use p2p_tracker_calls::gates::Reply;
use p2p_tracker_directory::{Metadata, Reservation};
use p2p_tracker_mailbox::{HandshakeItem, Waiting};

/// What a step took.
#[derive(Clone, Copy, PartialEq, Eq, Debug)]
pub enum Input {
    /// Of the listener: the addresses that peers may come from, which the tracker told it.
    Update,
    /// Of the listener: its oldest arrival.
    Arrival,
    /// Of the dialer: the oldest answer that waits for it.
    Answer,
    /// Of an attempt or a handshake: the oldest item that waits for it.
    Item,
    /// Nothing was taken: the deadline had come.
    Deadline,
}

impl Input {
    /// Whether it is an item that waited for an attempt or a handshake.
    pub fn is_item(self) -> bool
        ensures { result ≡ is_item self }
    {
        matches!(self, Input::Item)
    }
}

/// What a step put into the tracker's mailbox, where it stands already.
#[derive(Clone, Copy, PartialEq, Eq, Debug)]
pub enum Put<P> {
    /// The dialer asked whom to dial.
    Dialable,
    /// The dialer asked for a peer that it is to dial.
    Dial {
        /// The peer.
        public_key: P,
    },
    /// The listener asked whether a peer may connect, for a new handshake.
    Acceptable {
        /// The peer.
        public_key: P,
        /// Where it connects from.
        source_ip: IpAddr,
        /// The handshake.
        handshake: u64,
    },
    /// A handshake asked for its peer.
    Listen {
        /// The peer.
        public_key: P,
        /// Where it connects from.
        source_ip: IpAddr,
        /// The handshake.
        handshake: u64,
    },
    /// An attempt gave its reservation back.
    Release {
        /// Who was reserved.
        metadata: Metadata<P>,
    },
}

/// What still waited for an attempt or a handshake that has ended, the oldest first. It is dropped.
#[derive(Drop)]
pub enum Left<P: PublicKey> {
    /// None has ended.
    Nothing,
    /// For an attempt.
    Attempt(Deque<AttemptItem>),
    /// For a handshake. `None` where the tracker's mailbox had no place for its items.
    Handshake(Option<Waiting<HandshakeItem<P>>>),
}

/// What came of a step.
#[derive(Drop)]
pub enum Outcome<P: PublicKey> {
    /// What was stepped goes on.
    GoesOn,
    /// The listener refused an arrival, for the reason that the reply tells. The listening end of its link is dropped.
    Refused {
        /// The link.
        link: u64,
        /// The reply.
        reply: Reply,
    },
    /// The listener admitted an arrival.
    Admitted(Handshake<P>),
    /// The dialer has a grant, and begins to dial.
    Dialed(Attempt<P>),
    /// An attempt or a handshake has ended, and a connection is to be made by this reservation.
    Ready(Reservation<P>),
    /// An attempt or a handshake has ended without a connection. Its end of the link is dropped.
    Ended,
}

/// What a step took, what it put, what it dropped, and what came of it.
#[derive(Drop)]
pub enum Stepped<P: PublicKey> {
    /// No input was ready.
    Idle,
    /// The first input that was ready was served.
    Served {
        /// The input.
        took: Input,
        /// What was put into the tracker's mailbox, if anything was.
        put: Option<Put<P>>,
        /// What was dropped.
        left: Left<P>,
        /// What came of it.
        outcome: Outcome<P>,
    },
}

impl<P: PublicKey> Stepped<P> {
    // This was taken and that put, and what was stepped goes on.
    pub(crate) fn goes_on(took: Input, put: Option<Put<P>>) -> Stepped<P>
        ensures { result ≡ gone_on took put }
    {
        Stepped::Served {
            took,
            put,
            left: Left::Nothing,
            outcome: Outcome::GoesOn,
        }
    }
}
