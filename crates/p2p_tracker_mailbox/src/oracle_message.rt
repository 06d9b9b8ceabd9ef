//! `OracleMessage` and `RegisterMessage`, the messages of a tracker that an oracle puts.
ghost use Rattle.std.specs.Prelude.{◌≡◌, ℕ, is_some, IfSome, IsTrue};
ghost use Rattle.p2p_base.specs.declared.policy.Keep.TheVariants as keep;
ghost use Rattle.p2p_flow.specs.declared.tracked.TrackedPeers.{TrackedPeers as Tracked};

use p2p_base::{PublicKey, UnreliablePolicy};
use p2p_flow::TrackedPeers;

/// The messages of a tracker, among which are those that an oracle puts. A full mailbox keeps each in its overflow.
pub trait OracleMessage: UnreliablePolicy {
    /// The names of peers.
    type PublicKey: PublicKey;

    /// What the tracker's mailbox shows its desk, so as to put any message there, take it and answer. Only the crate of the messages
    /// makes one, so whoever is lent the desk alone puts an oracle's messages and no others.
    type Access;

    // The message that asks who is in the set of an index, as the question of a number.
    ghost asks: { ℕ → ℕ → Self };

    // The message by which the subscription of a number wants peer sets.
    ghost subscribes: { ℕ → Self };

    // The message that blocks a peer.
    ghost blocks: { Self.PublicKey → Self };

    // The message by which the subscription of a number wants the blocked keys.
    ghost subscribes_blocked: { ℕ → Self };

    /// It is asked who is in the set of the index; the question `ticket` is answered.
    fn peer_set(index: u64, ticket: u64) -> Self
        ensures { result ≡ asks index ticket };

    /// The subscription `ticket` wants the peer sets that are tracked from now on, and the latest one.
    fn subscribe(ticket: u64) -> Self
        ensures { result ≡ subscribes ticket };

    /// A peer is to be disconnected and kept away.
    fn block(peer: Self::PublicKey) -> Self
        ensures { result ≡ blocks peer };

    /// The subscription `ticket` wants the set of blocked keys, now and whenever it changes.
    fn subscribe_blocked(ticket: u64) -> Self
        ensures { result ≡ subscribes_blocked ticket };

    // A full mailbox appends each message to its overflow.
    ghost appends: { (message : Self) → Self.keep_of message ≡ keep.Append };
}

/// The messages of a tracker that is told of peer sets without addresses.
pub trait RegisterMessage: OracleMessage {
    // The message by which the set of an index is to be tracked.
    ghost registers: { ℕ → Tracked Self.PublicKey → Self };

    /// The peers of the set of the index are to be tracked. The set is taken out of what is handed in: the kit makes no proof of an
    /// implementation that takes it by value.
    fn register_given(index: u64, given: &mut Option<TrackedPeers<Self::PublicKey>>) -> Self
        requires { IsTrue (is_some given.old) }
        ensures { IfSome given.old (λ peers. result ≡ registers index peers) };
}
