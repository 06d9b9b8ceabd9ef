//! `Blocker`, which blocks peers and tells who is blocked.
ghost use Rattle.std.specs.Prelude.{◌≡◌, ◌<◌, ◌↔◌, ℕ, length, IfOk, OnOk, OnErr, IsTrue};
ghost use Rattle.p2p_base.specs.declared.outcome.Feedback.{Feedback as Told};
ghost use Rattle.p2p_base.specs.declared.outcome.Feedback.TheVariants as feedback;
ghost use Rattle.p2p_flow.specs.Blocking.{Blocking, with_subscriber, set_at, without_set};

use crate::{Ended, Polled};
use p2p_base::{Feedback, PublicKey, Set};
use std::alloc::{AllocError, Global};

/// Blocks peers, and tells who is blocked.
///
/// It is a name, which no call changes: what is asked through it, and the answers, stand in its way. A subscription goes by its
/// number, counted from 0, and means something only in the way in which it was made. A set that isn't taken makes way for the next one.
///
/// Ports `Blocker` of commonware-p2p, whose subscription is a receiver.
pub trait Blocker {
    /// The names of peers.
    type PublicKey: PublicKey;

    /// Where requests and sets stand.
    type Way;

    // The way is one in which this value was made.
    ghost serves: { Self → Self.Way → Type 0 };

    // What those who ask who is blocked see of the way.
    ghost blocking: { Self → Self.Way → Blocking Self.PublicKey };

    // What is told of one more message to the tracker.
    ghost told: { Self → Self.Way → Told };

    // The way after a peer was to be blocked.
    ghost after_block: { Self → Self.Way → Self.PublicKey → Self.Way };

    // The way after one more subscription.
    ghost after_blocked: { Self → Self.Way → Self.Way };

    // The way once a subscription was asked for its set.
    ghost after_poll_blocked: { Self → Self.Way → ℕ → Self.Way };

    /// Asks that a peer be disconnected and kept away. Tells what became of the message.
    ///
    /// `Err` only where memory runs out; nothing has changed then.
    fn block(
        &mut self,
        alloc: Global,
        way: &mut Self::Way,
        peer: Self::PublicKey,
    ) -> Result<Feedback, AllocError>
        requires { serves self.old way.old }
        ensures told { IfOk result (λ f. f ≡ told self.old way.old) }
        ensures after { OnOk result (way.new ≡ after_block self.old way.old peer) }
        ensures blocking { blocking self.new way.new ≡ blocking self.old way.old }
        ensures memory { OnErr result (way.new ≡ way.old) }
        ensures serves { serves self.new way.new }
        ensures same { self.new ≡ self.old };

    /// Subscribes to the set of the keys that are blocked. Gives the number of the subscription, and what became of the message.
    ///
    /// `Err` only where memory runs out; nothing has changed then.
    fn blocked(&mut self, alloc: Global, way: &mut Self::Way) -> Result<(u64, Feedback), AllocError>
        requires { serves self.old way.old }
        ensures number { IfOk result (λ r. r.0 ≡ length (blocking self.old way.old).sets) }
        ensures told { IfOk result (λ r. r.1 ≡ told self.old way.old) }
        ensures after { OnOk result (way.new ≡ after_blocked self.old way.old) }
        ensures blocking { OnOk result (blocking self.new way.new ≡ with_subscriber (blocking self.old way.old)) }
        ensures memory { OnErr result (way.new ≡ way.old) }
        ensures serves { serves self.new way.new }
        ensures same { self.new ≡ self.old };

    /// Takes the set that waits for a subscription. Where none waits, `Ended` comes exactly where the tracker has ended.
    fn poll_blocked(
        &mut self,
        way: &mut Self::Way,
        ticket: u64,
    ) -> Result<Polled<Set<Self::PublicKey>>, Ended>
        requires serves { serves self.old way.old }
        requires made { ticket < length (blocking self.old way.old).sets }
        ensures value { result ≡ set_at (blocking self.old way.old) ticket }
        ensures after { way.new ≡ after_poll_blocked self.old way.old ticket }
        ensures blocking { blocking self.new way.new ≡ without_set (blocking self.old way.old) ticket }
        ensures serves { serves self.new way.new }
        ensures same { self.new ≡ self.old };

    // A message is told to be refused for good exactly where the tracker has ended.
    ghost closed_once_ended: { (m : Self) (w : Self.Way) → serves m w → (told m w ≡ feedback.Closed) ↔ IsTrue (blocking m w).has_ended };
}
