//! `Provider`, which tells of the peer sets that are tracked.
ghost use Rattle.std.specs.Prelude.{◌≡◌, ◌<◌, ◌↔◌, ℕ, length, IfOk, OnOk, OnErr, IsTrue};
ghost use Rattle.p2p_base.specs.declared.outcome.Feedback.{Feedback as Told};
ghost use Rattle.p2p_base.specs.declared.outcome.Feedback.TheVariants as feedback;
ghost use Rattle.p2p_flow.specs.Provided.{Provided, is_open, question_at, with_question, answer_at, without_answer, with_subscription, update_at, without_update};

use crate::{Ended, PeerSetUpdate, Polled, TrackedPeers};
use p2p_base::{Feedback, PublicKey};
use std::alloc::{AllocError, Global};

/// Tells of the peer sets that are tracked.
///
/// It is a name, which no call changes: what is asked through it, and the answers, stand in its way. A question and a subscription
/// go by their numbers, each kind counted from 0, and mean something only in the way in which they were made.
///
/// Ports `Provider` of commonware-p2p, whose answers are futures and receivers.
pub trait Provider {
    /// The names of peers.
    type PublicKey: PublicKey;

    /// Where questions and answers stand.
    type Way;

    // The way is one in which this value was made.
    ghost serves: { Self → Self.Way → Type 0 };

    // What those who ask see of the way.
    ghost provided: { Self → Self.Way → Provided Self.PublicKey };

    // What is told of one more message to the tracker.
    ghost told: { Self → Self.Way → Told };

    // The way after a peer set was asked for.
    ghost after_peer_set: { Self → Self.Way → ℕ → Self.Way };

    // The way once the answer to a question was asked for.
    ghost after_poll_peer_set: { Self → Self.Way → ℕ → Self.Way };

    // The way after one more subscription.
    ghost after_subscribe: { Self → Self.Way → Self.Way };

    // The way once a subscription was asked for its next update.
    ghost after_poll_update: { Self → Self.Way → ℕ → Self.Way };

    /// Asks for the peers of the set with the index `id`. Gives the number of the question, and what became of the message.
    ///
    /// `Err` only where memory runs out; nothing has changed then.
    fn peer_set(
        &mut self,
        alloc: Global,
        way: &mut Self::Way,
        id: u64,
    ) -> Result<(u64, Feedback), AllocError>
        requires { serves self.old way.old }
        ensures number { IfOk result (λ r. r.0 ≡ length (provided self.old way.old).questions) }
        ensures told { IfOk result (λ r. r.1 ≡ told self.old way.old) }
        ensures after { OnOk result (way.new ≡ after_peer_set self.old way.old id) }
        ensures provided { OnOk result (provided self.new way.new ≡ with_question (provided self.old way.old)) }
        ensures memory { OnErr result (way.new ≡ way.old) }
        ensures serves { serves self.new way.new }
        ensures same { self.new ≡ self.old };

    /// Takes the answer to a question: the peers of that set, or `None` where no set had the index that was asked for, or the tracker
    /// ended before. `Pending` exactly where the tracker hasn't ended and there is no answer yet.
    fn poll_peer_set(
        &mut self,
        way: &mut Self::Way,
        ticket: u64,
    ) -> Polled<Option<TrackedPeers<Self::PublicKey>>>
        requires serves { serves self.old way.old }
        requires open { IsTrue (is_open (question_at (provided self.old way.old) ticket)) }
        ensures value { result ≡ answer_at (provided self.old way.old) ticket }
        ensures after { way.new ≡ after_poll_peer_set self.old way.old ticket }
        ensures provided { provided self.new way.new ≡ without_answer (provided self.old way.old) ticket }
        ensures serves { serves self.new way.new }
        ensures same { self.new ≡ self.old };

    /// Subscribes to the peer sets that are tracked. Gives the number of the subscription, and what became of the message.
    ///
    /// `Err` only where memory runs out; nothing has changed then.
    fn subscribe(
        &mut self,
        alloc: Global,
        way: &mut Self::Way,
    ) -> Result<(u64, Feedback), AllocError>
        requires { serves self.old way.old }
        ensures number { IfOk result (λ r. r.0 ≡ length (provided self.old way.old).updates) }
        ensures told { IfOk result (λ r. r.1 ≡ told self.old way.old) }
        ensures after { OnOk result (way.new ≡ after_subscribe self.old way.old) }
        ensures provided { OnOk result (provided self.new way.new ≡ with_subscription (provided self.old way.old)) }
        ensures memory { OnErr result (way.new ≡ way.old) }
        ensures serves { serves self.new way.new }
        ensures same { self.new ≡ self.old };

    /// Takes the oldest update that waits for a subscription. Where none waits, `Ended` comes exactly where the tracker has ended.
    fn poll_update(
        &mut self,
        way: &mut Self::Way,
        ticket: u64,
    ) -> Result<Polled<PeerSetUpdate<Self::PublicKey>>, Ended>
        requires serves { serves self.old way.old }
        requires made { ticket < length (provided self.old way.old).updates }
        ensures value { result ≡ update_at (provided self.old way.old) ticket }
        ensures after { way.new ≡ after_poll_update self.old way.old ticket }
        ensures provided { provided self.new way.new ≡ without_update (provided self.old way.old) ticket }
        ensures serves { serves self.new way.new }
        ensures same { self.new ≡ self.old };

    // A message is told to be refused for good exactly where the tracker has ended.
    ghost closed_once_ended: { (m : Self) (w : Self.Way) → serves m w → (told m w ≡ feedback.Closed) ↔ IsTrue (provided m w).has_ended };
}
