//! `Connected` and `Carrier`, what a sender needs of the router.
ghost use Rattle.std.specs.Prelude.{◌≡◌, ◌+◌, ◌<◌, ◌^◌, ℕ, Bool, List, Option, length, IfOk, OnOk, OnErr};
ghost use Rattle.p2p_base.specs.declared.outcome.Unreliable.{Unreliable as Answer};
ghost use Rattle.p2p_flow.specs.declared.plain.Recipients.{Recipients as Whom};

use crate::{Channel, Recipients};
use bytes::Bytes;
use p2p_base::Unreliable;
use std::alloc::{AllocError, Global};

/// Tells which peers are connected. Whoever subscribed finds the newest list of them, once.
///
/// A subscription is a number: how many were made before. It means something only to the value that gave it.
///
/// Ports `Connected` of commonware-p2p, whose subscription is a receiver.
pub trait Connected {
    /// The names of peers.
    type PublicKey;

    // The peers that are known without a subscription.
    ghost known: { Self → List Self.PublicKey };

    // How many subscriptions were made.
    ghost subscriptions: { Self → ℕ };

    // What is left after one more subscription.
    ghost after_subscribe: { Self → Self };

    // The list that waits for a subscription, if there is one.
    ghost waiting: { Self → ℕ → Option (List Self.PublicKey) };

    // What is left once a subscription was asked for its list.
    ghost after_try_peers: { Self → ℕ → Self };

    // What is left once the receiver of a subscription was dropped.
    ghost after_close_peers: { Self → ℕ → Self };

    /// The peers that are known without a subscription: none where lists come by subscription alone. `Err` only where memory runs out.
    fn peers(&self, alloc: Global) -> Result<p2p_base::List<Self::PublicKey>, AllocError>
        ensures { IfOk result (λ peers. peers ≡ known self.now) };

    /// Makes a subscription, and gives its number. `Err` only where memory runs out; nothing has changed then.
    fn subscribe(&mut self, alloc: Global) -> Result<u64, AllocError>
        ensures number { IfOk result (λ n. n ≡ subscriptions self.old) }
        ensures after { OnOk result (self.new ≡ after_subscribe self.old) }
        ensures memory { OnErr result (self.new ≡ self.old) };

    /// Takes the list that waits for a subscription. `None` exactly where none waits.
    fn try_peers(&mut self, subscription: u64) -> Option<p2p_base::List<Self::PublicKey>>
        requires { subscription < subscriptions self.old }
        ensures value { result ≡ waiting self.old subscription }
        ensures after { self.new ≡ after_try_peers self.old subscription };

    /// Drops the receiver of a subscription, with the list that waits for it. It gets no more lists.
    fn close_peers(&mut self, subscription: u64)
        requires { subscription < subscriptions self.old }
        ensures { self.new ≡ after_close_peers self.old subscription };

    // A subscription counts.
    ghost subscribe_counts: { (m : Self) → subscriptions (after_subscribe m) ≡ subscriptions m + 1 };

    // Asking for a list keeps the subscriptions.
    ghost try_peers_keeps: { (m : Self) (n : ℕ) → subscriptions (after_try_peers m n) ≡ subscriptions m };

    // Dropping a receiver keeps the numbers of subscriptions.
    ghost close_peers_keeps: { (m : Self) (n : ℕ) → subscriptions (after_close_peers m n) ≡ subscriptions m };
}

/// Carries content to peers.
pub trait Carrier<P>: Connected<PublicKey = P> {
    // What `content` answers.
    ghost content_answer: { Self → Whom P → ℕ → List ℕ → Bool → Answer };

    // What is left after `content`.
    ghost after_content: { Self → Whom P → ℕ → List ℕ → Bool → Self };

    /// Hands in a message on a channel for its recipients. `Err` only where memory runs out; nothing has changed then.
    fn content(
        &mut self,
        alloc: Global,
        recipients: Recipients<P>,
        channel: Channel,
        message: Bytes,
        priority: bool,
    ) -> Result<Unreliable, AllocError>
        requires { length message < 2 ^ 32 }
        ensures answer { IfOk result (λ u. u ≡ content_answer self.old recipients channel message priority) }
        ensures after { OnOk result (self.new ≡ after_content self.old recipients channel message priority) }
        ensures memory { OnErr result (self.new ≡ self.old) };

    // Content keeps the subscriptions.
    ghost content_keeps: { (m : Self) (to : Whom P) (channel : ℕ) (message : List ℕ) (priority : Bool) → Self.subscriptions (after_content m to channel message priority) ≡ Self.subscriptions m };
}
