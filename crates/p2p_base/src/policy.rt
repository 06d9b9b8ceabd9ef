//! What becomes of a message that finds its mailbox full.
ghost use Rattle.std.specs.Prelude.{◌≡◌, ◌≢◌};
ghost use Rattle.p2p_base.specs.declared.policy.Keep.{Keep as How};
ghost use Rattle.p2p_base.specs.declared.policy.Keep.TheVariants as keep;

/// What a full mailbox does with a message.
#[derive(Clone, Copy, PartialEq, Eq, Debug)]
pub enum Keep {
    /// It hands the message back.
    Refuse,
    /// It puts the message last in its overflow.
    Append,
    /// It clears its overflow and puts the message there.
    Replace,
}

/// A message that says what a full mailbox does with it.
///
/// Ports `UnreliablePolicy` of commonware-p2p's `commonware-actor`, whose `handle` changes the overflow itself.
pub trait UnreliablePolicy: Drop {
    // What a full mailbox does with a message.
    ghost keep_of: { Self → How };

    /// What a full mailbox does with this message.
    fn keep(&self) -> Keep
        ensures { result ≡ keep_of self.now };
}

/// A message that no full mailbox refuses.
///
/// Ports `Policy` of commonware-p2p's `commonware-actor`.
pub trait Policy: UnreliablePolicy {
    // No message is refused.
    ghost never_refuses: { (message : Self) → Self.keep_of message ≢ keep.Refuse };
}
