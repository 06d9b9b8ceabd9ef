//! Subscriptions to what a tracker tells, by their numbers.
ghost use Rattle.std.specs.Prelude.{◌≡◌, ◌<◌, length};
ghost use Rattle.p2p_flow.specs.Blocking.{set_at, without_set};
ghost use Rattle.p2p_flow.specs.Provided.{update_at, without_update};

use crate::{Blocker, Ended, PeerSetUpdate, Polled, Provider};
use p2p_base::{PublicKey, Set};
use std::marker::{Model, PhantomData};

/// A subscription to the peer sets that are tracked, by the number that `Provider::subscribe` gave.
///
/// Ports `PeerSetSubscription` of commonware-p2p, which is a receiver.
#[derive(Clone, Copy, PartialEq, Eq, Debug)]
pub struct PeerSetSubscription<P> {
    ticket: u64,
    of: PhantomData<P>,
}

impl<P> Model for PeerSetSubscription<P> {
    ghost use Rattle.std.specs.Prelude.{ℕ};

    ghost Value = { ℕ };

    ghost view = { λ s. s.ticket };

    ghost inverse = { λ n. record { ticket = n; of = record {} } };
}

impl<P: PublicKey> PeerSetSubscription<P> {
    /// The subscription of this number.
    pub fn new(ticket: u64) -> PeerSetSubscription<P>
        ensures { result ≡ ticket }
    {
        PeerSetSubscription {
            ticket,
            of: PhantomData,
        }
    }

    /// The number.
    pub fn ticket(&self) -> u64
        ensures { result ≡ self.now }
    {
        self.ticket
    }

    /// Takes the oldest update that waits. Where none waits, `Ended` comes exactly where the tracker has ended.
    pub fn poll<T: Provider<PublicKey = P>>(
        &self,
        provider: &mut T,
        way: &mut T::Way,
    ) -> Result<Polled<PeerSetUpdate<P>>, Ended>
        requires serves { T.serves provider.old way.old }
        requires made { self.now < length (T.provided provider.old way.old).updates }
        ensures value { result ≡ update_at (T.provided provider.old way.old) self.now }
        ensures after { way.new ≡ T.after_poll_update provider.old way.old self.now }
        ensures provided { T.provided provider.new way.new ≡ without_update (T.provided provider.old way.old) self.now }
        ensures serves { T.serves provider.new way.new }
        ensures same { provider.new ≡ provider.old }
    {
        provider.poll_update(way, self.ticket)
    }
}

/// A subscription to the set of the keys that are blocked, by the number that `Blocker::blocked` gave.
///
/// Ports `BlockedSubscription` of commonware-p2p, which is a receiver.
#[derive(Clone, Copy, PartialEq, Eq, Debug)]
pub struct BlockedSubscription<P> {
    ticket: u64,
    of: PhantomData<P>,
}

impl<P> Model for BlockedSubscription<P> {
    ghost use Rattle.std.specs.Prelude.{ℕ};

    ghost Value = { ℕ };

    ghost view = { λ s. s.ticket };

    ghost inverse = { λ n. record { ticket = n; of = record {} } };
}

impl<P: PublicKey> BlockedSubscription<P> {
    /// The subscription of this number.
    pub fn new(ticket: u64) -> BlockedSubscription<P>
        ensures { result ≡ ticket }
    {
        BlockedSubscription {
            ticket,
            of: PhantomData,
        }
    }

    /// The number.
    pub fn ticket(&self) -> u64
        ensures { result ≡ self.now }
    {
        self.ticket
    }

    /// Takes the set that waits. Where none waits, `Ended` comes exactly where the tracker has ended.
    pub fn poll<T: Blocker<PublicKey = P>>(
        &self,
        blocker: &mut T,
        way: &mut T::Way,
    ) -> Result<Polled<Set<P>>, Ended>
        requires serves { T.serves blocker.old way.old }
        requires made { self.now < length (T.blocking blocker.old way.old).sets }
        ensures value { result ≡ set_at (T.blocking blocker.old way.old) self.now }
        ensures after { way.new ≡ T.after_poll_blocked blocker.old way.old self.now }
        ensures blocking { T.blocking blocker.new way.new ≡ without_set (T.blocking blocker.old way.old) self.now }
        ensures serves { T.serves blocker.new way.new }
        ensures same { blocker.new ≡ blocker.old }
    {
        blocker.poll_blocked(way, self.ticket)
    }
}
