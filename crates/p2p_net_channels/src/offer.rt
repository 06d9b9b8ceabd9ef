//! `Offer`, what a quota makes of a message to some keys.
ghost use Rattle.std.specs.Prelude.{◌≡◌, ◌++◌, ◌∷◌, [], max, is_ok, cond, OnOk};
ghost use Rattle.p2p_net_channels.specs.Senders.{moment_told, nothing_offered};

use p2p_base::{Key, List};
use std::alloc::{AllocError, Global};

/// What the quota of a channel makes of a message to some keys.
#[derive(Drop)]
pub struct Offer {
    /// The keys that it admits, in order.
    pub admitted: List<Key>,
    /// Each key that it refuses has a moment from which it is admitted. This is the latest of them, in nanoseconds, and 0 where it
    /// refuses none.
    pub retry: u128,
}

impl Offer {
    /// Of no keys.
    pub fn new(alloc: Global) -> Offer
        ensures { result ≡ nothing_offered }
    {
        Offer {
            admitted: List::empty(alloc),
            retry: 0,
        }
    }

    /// Notes what the quota answered for one more key: that it is admitted, or the moment from which it is.
    ///
    /// `Err` only where there is no memory. Nothing is said of the offer then.
    pub fn note(&mut self, key: Key, answer: Result<(), u128>) -> Result<(), AllocError>
        ensures admits { OnOk result (self.new.admitted ≡ self.old.admitted ++ cond (is_ok answer) (key ∷ []) []) }
        ensures retry { OnOk result (self.new.retry ≡ max self.old.retry (moment_told answer)) }
    {
        match answer {
            Ok(()) => self.admitted.push(key)?,
            Err(from) => self.retry = self.retry.max(from),
        }
        Ok(())
    }
}
