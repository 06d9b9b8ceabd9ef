//! A limiter of many keys that threads share.
ghost use Rattle.std.specs.Prelude.{◌≡◌};

use crate::served::Served;
use crate::shared::Shared;
use p2p_runtime::KeyedRateLimiter;
use std::alloc::{AllocError, Global};
use std::marker::Model;

/// A limiter that threads share. Its calls stand in one history.
pub type SharedLimiter<K> = Shared<LimiterObject<K>>;

/// A check of a key at a moment, in nanoseconds. The reply is that of `KeyedRateLimiter::check_key`: `Err` holds the
/// first moment at which the key passes.
#[derive(Clone, Copy, PartialEq, Eq, Debug)]
pub struct CheckCall<K> {
    pub key: K,
    pub now: u64,
}

/// A limiter of many keys whose checks are values. Contracts see it as the limiter.
#[derive(Drop)]
pub struct LimiterObject<K: Ord>(KeyedRateLimiter<K>);

impl<K: Ord> Model for LimiterObject<K> {
    ghost use Rattle.p2p_runtime.specs.QuotaKeys.{KeptByKey};

    ghost Value = { KeptByKey K };

    ghost view = { λ o. o.0 };
}

impl<K: Ord> LimiterObject<K> {
    /// The object over a limiter.
    pub fn new(limiter: KeyedRateLimiter<K>) -> LimiterObject<K>
        ensures { result ≡ limiter }
    {
        LimiterObject(limiter)
    }

    /// The limiter.
    pub fn into_inner(self) -> KeyedRateLimiter<K>
        ensures { result ≡ self }
    {
        self.0
    }
}

impl<K: Ord + Copy + Send> Served for LimiterObject<K> {
    ghost use Rattle.p2p_threads.specs.Limiter.{limiter_reply, limiter_next};

    type Call = CheckCall<K>;

    type Reply = Result<(), u128>;

    ghost reply = { limiter_reply K.cmp };

    ghost next = { limiter_next K.cmp };

    fn serve(
        &mut self,
        _alloc: Global,
        call: CheckCall<K>,
    ) -> Result<Result<(), u128>, AllocError> {
        self.0.check_key(&call.key, call.now)
    }
}
