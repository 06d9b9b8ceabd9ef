//! `AfterFirst`, a quota that the first of what comes skips.
ghost use Rattle.std.specs.Prelude.{◌≡◌};
ghost use Rattle.p2p_discovery_peer.specs.Sparing.{spares_first, admits, after_check};

use p2p_runtime::{Quota, RateLimiter};

/// A quota that the first of what comes skips: it is expected as soon as the connection runs.
#[derive(Debug, Drop)]
pub struct AfterFirst {
    limiter: RateLimiter,
    has_come: bool,
}

impl AfterFirst {
    /// Nothing has come.
    pub(crate) fn new(quota: Quota) -> AfterFirst
        ensures { result ≡ spares_first quota }
    {
        AfterFirst {
            limiter: RateLimiter::new(quota),
            has_come: false,
        }
    }

    /// Admits what comes at the moment `now`, in nanoseconds: the first takes no cell, and of each later one the quota decides.
    pub(crate) fn admit(&mut self, now: u64) -> bool
        ensures value { result ≡ admits self.old now }
        ensures after { self.new ≡ after_check self.old now }
    {
        if self.has_come {
            return self.limiter.check(now).is_ok();
        }
        self.has_come = true;
        true
    }
}
