// A limiter of one quota, which keeps one arrival time.
ghost use Rattle.std.specs.Prelude.{◌≡◌, ℕ, max, List, [], ◌∷◌, ◌++◌, is_ok, IfErr, OnOk, OnErr};
ghost use Rattle.p2p_runtime.specs.QuotaLaw.{admits, retry};
ghost use Rattle.p2p_runtime.specs.QuotaKept.{StandsFor};
ghost use Rattle.p2p_runtime.specs.QuotaCheck.{rate_answer, after_rate};

use super::Quota;
use super::arrival::check_arrival;
use std::marker::Model;

/// Tells for one thing, moment by moment, whether its quota admits it.
///
/// Ports `RateLimiter` of commonware-runtime; the clock is the `now` of each call.
#[derive(Debug, Drop)]
pub struct RateLimiter {
    quota: Quota,
    arrival: u128,
    latest: u64,
}

impl Model for RateLimiter {
    ghost use Rattle.p2p_runtime.specs.QuotaKept.{Kept};
    ghost use Rattle.p2p_runtime.specs.QuotaStep.{IsNear, IsQuota};

    ghost Value = { Kept };

    ghost view = { λ a. record { rate = a.quota; arrival = a.arrival; latest = a.latest } };

    ghost invariant = { λ a. IsQuota a.quota × IsNear a.quota a.arrival a.latest };
}

impl RateLimiter {
    /// Has admitted nothing, and stands at the moment 0.
    pub fn new(quota: Quota) -> RateLimiter
        ensures fresh { result ≡ record { rate = quota; arrival = 0; latest = 0 } }
        ensures rate { result.rate ≡ quota }
        ensures empty { StandsFor result [] 0 }
    {
        // A look at the quota's parts shows that neither is 0.
        let _ = &quota.burst;
        RateLimiter {
            quota,
            arrival: 0,
            latest: 0,
        }
    }

    /// Admits the thing at the moment `now`, in nanoseconds, if the quota does; takes no memory.
    ///
    /// `Err` holds the first moment at which it passes. A refused check takes no cell. A moment
    /// before the latest one that was handed in counts as that one.
    pub fn check(&mut self, now: u64) -> Result<(), u128>
        ensures answer { result ≡ rate_answer self.old now }
        ensures after { self.new ≡ after_rate self.old now }
        ensures rate { self.new.rate ≡ self.old.rate }
        ensures law { (past : List ℕ) (latest : ℕ) → StandsFor self.old past latest →
            is_ok result ≡ admits self.old.rate past (max latest now) }
        ensures retry { (past : List ℕ) (latest : ℕ) → StandsFor self.old past latest →
            IfErr result (λ at. at ≡ retry self.old.rate past) }
        ensures admitted { (past : List ℕ) (latest : ℕ) → StandsFor self.old past latest →
            OnOk result (StandsFor self.new (past ++ max latest now ∷ []) (max latest now)) }
        ensures refused { (past : List ℕ) (latest : ℕ) → StandsFor self.old past latest →
            OnErr result (StandsFor self.new past (max latest now)) }
    {
        self.latest = self.latest.max(now);
        self.arrival = check_arrival(self.quota, self.arrival, self.latest)?;
        Ok(())
    }
}
