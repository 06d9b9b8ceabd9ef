//! `Throttle`, a quota that counts what it was asked and what it refused.
ghost use Rattle.std.specs.Prelude.{◌≡◌, ℕ, ◌+◌, ◌^◌, ◌-◌, min, max, true, false, if◌then◌else◌, not, ◌&&◌, List, [], ◌∷◌, ◌++◌, is_ok, Ok, IfErr, OnOk, OnErr};
ghost use Rattle.p2p_runtime.specs.QuotaLaw.{admits, retry};
ghost use Rattle.p2p_runtime.specs.QuotaKept.{StandsFor};
ghost use Rattle.p2p_flow_connection.specs.Throttled.{one_more};

use p2p_runtime::{Quota, RateLimiter};
use std::marker::Model;

/// Tells whether a quota admits what is received, and counts what was received and what was refused. Each count stands
/// still at `u64::MAX`.
///
/// Ports `Throttle` of commonware-p2p, without its metrics.
#[derive(Debug, Drop)]
pub struct Throttle {
    limiter: RateLimiter,
    received: u64,
    limited: u64,
}

impl Model for Throttle {
    ghost use Rattle.p2p_flow_connection.specs.Throttled.{Throttled};

    ghost Value = { Throttled };

    ghost view = { λ t. record { kept = t.limiter; received = t.received; limited = t.limited } };
}

impl Throttle {
    /// Has received nothing.
    pub fn new(quota: Quota) -> Throttle
        ensures rate { result.kept.rate ≡ quota }
        ensures empty { StandsFor result.kept [] 0 }
        ensures counts { (result.received ≡ 0) × (result.limited ≡ 0) }
    {
        Throttle {
            limiter: RateLimiter::new(quota),
            received: 0,
            limited: 0,
        }
    }

    /// Counts one received at the moment `now`, in nanoseconds. Where `limit` is set, the quota decides: `Err` holds the
    /// first moment at which it passes, and is counted as limited. Where it isn't, the answer is `Ok`, and no cell is
    /// taken.
    pub fn receive(&mut self, limit: bool, now: u64) -> Result<(), u128>
        ensures received { self.new.received ≡ one_more self.old.received }
        ensures limited { self.new.limited ≡ (if is_ok result then self.old.limited else one_more self.old.limited) }
        ensures unlimited { limit ≡ false → (is_ok result ≡ true) × (self.new.kept ≡ self.old.kept) }
        ensures rate { self.new.kept.rate ≡ self.old.kept.rate }
        ensures law { (past : List ℕ) (latest : ℕ) → limit ≡ true → StandsFor self.old.kept past latest →
            is_ok result ≡ admits self.old.kept.rate past (max latest now) }
        ensures retry { (past : List ℕ) (latest : ℕ) → limit ≡ true → StandsFor self.old.kept past latest →
            IfErr result (λ at. at ≡ retry self.old.kept.rate past) }
        ensures admitted { (past : List ℕ) (latest : ℕ) → limit ≡ true → StandsFor self.old.kept past latest →
            OnOk result (StandsFor self.new.kept (past ++ max latest now ∷ []) (max latest now)) }
        ensures refused { (past : List ℕ) (latest : ℕ) → limit ≡ true → StandsFor self.old.kept past latest →
            OnErr result (StandsFor self.new.kept past (max latest now)) }
    {
        self.received = self.received.saturating_add(1);
        if !limit {
            return Ok(());
        }
        if let Err(retry) = self.limiter.check(now) {
            self.limited = self.limited.saturating_add(1);
            return Err(retry);
        }
        Ok(())
    }

    /// Admits at the moment `now`, in nanoseconds, if the quota does, and counts nothing. `Err` holds the first moment at
    /// which it passes.
    pub fn admit(&mut self, now: u64) -> Result<(), u128>
        ensures counts { (self.new.received ≡ self.old.received) × (self.new.limited ≡ self.old.limited) }
        ensures rate { self.new.kept.rate ≡ self.old.kept.rate }
        ensures law { (past : List ℕ) (latest : ℕ) → StandsFor self.old.kept past latest →
            is_ok result ≡ admits self.old.kept.rate past (max latest now) }
        ensures retry { (past : List ℕ) (latest : ℕ) → StandsFor self.old.kept past latest →
            IfErr result (λ at. at ≡ retry self.old.kept.rate past) }
        ensures admitted { (past : List ℕ) (latest : ℕ) → StandsFor self.old.kept past latest →
            OnOk result (StandsFor self.new.kept (past ++ max latest now ∷ []) (max latest now)) }
        ensures refused { (past : List ℕ) (latest : ℕ) → StandsFor self.old.kept past latest →
            OnErr result (StandsFor self.new.kept past (max latest now)) }
    {
        self.limiter.check(now)
    }

    /// How many were received. It stands still at `u64::MAX`.
    pub fn received(&self) -> u64
        ensures { result ≡ self.now.received }
    {
        self.received
    }

    /// How many of these the quota refused. It stands still at `u64::MAX`.
    pub fn limited(&self) -> u64
        ensures { result ≡ self.now.limited }
    {
        self.limited
    }
}
