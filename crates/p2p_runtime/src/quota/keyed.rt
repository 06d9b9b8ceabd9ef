// A limiter that gives each key the same quota, and keeps one arrival time for each.
ghost use Rattle.std.specs.Prelude.{◌≡◌, ℕ, max, List, [], true, false, is_ok, IfOk, IfErr, OnOk, OnErr};
ghost use Rattle.p2p_runtime.specs.QuotaLaw.{admits, retry};
ghost use Rattle.p2p_runtime.specs.QuotaKeys.{StandsForEach, with_admission, KeepsOnlyRecent, is_known};
ghost use Rattle.p2p_runtime.specs.QuotaCheck.{check_answer, after_check};

use super::Quota;
use super::arrival::check_arrival;
use std::alloc::{AllocError, Global};
use std::collections::BTreeMap;
use std::marker::Model;

/// Tells for each key apart, moment by moment, whether the quota admits it.
///
/// Ports `KeyedRateLimiter` of commonware-runtime; the clock is the `now` of each call.
#[derive(Drop, Debug)]
pub struct KeyedRateLimiter<K: Ord> {
    quota: Quota,
    arrivals: BTreeMap<K, u128>,
    latest: u64,
}

impl<K: Ord> Model for KeyedRateLimiter<K> {
    ghost use Rattle.p2p_runtime.specs.QuotaKeys.{KeptByKey, IsNearEach};
    ghost use Rattle.p2p_runtime.specs.QuotaStep.{IsQuota};

    ghost Value = { KeptByKey K };

    ghost view = { λ a. record { rate = a.quota; arrivals = a.arrivals.entries; latest = a.latest } };

    ghost invariant = { λ a. IsQuota a.quota × IsNearEach K.cmp (record { rate = a.quota; arrivals = a.arrivals.entries; latest = a.latest }) };
}

impl<K: Ord + Copy> KeyedRateLimiter<K> {
    /// Has admitted nothing for any key, and stands at the moment 0.
    pub fn new(alloc: Global, quota: Quota) -> KeyedRateLimiter<K>
        ensures fresh { result ≡ record { rate = quota; arrivals = []; latest = 0 } }
        ensures rate { result.rate ≡ quota }
        ensures empty { StandsForEach K.cmp result (λ _. []) 0 }
    {
        // A look at the quota's parts shows that neither is 0.
        let _ = &quota.burst;
        KeyedRateLimiter {
            quota,
            arrivals: BTreeMap::new(alloc),
            latest: 0,
        }
    }

    /// Admits `key` at the moment `now`, in nanoseconds, if its quota does.
    ///
    /// The inner `Err` holds the first moment at which that key passes. A refused check takes no
    /// cell. A moment before the latest one that was handed in, for any key, counts as that one.
    /// The outer `Err` is want of memory for a key of which nothing is kept: then the limiter is
    /// as it was before.
    pub fn check_key(&mut self, key: &K, now: u64) -> Result<Result<(), u128>, AllocError>
        ensures answer { IfOk result (λ answer. answer ≡ check_answer K.cmp self.old key.now now) }
        ensures after { OnOk result (self.new ≡ after_check K.cmp self.old key.now now) }
        ensures rate { self.new.rate ≡ self.old.rate }
        ensures law { (past : K → List ℕ) (latest : ℕ) → StandsForEach K.cmp self.old past latest →
            IfOk result (λ answer. is_ok answer ≡ admits self.old.rate (past key.now) (max latest now)) }
        ensures retry { (past : K → List ℕ) (latest : ℕ) → StandsForEach K.cmp self.old past latest →
            IfOk result (λ answer. IfErr answer (λ at. at ≡ retry self.old.rate (past key.now))) }
        ensures admitted { (past : K → List ℕ) (latest : ℕ) → StandsForEach K.cmp self.old past latest →
            IfOk result (λ answer. let at = max latest now in
            OnOk answer (StandsForEach K.cmp self.new (with_admission K.cmp past key.now at) at)) }
        ensures refused { (past : K → List ℕ) (latest : ℕ) → StandsForEach K.cmp self.old past latest →
            IfOk result (λ answer. OnErr answer (StandsForEach K.cmp self.new past (max latest now))) }
        ensures err { OnErr result (self.new ≡ self.old) }
        ensures known { OnErr result (is_known K.cmp self.old key.now ≡ false) }
        ensures keeps { (q : K) → is_known K.cmp self.old q ≡ true → is_known K.cmp self.new q ≡ true }
    {
        let at = self.latest.max(now);
        let arrival = self.arrivals.get(key).copied().unwrap_or(0);
        match check_arrival(self.quota, arrival, at) {
            Ok(next) => {
                self.arrivals.insert(*key, next)?;
                self.latest = at;
                Ok(Ok(()))
            }
            Err(retry) => {
                self.latest = at;
                Ok(Err(retry))
            }
        }
    }

    /// Makes room for `key`, so that its checks take no memory while nothing is forgotten; no later answer changes.
    ///
    /// `Err` only where memory runs out: then the limiter is as it was before.
    pub fn reserve_key(&mut self, key: &K) -> Result<(), AllocError>
        ensures rate { self.new.rate ≡ self.old.rate }
        ensures latest { self.new.latest ≡ self.old.latest }
        ensures same { (past : K → List ℕ) (latest : ℕ) → StandsForEach K.cmp self.old past latest →
            StandsForEach K.cmp self.new past latest }
        ensures known { OnOk result (is_known K.cmp self.new key.now ≡ true) }
        ensures keeps { (q : K) → is_known K.cmp self.old q ≡ true → is_known K.cmp self.new q ≡ true }
    {
        if !self.arrivals.contains_key(key) {
            self.arrivals.insert(*key, 0)?;
        }
        Ok(())
    }

    /// Forgets each key whose admissions no longer matter; no later answer changes.
    ///
    /// It goes by the latest moment that a check was handed. `now` is not that moment, and is not
    /// counted as handed in.
    pub fn retain_recent(&mut self, _now: u64)
        ensures rate { self.new.rate ≡ self.old.rate }
        ensures latest { self.new.latest ≡ self.old.latest }
        ensures same { (past : K → List ℕ) (latest : ℕ) → StandsForEach K.cmp self.old past latest →
            StandsForEach K.cmp self.new past latest }
        ensures forgets { KeepsOnlyRecent K.cmp self.new }
    {
        let latest = self.latest as u128;
        self.arrivals.retain(|_, arrival| *arrival > latest);
    }
}
