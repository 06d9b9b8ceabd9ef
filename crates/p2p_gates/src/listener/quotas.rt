//! `Quotas`, how often peers may connect from one address and from one subnet.
ghost use Rattle.std.specs.Prelude.{◌≡◌, ℕ, ◌+◌, true, false, max, List, IfOk, OnOk};
ghost use Rattle.std.specs.BTreeMap.{is_at};
ghost use Rattle.p2p_address.specs.declared.ip.IpAddr.{IpAddr as Address};
ghost use Rattle.p2p_runtime.specs.QuotaKeys.{StandsForEach, KeepsOnlyRecent, found_arrival};
ghost use Rattle.p2p_tracker_calls.specs.Heard.{ip_cmp};
ghost use Rattle.p2p_tracker_calls.specs.Quotas.{Passed, none_passed, refuses, charged, verdict, passed_after};
ghost use Rattle.p2p_gates.specs.Quotas.{StandsFor, KeepsRates, rates_of, is_pruned, counted_after, IsCounted};

use p2p_address::{IpAddr, subnet};
use p2p_runtime::{KeyedRateLimiter, Quota};
use std::alloc::{AllocError, Global};
use std::marker::Model;

/// How many arrivals are counted before what no longer matters is forgotten.
const PRUNED_AFTER: u32 = 16_384;

// How often peers may connect from one address and from one subnet.
#[derive(Drop)]
pub(super) struct Quotas {
    addresses: KeyedRateLimiter<IpAddr>,
    subnets: KeyedRateLimiter<IpAddr>,
    counted: u32,
}

impl Model for Quotas {
    ghost use Rattle.p2p_gates.specs.Quotas.{Quotas as Kept};

    ghost Value = { Kept };

    ghost view = { λ q. record { addresses = q.addresses; subnets = q.subnets; counted = q.counted } };
}

// Forgets what no longer matters. No later answer changes.
fn forget(limiter: &mut KeyedRateLimiter<IpAddr>)
    ensures rate { limiter.new.rate ≡ limiter.old.rate }
    ensures stands { (past : Address → List ℕ) (latest : ℕ) → StandsForEach ip_cmp limiter.old past latest
        → StandsForEach ip_cmp limiter.new past latest }
    ensures forgets { KeepsOnlyRecent ip_cmp limiter.new }
    ensures latest { limiter.new.latest ≡ limiter.old.latest }
{
    limiter.retain_recent(0);
}

// Asks a quota about an arrival at the moment `now`. True where it refuses.
fn refuses(
    limiter: &mut KeyedRateLimiter<IpAddr>,
    ip: &IpAddr,
    now: u64,
) -> Result<bool, AllocError>
    ensures rate { limiter.new.rate ≡ limiter.old.rate }
    ensures answer { (past : Address → List ℕ) (latest : ℕ) → StandsForEach ip_cmp limiter.old past latest →
        IfOk result (λ b. b ≡ refuses limiter.old.rate past ip.now (max latest now)) }
    ensures stands { (past : Address → List ℕ) (latest : ℕ) → StandsForEach ip_cmp limiter.old past latest →
        OnOk result (StandsForEach ip_cmp limiter.new (charged limiter.old.rate past ip.now (max latest now)) (max latest now)) }
    ensures others { OnOk result ((q : Address) → is_at (ip_cmp ip.now) q ≡ false →
        found_arrival ip_cmp limiter.new q ≡ found_arrival ip_cmp limiter.old q) }
{
    let answer = limiter.check_key(ip, now)?;
    Ok(answer.is_err())
}

impl Quotas {
    // Quotas that nothing was held against.
    pub(super) fn new(alloc: Global, address: Quota, subnet: Quota) -> Quotas
        ensures addresses { result.addresses.rate ≡ address }
        ensures subnets { result.subnets.rate ≡ subnet }
        ensures stands { StandsFor result none_passed 0 }
    {
        Quotas {
            addresses: KeyedRateLimiter::new(alloc, address),
            subnets: KeyedRateLimiter::new(alloc, subnet),
            counted: 0,
        }
    }

    // Counts an arrival. Where more were counted than may be, what no longer matters is forgotten first: no later
    // answer changes.
    fn count(&mut self)
        ensures rates { KeepsRates self.old self.new }
        ensures stands { (p : Passed) (latest : ℕ) → StandsFor self.old p latest → StandsFor self.new p latest }
        ensures counted { self.new.counted ≡ counted_after self.old.counted }
        ensures addresses { is_pruned self.old.counted ≡ true → KeepsOnlyRecent ip_cmp self.new.addresses }
        ensures subnets { is_pruned self.old.counted ≡ true → KeepsOnlyRecent ip_cmp self.new.subnets }
        ensures latest_address { self.new.addresses.latest ≡ self.old.addresses.latest }
        ensures latest_subnet { self.new.subnets.latest ≡ self.old.subnets.latest }
        ensures unpruned { is_pruned self.old.counted ≡ false → self.new ≡ record self.old { counted = self.old.counted + 1 } }
    {
        if self.counted <= PRUNED_AFTER {
            self.counted += 1;
            return;
        }
        forget(&mut self.addresses);
        forget(&mut self.subnets);
        self.counted = 1;
    }

    // Holds an arrival from `ip` against both quotas, at the moment `now`. Each is charged where it doesn't refuse,
    // whatever the other does.
    pub(super) fn check(&mut self, ip: &IpAddr, now: u64) -> Result<(bool, bool), AllocError>
        ensures rates { KeepsRates self.old self.new }
        ensures answer { (p : Passed) (latest : ℕ) → StandsFor self.old p latest
            → IfOk result (λ r. r ≡ verdict (rates_of self.old) p ip.now (max latest now)) }
        ensures stands { (p : Passed) (latest : ℕ) → StandsFor self.old p latest
            → OnOk result (StandsFor self.new (passed_after (rates_of self.old) p ip.now (max latest now)) (max latest now)) }
        ensures counted { OnOk result (self.new.counted ≡ counted_after self.old.counted) }
        ensures held { OnOk result (IsCounted self.old self.new ip.now) }
    {
        self.count();
        let address = refuses(&mut self.addresses, ip, now)?;
        let subnet = refuses(&mut self.subnets, &subnet(ip), now)?;
        Ok((address, subnet))
    }
}
