// Quotas: what they allow, and the limiters that keep to them.
ghost use Rattle.std.specs.Prelude.{◌≡◌, ◌*◌, ◌/◌, ◌<◌, max, Some, None, ◌==◌, ◌||◌, if◌then◌else◌};
ghost use Rattle.p2p_runtime.specs.QuotaLaw.{rate_of};

use std::marker::Model;

mod arrival;
mod keyed;
mod rate;

pub use keyed::KeyedRateLimiter;
pub use rate::RateLimiter;

const NANOSECONDS_PER_SECOND: u64 = 1_000_000_000;

const NANOSECONDS_PER_HOUR: u64 = 3_600_000_000_000;

/// What a limiter allows: a burst of admissions at once, and one more each period, in nanoseconds.
///
/// Ports `Quota` of commonware-runtime.
#[derive(Clone, Copy, Debug, PartialEq, Eq)]
pub struct Quota {
    burst: u32,
    period: u64,
}

impl Model for Quota {
    ghost use Rattle.p2p_runtime.specs.QuotaLaw.{Rate, rate_of};
    ghost use Rattle.p2p_runtime.specs.QuotaStep.{IsQuota};

    ghost Value = { Rate };

    ghost view = { λ a. rate_of a.burst a.period };

    ghost invariant = { λ a. IsQuota (rate_of a.burst a.period) };

    ghost inverse = { λ v. record { burst = v.burst; period = v.period } };
}

impl Quota {
    /// `burst` admissions at once, and one more each `period` nanoseconds. None exactly where either is 0.
    pub fn new(burst: u32, period: u64) -> Option<Quota>
        ensures { result ≡ (if burst == 0 || period == 0 then None else Some (rate_of burst period)) }
    {
        if burst == 0 || period == 0 {
            return None;
        }
        Some(Quota { burst, period })
    }

    /// `n` admissions at once and in each second. None exactly where `n` is 0.
    pub fn per_second(n: u32) -> Option<Quota>
        ensures { result ≡ (if n == 0 then None else Some (rate_of n (max 1 (1000000000 / n)))) }
    {
        let period = NANOSECONDS_PER_SECOND.checked_div(n as u64)?;
        Quota::new(n, period.max(1))
    }

    /// `n` admissions at once and in each hour. None exactly where `n` is 0.
    pub fn per_hour(n: u32) -> Option<Quota>
        ensures { result ≡ (if n == 0 then None else Some (rate_of n (3600 * 1000000000 / n))) }
    {
        let period = NANOSECONDS_PER_HOUR.checked_div(n as u64)?;
        Quota::new(n, period)
    }

    /// One admission each `period` nanoseconds. None exactly where `period` is 0.
    pub fn with_period(period: u64) -> Option<Quota>
        ensures { result ≡ (if period == 0 then None else Some (rate_of 1 period)) }
    {
        Quota::new(1, period)
    }

    /// The most admissions at once.
    pub fn burst_size(&self) -> u32
        ensures burst { result ≡ self.now.burst }
        ensures some { 0 < result }
    {
        self.burst
    }

    /// How many nanoseconds make room for one more admission.
    pub fn period(&self) -> u64
        ensures period { result ≡ self.now.period }
        ensures some { 0 < result }
    {
        self.period
    }
}
