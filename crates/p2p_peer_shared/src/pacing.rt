//! Quotas that are known to be some: those of a preset, and `half_quota`, that of what the other end sends at a steady pace.
ghost use Rattle.std.specs.Prelude.{◌≡◌, ◌<◌};
ghost use Rattle.p2p_runtime.specs.QuotaLaw.{rate_of};
ghost use Rattle.p2p_peer_shared.specs.Beginning.{half_rate};

use p2p_runtime::Quota;

/// The quota of `burst` at once and one more in each `period` nanoseconds.
pub fn quota(burst: u32, period: u64) -> Quota
    requires burst { 0 < burst }
    requires period { 0 < period }
    ensures { result ≡ rate_of burst period }
{
    let Some(quota) = Quota::new(burst, period) else {
        unreachable!()
    };
    quota
}

/// The quota of what comes once in `pause` nanoseconds: one in half that time, which leaves room for delay.
pub fn half_quota(pause: u64) -> Quota
    ensures { result ≡ half_rate pause }
{
    let Some(quota) = Quota::with_period((pause / 2).max(1)) else {
        unreachable!()
    };
    quota
}
