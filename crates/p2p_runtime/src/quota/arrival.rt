// One check of an arrival time, which both limiters make.
ghost use Rattle.std.specs.Prelude.{◌≡◌};
ghost use Rattle.p2p_runtime.specs.QuotaStep.{step, IsNear};

use super::Quota;

/// The arrival time after a check at the moment `at`, or the moment from which one passes.
pub(super) fn check_arrival(quota: Quota, arrival: u128, at: u64) -> Result<u128, u128>
    requires near { IsNear quota arrival at }
    ensures { result ≡ step quota arrival at }
{
    let at = at as u128;
    let period = quota.period as u128;
    let burst_time = quota.burst as u128 * period;
    let next = arrival.max(at) + period;
    if next <= at + burst_time {
        Ok(next)
    } else {
        Err(next - burst_time)
    }
}
