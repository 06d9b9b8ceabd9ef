//! `p2p_runtime`: a quota, and the limiter that keeps to it.
use crate::SECOND;
use anyhow::{Context, Result};
use p2p_runtime::{Quota, RateLimiter};

/// Two at once, and one more each second. Nothing reads a clock: each check is told the moment.
///
/// A check passes where the admissions from each earlier one on, this one counted, are at most two and one more for each whole second since
/// that. So the third at the moment 0 has to wait, a nanosecond before the first second is over it still has to, and then it passes.
pub fn show(rt: &impl Print) -> Result<()> {
    println!(rt; "quota")?;
    // None exactly where a number is 0.
    let quota = Quota::new(2, SECOND).context("two and a second are not 0")?;
    let mut limiter = RateLimiter::new(quota);
    for now in [0, 0, 0, SECOND - 1, SECOND] {
        match limiter.check(now) {
            Ok(()) => println!(rt; "  at {now}: admitted")?,
            // A moment to come is a `u128`: it is never cut off at the greatest moment that there is.
            Err(from) => println!(rt; "  at {now}: not before {from}")?,
        }
    }
    Ok(())
}
