//! Quotas, and the limiters by rate and by key.
use p2p_runtime::{KeyedRateLimiter, Quota, RateLimiter};
use std::alloc::{AllocError, Global};

// The burst and the period of a quota, if there is one.
fn terms(quota: Option<Quota>) -> Option<(u32, u64)> {
    let quota = quota?;
    Some((quota.burst_size(), quota.period()))
}

#[test]
fn a_quota_has_its_terms(rt: HostRuntime) {
    let found = [
        terms(Quota::new(3, 7)),
        terms(Quota::with_period(7)),
        terms(Quota::per_second(1)),
        terms(Quota::per_second(3)),
        terms(Quota::per_second(4_000_000_000)),
        terms(Quota::per_hour(100)),
        terms(Quota::per_hour(u32::MAX)),
    ];
    let wanted = [
        Some((3, 7)),
        Some((1, 7)),
        Some((1, 1_000_000_000)),
        Some((3, 333_333_333)),
        Some((4_000_000_000, 1)),
        Some((100, 36_000_000_000)),
        Some((u32::MAX, 838)),
    ];
    assert!(rt; found == wanted);
    let none = [
        terms(Quota::new(0, 7)),
        terms(Quota::new(3, 0)),
        terms(Quota::with_period(0)),
        terms(Quota::per_second(0)),
        terms(Quota::per_hour(0)),
    ];
    assert!(rt; none == [None; 5]);
}

// What four checks answer, in turn.
type Answers = [Result<(), u128>; 4];

// The answers of a new limiter at these moments.
fn answers(burst: u32, period: u64, moments: [u64; 4]) -> Option<Answers> {
    let mut limiter = RateLimiter::new(Quota::new(burst, period)?);
    let [first, second, third, fourth] = moments;
    Some([
        limiter.check(first),
        limiter.check(second),
        limiter.check(third),
        limiter.check(fourth),
    ])
}

const SECOND: u64 = 1_000_000_000;

#[test]
fn a_limiter_answers_when_to_come_again(rt: HostRuntime) {
    let soon = answers(1, SECOND, [0, 0, SECOND - 1, SECOND]);
    assert!(rt; soon == Some([Ok(()), Err(1_000_000_000), Err(1_000_000_000), Ok(())]));
    let twice = answers(2, SECOND / 2, [0, 0, 0, SECOND / 2]);
    assert!(rt; twice == Some([Ok(()), Ok(()), Err(500_000_000), Ok(())]));
    // A moment before the latest one counts as that one.
    let earlier = answers(1, 10, [5, 3, 15, 15]);
    assert!(rt; earlier == Some([Ok(()), Err(15), Ok(()), Err(25)]));
    let late = answers(1, u64::MAX, [0, u64::MAX, u64::MAX, 0]);
    let again = Err(36_893_488_147_419_103_230);
    assert!(rt; late == Some([Ok(()), Ok(()), again, again]));
    let many = answers(u32::MAX, u64::MAX, [u64::MAX, 0, u64::MAX, 0]);
    assert!(rt; many == Some([Ok(()); 4]));
}

// Checks of keys at these moments, in turn, at burst 1 and period 10, with what each answers.
const CHECKS: [(u64, u64, Result<(), u128>); 8] = [
    (1, 5, Ok(())),
    (2, 3, Ok(())),
    (1, 3, Err(15)),
    (2, 6, Err(15)),
    (3, 14, Ok(())),
    (1, 15, Ok(())),
    (2, 0, Ok(())),
    (3, 15, Err(24)),
];

// The key and the moment of the first check that a limiter answers otherwise, which is pruned after each or never.
fn otherwise(
    limiter: &mut KeyedRateLimiter<u64>,
    pruned: bool,
) -> Result<Option<(u64, u64)>, AllocError> {
    for (key, now, want) in CHECKS {
        if limiter.check_key(&key, now)? != want {
            return Ok(Some((key, now)));
        }
        if pruned {
            limiter.retain_recent(u64::MAX);
        }
    }
    Ok(None)
}

// The same of a new limiter, which has the place of a key that is checked later.
fn any_otherwise(alloc: Global, pruned: bool) -> Result<Option<(u64, u64)>, AllocError> {
    let Some(quota) = Quota::new(1, 10) else {
        return Err(AllocError);
    };
    let mut limiter = KeyedRateLimiter::new(alloc, quota);
    limiter.reserve_key(&3)?;
    otherwise(&mut limiter, pruned)
}

#[test]
fn each_key_has_a_quota_of_its_own(rt: HostRuntime) {
    assert!(rt; any_otherwise(rt.alloc(), false) == Ok(None));
    assert!(rt; any_otherwise(rt.alloc(), true) == Ok(None));
}
