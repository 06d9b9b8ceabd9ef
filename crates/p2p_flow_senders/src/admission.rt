// The check of a list of keys, which takes no cell where there is no memory for it.
ghost use Rattle.std.specs.Prelude.{◌≡◌, ◌+◌, ◌<◌, ◌≤◌, ◌∷◌, ◌++◌, [], ℕ, List as Seq, max, cond, is_ok, vec_len, vec_capacity, true, IfOk, OnOk, OnErr};
ghost use Rattle.p2p_runtime.specs.QuotaKeys.{StandsForEach, is_known};
ghost use Rattle.p2p_flow_senders.specs.Admission.{answer_of as answer, moment_after, past_after, check_by_law, AllKnown, later};

use p2p_base::List;
use p2p_runtime::KeyedRateLimiter;
use std::alloc::{AllocError, Global};

/// Tests each of `keys` at the moment `now`, in nanoseconds, in order and each after the ones before it, duplicates too, and gives
/// those that are admitted. An empty list passes. Where every entry of another list is refused, the inner `Err` holds the latest
/// moment from which one of them passes.
///
/// The outer `Err` is want of memory: no cell is taken then.
pub fn admit_all<K: Ord + Copy>(
    alloc: Global,
    limiter: &mut KeyedRateLimiter<K>,
    keys: &[K],
    now: u64,
) -> Result<Result<List<K>, u128>, AllocError>
    ensures rate { limiter.new.rate ≡ limiter.old.rate }
    ensures law { (past : K → Seq ℕ) (latest : ℕ) → StandsForEach K.cmp limiter.old past latest →
        IfOk result (λ r. r ≡ check_by_law K.cmp limiter.old.rate past (max latest now) keys.now) }
    ensures stands { (past : K → Seq ℕ) (latest : ℕ) → StandsForEach K.cmp limiter.old past latest →
        OnOk result (StandsForEach K.cmp limiter.new (past_after K.cmp limiter.old.rate past (max latest now) keys.now)
        (moment_after keys.now latest now)) }
    ensures memory { (past : K → Seq ℕ) (latest : ℕ) → StandsForEach K.cmp limiter.old past latest →
        OnErr result (StandsForEach K.cmp limiter.new past latest) }
{
    reserve_all(limiter, keys)?;
    let mut admitted = Vec::with_capacity(alloc, keys.len())?;
    let mut retry = 0;
    for key in keys {
        let answer = limiter.check_key(key, now)?;
        note(&mut admitted, &mut retry, *key, answer);
    }
    Ok(answer_of(keys, admitted, retry))
}

// Makes room for each of these keys.
fn reserve_all<K: Ord + Copy>(
    limiter: &mut KeyedRateLimiter<K>,
    keys: &[K],
) -> Result<(), AllocError>
    ensures rate { limiter.new.rate ≡ limiter.old.rate }
    ensures same { (past : K → Seq ℕ) (latest : ℕ) → StandsForEach K.cmp limiter.old past latest →
        StandsForEach K.cmp limiter.new past latest }
    ensures known { OnOk result (AllKnown K.cmp limiter.new keys.now) }
{
    for key in keys {
        limiter.reserve_key(key)?;
    }
    Ok(())
}

// Notes what became of a key: it is admitted, or passes from a moment on.
fn note<K: Copy>(admitted: &mut Vec<K>, retry: &mut u128, key: K, answer: Result<(), u128>)
    requires { vec_len admitted.old < vec_capacity admitted.old }
    ensures items { admitted.new.items ≡ cond (is_ok answer) (admitted.old.items ++ key ∷ []) admitted.old.items }
    ensures retry { retry.new ≡ later retry.old answer }
    ensures len { vec_len admitted.new ≤ vec_len admitted.old + 1 }
    ensures capacity { vec_capacity admitted.new ≡ vec_capacity admitted.old }
{
    match answer {
        Ok(()) => admitted.push_reserved(key),
        Err(at) => *retry = (*retry).max(at),
    }
}

// What is answered of these keys, of which some are admitted.
fn answer_of<K: Copy>(keys: &[K], admitted: Vec<K>, retry: u128) -> Result<List<K>, u128>
    ensures { result ≡ answer keys.now admitted.items retry }
{
    if admitted.is_empty() && !keys.is_empty() {
        return Err(retry);
    }
    Ok(List::new(admitted))
}
