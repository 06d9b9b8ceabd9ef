//! How many there are of each key.
ghost use Rattle.std.specs.Prelude.{◌≡◌, ℕ, ◌+◌, ◌<◌, true, cond};
ghost use Rattle.std.specs.BTreeMap.{is_at};
ghost use Rattle.p2p_tracker_directory.specs.Indexed.{Tallies};

use std::collections::BTreeMap;

// How many there are of a key.
pub(super) fn tally<K: Ord>(counts: &BTreeMap<K, usize>, key: &K) -> usize
    ensures { (n : K → ℕ) → Tallies K.cmp counts.now.entries n → result ≡ n key.now }
{
    match counts.get(key) {
        Some(count) => *count,
        None => 0,
    }
}

// Counts some more of a key. False where memory runs out, or the count is at its type's end.
pub(super) fn raise<K: Ord + Copy>(counts: &mut BTreeMap<K, usize>, key: K, more: usize) -> bool
    requires { 0 < more }
    ensures { result ≡ true → (n m : K → ℕ) → Tallies K.cmp counts.old.entries n → ((k : K) → m k ≡ n k + cond (is_at (K.cmp key) k) more 0)
        → Tallies K.cmp counts.new.entries m }
{
    let Some(count) = tally(counts, &key).checked_add(more) else {
        return false;
    };
    match counts.insert(key, count) {
        Ok(_) => true,
        Err(_) => false,
    }
}
