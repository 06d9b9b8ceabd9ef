//! Blocks that have ended.
ghost use Rattle.std.specs.Prelude.{◌≡◌, false, nat_lt};
ghost use Rattle.std.specs.List.Sorted.{IsStrictlySortedBy};
ghost use Rattle.std.specs.Map.{lookup, keys_of};
ghost use Rattle.std.specs.BTreeMap.{is_at};
ghost use Rattle.p2p_base.specs.Moments.{soonest};
ghost use Rattle.p2p_tracker_calls.specs.Blocks.{unless_ended, lasts_at};
ghost use Rattle.p2p_tracker_directory.specs.Stands.{ends_by};

use p2p_base::{PrioritySet, PublicKey};

// Whether a moment comes after `now`.
pub(super) fn is_after(moment: u128, now: u64) -> bool
    ensures { result ≡ nat_lt now moment }
{
    u128::from(now) < moment
}

// Whether a block ends after `now`.
pub(super) fn lasts(block: Option<u128>, now: u64) -> bool
    ensures { result ≡ lasts_at block now }
{
    match block {
        Some(end) => is_after(end, now),
        None => false,
    }
}

// Whether a block has ended at the moment `now`.
fn has_ended<C: PublicKey>(blocks: &PrioritySet<C>, now: u64) -> bool
    ensures { result ≡ ends_by (soonest blocks.now) now }
{
    match blocks.peek() {
        Some((_, end)) => !is_after(end, now),
        None => false,
    }
}

// Takes away the blocks that have ended at the moment `now`. True exactly where there was one.
pub(super) fn take_ended<C: PublicKey>(blocks: &mut PrioritySet<C>, now: u64) -> bool
    ensures answer { result ≡ ends_by (soonest blocks.old) now }
    ensures ordered { IsStrictlySortedBy C.cmp (keys_of blocks.old) → IsStrictlySortedBy C.cmp (keys_of blocks.new) }
    ensures each { IsStrictlySortedBy C.cmp (keys_of blocks.old)
        → (q : C) → lookup (is_at (C.cmp q)) blocks.new ≡ unless_ended (lookup (is_at (C.cmp q)) blocks.old) now }
    ensures kept { result ≡ false → blocks.new ≡ blocks.old }
{
    let found = has_ended(blocks, now);
    while has_ended(blocks, now) {
        blocks.pop();
    }
    found
}
