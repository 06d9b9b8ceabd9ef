//! `TrackedSet`, a peer set that is kept.
ghost use Rattle.std.specs.Prelude.{◌≡◌, ◌<◌, ◌≤◌, ◌∷◌, ◌++◌, length, None, true, is_some, cond, nat_lt, IfOk};
ghost use Rattle.std.specs.Option.{option_to_list, option_copied};
ghost use Rattle.std.specs.List.{list_any};
ghost use Rattle.std.specs.BTreeMap.{is_at};
ghost use Rattle.p2p_tracker_calls.specs.Sets.{set_at};
ghost use Rattle.p2p_tracker_calls.specs.Peers.{peers_of, newest_of};
ghost use Rattle.p2p_tracker_directory.specs.Tracked.{oldest_of};

use p2p_base::{PublicKey, Set};
use p2p_flow::TrackedPeers;
use std::alloc::AllocError;
use std::collections::VecDeque;
use std::marker::Model;

// A peer set that is kept: its index and the keys of each role. No key stands in both roles.
#[derive(Drop)]
pub(super) struct TrackedSet<C: PublicKey> {
    pub(super) index: u64,
    pub(super) primary: Set<C>,
    pub(super) secondary: Set<C>,
}

impl<C: PublicKey> Model for TrackedSet<C> {
    ghost use Rattle.p2p_tracker_calls.specs.Sets.{PeerSet};

    ghost Value = { PeerSet C };

    ghost view = { λ s. record { index = s.index; primary = s.primary; secondary = s.secondary } };
}

// Whether a set has the key.
pub(super) fn has<C: PublicKey>(keys: &Set<C>, key: &C) -> bool
    ensures { result ≡ list_any (is_at (C.cmp key.now)) keys.now }
{
    keys.position(key).is_some()
}

// The set of an index.
pub(super) fn find_set<C: PublicKey>(
    sets: &VecDeque<TrackedSet<C>>,
    index: u64,
) -> Option<&TrackedSet<C>>
    ensures { option_copied result ≡ set_at index sets.now.items }
{
    sets.iter().find(|set| set.index == index)
}

// The set that was accepted last.
pub(super) fn newest<C: PublicKey>(sets: &VecDeque<TrackedSet<C>>) -> Option<&TrackedSet<C>>
    ensures { option_copied result ≡ newest_of sets.now.items }
{
    sets.front()
}

// Its peers.
pub(super) fn peers_of<C: PublicKey>(set: &TrackedSet<C>) -> Result<TrackedPeers<C>, AllocError>
    ensures { IfOk result (λ peers. peers ≡ peers_of set.now) }
{
    let primary = set.primary.try_clone()?;
    let secondary = set.secondary.try_clone()?;
    Ok(TrackedPeers { primary, secondary })
}

// The set that is kept no longer once `set` comes before the others, of which at most `max_sets` are kept.
pub(super) fn falling<'a, C: PublicKey>(
    sets: &'a VecDeque<TrackedSet<C>>,
    max_sets: usize,
    set: &'a TrackedSet<C>,
) -> Option<&'a TrackedSet<C>>
    ensures { option_copied result ≡ cond (nat_lt (length sets.now.items) max_sets) None (oldest_of set.now sets.now.items) }
{
    if sets.len() < max_sets {
        return None;
    }
    match sets.back() {
        Some(oldest) => Some(oldest),
        None => Some(set),
    }
}

// Takes out the oldest set where there are more than `max_sets`.
pub(super) fn take_oldest<C: PublicKey>(
    sets: &mut VecDeque<TrackedSet<C>>,
    max_sets: usize,
) -> Option<TrackedSet<C>>
    ensures parts { sets.old.items ≡ sets.new.items ++ option_to_list result }
    ensures fits { length sets.old.items ≤ max_sets → result ≡ None }
    ensures over { max_sets < length sets.old.items → is_some result ≡ true }
{
    if sets.len() <= max_sets {
        return None;
    }
    sets.pop_back()
}
