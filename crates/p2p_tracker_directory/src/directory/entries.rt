//! What a peer set counts in a record, and which records go.
ghost use Rattle.std.specs.Prelude.{◌≡◌, cond};
ghost use Rattle.std.specs.Map.{lookup};
ghost use Rattle.std.specs.BTreeMap.{is_at};
ghost use Rattle.p2p_tracker_directory.specs.Tracked.{is_unneeded_in, needed, joined, parted};

use crate::Record;
use std::collections::BTreeMap;

// Whether a peer has a record that nothing needs.
fn is_unneeded<C: Ord>(records: &BTreeMap<C, Record>, peer: &C) -> bool
    ensures { result ≡ is_unneeded_in (lookup (is_at (C.cmp peer.now)) records.now.entries) }
{
    match records.get(peer) {
        Some(record) => record.deletable(),
        None => false,
    }
}

// Forgets a peer that nothing needs.
pub(super) fn forget<C: Ord + Drop>(records: &mut BTreeMap<C, Record>, peer: &C)
    ensures { (q : C) → lookup (is_at (C.cmp q)) records.new.entries ≡ cond (is_at (C.cmp peer.now) q)
        (needed (lookup (is_at (C.cmp q)) records.old.entries)) (lookup (is_at (C.cmp q)) records.old.entries) }
{
    if is_unneeded(records, peer) {
        records.remove(peer);
    }
}

// Counts one set more in which the peer has the role. A count stands still at its type's end, which no number of sets reaches.
pub(super) fn count_more(known: &mut Record, is_primary: bool)
    ensures { known.new ≡ joined is_primary known.old }
{
    if is_primary {
        if known.primary_sets() < usize::MAX {
            known.increment_primary();
        }
    } else if known.secondary_sets() < usize::MAX {
        known.increment_secondary();
    }
}

// Counts one set less.
pub(super) fn count_less(known: &mut Record, is_primary: bool)
    ensures { known.new ≡ parted is_primary known.old }
{
    if is_primary {
        if known.primary_sets() > 0 {
            known.decrement_primary();
        }
    } else if known.secondary_sets() > 0 {
        known.decrement_secondary();
    }
}
