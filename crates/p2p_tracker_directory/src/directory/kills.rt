//! Who is killed by a peer set.
ghost use Rattle.std.specs.Prelude.{◌≡◌, ◌++◌, IfOk, OnOk};
ghost use Rattle.std.specs.List.{list_any, filter};
ghost use Rattle.std.specs.Map.{lookup};
ghost use Rattle.std.specs.BTreeMap.{is_at};
ghost use Rattle.std.specs.Option.{option_copied, option_or};
ghost use Rattle.p2p_base.specs.Sorted.{sorted_once};
ghost use Rattle.p2p_tracker_directory.specs.Recorded.{is_inert};
ghost use Rattle.p2p_tracker_directory.specs.Tracked.{is_left, gets_other, is_ended_by, is_killed_where, passes, candidates};

use crate::Record;
use crate::directory::records::Records;
use crate::directory::sets::{TrackedSet, has};
use p2p_address::Address;
use p2p_base::{Map, PublicKey, Set};
use std::alloc::{AllocError, Global};

// Whether a count of sets is above 0 once one more counts (`enters`) and one no longer (`leaves`).
fn is_left(count: usize, enters: bool, leaves: bool) -> bool
    ensures { result ≡ is_left count enters leaves }
{
    if enters {
        return count > 0 || !leaves;
    }
    if leaves {
        return count > 1;
    }
    count > 0
}

// The address that a set gives the peer: the primary one where it has both roles.
fn given<'a, C: PublicKey>(
    primary: &'a Map<C, Address>,
    secondary: &'a Map<C, Address>,
    peer: &C,
) -> Option<&'a Address>
    ensures { option_copied result ≡ option_or (lookup (is_at (C.cmp peer.now)) primary.now) (lookup (is_at (C.cmp peer.now)) secondary.now) }
{
    match primary.get(peer) {
        Some(address) => Some(address),
        None => secondary.get(peer),
    }
}

// Whether a held peer's connection must end because `fallen` is kept no longer and `set` is.
fn is_ended<C: PublicKey>(
    known: &Record,
    set: &TrackedSet<C>,
    fallen: Option<&TrackedSet<C>>,
    peer: &C,
) -> bool
    ensures { result ≡ is_ended_by known.now (list_any (is_at (C.cmp peer.now)) set.now.primary) (list_any (is_at (C.cmp peer.now)) set.now.secondary)
        (passes (λ s. list_any (is_at (C.cmp peer.now)) s.primary) (option_copied fallen.entry)) (passes (λ s. list_any (is_at (C.cmp peer.now)) s.secondary) (option_copied fallen.entry)) }
{
    let Some(fallen) = fallen else {
        return false;
    };
    let was_primary = has(&fallen.primary, peer);
    let was_secondary = has(&fallen.secondary, peer);
    if !was_primary && !was_secondary {
        return false;
    }
    let is_primary = is_left(known.primary_sets(), has(&set.primary, peer), was_primary);
    let is_secondary = is_left(
        known.secondary_sets(),
        has(&set.secondary, peer),
        was_secondary,
    );
    known.is_stale() || !(is_primary || is_secondary)
}

// Whether a peer is held and must not be any longer.
fn is_killed<C: PublicKey>(
    records: &Records<C>,
    primary: &Map<C, Address>,
    secondary: &Map<C, Address>,
    set: &TrackedSet<C>,
    fallen: Option<&TrackedSet<C>>,
    peer: &C,
) -> bool
    ensures { result ≡ is_killed_where (is_at (C.cmp peer.now)) records.now.entries primary.now secondary.now set.now (option_copied fallen.entry) }
{
    match records.get(peer) {
        Some(record) => {
            record.is_reserved_or_connected()
                && (record.gets_other(given(primary, secondary, peer))
                    || is_ended(record, set, fallen, peer))
        }
        None => false,
    }
}

// Adds the peers of a set to a list of keys.
fn add_peers<C: PublicKey>(keys: &mut Vec<C>, set: &TrackedSet<C>) -> Result<(), AllocError>
    ensures { OnOk result (keys.new.items ≡ (keys.old.items ++ set.now.primary) ++ set.now.secondary) }
{
    keys.extend_from_slice(set.primary.as_slice())?;
    keys.extend_from_slice(set.secondary.as_slice())?;
    Ok(())
}

// Those of whom something changes: the peers of a set that comes and of one that goes.
fn candidates<C: PublicKey>(
    alloc: Global,
    set: &TrackedSet<C>,
    fallen: Option<&TrackedSet<C>>,
) -> Result<Vec<C>, AllocError>
    ensures { IfOk result (λ v. v.items ≡ candidates set.now (option_copied fallen.entry)) }
{
    let mut keys = Vec::new(alloc);
    add_peers(&mut keys, set)?;
    if let Some(fallen) = fallen {
        add_peers(&mut keys, fallen)?;
    }
    Ok(keys)
}

// The held peers whose address changes, and those of `fallen` that are stale or in no set without it.
pub(super) fn killed<C: PublicKey>(
    alloc: Global,
    records: &Records<C>,
    primary: &Map<C, Address>,
    secondary: &Map<C, Address>,
    set: &TrackedSet<C>,
    fallen: Option<&TrackedSet<C>>,
) -> Result<Set<C>, AllocError>
    ensures { IfOk result (λ k. k ≡ sorted_once C.cmp (filter
        (λ q. is_killed_where (is_at (C.cmp q)) records.now.entries primary.now secondary.now set.now (option_copied fallen.entry)) (candidates set.now (option_copied fallen.entry)))) }
{
    let mut keys = candidates(alloc, set, fallen)?;
    keys.retain(|peer| is_killed(records, primary, secondary, set, fallen, peer));
    Set::from_iter_dedup(keys)
}
