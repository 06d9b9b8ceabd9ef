//! Lists of the peers of which something holds.
ghost use Rattle.std.specs.Prelude.{◌≡◌, nat_lt, IfOk};
ghost use Rattle.std.specs.List.{filter};
ghost use Rattle.std.specs.List.Sorted.{IsStrictlySortedBy};
ghost use Rattle.std.specs.Map.{keys_of};
ghost use Rattle.p2p_tracker_directory.specs.Listed.{has_role};

use crate::Record;
use crate::directory::blocks::is_after;
use crate::directory::records::Records;
use p2p_base::{PrioritySet, PublicKey};
use std::alloc::{AllocError, Global};

// Whether a peer is primary in a set, or else is primary in none and secondary in one.
fn has_role(known: &Record, is_primary: bool) -> bool
    ensures { result ≡ has_role known.now is_primary }
{
    if is_primary {
        return known.primary_sets() > 0;
    }
    known.primary_sets() == 0 && known.secondary_sets() > 0
}

// The peers with a role. Who is primary in a set isn't secondary.
pub(super) fn peers_with_role<C: PublicKey>(
    alloc: Global,
    records: &Records<C>,
    is_primary: bool,
) -> Result<Vec<C>, AllocError>
    ensures peers { IfOk result (λ v. v.items ≡ keys_of (filter (λ e. has_role e.1 is_primary) records.now.entries)) }
    ensures ordered { IsStrictlySortedBy C.cmp (keys_of records.now.entries) }
{
    let mut peers = Vec::new(alloc);
    for (peer, known) in &records.map {
        if has_role(known, is_primary) {
            peers.push(*peer)?;
        }
    }
    Ok(peers)
}

// The peers whose block ends after `now`.
pub(super) fn blocked<C: PublicKey>(
    alloc: Global,
    blocks: &PrioritySet<C>,
    now: u64,
) -> Result<Vec<C>, AllocError>
    ensures { IfOk result (λ v. v.items ≡ keys_of (filter (λ e. nat_lt now e.1) blocks.now)) }
{
    let mut peers = Vec::new(alloc);
    for (peer, end) in blocks.iter() {
        if is_after(*end, now) {
            peers.push(*peer)?;
        }
    }
    Ok(peers)
}
