//! Whom to dial, and when to ask for that again.
ghost use Rattle.std.specs.Prelude.{◌≡◌, IfOk};
ghost use Rattle.std.specs.List.{filter};
ghost use Rattle.std.specs.List.Sorted.{IsStrictlySortedBy};
ghost use Rattle.std.specs.Map.{keys_of, lookup};
ghost use Rattle.std.specs.BTreeMap.{is_at};
ghost use Rattle.p2p_tracker_directory.specs.Listed.{outlook, is_now, moment_of};
ghost use Rattle.p2p_tracker_calls.specs.DialList.{earlier, earliest};

use crate::directory::Config;
use crate::directory::blocks::is_after;
use crate::directory::due::{due_peers, next_due, next_unblock};
use crate::directory::records::Records;
use crate::{DialStatus, Record};
use p2p_base::{List, PrioritySet, PublicKey};
use std::alloc::{AllocError, Global};

/// Whom a directory lists for a dial.
///
/// Ports `Dialable` of commonware-p2p's lookup tracker.
#[derive(Drop, PartialEq, Eq, Debug)]
pub struct Dialable<P> {
    /// The peers, in key order.
    pub peers: List<P>,
    /// The moment, in nanoseconds, at which more peers may be listed. `None` where time alone adds none.
    pub next_query_at: Option<u128>,
}

impl<P: Copy> Dialable<P> {
    /// An equal list. `Err` only where memory runs out.
    pub fn try_clone(&self, alloc: Global) -> Result<Dialable<P>, AllocError>
        ensures { IfOk result (λ d. d ≡ self.now) }
    {
        let peers = self.peers.try_clone(alloc)?;
        Ok(Dialable {
            peers,
            next_query_at: self.next_query_at,
        })
    }
}

// Whether a peer with this block is to be dialed.
pub(super) fn outlook(known: &Record, block: Option<u128>, cfg: &Config, now: u64) -> DialStatus
    ensures { result ≡ outlook known.now block now cfg.now.allow_private_ips cfg.now.allow_dns }
{
    let Some(end) = block else {
        return known.dialable(now, cfg.allow_private_ips, cfg.allow_dns);
    };
    if !is_after(end, now) {
        return known.dialable(now, cfg.allow_private_ips, cfg.allow_dns);
    }
    if known.is_blockable() {
        return DialStatus::After(end);
    }
    DialStatus::Unavailable
}

pub(super) fn is_now(status: DialStatus) -> bool
    ensures { result ≡ is_now status }
{
    match status {
        DialStatus::Now => true,
        DialStatus::After(_) => false,
        DialStatus::Unavailable => false,
    }
}

// The lesser of two moments, or the one that there is.
pub(super) fn earlier(one: Option<u128>, other: Option<u128>) -> Option<u128>
    ensures { result ≡ earlier one other }
{
    let Some(first) = one else {
        return other;
    };
    let Some(second) = other else {
        return Some(first);
    };
    if second < first {
        return Some(second);
    }
    Some(first)
}

// The peers to be dialed now, in key order.
pub(super) fn dialable_peers<C: PublicKey>(
    alloc: Global,
    records: &Records<C>,
    blocks: &PrioritySet<C>,
    cfg: &Config,
    now: u64,
) -> Result<Vec<C>, AllocError>
    requires private { records.now.private ≡ cfg.now.allow_private_ips }
    requires dns { records.now.dns ≡ cfg.now.allow_dns }
    ensures peers { IfOk result (λ v. v.items ≡ keys_of (filter
        (λ e. is_now (outlook e.1 (lookup (is_at (C.cmp e.0)) blocks.now) now cfg.now.allow_private_ips cfg.now.allow_dns)) records.now.entries)) }
    ensures ordered { IsStrictlySortedBy C.cmp (keys_of records.now.entries) }
{
    records.stand_in_order();
    let mut found = due_peers(alloc, &records.index.queue, &records.map, blocks, cfg, now)?;
    found.sort()?;
    found.dedup();
    Ok(found)
}

// The first moment at which a peer may be dialed that may not be now.
pub(super) fn next_query<C: PublicKey>(
    records: &Records<C>,
    blocks: &PrioritySet<C>,
    now: u64,
) -> Option<u128>
    requires { IsStrictlySortedBy C.cmp (keys_of blocks.now) }
    ensures { result ≡ earliest (λ e. moment_of (outlook e.1 (lookup (is_at (C.cmp e.0)) blocks.now) now records.now.private records.now.dns)) records.now.entries }
{
    records.stand_in_order();
    let due = next_due(&records.index.queue, &records.map, blocks, now);
    let unblock = next_unblock(&records.map, blocks, now);
    earlier(due, unblock)
}
