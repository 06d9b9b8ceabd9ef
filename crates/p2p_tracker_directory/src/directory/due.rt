//! Whom to dial, and when to ask for that again, by the index.
ghost use Rattle.std.specs.Prelude.{◌≡◌, ◌&&◌, cond, nat_lt, Some, None, IfOk, filter_map, slice_get};
ghost use Rattle.std.specs.List.{find};
ghost use Rattle.std.specs.Option.{option_map};
ghost use Rattle.std.specs.Map.{lookup};
ghost use Rattle.std.specs.BTreeMap.{is_at};
ghost use Rattle.p2p_tracker_calls.specs.DialList.{earliest};
ghost use Rattle.p2p_tracker_directory.specs.Indexed.{timed, timed_in, found_by, due_key, waits, unblock_at};

use crate::Record;
use crate::directory::Config;
use crate::directory::blocks::{is_after, lasts};
use crate::directory::dials::{earlier, is_now, outlook};
use crate::places::Places;
use p2p_base::{PrioritySet, PublicKey};
use std::alloc::{AllocError, Global};
use std::collections::BTreeMap;

// The key as its record has it, of a peer that is to be dialed now.
fn due_key<C: PublicKey>(
    records: &BTreeMap<C, Record>,
    blocks: &PrioritySet<C>,
    cfg: &Config,
    peer: &C,
    now: u64,
) -> Option<C>
    ensures { result ≡ due_key (is_at (C.cmp peer.now)) records.now.entries blocks.now now cfg.now.allow_private_ips cfg.now.allow_dns }
{
    let Some((key, known)) = records.get_key_value(peer) else {
        return None;
    };
    if is_now(outlook(known, blocks.get(peer), cfg, now)) {
        return Some(*key);
    }
    None
}

// The entry at a place in the order of a queue, where it has a moment.
fn timed_at<C: PublicKey>(queue: &Places<u128, C>, at: usize) -> Option<(u128, C)>
    ensures { result ≡ timed_in (slice_get queue.now at) }
{
    let Some((place, peer)) = queue.get(at) else {
        return None;
    };
    match place {
        Some(moment) => Some((moment, peer)),
        None => None,
    }
}

// The peer at a place in the order of a queue, where it is to be dialed now.
fn due_at<C: PublicKey>(
    queue: &Places<u128, C>,
    at: usize,
    records: &BTreeMap<C, Record>,
    blocks: &PrioritySet<C>,
    cfg: &Config,
    now: u64,
) -> Option<C>
    ensures { result ≡ found_by
        (λ e. cond (nat_lt now e.0) None (due_key (is_at (C.cmp e.1)) records.now.entries blocks.now now cfg.now.allow_private_ips cfg.now.allow_dns)) (timed_in (slice_get queue.now at)) }
{
    let Some(entry) = timed_at(queue, at) else {
        return None;
    };
    if is_after(entry.0, now) {
        return None;
    }
    due_key(records, blocks, cfg, &entry.1, now)
}

// The peers to be dialed now, in the order in which they came up for that.
pub(super) fn due_peers<C: PublicKey>(
    alloc: Global,
    queue: &Places<u128, C>,
    records: &BTreeMap<C, Record>,
    blocks: &PrioritySet<C>,
    cfg: &Config,
    now: u64,
) -> Result<Vec<C>, AllocError>
    ensures { IfOk result (λ v. v.items ≡ filter_map
        (λ e. cond (nat_lt now e.0) None (due_key (is_at (C.cmp e.1)) records.now.entries blocks.now now cfg.now.allow_private_ips cfg.now.allow_dns)) (timed queue.now)) }
{
    let mut peers = Vec::new(alloc);
    let first = queue.through(None);
    let end = queue.through(Some(u128::from(now)));
    for place in first..end {
        if let Some(key) = due_at(queue, place, records, blocks, cfg, now) {
            peers.push(key)?;
        }
    }
    Ok(peers)
}

// Whether a peer is neither held nor blocked.
fn waits<C: PublicKey>(
    records: &BTreeMap<C, Record>,
    blocks: &PrioritySet<C>,
    peer: &C,
    now: u64,
) -> bool
    ensures { result ≡ waits (lookup (is_at (C.cmp peer.now)) records.now.entries) (lookup (is_at (C.cmp peer.now)) blocks.now) now }
{
    match records.get(peer) {
        Some(record) => !record.is_reserved_or_connected() && !lasts(blocks.get(peer), now),
        None => false,
    }
}

// When the peer at a place in the order of a queue comes up for a dial, where it waits for that alone.
fn waits_at<C: PublicKey>(
    queue: &Places<u128, C>,
    at: usize,
    records: &BTreeMap<C, Record>,
    blocks: &PrioritySet<C>,
    now: u64,
) -> Option<u128>
    ensures { result ≡ found_by (λ e. cond (nat_lt now e.0
        && waits (lookup (is_at (C.cmp e.1)) records.now.entries) (lookup (is_at (C.cmp e.1)) blocks.now) now) (Some e.0) None) (timed_in (slice_get queue.now at)) }
{
    let Some(entry) = timed_at(queue, at) else {
        return None;
    };
    if is_after(entry.0, now) && waits(records, blocks, &entry.1, now) {
        return Some(entry.0);
    }
    None
}

// The first moment at which a peer comes up for a dial that waits for that alone.
pub(super) fn next_due<C: PublicKey>(
    queue: &Places<u128, C>,
    records: &BTreeMap<C, Record>,
    blocks: &PrioritySet<C>,
    now: u64,
) -> Option<u128>
    ensures { result ≡ option_map (λ e. e.0) (find (λ e. nat_lt now e.0
        && waits (lookup (is_at (C.cmp e.1)) records.now.entries) (lookup (is_at (C.cmp e.1)) blocks.now) now) (timed queue.now)) }
{
    let first = queue.through(Some(u128::from(now)));
    let end = queue.len();
    for place in first..end {
        if let Some(moment) = waits_at(queue, place, records, blocks, now) {
            return Some(moment);
        }
    }
    None
}

// When the block of a peer ends of which the directory knows, if that isn't yet.
fn unblock_at<C: PublicKey>(
    records: &BTreeMap<C, Record>,
    peer: &C,
    end: u128,
    now: u64,
) -> Option<u128>
    ensures { result ≡ unblock_at (lookup (is_at (C.cmp peer.now)) records.now.entries) end now }
{
    if !is_after(end, now) {
        return None;
    }
    match records.get(peer) {
        Some(record) => {
            if record.is_blockable() {
                return Some(end);
            }
            None
        }
        None => None,
    }
}

// The first moment at which such a block ends.
pub(super) fn next_unblock<C: PublicKey>(
    records: &BTreeMap<C, Record>,
    blocks: &PrioritySet<C>,
    now: u64,
) -> Option<u128>
    ensures { result ≡ earliest (λ b. unblock_at (lookup (is_at (C.cmp b.0)) records.now.entries) b.1 now) blocks.now }
{
    let mut next = None;
    for (peer, end) in blocks.iter() {
        next = earlier(next, unblock_at(records, peer, *end, now));
    }
    next
}
