//! From where peers come, by the counts.
ghost use Rattle.std.specs.Prelude.{◌≡◌, ℕ, ◌+◌, ◌-◌, ◌<◌, true, ◌&&◌, ◌||◌, cond, None, nat_lt, IfOk};
ghost use Rattle.std.specs.List.{filter};
ghost use Rattle.std.specs.List.Sorted.{IsStrictlySortedBy};
ghost use Rattle.std.specs.Map.{lookup, keys_of};
ghost use Rattle.std.specs.BTreeMap.{is_at};
ghost use Rattle.p2p_address.specs.Addresses.{is_global};
ghost use Rattle.p2p_address.specs.declared.ip.IpAddr.{IpAddr};
ghost use Rattle.p2p_tracker_calls.specs.Heard.{ip_cmp};
ghost use Rattle.p2p_tracker_calls.specs.Sets.{how_many};
ghost use Rattle.p2p_tracker_directory.specs.Indexed.{source_in, is_from, is_blocked_from, Tallies};

use crate::Record;
use crate::directory::blocks::is_after;
use crate::directory::index::source_in;
use crate::directory::tallies::{raise, tally};
use crate::places::Places;
use p2p_address::{IpAddr, is_global};
use p2p_base::{PrioritySet, PublicKey};
use std::alloc::{AllocError, Global};
use std::collections::BTreeMap;

// Whether it is this address.
fn is_from(ip: &IpAddr, source: Option<IpAddr>) -> bool
    ensures { result ≡ is_from ip.now source }
{
    match source {
        Some(source) => source.cmp(ip).is_eq(),
        None => false,
    }
}

// The address that a peer dials from which is blocked until `end`, if that isn't yet.
fn blocked_source<C: PublicKey>(
    records: &BTreeMap<C, Record>,
    peer: &C,
    end: u128,
    now: u64,
) -> Option<IpAddr>
    ensures { result ≡ cond (nat_lt now end) (source_in (lookup (is_at (C.cmp peer.now)) records.now.entries)) None }
{
    if is_after(end, now) {
        return source_in(records, peer);
    }
    None
}

// Counts some more peers that dial from the address, if there is one. False where memory runs out.
fn count_in(counts: &mut BTreeMap<IpAddr, usize>, source: Option<IpAddr>, more: usize) -> bool
    requires { 0 < more }
    ensures { result ≡ true → (n m : IpAddr → ℕ) → Tallies ip_cmp counts.old.entries n → ((ip : IpAddr) → m ip ≡ n ip + cond (is_from ip source) more 0)
        → Tallies ip_cmp counts.new.entries m }
{
    match source {
        Some(ip) => raise(counts, ip, more),
        None => true,
    }
}

// How many of a number of peers that dial from an address aren't blocked.
pub(super) fn without_blocked<C: PublicKey>(
    count: usize,
    records: &BTreeMap<C, Record>,
    blocks: &PrioritySet<C>,
    ip: &IpAddr,
    now: u64,
) -> usize
    ensures { result ≡ count - how_many (is_blocked_from C.cmp records.now.entries ip.now now) blocks.now }
{
    let mut left = count;
    for (peer, end) in blocks.iter() {
        if is_from(ip, blocked_source(records, peer, *end, now)) {
            left = left.saturating_sub(1);
        }
    }
    left
}

// How many peers dial from each address.
pub(super) fn counts_of<C: PublicKey>(
    alloc: Global,
    sources: &Places<IpAddr, C>,
) -> Result<BTreeMap<IpAddr, usize>, AllocError>
    ensures { IfOk result (λ counts. Tallies ip_cmp counts.entries (λ ip. how_many (λ e. is_from ip e.0) sources.now)) }
{
    let mut counts = BTreeMap::new(alloc);
    let mut at = sources.through(None);
    while let Some((source, _)) = sources.get(at) {
        let next = sources.through(source);
        let is_counted = count_in(&mut counts, source, next - at);
        if !is_counted {
            return Err(AllocError);
        }
        at = next;
    }
    Ok(counts)
}

// How many peers that are blocked dial from each address.
pub(super) fn blocked_counts<C: PublicKey>(
    alloc: Global,
    records: &BTreeMap<C, Record>,
    blocks: &PrioritySet<C>,
    now: u64,
) -> Result<BTreeMap<IpAddr, usize>, AllocError>
    ensures { IfOk result (λ counts. Tallies ip_cmp counts.entries (λ ip. how_many (is_blocked_from C.cmp records.now.entries ip now) blocks.now)) }
{
    let mut counts = BTreeMap::new(alloc);
    for (peer, end) in blocks.iter() {
        let is_counted = count_in(&mut counts, blocked_source(records, peer, *end, now), 1);
        if !is_counted {
            return Err(AllocError);
        }
    }
    Ok(counts)
}

// Whether more peers dial from an address than are taken off, and it is global or `private` ones are allowed.
fn is_above(count: usize, off: usize, ip: &IpAddr, private: bool) -> bool
    ensures { result ≡ (nat_lt off count && (private || is_global ip.now)) }
{
    count > off && (private || is_global(ip))
}

// The addresses from which more peers dial than are taken off, of those that are global or `private` ones are allowed.
pub(super) fn addresses_above(
    alloc: Global,
    counts: &BTreeMap<IpAddr, usize>,
    off: &BTreeMap<IpAddr, usize>,
    private: bool,
) -> Result<Vec<IpAddr>, AllocError>
    ensures ordered { IsStrictlySortedBy ip_cmp (keys_of counts.now.entries) }
    ensures addresses { (n : IpAddr → ℕ) → Tallies ip_cmp off.now.entries n
        → IfOk result (λ v. v.items ≡ keys_of (filter (λ e. nat_lt (n e.0) e.1 && (private || is_global e.0)) counts.now.entries)) }
{
    let mut found = Vec::new(alloc);
    for (ip, count) in counts {
        if is_above(*count, tally(off, ip), ip, private) {
            found.push(*ip)?;
        }
    }
    Ok(found)
}
