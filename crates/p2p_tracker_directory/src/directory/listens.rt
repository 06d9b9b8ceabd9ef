//! Where peers come from.
ghost use Rattle.std.specs.Prelude.{◌≡◌, IfOk, filter_map};
ghost use Rattle.std.specs.List.Sorted.{IsStrictlySortedBy};
ghost use Rattle.std.specs.Map.{keys_of, lookup};
ghost use Rattle.std.specs.BTreeMap.{is_at};
ghost use Rattle.p2p_tracker_calls.specs.Blocks.{lasts_at};
ghost use Rattle.p2p_base.specs.Sorted.{sorted_once};
ghost use Rattle.p2p_tracker_calls.specs.Heard.{ip_cmp};
ghost use Rattle.p2p_tracker_directory.specs.Listed.{heard};
ghost use Rattle.p2p_tracker_directory.specs.Indexed.{count_in};

use crate::directory::counted::{addresses_above, blocked_counts, counts_of, without_blocked};
use crate::directory::records::Records;
use p2p_address::IpAddr;
use p2p_base::{PrioritySet, PublicKey};
use std::alloc::{AllocError, Global};

// The IP addresses that peers may come from, each once: IPv4 first, and each kind by its bytes.
pub(super) fn addresses<C: PublicKey>(
    alloc: Global,
    records: &Records<C>,
    blocks: &PrioritySet<C>,
    private: bool,
    now: u64,
) -> Result<Vec<IpAddr>, AllocError>
    requires { IsStrictlySortedBy C.cmp (keys_of blocks.now) }
    ensures addresses { IfOk result (λ v. v.items ≡ sorted_once ip_cmp (filter_map (λ e. heard e.1 (lasts_at (lookup (is_at (C.cmp e.0)) blocks.now) now) private) records.now.entries)) }
    ensures ordered { IsStrictlySortedBy C.cmp (keys_of records.now.entries) }
{
    records.stand_in_order();
    let counts = counts_of(alloc, &records.index.sources)?;
    let off = blocked_counts(alloc, &records.map, blocks, now)?;
    let listed = addresses_above(alloc, &counts, &off, private)?;
    Ok(listed)
}

// How many eligible peers dial from an address.
pub(super) fn count_of<C: PublicKey>(
    records: &Records<C>,
    blocks: &PrioritySet<C>,
    ip: &IpAddr,
    now: u64,
) -> usize
    requires { IsStrictlySortedBy C.cmp (keys_of blocks.now) }
    ensures { result ≡ count_in C.cmp records.now.entries blocks.now ip.now now }
{
    records.stand_in_order();
    let all = records.index.sources.count(Some(*ip));
    without_blocked(all, &records.map, blocks, ip, now)
}
