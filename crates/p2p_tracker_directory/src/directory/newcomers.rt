//! A peer set that is handed in, made ready to be kept.
ghost use Rattle.std.specs.Prelude.{◌≡◌, ◌++◌, ◌∷◌, [], IfOk, OnOk};
ghost use Rattle.std.specs.List.{list_any};
ghost use Rattle.std.specs.List.Sorted.{IsStrictlySortedBy};
ghost use Rattle.std.specs.Map.{keys_of};
ghost use Rattle.std.specs.BTreeMap.{is_at};
ghost use Rattle.p2p_tracker_calls.specs.Sets.{only_secondary};
ghost use Rattle.p2p_tracker_directory.specs.Prepared.{Prepared};

use crate::directory::sets::TrackedSet;
use p2p_address::Address;
use p2p_base::{Map, PublicKey, Set};
use std::alloc::{AllocError, Global};

// Adds a copy of a peer and its address to a list.
fn add_copy<C: PublicKey>(
    copies: &mut Vec<(C, Address)>,
    alloc: Global,
    key: &C,
    address: &Address,
) -> Result<(), AllocError>
    ensures { OnOk result (copies.new.items ≡ copies.old.items ++ (key.now, address.now) ∷ []) }
{
    let copy = address.try_clone(alloc)?;
    copies.push((*key, copy))?;
    Ok(())
}

// The peers of a map with their addresses.
pub(super) fn copy_peers<C: PublicKey>(
    alloc: Global,
    peers: &Map<C, Address>,
) -> Result<Vec<(C, Address)>, AllocError>
    ensures same { IfOk result (λ v. v.items ≡ peers.now) }
    ensures ordered { IfOk result (λ v. IsStrictlySortedBy C.cmp (keys_of v.items)) }
{
    let listed = peers.keys();
    let addresses = peers.values();
    let mut copies = Vec::with_capacity(alloc, peers.len())?;
    for place in 0..peers.len() {
        add_copy(&mut copies, alloc, &listed[place], &addresses[place])?;
    }
    Ok(copies)
}

// Whether a map has the key.
fn has<C: PublicKey>(peers: &Map<C, Address>, key: &C) -> bool
    ensures { result ≡ list_any (is_at (C.cmp key.now)) (keys_of peers.now) }
{
    peers.position(key).is_some()
}

// Takes out the secondary peers that are primary too.
pub(super) fn without_primary<C: PublicKey>(
    primary: &Map<C, Address>,
    secondary: &mut Vec<(C, Address)>,
)
    requires { IsStrictlySortedBy C.cmp (keys_of secondary.old.items) }
    ensures same { secondary.new.items ≡ only_secondary C.cmp primary.now secondary.old.items }
    ensures ordered { IsStrictlySortedBy C.cmp (keys_of secondary.new.items) }
{
    secondary.retain(|peer| !has(primary, &peer.0));
}

// The set of the keys of peers that stand in order.
pub(super) fn key_set<C: PublicKey>(
    alloc: Global,
    peers: &[(C, Address)],
) -> Result<Set<C>, AllocError>
    requires { IsStrictlySortedBy C.cmp (keys_of peers.now) }
    ensures { IfOk result (λ s. s ≡ keys_of peers.now) }
{
    let mut keys = Vec::with_capacity(alloc, peers.len())?;
    for (key, _) in peers {
        keys.push(*key)?;
    }
    Set::from_iter_dedup(keys)
}

// The peer set of an index, of peers of each role that stand in order.
fn set_of<C: PublicKey>(
    alloc: Global,
    index: u64,
    primary: &[(C, Address)],
    secondary: &[(C, Address)],
) -> Result<TrackedSet<C>, AllocError>
    requires primary { IsStrictlySortedBy C.cmp (keys_of primary.now) }
    requires secondary { IsStrictlySortedBy C.cmp (keys_of secondary.now) }
    ensures { IfOk result (λ s. s ≡ record { index = index; primary = keys_of primary.now; secondary = keys_of secondary.now }) }
{
    let primary = key_set(alloc, primary)?;
    let secondary = key_set(alloc, secondary)?;
    Ok(TrackedSet {
        index,
        primary,
        secondary,
    })
}

// A peer set that is handed in, and its peers of each role with their addresses. No peer has both roles.
#[derive(Drop)]
pub(super) struct Newcomers<C: PublicKey> {
    pub(super) set: TrackedSet<C>,
    pub(super) primary: Vec<(C, Address)>,
    pub(super) secondary: Vec<(C, Address)>,
}

// Copies what is handed in.
pub(super) fn prepare<C: PublicKey>(
    alloc: Global,
    index: u64,
    primary: &Map<C, Address>,
    secondary: &Map<C, Address>,
) -> Result<Newcomers<C>, AllocError>
    ensures { IfOk result (λ n. Prepared C.cmp index primary.now secondary.now n) }
{
    let first = copy_peers(alloc, primary)?;
    let mut second = copy_peers(alloc, secondary)?;
    without_primary(primary, &mut second);
    let set = set_of(alloc, index, first.as_slice(), second.as_slice())?;
    Ok(Newcomers {
        set,
        primary: first,
        secondary: second,
    })
}
