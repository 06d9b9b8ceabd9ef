//! Peer sets in their two roles, with and without addresses.
use p2p_address::{Address, IpAddr, SocketAddr};
use p2p_base::{Key, Map, Set, SetError};
use p2p_flow::{
    AddressableTrackedPeers, BlockedSubscription, PeerSetSubscription, PeerSetUpdate, TrackedPeers,
};
use std::alloc::{AllocError, Global};

fn set_of(alloc: Global, keys: &[Key]) -> Result<Set<Key>, AllocError> {
    Set::from_iter_dedup(Vec::from_slice(alloc, keys)?)
}

// Whether peers equal their copy, and neither those of their first role alone nor none; and whether the union of both roles has each key
// once.
fn tracked(alloc: Global) -> Result<[bool; 4], AllocError> {
    let primary = set_of(alloc, &[Key(5), Key(2)])?;
    let alone = TrackedPeers::primary(alloc, primary.try_clone()?);
    let peers = TrackedPeers::new(primary, set_of(alloc, &[Key(9), Key(2)])?);
    let copied = peers.try_clone()? == peers;
    let apart = alone != peers && alone.secondary.is_empty();
    let none = TrackedPeers::empty(alloc) != alone;
    let union = peers.union(alloc)?;
    let once = union.as_slice() == [Key(2), Key(5), Key(9)].as_slice();
    Ok([copied, apart, none, once])
}

// Whether an update equals its copy, and no more once the index of that is another.
fn update(alloc: Global) -> Result<(bool, bool), AllocError> {
    let update = PeerSetUpdate {
        index: 7,
        latest: TrackedPeers::primary(alloc, set_of(alloc, &[Key(2)])?),
        all: TrackedPeers::empty(alloc),
    };
    let mut copy = update.try_clone()?;
    let is_copied = copy == update;
    copy.index = 8;
    Ok((is_copied, copy == update))
}

#[test]
fn peers_go_through_their_calls(rt: HostRuntime) {
    assert!(rt; tracked(rt.alloc()) == Ok([true; 4]));
    assert!(rt; update(rt.alloc()) == Ok((true, false)));
    let sets: PeerSetSubscription<Key> = PeerSetSubscription::new(3);
    let blocks: BlockedSubscription<Key> = BlockedSubscription::new(4);
    assert!(rt; (sets.ticket(), blocks.ticket()) == (3, 4));
}

const HOST: SocketAddr = SocketAddr {
    ip: IpAddr::V4([10, 0, 0, 7]),
    port: 80,
};

// Key 2 with its address.
fn at_host(alloc: Global) -> Result<Map<Key, Address>, SetError> {
    let mut pairs = Vec::new(alloc);
    if pairs.push((Key(2), Address::Symmetric(HOST))).is_err() {
        return Err(SetError::Memory);
    }
    Map::try_from(pairs)
}

// Whether peers of one role equal their copy, and not those of both.
fn addressed(alloc: Global) -> Result<(bool, bool), SetError> {
    let peers = AddressableTrackedPeers::primary(alloc, at_host(alloc)?);
    let is_copied = peers.try_clone()? == peers;
    let both = AddressableTrackedPeers::new(at_host(alloc)?, at_host(alloc)?);
    Ok((is_copied, both == peers))
}

#[test]
fn peers_with_addresses_equal_their_copy(rt: HostRuntime) {
    assert!(rt; addressed(rt.alloc()) == Ok((true, false)));
}
