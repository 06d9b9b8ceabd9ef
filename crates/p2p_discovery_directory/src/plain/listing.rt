//! Whom a plain directory lists for a dial, and when to ask again.
ghost use Rattle.std.specs.Prelude.{◌≡◌, IfOk};
ghost use Rattle.std.specs.List.Sorted.{IsStrictlySortedBy};
ghost use Rattle.std.specs.Map.{keys_of};
ghost use Rattle.p2p_tracker_calls.specs.DialList.{earlier};
ghost use Rattle.p2p_discovery_directory.specs.Allows.{has_valid_ingress};
ghost use Rattle.p2p_discovery_directory.specs.Listed.{has_come, to_come, waits_at, is_barred, is_listed_at, asks_at, listed_keys, asks_again};

use crate::plain::places::Places;
use p2p_base::PublicKey;
use p2p_discovery::Info;
use p2p_tracker_directory::Directory;
use std::alloc::{AllocError, Global};

// Whether a moment has come.
fn has_come(now: u64, moment: Option<u128>) -> bool
    ensures { result ≡ has_come now moment }
{
    match moment {
        Some(moment) => moment <= u128::from(now),
        None => false,
    }
}

// A moment, if it is still to come.
fn to_come(now: u64, moment: Option<u128>) -> Option<u128>
    ensures { result ≡ to_come now moment }
{
    let moment = moment?;
    if moment > u128::from(now) {
        return Some(moment);
    }
    None
}

// The lesser of two moments, or the one that there is.
fn earlier(one: Option<u128>, other: Option<u128>) -> Option<u128>
    ensures { result ≡ earlier one other }
{
    let Some(first) = one else {
        return other;
    };
    let Some(second) = other else {
        return Some(first);
    };
    if second < first {
        return Some(second);
    }
    Some(first)
}

// Whether what is kept at a place may be dialed.
fn may_dial<P: PublicKey>(directory: &Directory<P>, place: &Option<Info<P>>) -> bool
    ensures { result ≡ has_valid_ingress directory.now.rules.private directory.now.rules.dns place.now }
{
    match place {
        Some(info) => directory.allows(&info.ingress),
        None => false,
    }
}

// From when a peer is listed, if what is kept at its place may be dialed.
fn waits_at<P: PublicKey>(
    directory: &Directory<P>,
    peer: &P,
    place: &Option<Info<P>>,
) -> Option<u128>
    ensures { result ≡ waits_at P.cmp directory.now peer.now place.now }
{
    if may_dial(directory, place) {
        return directory.next_dial(peer);
    }
    None
}

// Whether a peer's block ends after `now`.
fn is_barred<P: PublicKey>(directory: &Directory<P>, peer: &P, now: u64) -> bool
    ensures { result ≡ is_barred P.cmp directory.now now peer.now }
{
    match directory.blocked_until(peer) {
        Some(end) => end > u128::from(now),
        None => false,
    }
}

// Whether the peer of a place is listed at the moment `now`.
fn is_listed<P: PublicKey>(
    directory: &Directory<P>,
    peer: &P,
    place: &Option<Info<P>>,
    now: u64,
) -> bool
    ensures { result ≡ is_listed_at P.cmp directory.now now peer.now place.now }
{
    !is_barred(directory, peer, now) && has_come(now, waits_at(directory, peer, place))
}

// When the peer of a place may change the list.
fn asks_at<P: PublicKey>(
    directory: &Directory<P>,
    peer: &P,
    place: &Option<Info<P>>,
    now: u64,
) -> Option<u128>
    ensures { result ≡ asks_at P.cmp directory.now now peer.now place.now }
{
    if !is_barred(directory, peer, now) {
        return to_come(now, waits_at(directory, peer, place));
    }
    if directory.is_own(peer) {
        return None;
    }
    directory.blocked_until(peer)
}

// The peers that are listed at the moment `now`, in their order.
pub(super) fn listed<P: PublicKey>(
    alloc: Global,
    directory: &Directory<P>,
    places: &Places<P>,
    now: u64,
) -> Result<Vec<P>, AllocError>
    ensures keys { IfOk result (λ v. v.items ≡ listed_keys P.cmp directory.now now places.now.entries) }
    ensures ordered { IsStrictlySortedBy P.cmp (keys_of places.now.entries) }
{
    let mut peers = Vec::new(alloc);
    for (peer, place) in places {
        if is_listed(directory, peer, place, now) {
            peers.push(*peer)?;
        }
    }
    Ok(peers)
}

// The first moment at which a peer may change that list.
pub(super) fn asks_again<P: PublicKey>(
    directory: &Directory<P>,
    places: &Places<P>,
    now: u64,
) -> Option<u128>
    ensures { result ≡ asks_again P.cmp directory.now now places.now.entries }
{
    let mut first = None;
    for (peer, place) in places {
        first = earlier(first, asks_at(directory, peer, place, now));
    }
    first
}
