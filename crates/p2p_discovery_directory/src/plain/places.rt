//! The places in which infos are kept: one for each other peer of which a directory has a record.
ghost use Rattle.std.specs.Prelude.{◌≡◌, ◌&&◌, None, true, false, cond, not, is_some, OnOk};
ghost use Rattle.std.specs.List.{find};
ghost use Rattle.std.specs.Map.{lookup, keys_of};
ghost use Rattle.std.specs.BTreeMap.{is_at};
ghost use Rattle.std.specs.Option.{option_map, option_copied};
ghost use Rattle.p2p_tracker_calls.specs.Sets.{is_among};
ghost use Rattle.p2p_discovery_directory.specs.Infos.{kept_by, kept_after};
ghost use Rattle.p2p_discovery_directory.specs.Plain.{info_in, is_news};
ghost use Rattle.p2p_discovery_directory.specs.Tests.{knows};

use p2p_base::PublicKey;
use p2p_discovery::Info;
use p2p_tracker_directory::Directory;
use std::alloc::AllocError;
use std::collections::BTreeMap;

// A place for each key, empty until an info comes.
pub(super) type Places<P> = BTreeMap<P, Option<Info<P>>>;

// Makes a place for each of these keys that has none.
pub(super) fn make_places<P: PublicKey>(
    places: &mut Places<P>,
    keys: &[P],
) -> Result<(), AllocError>
    ensures infos { (q : P) → info_in (lookup (is_at (P.cmp q)) places.new.entries) ≡ info_in (lookup (is_at (P.cmp q)) places.old.entries) }
    ensures kept { (q : P) → is_some (lookup (is_at (P.cmp q)) places.old.entries) ≡ true → is_some (lookup (is_at (P.cmp q)) places.new.entries) ≡ true }
    ensures made { OnOk result ((q : P) → is_among P.cmp keys.now q ≡ true → is_some (lookup (is_at (P.cmp q)) places.new.entries) ≡ true) }
{
    for key in keys {
        make_place(places, key)?;
    }
    Ok(())
}

// Makes a place for a key that has none.
fn make_place<P: PublicKey>(places: &mut Places<P>, key: &P) -> Result<(), AllocError>
    ensures infos { (q : P) → info_in (lookup (is_at (P.cmp q)) places.new.entries) ≡ info_in (lookup (is_at (P.cmp q)) places.old.entries) }
    ensures kept { (q : P) → is_some (lookup (is_at (P.cmp q)) places.old.entries) ≡ true → is_some (lookup (is_at (P.cmp q)) places.new.entries) ≡ true }
    ensures made { OnOk result ((q : P) → is_at (P.cmp key.now) q ≡ true → is_some (lookup (is_at (P.cmp q)) places.new.entries) ≡ true) }
{
    if places.contains_key(key) {
        return Ok(());
    }
    places.insert(*key, None)?;
    Ok(())
}

// The first peer that has a place and no record.
fn first_gone<P: PublicKey>(places: &Places<P>, peers: &Directory<P>) -> Option<P>
    ensures { result ≡ find (λ k. not (knows P.cmp peers.now k)) (keys_of places.now.entries) }
{
    for (peer, _) in places {
        if !peers.knows(peer) {
            return Some(*peer);
        }
    }
    None
}

// Forgets the places of those of whom the directory has no record.
pub(super) fn forget<P: PublicKey>(places: &mut Places<P>, peers: &Directory<P>)
    ensures { (q : P) → lookup (is_at (P.cmp q)) places.new.entries ≡ cond (knows P.cmp peers.now q) (lookup (is_at (P.cmp q)) places.old.entries) None }
{
    while let Some(peer) = first_gone(places, peers) {
        let _ = places.remove(&peer);
    }
}

// Forgets the place of a peer of whom the directory has no record.
pub(super) fn forget_ended<P: PublicKey>(places: &mut Places<P>, peers: &Directory<P>, peer: &P)
    ensures { (q : P) → lookup (is_at (P.cmp q)) places.new.entries
        ≡ cond (not (knows P.cmp peers.now peer.now) && is_at (P.cmp peer.now) q) None (lookup (is_at (P.cmp q)) places.old.entries) }
{
    if !peers.knows(peer) {
        let _ = places.remove(peer);
    }
}

// What is kept of a peer at its place.
pub(super) fn kept_at<'a, P: PublicKey>(places: &'a Places<P>, peer: &P) -> Option<&'a Info<P>>
    ensures { option_copied result ≡ info_in (lookup (is_at (P.cmp peer.now)) places.now.entries) }
{
    match places.get(peer) {
        Some(place) => place.as_ref(),
        None => None,
    }
}

// Whether an info is newer than what is kept, at a place.
fn is_news<P>(place: Option<&Option<Info<P>>>, info: &Info<P>) -> bool
    ensures { result ≡ is_news info.now (option_copied place.entry) }
{
    match place {
        None => false,
        Some(None) => true,
        Some(Some(kept)) => kept.timestamp < info.timestamp,
    }
}

// Keeps an info, where its peer has a place and none as new is kept there.
fn take_up<P: PublicKey>(places: &mut Places<P>, info: Info<P>)
    ensures { (q : P) → lookup (is_at (P.cmp q)) places.new.entries ≡ option_map (kept_by P.cmp q info) (lookup (is_at (P.cmp q)) places.old.entries) }
{
    let key = info.public_key;
    if is_news(places.get(&key), &info) {
        let _ = places.insert(key, Some(info));
    }
}

// Keeps these infos, in their order.
pub(super) fn take_up_each<P: PublicKey>(places: &mut Places<P>, infos: Vec<Info<P>>)
    ensures { (q : P) → lookup (is_at (P.cmp q)) places.new.entries ≡ option_map (kept_after P.cmp q infos.items) (lookup (is_at (P.cmp q)) places.old.entries) }
{
    for info in infos {
        take_up(places, info);
    }
}
