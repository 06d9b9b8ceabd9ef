//! What a peer set does to the records of its peers.
ghost use Rattle.std.specs.Prelude.{◌≡◌, OnOk, OnErr};
ghost use Rattle.std.specs.List.Sorted.{IsStrictlySortedBy};
ghost use Rattle.std.specs.Map.{lookup, keys_of};
ghost use Rattle.std.specs.BTreeMap.{is_at};
ghost use Rattle.p2p_tracker_calls.specs.Sets.{is_among};
ghost use Rattle.p2p_tracker_directory.specs.Indexed.{HasRules};
ghost use Rattle.p2p_tracker_directory.specs.Tracked.{blanked, swept, enters, leaves, retired, is_primary_of, is_secondary_of};

use crate::directory::records::Records;
use crate::directory::sets::TrackedSet;
use p2p_address::Address;
use p2p_base::PublicKey;
use std::alloc::AllocError;

// Makes a record for each of the peers that has none. Where memory runs out, some may have been made.
pub(super) fn make_blanks<C: PublicKey>(
    records: &mut Records<C>,
    peers: &[C],
) -> Result<(), AllocError>
    ensures made { OnOk result ((q : C) → lookup (is_at (C.cmp q)) records.new.entries ≡ blanked (is_among C.cmp peers.now q) (lookup (is_at (C.cmp q)) records.old.entries)) }
    ensures memory { OnErr result ((q : C) → swept (is_among C.cmp peers.now q) (lookup (is_at (C.cmp q)) records.new.entries)
        ≡ swept (is_among C.cmp peers.now q) (lookup (is_at (C.cmp q)) records.old.entries)) }
    ensures rules { HasRules records.old.private records.old.dns records.new }
{
    for peer in peers {
        records.make_blank(peer)?;
    }
    Ok(())
}

// Forgets those of the peers that nothing needs.
pub(super) fn sweep<C: PublicKey>(records: &mut Records<C>, peers: &[C])
    requires { IsStrictlySortedBy C.cmp peers.now }
    ensures each { (q : C) → lookup (is_at (C.cmp q)) records.new.entries ≡ swept (is_among C.cmp peers.now q) (lookup (is_at (C.cmp q)) records.old.entries) }
    ensures rules { HasRules records.old.private records.old.dns records.new }
{
    for peer in peers {
        records.forget(peer);
    }
}

// Puts the peers, which have records, into one more set with this role and these addresses.
pub(super) fn enrol<C: PublicKey>(
    records: &mut Records<C>,
    peers: Vec<(C, Address)>,
    is_primary: bool,
)
    requires { IsStrictlySortedBy C.cmp (keys_of peers.items) }
    ensures each { (q : C) → lookup (is_at (C.cmp q)) records.new.entries
        ≡ enters is_primary (lookup (λ p. is_at (C.cmp p) q) peers.items) (lookup (is_at (C.cmp q)) records.old.entries) }
    ensures rules { HasRules records.old.private records.old.dns records.new }
{
    for (peer, address) in peers {
        records.enter(&peer, address, is_primary);
    }
}

// Takes the peers out of a set in which they had this role, and forgets those that nothing needs then.
pub(super) fn retire<C: PublicKey>(records: &mut Records<C>, peers: &[C], is_primary: bool)
    requires { IsStrictlySortedBy C.cmp peers.now }
    ensures each { (q : C) → lookup (is_at (C.cmp q)) records.new.entries ≡ leaves is_primary (is_among C.cmp peers.now q) (lookup (is_at (C.cmp q)) records.old.entries) }
    ensures rules { HasRules records.old.private records.old.dns records.new }
{
    for peer in peers {
        records.leave(peer, is_primary);
    }
}

// Makes a record for each peer of the set that has none. Where memory runs out, those that nothing needs are forgotten.
pub(super) fn make_room<C: PublicKey>(
    records: &mut Records<C>,
    set: &TrackedSet<C>,
) -> Result<(), AllocError>
    ensures made { OnOk result ((q : C) → lookup (is_at (C.cmp q)) records.new.entries
        ≡ blanked (is_among C.cmp set.now.secondary q) (blanked (is_among C.cmp set.now.primary q) (lookup (is_at (C.cmp q)) records.old.entries))) }
    ensures memory { OnErr result ((q : C) → lookup (is_at (C.cmp q)) records.new.entries
        ≡ swept (is_among C.cmp set.now.primary q) (swept (is_among C.cmp set.now.secondary q) (lookup (is_at (C.cmp q)) records.old.entries))) }
    ensures rules { HasRules records.old.private records.old.dns records.new }
{
    if make_both(records, set).is_err() {
        sweep(records, set.secondary.as_slice());
        sweep(records, set.primary.as_slice());
        return Err(AllocError);
    }
    Ok(())
}

fn make_both<C: PublicKey>(records: &mut Records<C>, set: &TrackedSet<C>) -> Result<(), AllocError>
    ensures made { OnOk result ((q : C) → lookup (is_at (C.cmp q)) records.new.entries
        ≡ blanked (is_among C.cmp set.now.secondary q) (blanked (is_among C.cmp set.now.primary q) (lookup (is_at (C.cmp q)) records.old.entries))) }
    ensures memory { OnErr result ((q : C) → swept (is_among C.cmp set.now.primary q) (swept (is_among C.cmp set.now.secondary q) (lookup (is_at (C.cmp q)) records.new.entries))
        ≡ swept (is_among C.cmp set.now.primary q) (swept (is_among C.cmp set.now.secondary q) (lookup (is_at (C.cmp q)) records.old.entries))) }
    ensures rules { HasRules records.old.private records.old.dns records.new }
{
    make_blanks(records, set.primary.as_slice())?;
    make_blanks(records, set.secondary.as_slice())
}

// Takes the peers of a set that is kept no longer out of it, if there is one.
pub(super) fn retire_set<C: PublicKey>(records: &mut Records<C>, fallen: Option<TrackedSet<C>>)
    ensures each { (q : C) → lookup (is_at (C.cmp q)) records.new.entries
        ≡ retired (lookup (is_at (C.cmp q)) records.old.entries) (is_primary_of C.cmp fallen q) (is_secondary_of C.cmp fallen q) }
    ensures rules { HasRules records.old.private records.old.dns records.new }
{
    if let Some(set) = fallen {
        retire(records, set.primary.as_slice(), true);
        retire(records, set.secondary.as_slice(), false);
    }
}
