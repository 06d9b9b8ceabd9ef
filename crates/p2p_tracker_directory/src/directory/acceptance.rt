//! What a peer set that is accepted does.
ghost use Rattle.std.specs.Prelude.{◌≡◌, ◌∷◌, true, false, List, Option, IfOk, OnOk, OnErr};
ghost use Rattle.std.specs.List.Sorted.{IsStrictlySortedBy};
ghost use Rattle.std.specs.Map.{lookup, keys_of};
ghost use Rattle.std.specs.BTreeMap.{is_at};
ghost use Rattle.p2p_address.specs.declared.peer.Address.{Address as PeerAddress};
ghost use Rattle.p2p_tracker_calls.specs.Sets.{PeerSet, set_of, only_secondary};
ghost use Rattle.p2p_tracker_calls.specs.declared.call.Call.{Call};
ghost use Rattle.p2p_tracker_calls.specs.declared.call.Call.TheVariants as call;
ghost use Rattle.p2p_tracker_directory.specs.Indexed.{HasRules};
ghost use Rattle.p2p_tracker_directory.specs.Prepared.{TakenIn};
ghost use Rattle.p2p_tracker_directory.specs.Tracked.{Fell, enters, is_above_latest};
ghost use Rattle.p2p_tracker_directory.specs.Stands.{StandsFor};

use crate::directory::Directory;
use crate::directory::enrolment::{enrol, make_room, retire_set};
use crate::directory::kills::killed;
use crate::directory::newcomers::{Newcomers, prepare};
use crate::directory::records::Records;
use crate::directory::sets::{TrackedSet, falling, take_oldest};
use p2p_address::Address;
use p2p_base::{Map, PublicKey, Set};
use std::alloc::AllocError;

// Puts the newcomers, which have records, into one more set, and gives that set.
fn take_up<C: PublicKey>(records: &mut Records<C>, newcomers: Newcomers<C>) -> TrackedSet<C>
    requires primary { IsStrictlySortedBy C.cmp (keys_of newcomers.primary.items) }
    requires secondary { IsStrictlySortedBy C.cmp (keys_of newcomers.secondary.items) }
    ensures set { result ≡ newcomers.set }
    ensures records { (q : C) → lookup (is_at (C.cmp q)) records.new.entries
        ≡ enters false (lookup (λ p. is_at (C.cmp p) q) newcomers.secondary.items) (enters true (lookup (λ p. is_at (C.cmp p) q) newcomers.primary.items) (lookup (is_at (C.cmp q)) records.old.entries)) }
    ensures rules { HasRules records.old.private records.old.dns records.new }
{
    enrol(records, newcomers.primary, true);
    enrol(records, newcomers.secondary, false);
    newcomers.set
}

impl<C: PublicKey> Directory<C> {
    // Keeps the newcomers' set as the newest one, and the oldest one no longer where there were as many as are kept.
    fn admit(&mut self, index: u64, newcomers: Newcomers<C>) -> Result<(), AllocError>
        requires next { is_above_latest index self.old.latest ≡ true }
        requires primary { IsStrictlySortedBy C.cmp (keys_of newcomers.primary.items) }
        requires secondary { IsStrictlySortedBy C.cmp (keys_of newcomers.secondary.items) }
        ensures fell { OnOk result ((fallen : Option (PeerSet C)) × Fell self.old.rules.max_sets (newcomers.set ∷ self.old.sets) self.new.sets fallen) }
        ensures rules { self.new.rules ≡ self.old.rules }
        ensures stands { OnOk result ((calls : List (Call C)) (primary secondary : List (C × PeerAddress)) → StandsFor C.cmp self.old calls
            → newcomers.set ≡ set_of C.cmp index primary secondary → newcomers.primary.items ≡ primary → newcomers.secondary.items ≡ only_secondary C.cmp primary secondary
            → StandsFor C.cmp self.new (call.Track index primary secondary ∷ calls)) }
        ensures memory { OnErr result ((calls : List (Call C)) → StandsFor C.cmp self.old calls → StandsFor C.cmp self.new calls) }
    {
        self.sets.reserve(1)?;
        make_room(&mut self.records, &newcomers.set)?;
        let set = take_up(&mut self.records, newcomers);
        self.sets.push_front_reserved(set);
        self.latest = Some(index);
        let oldest = take_oldest(&mut self.sets, self.cfg.max_sets);
        retire_set(&mut self.records, oldest);
        Ok(())
    }

    // Whether a peer set of this index would be accepted.
    fn is_next(&self, index: u64) -> bool
        ensures { result ≡ is_above_latest index self.now.latest }
    {
        match self.latest {
            Some(latest) => latest < index,
            None => true,
        }
    }

    // Takes in the peer set of an index, where it is accepted, and gives the peers to kill. `None` exactly where it isn't.
    pub(super) fn take_in(
        &mut self,
        index: u64,
        primary: &Map<C, Address>,
        secondary: &Map<C, Address>,
    ) -> Result<Option<Set<C>>, AllocError>
        ensures taken { IfOk result (λ o. TakenIn C.cmp self.old self.new index primary.now secondary.now o) }
        ensures rules { self.new.rules ≡ self.old.rules }
        ensures memory { OnErr result ((calls : List (Call C)) → StandsFor C.cmp self.old calls → StandsFor C.cmp self.new calls) }
    {
        if !self.is_next(index) {
            return Ok(None);
        }
        let newcomers = prepare(self.alloc, index, primary, secondary)?;
        let set = &newcomers.set;
        let fallen = falling(&self.sets, self.cfg.max_sets, set);
        let kills = killed(self.alloc, &self.records, primary, secondary, set, fallen)?;
        self.admit(index, newcomers)?;
        Ok(Some(kills))
    }
}
