//! What a directory tells of one peer, and of one of its sets, without memory.
ghost use Rattle.std.specs.Prelude.{◌≡◌, ◌||◌, length, List, slice_get, is_some};
ghost use Rattle.std.specs.Map.{lookup};
ghost use Rattle.std.specs.BTreeMap.{is_at};
ghost use Rattle.std.specs.Option.{option_map};
ghost use Rattle.p2p_address.specs.Addresses.{is_valid};
ghost use Rattle.p2p_tracker_calls.specs.Blocks.{is_local, block_of};
ghost use Rattle.p2p_tracker_calls.specs.Lives.{is_alive};
ghost use Rattle.p2p_tracker_calls.specs.Sets.{kept_sets};
ghost use Rattle.p2p_tracker_calls.specs.declared.call.Call.{Call};
ghost use Rattle.p2p_tracker_directory.specs.Stands.{StandsFor};
ghost use Rattle.p2p_tracker_directory.specs.Waiting.{waits_from, waits_from_in, next_dial_of};

use crate::{Directory, Record};
use p2p_address::Ingress;
use p2p_base::PublicKey;

// From when the peer of a record is listed for a dial.
fn waits_from(known: &Record) -> Option<u128>
    ensures { result ≡ waits_from known.now }
{
    if known.is_blockable() && known.primary_sets() > 0 && !known.is_reserved_or_connected() {
        return Some(known.next_dial());
    }
    None
}

impl<C: PublicKey> Directory<C> {
    /// Whether `peer` is the directory's own key.
    pub fn is_own(&self, peer: &C) -> bool
        ensures { result ≡ is_local C.cmp self.now.rules peer.now }
    {
        self.local.cmp(peer).is_eq()
    }

    /// Whether this directory's rules let an ingress be dialed.
    pub fn allows(&self, ingress: &Ingress) -> bool
        ensures { result ≡ is_valid self.now.rules.private self.now.rules.dns ingress.now }
    {
        ingress.is_valid(self.cfg.allow_private_ips, self.cfg.allow_dns)
    }

    /// Whether the directory has a record of `peer`: it is its own key, or another's in a set that is kept, or held.
    pub fn knows(&self, peer: &C) -> bool
        ensures value { result ≡ is_some (lookup (is_at (C.cmp peer.now)) self.now.records) }
        ensures exactly { (calls : List (Call C)) → StandsFor C.cmp self.now calls
            → result ≡ (is_local C.cmp self.now.rules peer.now || is_alive C.cmp self.now.rules calls peer.now) }
    {
        self.has_record(peer)
    }

    fn has_record(&self, peer: &C) -> bool
        ensures { result ≡ is_some (lookup (is_at (C.cmp peer.now)) self.now.records) }
    {
        self.records.get(peer).is_some()
    }

    /// When the last block of `peer` that took effect ends. `None` exactly where none did, or it was taken away since.
    pub fn blocked_until(&self, peer: &C) -> Option<u128>
        ensures value { result ≡ lookup (is_at (C.cmp peer.now)) self.now.blocks }
        ensures exactly { (calls : List (Call C)) → StandsFor C.cmp self.now calls → result ≡ block_of C.cmp self.now.rules calls peer.now }
    {
        self.blocks.get(peer)
    }

    /// From which moment on `peer` may be listed for a dial, wherever it is dialed. `None` exactly where it is the directory's own key,
    /// is primary in no set that is kept, or is held.
    pub fn next_dial(&self, peer: &C) -> Option<u128>
        ensures value { result ≡ waits_from_in (lookup (is_at (C.cmp peer.now)) self.now.records) }
        ensures exactly { (calls : List (Call C)) → StandsFor C.cmp self.now calls → result ≡ next_dial_of C.cmp self.now.rules calls peer.now }
    {
        self.waits_from(peer)
    }

    // The same by its record.
    fn waits_from(&self, peer: &C) -> Option<u128>
        ensures { result ≡ waits_from_in (lookup (is_at (C.cmp peer.now)) self.now.records) }
    {
        match self.records.get(peer) {
            Some(record) => waits_from(record),
            None => None,
        }
    }

    /// How many sets are kept.
    pub fn set_count(&self) -> usize
        ensures value { result ≡ length self.now.sets }
        ensures exactly { (calls : List (Call C)) → StandsFor C.cmp self.now calls → result ≡ length (kept_sets C.cmp self.now.rules calls) }
    {
        self.sets.len()
    }

    /// The index of the kept set at a place, the newest at place 0. `None` exactly where fewer are kept.
    pub fn set_index(&self, place: usize) -> Option<u64>
        ensures value { result ≡ option_map (λ s. s.index) (slice_get self.now.sets place) }
        ensures exactly { (calls : List (Call C)) → StandsFor C.cmp self.now calls
            → result ≡ option_map (λ s. s.index) (slice_get (kept_sets C.cmp self.now.rules calls) place) }
    {
        self.index_at(place)
    }

    // The same by what is kept.
    fn index_at(&self, place: usize) -> Option<u64>
        ensures { result ≡ option_map (λ s. s.index) (slice_get self.now.sets place) }
    {
        match self.sets.get(place) {
            Some(set) => Some(set.index),
            None => None,
        }
    }
}
