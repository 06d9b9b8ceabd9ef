//! Whether the calls that have a condition may be made.
ghost use Rattle.std.specs.Prelude.{◌≡◌};
ghost use Rattle.std.specs.List.Sorted.{IsStrictlySortedBy};
ghost use Rattle.std.specs.Map.{lookup, keys_of};
ghost use Rattle.std.specs.BTreeMap.{is_at};
ghost use Rattle.p2p_tracker_directory.specs.Recorded.{is_reserved_in, is_held_or_unknown};

use crate::Directory;
use p2p_base::PublicKey;

impl<C: PublicKey> Directory<C> {
    /// States that the records stand in the order of their keys. It does nothing.
    pub fn stands_in_order(&self)
        ensures { IsStrictlySortedBy C.cmp (keys_of self.now.records) }
    {
        self.records.stand_in_order();
    }

    /// Whether `connect` may be called for this peer: it is reserved, and its connection hasn't begun.
    pub fn may_connect(&self, peer: &C) -> bool
        ensures { result ≡ is_reserved_in (lookup (is_at (C.cmp peer.now)) self.now.records) }
    {
        match self.records.get(peer) {
            Some(record) => record.is_reserved(),
            None => false,
        }
    }

    /// Whether `release` may be called for this peer: it is held, or the directory doesn't know of it.
    pub fn may_release(&self, peer: &C) -> bool
        ensures { result ≡ is_held_or_unknown (lookup (is_at (C.cmp peer.now)) self.now.records) }
    {
        match self.records.get(peer) {
            Some(record) => record.is_reserved_or_connected(),
            None => true,
        }
    }
}
