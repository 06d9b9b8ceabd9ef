//! What a plain directory tells of where peers are dialed.
ghost use Rattle.std.specs.Prelude.{◌≡◌, ◌++◌, [], cond, length, is_some, List, IfOk, OnOk};
ghost use Rattle.std.specs.Option.{option_map, option_to_list, option_copied};
ghost use Rattle.p2p_tracker_calls.specs.Sets.{set_at, kept_sets};
ghost use Rattle.p2p_discovery_directory.specs.declared.call.Call.{Call};
ghost use Rattle.p2p_discovery_directory.specs.AsLookup.{lookup_calls};
ghost use Rattle.p2p_discovery_directory.specs.Gossip.{bit_vec_of, known_by, unknown_by};
ghost use Rattle.p2p_discovery_directory.specs.Plain.{Represents, info_at};

use crate::PlainDirectory;
use crate::plain::places::kept_at;
use p2p_base::{List, PublicKey};
use p2p_discovery::{BitVec, Info};
use std::alloc::AllocError;

impl<P: PublicKey> PlainDirectory<P> {
    // What is kept of a peer.
    pub(super) fn kept(&self, peer: &P) -> Option<&Info<P>>
        ensures { option_copied result ≡ info_at P.cmp self.now peer.now }
    {
        if self.peers.is_own(peer) {
            return Some(&self.own);
        }
        kept_at(&self.places, peer)
    }

    // Whether an info of a peer is kept.
    fn is_known(&self, peer: &P) -> bool
        ensures { result ≡ is_some (info_at P.cmp self.now peer.now) }
    {
        self.kept(peer).is_some()
    }

    // A bit for each key: set exactly where an info of it is kept.
    pub(super) fn known(&self, keys: &[P]) -> Result<Vec<bool>, AllocError>
        ensures { IfOk result (λ v. v.items ≡ known_by (λ q. info_at P.cmp self.now q) keys.now) }
    {
        let mut bits = Vec::new(self.alloc);
        for key in keys {
            bits.push(self.is_known(key))?;
        }
        Ok(bits)
    }

    // The bit vector of the set of an index, if one is kept.
    pub(super) fn bit_vec_of(&self, index: u64) -> Result<Option<BitVec>, AllocError>
        ensures { IfOk result (λ o. (calls : List (Call P)) → Represents P.cmp self.now calls
            → o ≡ option_map (bit_vec_of P.cmp self.now.peers.rules self.now.own calls) (set_at index (kept_sets P.cmp self.now.peers.rules (lookup_calls calls)))) }
    {
        let Some(peers) = self.peers.get_peer_set(index)? else {
            return Ok(None);
        };
        let keys = peers.union(self.alloc)?;
        let bits = self.known(keys.as_slice())?;
        Ok(Some(BitVec {
            index,
            bits: List::new(bits),
        }))
    }

    // What is kept of the keys whose bit isn't set.
    pub(super) fn unknown(&self, bits: &[bool], keys: &[P]) -> Result<Vec<Info<P>>, AllocError>
        requires { length bits.now ≡ length keys.now }
        ensures { IfOk result (λ v. v.items ≡ unknown_by (λ q. info_at P.cmp self.now q) bits.now keys.now) }
    {
        let mut told = Vec::new(self.alloc);
        for (place, key) in keys.iter().enumerate() {
            self.tell(bits[place], key, &mut told)?;
        }
        Ok(told)
    }

    // Adds what is kept of a key, if its bit isn't set.
    fn tell(&self, bit: bool, key: &P, told: &mut Vec<Info<P>>) -> Result<(), AllocError>
        ensures { OnOk result (told.new.items ≡ told.old.items ++ cond bit [] (option_to_list (info_at P.cmp self.now key.now))) }
    {
        if bit {
            return Ok(());
        }
        if let Some(info) = self.kept(key) {
            let info = info.try_clone(self.alloc)?;
            told.push(info)?;
        }
        Ok(())
    }
}
