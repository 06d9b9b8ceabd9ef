//! `PrioritySet`, keys that leave in the order of their moments.
ghost use Rattle.std.specs.Prelude.{◌≡◌, ◌≤◌, [], Some, None, OnOk, OnErr, IfSome, if◌then◌else◌};
ghost use Rattle.std.specs.Map.{lookup};
ghost use Rattle.std.specs.BTreeMap.{is_at, insert_entry};
ghost use Rattle.p2p_base.specs.Moments.{soonest, without};

use crate::PublicKey;
use std::alloc::{AllocError, Global};
use std::collections::btree_map::Iter;
use std::collections::{BTreeMap, BTreeSet};
use std::marker::Model;

/// Keys, each with a moment.
///
/// Ports `PrioritySet` of commonware-p2p's `commonware-utils`. Each call takes logarithmic time.
#[derive(Drop, Debug)]
pub struct PrioritySet<P: PublicKey> {
    moments: BTreeMap<P, u128>,
    queue: BTreeSet<(u128, P)>,
}

impl<P: PublicKey> Model for PrioritySet<P> {
    ghost use Rattle.std.specs.Prelude.{List as Seq, ℕ};
    ghost use Rattle.std.specs.Coded.{coded_list, coded×, coded_ℕ};

    ghost Value = { Seq (P × ℕ) };

    ghost coded = { coded_list (coded× P.code coded_ℕ) };

    ghost use Rattle.p2p_base.specs.Moments.{Mirrors};

    ghost view = { λ s. s.moments.entries };

    ghost invariant = { λ s. Mirrors P.cmp s.queue s.moments };
}

impl<P: PublicKey> PrioritySet<P> {
    /// A set of no keys, which takes no memory.
    pub fn new(alloc: Global) -> PrioritySet<P>
        ensures { result ≡ [] }
    {
        PrioritySet {
            moments: BTreeMap::new(alloc),
            queue: BTreeSet::new(alloc),
        }
    }

    /// Gives `key` the moment `at`, in place of the one that it has.
    pub fn put(&mut self, key: P, at: u128) -> Result<(), AllocError>
        ensures after { OnOk result (self.new ≡ insert_entry P.cmp self.old key at) }
        ensures each { OnOk result ((q : P) → lookup (is_at (P.cmp q)) self.new
            ≡ (if is_at (P.cmp key) q then Some at else lookup (is_at (P.cmp q)) self.old)) }
        ensures memory { OnErr result (self.new ≡ self.old) }
    {
        self.queue.insert((at, key))?;
        match self.moments.insert(key, at) {
            Ok(Some(before)) => {
                if before != at {
                    self.queue.remove(&(before, key));
                }
                Ok(())
            }
            Ok(None) => Ok(()),
            Err(_) => {
                self.queue.remove(&(at, key));
                Err(AllocError)
            }
        }
    }

    /// The moment of `key`. `None` exactly where it has none.
    pub fn get(&self, key: &P) -> Option<u128>
        ensures { result ≡ lookup (is_at (P.cmp key.now)) self.now }
    {
        self.moments.get(key).copied()
    }

    /// The keys with their moments, in key order.
    pub fn iter(&self) -> Iter<'_, P, u128>
        ensures { result ≡ self.now }
    {
        self.moments.iter()
    }

    /// The key of the least moment, with that moment. Of keys with equal moments the least comes first. `None` exactly where
    /// there is no key.
    pub fn peek(&self) -> Option<(P, u128)>
        ensures value { result ≡ soonest self.now }
        ensures least { IfSome result (λ e. (q : P) → IfSome (lookup (is_at (P.cmp q)) self.now) (λ t. e.1 ≤ t)) }
    {
        let Some((_, key)) = self.queue.first() else {
            return None;
        };
        match self.moments.get_key_value(key) {
            Some((key, at)) => Some((*key, *at)),
            None => None,
        }
    }

    /// Removes what `peek` gives.
    pub fn pop(&mut self) -> Option<(P, u128)>
        ensures value { result ≡ soonest self.old }
        ensures after { self.new ≡ without P.cmp (soonest self.old) self.old }
        ensures least { IfSome result (λ e. (q : P) → IfSome (lookup (is_at (P.cmp q)) self.old) (λ t. e.1 ≤ t)) }
        ensures each { IfSome result (λ e. (q : P) → lookup (is_at (P.cmp q)) self.new
            ≡ (if is_at (P.cmp e.0) q then None else lookup (is_at (P.cmp q)) self.old)) }
    {
        let Some(first) = self.queue.pop_first() else {
            return None;
        };
        self.moments.remove_entry(&first.1)
    }
}
