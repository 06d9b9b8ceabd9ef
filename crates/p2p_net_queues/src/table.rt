//! `Table`, a map from numbers that contracts see as the list of its entries.
ghost use Rattle.std.specs.Prelude.{◌≡◌, ◌==◌, ℕ, [], ◌∷◌, ◌++◌, None, cond, length, slice_get, is_some, IfOk, OnOk, IfSome, IfNone};
ghost use Rattle.std.specs.List.Sorted.{IsStrictlySortedBy};
ghost use Rattle.std.specs.Map.{keys_of};
ghost use Rattle.std.specs.BTreeMap.{insert_entry};
ghost use Rattle.std.specs.Ordering.{nat_cmp};
ghost use Rattle.std.specs.Borrow.{sem};
ghost use Rattle.std.specs.Option.{option_copied, option_copied_mut};
ghost use Rattle.p2p_net_queues.specs.Lends.{lends_at};
ghost use Rattle.p2p_net_queues.specs.Meters.{answer_at, checked_at};
ghost use Rattle.p2p_net_queues.specs.Tables.{at, waiting, pushed_at, popped_at, cleared_at};

use crate::Deque;
use p2p_runtime::KeyedRateLimiter;
use std::alloc::{AllocError, Global};
use std::collections::BTreeMap;
use std::marker::Model;

/// A map from numbers to values.
#[derive(Drop)]
pub struct Table<V> {
    tree: BTreeMap<u64, V>,
}

impl<V> Model for Table<V> {
    ghost use Rattle.std.specs.Prelude.{ℕ, List as Seq};
    ghost use Rattle.std.specs.Coded.{coded_list, coded×, coded_ℕ};

    ghost Value = { Seq (ℕ × V) };

    ghost coded = { coded_list (coded× coded_ℕ V.code) };

    ghost view = { λ t. t.tree.entries };
}

impl<V: Drop> Table<V> {
    /// An empty table, which takes no memory.
    pub fn new(alloc: Global) -> Table<V>
        ensures { result ≡ [] }
    {
        Table {
            tree: BTreeMap::new(alloc),
        }
    }

    /// Whether a key has a value.
    pub fn has(&self, key: u64) -> bool
        ensures { result ≡ is_some (at self.now key) }
    {
        self.tree.contains_key(&key)
    }

    /// Gives a key a value, in the place of what it had.
    pub fn insert(&mut self, key: u64, value: V) -> Result<(), AllocError>
        ensures { OnOk result (self.new ≡ insert_entry nat_cmp self.old key value) }
    {
        self.tree.insert(key, value)?;
        Ok(())
    }

    /// Takes the value of a key out. The other keys keep theirs.
    pub fn remove(&mut self, key: u64) -> Option<V>
        ensures value { result ≡ at self.old key }
        ensures rest { (k : ℕ) → at self.new k ≡ cond (k == key) None (at self.old k) }
    {
        self.tree.remove(&key)
    }

    /// Takes the first key out, with its value.
    pub fn pop_first(&mut self) -> Option<(u64, V)>
        ensures taken { IfSome result (λ e. self.old ≡ e ∷ self.new) }
        ensures empty { IfNone result (self.old ≡ []) }
        ensures unchanged { IfNone result (self.new ≡ []) }
        ensures ordered { IsStrictlySortedBy nat_cmp (keys_of self.old) }
    {
        // A map says that its keys are in order where it says how many they are.
        let _ = self.tree.len();
        self.tree.pop_first()
    }

    /// The value of a key, where it stands.
    pub fn find(&self, key: u64) -> Option<&V>
        ensures { option_copied result ≡ at self.now key }
    {
        self.tree.get(&key)
    }

    /// The value of a key, to be changed where it stands.
    pub fn find_mut(&mut self, key: u64) -> Option<&mut V>
        ensures* writes_back { sem 𝓛 (lends_at V.row self.entry key result) }
        ensures value { option_copied_mut result ≡ at self.old key }
    {
        self.tree.get_mut(&key)
    }
}

impl<V: Copy> Table<V> {
    /// The value of a key.
    pub fn get(&self, key: u64) -> Option<V>
        ensures { result ≡ at self.now key }
    {
        self.tree.get(&key).copied()
    }
}

impl<T: Drop> Table<Deque<T>> {
    /// Puts an item last in the queue of a key.
    pub fn push_at(&mut self, alloc: Global, key: u64, item: T) -> Result<(), AllocError>
        ensures { OnOk result (self.new ≡ pushed_at self.old key item) }
    {
        match self.tree.get_mut(&key) {
            Some(line) => {
                line.push(item)?;
                Ok(())
            }
            None => {
                let mut line = Deque::new(alloc);
                line.push(item)?;
                self.tree.insert(key, line)?;
                Ok(())
            }
        }
    }

    /// Takes the oldest item of the queue of a key.
    pub fn pop_at(&mut self, key: u64) -> Option<T>
        ensures first { result ≡ slice_get (waiting self.old key) 0 }
        ensures rest { self.new ≡ popped_at self.old key }
    {
        match self.tree.get_mut(&key) {
            Some(line) => line.pop(),
            None => None,
        }
    }

    /// Takes all items of the queue of a key, the oldest first.
    pub fn take_all_at(&mut self, alloc: Global, key: u64) -> Deque<T>
        ensures all { result ≡ waiting self.old key }
        ensures rest { self.new ≡ cleared_at self.old key }
    {
        match self.tree.get_mut(&key) {
            Some(line) => line.take_all(alloc),
            None => Deque::new(alloc),
        }
    }

    /// The oldest item of the queue of a key.
    pub fn front_at(&self, key: u64) -> Option<&T>
        ensures { option_copied result ≡ slice_get (waiting self.now key) 0 }
    {
        match self.tree.get(&key) {
            Some(line) => line.front(),
            None => None,
        }
    }

    /// How many items the queue of a key holds.
    pub fn len_at(&self, key: u64) -> usize
        ensures { result ≡ length (waiting self.now key) }
    {
        match self.tree.get(&key) {
            Some(line) => line.len(),
            None => 0,
        }
    }
}

impl<K: Ord + Copy> Table<KeyedRateLimiter<K>> {
    /// Asks the quota at a key of the table for one more of `who` at the moment `now`, in nanoseconds. What is admitted counts
    /// from then on. Where one is refused, the inner `Err` is the moment from which one is admitted, or 0 where there is no
    /// quota.
    ///
    /// `Err` only where there is no memory. The node that owns the table goes no further then.
    pub fn check_at(&mut self, key: u64, who: K, now: u64) -> Result<Result<(), u128>, AllocError>
        ensures answer { IfOk result (λ a. a ≡ answer_at K.cmp self.old key who now) }
        ensures after { OnOk result (self.new ≡ checked_at K.cmp self.old key who now) }
    {
        match self.tree.get_mut(&key) {
            Some(limiter) => {
                let answer = limiter.check_key(&who, now)?;
                Ok(answer)
            }
            None => Ok(Err(0)),
        }
    }
}
