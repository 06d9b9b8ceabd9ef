//! `Map`, values under keys in order.
ghost use Rattle.std.specs.Prelude.{◌≡◌, ◌==◌, ◌&&◌, [], length, position, true, false, Err, IfOk, OnOk};
ghost use Rattle.std.specs.Option.{option_copied};
ghost use Rattle.std.specs.List.{AllZip};
ghost use Rattle.std.specs.List.Sorted.{IsStrictlySortedBy};
ghost use Rattle.std.specs.Cmp.{and_per, on_per};
ghost use Rattle.std.proofs.lemmas.Cmp.{and_equiv, on_equiv};
ghost use Rattle.std.specs.Cmp.Lexicographic.{pointwise, lists_per, lists_equiv};
ghost use Rattle.std.specs.Map.{keys_of, values_of, lookup};
ghost use Rattle.std.specs.BTreeMap.{is_at};
ghost use Rattle.p2p_base.specs.Sorted.{sorted_once, has_repeat, by_key};
ghost use Rattle.p2p_base.specs.declared.set_error.SetError.TheVariants as set_error;

use crate::{PublicKey, Set, SetError};
use std::alloc::{AllocError, Global};
use std::marker::Model;

/// Values under keys in order, each key once.
///
/// Ports `Map` of commonware-p2p's `commonware-utils`. It keeps the allocator of the `Vec` that it is made of.
#[derive(Drop, Debug)]
pub struct Map<P: PublicKey, V> {
    keys: Set<P>,
    values: Vec<V>,
}

impl<P: PublicKey, V> Model for Map<P, V> {
    ghost use Rattle.std.specs.Prelude.{◌≡◌, List as Seq, length};
    ghost use Rattle.std.specs.Coded.{coded_list, coded×};
    ghost use Rattle.std.specs.List.{zip};

    ghost Value = { Seq (P × V) };

    ghost coded = { coded_list (coded× P.code V.code) };

    ghost view = { λ m. zip m.keys m.values.items };

    ghost invariant = { λ m. length m.values.items ≡ length m.keys };
}

impl<P: PublicKey, V> Map<P, V> {
    /// An empty map, which takes no memory.
    pub fn empty(alloc: Global) -> Map<P, V>
        ensures { result ≡ [] }
    {
        Map {
            keys: Set::empty(alloc),
            values: Vec::new(alloc),
        }
    }

    /// The values of `pairs` under their keys, each of which stands there once.
    ///
    /// `Duplicate` comes exactly where a key repeats, and `Memory` of want of memory.
    pub fn try_from(mut pairs: Vec<(P, V)>) -> Result<Map<P, V>, SetError>
    where
        V: Drop,
        ensures ok { IfOk result (λ m. m ≡ sorted_once (by_key P.cmp) pairs.items) }
        ensures distinct { OnOk result (has_repeat (by_key P.cmp) pairs.items ≡ false) }
        ensures duplicate { result ≡ Err set_error.Duplicate → has_repeat (by_key P.cmp) pairs.items ≡ true }
    {
        pairs.sort_by_key(|pair| pair.0)?;
        let given = pairs.len();
        let (mut keys, values) = split(pairs)?;
        keys.dedup();
        if keys.len() < given {
            return Err(SetError::Duplicate);
        }
        let keys = Set::of_ascending(keys);
        Ok(Map { keys, values })
    }

    /// The keys, in order.
    pub fn keys(&self) -> &[P]
        ensures keys { result.now ≡ keys_of self.now }
        ensures sorted { IsStrictlySortedBy P.cmp result.now }
    {
        self.keys.as_slice()
    }

    /// The values, in the order of their keys.
    pub fn values(&self) -> &[V]
        ensures { result.now ≡ values_of self.now }
    {
        self.values.as_slice()
    }

    /// The set of the keys. The values are dropped.
    pub fn into_keys(self) -> Set<P>
    where
        V: Drop,
        ensures { result ≡ keys_of self }
    {
        let Map { keys, values } = self;
        drop(values);
        keys
    }

    /// How many keys there are.
    pub fn len(&self) -> usize
        ensures { result ≡ length self.now }
    {
        self.keys.len()
    }

    /// Whether there is no key.
    pub fn is_empty(&self) -> bool
        ensures { result ≡ (length self.now == 0) }
    {
        self.len() == 0
    }

    /// The place of `key`, in logarithmic time. `None` exactly where it isn't in the map.
    pub fn position(&self, key: &P) -> Option<usize>
        ensures { result ≡ position (is_at (P.cmp key.now)) (keys_of self.now) }
    {
        self.keys.position(key)
    }

    /// The value under `key`, in logarithmic time. `None` exactly where it isn't in the map.
    pub fn get(&self, key: &P) -> Option<&V>
        ensures { option_copied result ≡ lookup (is_at (P.cmp key.now)) self.now }
    {
        match self.keys.position(key) {
            Some(place) => Some(&self.values[place]),
            None => None,
        }
    }
}

impl<P: PublicKey, V: Clone> Clone for Map<P, V> {
    ghost is_clone = { λ m n. AllZip (λ a b. (b.0 ≡ a.0) × V.is_clone a.1 b.1) m n };

    fn clone(&self) -> Result<Map<P, V>, AllocError> {
        let keys = self.keys.try_clone()?;
        let values = Vec::from_clones(*self.values.allocator(), self.values.as_slice())?;
        Ok(Map { keys, values })
    }
}

impl<P: PublicKey, V: PartialEq> PartialEq for Map<P, V> {
    ghost eq = { λ m n. pointwise (λ a b. P.eq a.0 b.0 && V.eq a.1 b.1) m n };

    ghost laws = { lists_per (and_per (on_per (λ e. e.0) P.PartialEq.laws) (on_per (λ e. e.1) V.PartialEq.laws)) };

    fn eq(&self, other: &Map<P, V>) -> bool {
        self.keys == other.keys && self.values.as_slice() == other.values.as_slice()
    }
}

impl<P: PublicKey, V: Eq> Eq for Map<P, V> {
    ghost laws = { lists_equiv (and_equiv (on_equiv (λ e. e.0) P.Eq.laws) (on_equiv (λ e. e.1) V.Eq.laws)) };
}

// The first and the second parts of the pairs.
fn split<P, V: Drop>(pairs: Vec<(P, V)>) -> Result<(Vec<P>, Vec<V>), AllocError>
where
    P: Drop,
    ensures keys { IfOk result (λ r. r.0.items ≡ keys_of pairs.items) }
    ensures values { IfOk result (λ r. r.1.items ≡ values_of pairs.items) }
{
    let alloc = *pairs.allocator();
    let mut keys = Vec::with_capacity(alloc, pairs.len())?;
    let mut values = Vec::with_capacity(alloc, pairs.len())?;
    for (key, value) in pairs {
        keys.push(key)?;
        values.push(value)?;
    }
    Ok((keys, values))
}
