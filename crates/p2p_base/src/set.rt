//! `Set`, the keys of a list in order.
ghost use Rattle.std.specs.Prelude.{◌≡◌, ◌==◌, [], length, position, true, false, Err, IfOk, OnOk};
ghost use Rattle.std.specs.List.Sorted.{IsStrictlySortedBy};
ghost use Rattle.std.specs.Cmp.Lexicographic.{pointwise, lists_per, lists_equiv};
ghost use Rattle.std.specs.BTreeMap.{is_at};
ghost use Rattle.p2p_base.specs.Sorted.{sorted_once, has_repeat};
ghost use Rattle.p2p_base.specs.declared.set_error.SetError.TheVariants as set_error;

use crate::{PublicKey, SetError};
use std::alloc::{AllocError, Global};
use std::marker::Model;

/// Keys in order, each of them once.
///
/// Ports `Set` of commonware-p2p's `commonware-utils`. It keeps the allocator of the `Vec` that it is made of.
#[derive(Drop, Debug)]
pub struct Set<P: PublicKey> {
    keys: Vec<P>,
}

impl<P: PublicKey> Model for Set<P> {
    ghost use Rattle.std.specs.Prelude.{List as Seq};
    ghost use Rattle.std.specs.Coded.{coded_list};
    ghost use Rattle.std.specs.List.Sorted.{IsStrictlySortedBy};

    ghost Value = { Seq P };

    ghost coded = { coded_list P.code };

    ghost view = { λ s. s.keys.items };

    ghost invariant = { λ s. IsStrictlySortedBy P.cmp s.keys.items };
}

impl<P: PublicKey> Set<P> {
    /// An empty set, which takes no memory.
    pub fn empty(alloc: Global) -> Set<P>
        ensures { result ≡ [] }
    {
        Set {
            keys: Vec::new(alloc),
        }
    }

    /// The set of `keys`, each of them once. Of equal keys it keeps the first.
    pub fn from_iter_dedup(mut keys: Vec<P>) -> Result<Set<P>, AllocError>
        ensures { IfOk result (λ s. s ≡ sorted_once P.cmp keys.items) }
    {
        keys.sort()?;
        keys.dedup();
        Ok(Set { keys })
    }

    /// The set of `keys`, each of which stands there once.
    ///
    /// `Duplicate` comes exactly where a key repeats, and `Memory` of want of memory.
    pub fn try_from(keys: Vec<P>) -> Result<Set<P>, SetError>
        ensures ok { IfOk result (λ s. s ≡ sorted_once P.cmp keys.items) }
        ensures distinct { OnOk result (has_repeat P.cmp keys.items ≡ false) }
        ensures duplicate { result ≡ Err set_error.Duplicate → has_repeat P.cmp keys.items ≡ true }
    {
        let given = keys.len();
        let set = Set::from_iter_dedup(keys)?;
        if set.len() < given {
            return Err(SetError::Duplicate);
        }
        Ok(set)
    }

    // The set of keys that ascend already.
    pub(crate) fn of_ascending(keys: Vec<P>) -> Set<P>
        requires { IsStrictlySortedBy P.cmp keys.items }
        ensures { result ≡ keys.items }
    {
        Set { keys }
    }

    /// The keys, in order.
    pub fn as_slice(&self) -> &[P]
        ensures keys { result.now ≡ self.now }
        ensures sorted { IsStrictlySortedBy P.cmp result.now }
    {
        self.keys.as_slice()
    }

    /// How many keys there are.
    pub fn len(&self) -> usize
        ensures { result ≡ length self.now }
    {
        self.keys.len()
    }

    /// Whether there is no key.
    pub fn is_empty(&self) -> bool
        ensures { result ≡ (length self.now == 0) }
    {
        self.keys.is_empty()
    }

    /// The place of `key`, in logarithmic time. `None` exactly where it isn't in the set.
    pub fn position(&self, key: &P) -> Option<usize>
        ensures { result ≡ position (is_at (P.cmp key.now)) self.now }
    {
        self.keys.as_slice().binary_search(key).ok()
    }

    /// An equal set.
    pub fn try_clone(&self) -> Result<Set<P>, AllocError>
        ensures { IfOk result (λ s. s ≡ self.now) }
    {
        let keys = Vec::from_slice(*self.keys.allocator(), self.keys.as_slice())?;
        Ok(Set { keys })
    }
}

impl<P: PublicKey> Clone for Set<P> {
    ghost is_clone = { λ s t. t ≡ s };

    fn clone(&self) -> Result<Set<P>, AllocError> {
        self.try_clone()
    }
}

impl<P: PublicKey> PartialEq for Set<P> {
    ghost eq = { λ s t. pointwise P.eq s t };

    ghost laws = { lists_per P.PartialEq.laws };

    fn eq(&self, other: &Set<P>) -> bool {
        self.keys.as_slice() == other.keys.as_slice()
    }
}

impl<P: PublicKey> Eq for Set<P> {
    ghost laws = { lists_equiv P.Eq.laws };
}
