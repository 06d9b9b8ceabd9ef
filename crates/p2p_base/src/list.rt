//! `List`, the list of plain data.
ghost use Rattle.std.specs.Prelude.{◌≡◌, ◌==◌, [], ◌∷◌, ◌++◌, length, IfOk, IfErr, OnOk, OnErr};
ghost use Rattle.std.specs.Cmp.Lexicographic.{pointwise, lists_per, lists_equiv};
ghost use Rattle.std.specs.List.{AllZip};

use std::alloc::{AllocError, AllocFailed, Global};
use std::fmt::{self, Debug, Formatter, Write};
use std::marker::Model;

/// A `Vec` that a contract sees as the plain list of its elements.
///
/// It is what the public fields of plain data hold. It keeps the allocator of the `Vec` that it is made of.
#[derive(Drop)]
pub struct List<T> {
    inner: Vec<T>,
}

impl<T> Model for List<T> {
    ghost use Rattle.std.specs.Prelude.{List as Seq};
    ghost use Rattle.std.specs.Coded.{coded_list};

    ghost Value = { Seq T };

    ghost coded = { coded_list T.code };

    ghost view = { λ l. l.inner.items };
}

impl<T> List<T> {
    /// The list of the elements of `inner`, which keeps its allocator.
    pub fn new(inner: Vec<T>) -> List<T>
        ensures { result ≡ inner.items }
    {
        List { inner }
    }

    /// An empty list, which takes no memory.
    pub fn empty(alloc: Global) -> List<T>
        ensures { result ≡ [] }
    {
        List {
            inner: Vec::new(alloc),
        }
    }

    /// The elements, in order.
    pub fn as_slice(&self) -> &[T]
        ensures { result.now ≡ self.now }
    {
        self.inner.as_slice()
    }

    /// The `Vec` that holds the elements.
    pub fn into_inner(self) -> Vec<T>
        ensures { result.items ≡ self }
    {
        let List { inner } = self;
        inner
    }

    /// Adds an element at the end. Where there is no memory, the element comes back and the list is as before.
    pub fn push(&mut self, item: T) -> Result<(), AllocFailed<T>>
        ensures ok { OnOk result (self.new ≡ self.old ++ item ∷ []) }
        ensures err { OnErr result (self.new ≡ self.old) }
        ensures value_returned { IfErr result (λ y. y.value ≡ item) }
    {
        self.inner.push(item)
    }

    /// How many elements there are.
    pub fn len(&self) -> usize
        ensures { result ≡ length self.now }
    {
        self.inner.len()
    }

    /// Whether there is no element.
    pub fn is_empty(&self) -> bool
        ensures { result ≡ (length self.now == 0) }
    {
        self.inner.is_empty()
    }
}

impl<T: Copy> List<T> {
    /// A list with the elements of `items`.
    pub fn from_slice(alloc: Global, items: &[T]) -> Result<List<T>, AllocError>
        ensures { IfOk result (λ l. l ≡ items.now) }
    {
        let inner = Vec::from_slice(alloc, items)?;
        Ok(List { inner })
    }

    /// An equal list, of elements that are `Copy`.
    pub fn try_clone(&self, alloc: Global) -> Result<List<T>, AllocError>
        ensures { IfOk result (λ l. l ≡ self.now) }
    {
        List::from_slice(alloc, self.as_slice())
    }
}

impl<T: Clone> Clone for List<T> {
    ghost is_clone = { λ l m. AllZip T.is_clone l m };

    fn clone(&self) -> Result<List<T>, AllocError> {
        let inner = Vec::from_clones(*self.inner.allocator(), self.inner.as_slice())?;
        Ok(List { inner })
    }
}

impl<T: PartialEq> PartialEq for List<T> {
    ghost eq = { λ l m. pointwise T.eq l m };

    ghost laws = { lists_per T.laws };

    fn eq(&self, other: &List<T>) -> bool {
        self.inner.as_slice() == other.inner.as_slice()
    }
}

impl<T: Eq> Eq for List<T> {
    ghost laws = { lists_equiv T.Eq.laws };
}

/// It prints as a slice does.
impl<T: Debug> Debug for List<T> {
    fn fmt<W: Write>(&self, f: &mut Formatter<W>) -> fmt::Result {
        self.inner.as_slice().fmt(f)
    }
}
