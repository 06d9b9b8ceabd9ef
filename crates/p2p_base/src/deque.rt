//! `Deque`, a queue that contracts see as the plain list of its items.
ghost use Rattle.std.specs.Prelude.{◌≡◌, [], ◌∷◌, ◌++◌, length, drop, slice_get, OnOk, OnErr};
ghost use Rattle.std.specs.Option.{option_copied};
ghost use Rattle.std.specs.List.{remove};

use std::alloc::{AllocError, Global};
use std::collections::VecDeque;
use std::marker::Model;
use std::mem::replace;

/// The items of a queue, the oldest first.
#[derive(Drop)]
pub struct Deque<T> {
    items: VecDeque<T>,
}

impl<T> Model for Deque<T> {
    ghost use Rattle.std.specs.Prelude.{List as Seq};
    ghost use Rattle.std.specs.Coded.{coded_list};

    ghost Value = { Seq T };

    ghost coded = { coded_list T.code };

    ghost view = { λ d. d.items.items };
}

impl<T: Drop> Deque<T> {
    /// An empty queue, which takes no memory.
    pub fn new(alloc: Global) -> Deque<T>
        ensures { result ≡ [] }
    {
        Deque {
            items: VecDeque::new(alloc),
        }
    }

    /// Puts an item last.
    ///
    /// `Err` only where there is no memory for it: it is dropped then, and the queue stays as it was.
    pub fn push(&mut self, item: T) -> Result<(), AllocError>
        ensures after { OnOk result (self.new ≡ self.old ++ item ∷ []) }
        ensures memory { OnErr result (self.new ≡ self.old) }
    {
        self.items.push_back(item)?;
        Ok(())
    }

    /// Takes the oldest item. `None` exactly where there is none.
    pub fn pop(&mut self) -> Option<T>
        ensures first { result ≡ slice_get self.old 0 }
        ensures rest { self.new ≡ drop 1 self.old }
    {
        self.items.pop_front()
    }

    /// Takes all items, the oldest first.
    pub fn take_all(&mut self, alloc: Global) -> Deque<T>
        ensures all { result ≡ self.old }
        ensures rest { self.new ≡ [] }
    {
        Deque {
            items: replace(&mut self.items, VecDeque::new(alloc)),
        }
    }

    /// The items, the oldest first.
    pub fn into_inner(self) -> VecDeque<T>
        ensures { result.items ≡ self }
    {
        let Deque { items } = self;
        items
    }

    /// Takes the item at a place, counted from the oldest. The others stay in their order.
    pub fn remove(&mut self, place: usize) -> Option<T>
        ensures item { result ≡ slice_get self.old place }
        ensures rest { self.new ≡ remove self.old place }
    {
        self.items.remove(place)
    }

    /// The oldest item.
    pub fn front(&self) -> Option<&T>
        ensures { option_copied result ≡ slice_get self.now 0 }
    {
        self.items.front()
    }

    /// How many items there are.
    pub fn len(&self) -> usize
        ensures { result ≡ length self.now }
    {
        self.items.len()
    }
}
