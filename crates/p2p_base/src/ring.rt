//! `Ring`, a queue that overwrites its oldest item when it is full.
ghost use Rattle.std.specs.Prelude.{◌≡◌, ◌==◌, ◌≤◌, length, IfOk};
ghost use Rattle.p2p_base.specs.Queue.{empty_queue, push_answer, pushed_on, oldest, without_oldest, closed_queue};

use crate::Pushed;
use circular_buffer::HeapCircularBuffer;
use std::alloc::{AllocError, Global};
use std::marker::Model;

/// A queue of at most `capacity` items, which overwrites its oldest item when it is full.
///
/// Ports `ring` of commonware-p2p's `commonware-utils`, with one value for both of its halves.
#[derive(Drop, Debug)]
pub struct Ring<T> {
    items: HeapCircularBuffer<T>,
    closed: bool,
}

impl<T> Model for Ring<T> {
    ghost use Rattle.std.specs.Prelude.{◌≤◌, length};
    ghost use Rattle.p2p_base.specs.Queue.{Queue, queue_code};

    ghost Value = { Queue T };

    ghost coded = { queue_code T.code };

    ghost view = { λ r. record { items = r.items.items; capacity = r.items.capacity; closed = r.closed } };

    ghost invariant = { λ r. (1 ≤ r.items.capacity) × (length r.items.items ≤ r.items.capacity) };
}

impl<T> Ring<T> {
    /// An empty ring, with room for `capacity` items.
    pub fn new(alloc: Global, capacity: usize) -> Result<Ring<T>, AllocError>
        requires { 1 ≤ capacity }
        ensures { IfOk result (λ r. r ≡ empty_queue capacity) }
    {
        let items = HeapCircularBuffer::with_capacity(alloc, capacity)?;
        Ok(Ring {
            items,
            closed: false,
        })
    }

    /// How many items wait.
    pub fn len(&self) -> usize
        ensures len { result ≡ length self.now.items }
        ensures within { result ≤ self.now.capacity }
    {
        self.items.len()
    }

    /// Whether no item waits.
    pub fn is_empty(&self) -> bool
        ensures { result ≡ (length self.now.items == 0) }
    {
        self.items.is_empty()
    }

    /// Whether the ring is closed.
    pub fn is_closed(&self) -> bool
        ensures { result ≡ self.now.closed }
    {
        self.closed
    }

    /// Puts an item last, and hands out the oldest one where the ring is full. It takes no memory.
    pub fn send_lossy(&mut self, item: T) -> Pushed<T>
        ensures answer { result ≡ push_answer self.old item }
        ensures after { self.new ≡ pushed_on self.old item }
    {
        if self.closed {
            return Pushed::Closed(item);
        }
        match self.items.push_back(item) {
            None => Pushed::Kept,
            Some(oldest) => Pushed::Replaced(oldest),
        }
    }

    /// Removes the oldest item. `None` exactly where none waits.
    pub fn try_recv(&mut self) -> Option<T>
        ensures value { result ≡ oldest self.old }
        ensures after { self.new ≡ without_oldest self.old }
    {
        self.items.pop_front()
    }
}

impl<T: Drop> Ring<T> {
    /// Closes the ring and drops what waits.
    pub fn close(&mut self)
        ensures { self.new ≡ closed_queue self.old }
    {
        self.items.clear();
        self.closed = true;
    }
}
