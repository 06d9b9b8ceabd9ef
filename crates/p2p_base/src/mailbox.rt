//! `Mailbox`, a queue of messages with a number of ready places and an overflow.
ghost use Rattle.std.specs.Prelude.{◌≡◌, ◌==◌, ◌≤◌, ◌<◌, ◌^◌, ◌∷◌, ◌++◌, [], ℕ, List, length, take, drop, slice_get, is_some, true, IfOk, IfErr, OnOk, OnErr, IsOk, IsTrue};
ghost use Rattle.p2p_base.specs.Queue.{empty_queue, enqueue_answer, enqueued, appended_to, keeps, oldest, without_oldest, closed_queue};
ghost use Rattle.p2p_base.specs.Ready.{most_ready, in_ring, IsReady, HasPlace};
ghost use Rattle.p2p_base.specs.declared.policy.Keep.TheVariants as how;

use crate::{Keep, NoRoom, Sent, UnreliablePolicy};
use circular_buffer::HeapCircularBuffer;
use std::alloc::{AllocError, Global};
use std::collections::VecDeque;
use std::marker::Model;

/// The greatest capacity of which all ready places are made at once.
const MOST_READY: usize = 65_536;

/// A queue of messages. The oldest `capacity` of them stand in the ready places, and the others in the overflow.
///
/// Ports `mailbox` of commonware-p2p's `commonware-actor`, with one value for both of its halves. Up to a capacity of 65,536 the
/// ready places are one ring that `new` makes, and only the overflow takes memory later. Beyond it memory grows with what waits.
#[derive(Drop, Debug)]
pub struct Mailbox<T> {
    // The ready places, where they are made at once.
    ring: Option<HeapCircularBuffer<T>>,
    // The overflow, and the ready places too where there is no ring.
    messages: VecDeque<T>,
    capacity: usize,
    closed: bool,
}

impl<T> Model for Mailbox<T> {
    ghost use Rattle.std.specs.Prelude.{◌≤◌, ◌++◌};
    ghost use Rattle.p2p_base.specs.Queue.{Queue, queue_code};
    ghost use Rattle.p2p_base.specs.Ready.{in_ring, IsReady};

    ghost Value = { Queue T };

    ghost coded = { queue_code T.code };

    ghost view = { λ m. record { items = in_ring m.ring ++ m.messages.items; capacity = m.capacity; closed = m.closed } };

    ghost invariant = { λ m. (1 ≤ m.capacity) × IsReady m.ring m.messages.items m.capacity };
}

impl<T> Mailbox<T> {
    /// An empty mailbox with `capacity` ready places, which are made at once where they are at most 65,536.
    ///
    /// `Err` only where memory runs out.
    pub fn new(alloc: Global, capacity: usize) -> Result<Mailbox<T>, AllocError>
        requires { 1 ≤ capacity }
        ensures { IfOk result (λ m. m ≡ empty_queue capacity) }
    {
        let ring = ring_of(alloc, capacity)?;
        Ok(Mailbox {
            ring,
            messages: VecDeque::new(alloc),
            capacity,
            closed: false,
        })
    }

    /// How many messages wait.
    pub fn len(&self) -> usize
        ensures { result ≡ length self.now.items }
    {
        ready_len(&self.ring) + self.messages.len()
    }

    /// Whether no message waits.
    pub fn is_empty(&self) -> bool
        ensures { result ≡ (length self.now.items == 0) }
    {
        self.len() == 0
    }

    /// How many ready places there are.
    pub fn capacity(&self) -> usize
        ensures capacity { result ≡ self.now.capacity }
        ensures at_least_one { 1 ≤ result }
    {
        self.capacity
    }

    /// Whether the mailbox is closed.
    pub fn is_closed(&self) -> bool
        ensures { result ≡ self.now.closed }
    {
        self.closed
    }

    /// Removes the oldest message. `None` exactly where none waits.
    pub fn take(&mut self) -> Option<T>
        ensures value { result ≡ oldest self.old }
        ensures after { self.new ≡ without_oldest self.old }
    {
        let Some(ring) = &mut self.ring else {
            return self.messages.pop_front();
        };
        take_ready(ring, &mut self.messages)
    }
}

impl<T: Drop> Mailbox<T> {
    /// Moves `messages`, which no full mailbox refuses, behind what waits, in order: where the ready places are full, into the
    /// overflow. A closed mailbox drops them.
    ///
    /// `Err` only where there is no memory for all of them, and nothing has moved then.
    pub fn append(&mut self, messages: &mut VecDeque<T>) -> Result<(), AllocError>
        ensures after { OnOk result (self.new ≡ appended_to self.old messages.old.items) }
        ensures taken { OnOk result (messages.new.items ≡ []) }
        ensures memory { OnErr result (self.new ≡ self.old) }
        ensures left { OnErr result (messages.new.items ≡ messages.old.items) }
    {
        if self.closed {
            messages.clear();
            return Ok(());
        }
        self.messages.append(messages)?;
        if let Some(ring) = &mut self.ring {
            refill(ring, &mut self.messages);
        }
        Ok(())
    }

    /// Closes the mailbox and drops what waits.
    pub fn close(&mut self)
        ensures { self.new ≡ closed_queue self.old }
    {
        if let Some(ring) = &mut self.ring {
            ring.clear();
        }
        self.messages.clear();
        self.closed = true;
    }
}

impl<T: UnreliablePolicy> Mailbox<T> {
    /// Puts a message last, where it has a place or may overflow. A closed mailbox hands it back first.
    ///
    /// `NoRoom` hands the message back where there is no memory for it, and the mailbox stays as it was. It never comes of a message
    /// that refuses the overflow where the capacity is at most 65,536.
    pub fn enqueue(&mut self, message: T) -> Result<Sent<T>, NoRoom<T>>
        ensures answer { IfOk result (λ s. s ≡ enqueue_answer (T.keep_of message) self.old message) }
        ensures after { OnOk result (self.new ≡ enqueued (T.keep_of message) self.old message) }
        ensures no_room { IfErr result (λ e. (e.0 ≡ message) × (self.new ≡ self.old)) }
        ensures memory { OnErr result (IsTrue (keeps (T.keep_of message) self.old)) }
        ensures fixed { T.keep_of message ≡ how.Refuse → self.old.capacity ≤ most_ready → IsOk result }
    {
        if self.closed {
            return Ok(Sent::Closed(message));
        }
        if self.len() < self.capacity {
            put_ready(&mut self.ring, &mut self.messages, message)?;
            return Ok(Sent::Ok);
        }
        match message.keep() {
            Keep::Refuse => Ok(Sent::Rejected(message)),
            Keep::Append => {
                push_last(&mut self.messages, message)?;
                Ok(Sent::Backoff)
            }
            Keep::Replace => {
                let ready = self.capacity - ready_len(&self.ring);
                push_behind(&mut self.messages, ready, message)?;
                Ok(Sent::Backoff)
            }
        }
    }
}

// A ring of all ready places, where it is made at once.
fn ring_of<T>(alloc: Global, capacity: usize) -> Result<Option<HeapCircularBuffer<T>>, AllocError>
    ensures empty { IfOk result (λ r. in_ring r ≡ []) }
    ensures ready { IfOk result (λ r. IsReady r [] capacity) }
{
    if capacity > MOST_READY {
        return Ok(None);
    }
    let ring = HeapCircularBuffer::with_capacity(alloc, capacity)?;
    Ok(Some(ring))
}

// How many messages stand in the ring, if there is one.
fn ready_len<T>(ring: &Option<HeapCircularBuffer<T>>) -> usize
    ensures len { result ≡ length (in_ring ring.now) }
    ensures fits { result < 2 ^ 63 }
    ensures within { (others : List T) (n : ℕ) → IsReady ring.now others n → result ≤ n }
{
    match ring {
        Some(ring) => ring.len(),
        None => 0,
    }
}

// Moves messages of the list into the free places of the ring, in order.
fn refill<T>(ring: &mut HeapCircularBuffer<T>, messages: &mut VecDeque<T>)
    ensures same { ring.new.items ++ messages.new.items ≡ ring.old.items ++ messages.old.items }
    ensures capacity { ring.new.capacity ≡ ring.old.capacity }
    ensures full { length ring.new.items < ring.new.capacity → messages.new.items ≡ [] }
{
    while ring.len() < ring.capacity() {
        let Some(oldest) = messages.pop_front() else {
            return;
        };
        if let Err(back) = ring.try_push_back(oldest) {
            messages.push_front_reserved(back);
            return;
        }
    }
}

// Takes the oldest message, and moves the oldest one of the list into the place that is free then.
fn take_ready<T>(ring: &mut HeapCircularBuffer<T>, messages: &mut VecDeque<T>) -> Option<T>
    requires places { 1 ≤ ring.old.capacity }
    requires full { length ring.old.items < ring.old.capacity → messages.old.items ≡ [] }
    ensures value { result ≡ slice_get (ring.old.items ++ messages.old.items) 0 }
    ensures after { ring.new.items ++ messages.new.items ≡ drop 1 (ring.old.items ++ messages.old.items) }
    ensures capacity { ring.new.capacity ≡ ring.old.capacity }
    ensures full { length ring.new.items < ring.new.capacity → messages.new.items ≡ [] }
{
    let oldest = ring.pop_front();
    refill(ring, messages);
    oldest
}

// Puts `message` into a ready place.
fn put_ready<T>(
    ring: &mut Option<HeapCircularBuffer<T>>,
    messages: &mut VecDeque<T>,
    message: T,
) -> Result<(), NoRoom<T>>
    requires { HasPlace ring.old messages.old.items }
    ensures after { OnOk result (in_ring ring.new ++ messages.new.items ≡ (in_ring ring.old ++ messages.old.items) ++ message ∷ []) }
    ensures ready { OnOk result ((n : ℕ) → IsReady ring.old messages.old.items n → IsReady ring.new messages.new.items n) }
    ensures no_room { IfErr result (λ e. (e.0 ≡ message) × (ring.new ≡ ring.old) × (messages.new.items ≡ messages.old.items)) }
    ensures fixed { is_some ring.old ≡ true → IsOk result }
{
    let Some(ring) = ring else {
        return push_last(messages, message);
    };
    match ring.try_push_back(message) {
        Ok(()) => Ok(()),
        Err(back) => Err(NoRoom(back)),
    }
}

// Puts `message` last.
fn push_last<T>(messages: &mut VecDeque<T>, message: T) -> Result<(), NoRoom<T>>
    ensures after { OnOk result (messages.new.items ≡ messages.old.items ++ message ∷ []) }
    ensures no_room { IfErr result (λ e. (e.0 ≡ message) × (messages.new.items ≡ messages.old.items)) }
{
    match messages.push_back(message) {
        Ok(()) => Ok(()),
        Err(failed) => Err(NoRoom(failed.value)),
    }
}

// Keeps the first `ready` messages, and puts `message` behind them.
fn push_behind<T: Drop>(
    messages: &mut VecDeque<T>,
    ready: usize,
    message: T,
) -> Result<(), NoRoom<T>>
    requires { ready ≤ length messages.old.items }
    ensures after { OnOk result (messages.new.items ≡ take ready messages.old.items ++ message ∷ []) }
    ensures no_room { IfErr result (λ e. (e.0 ≡ message) × (messages.new.items ≡ messages.old.items)) }
{
    // Where this takes a message away, a place is free and no memory is wanted.
    messages.truncate(ready);
    if messages.reserve(1).is_err() {
        return Err(NoRoom(message));
    }
    messages.push_back_reserved(message);
    Ok(())
}
