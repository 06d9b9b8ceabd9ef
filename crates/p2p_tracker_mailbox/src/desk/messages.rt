//! `Messages`, the messages that wait for a tracker, of which the oldest can be looked at.
ghost use Rattle.std.specs.Prelude.{◌≡◌, ◌≤◌, ℕ, IfOk, OnOk, OnErr};
ghost use Rattle.std.specs.Option.{option_copied};
ghost use Rattle.p2p_base.specs.Queue.{empty_queue, enqueued, oldest, without_oldest, closed_queue};
ghost use Rattle.p2p_base.specs.declared.policy.Keep.TheVariants.{Append};
ghost use Rattle.p2p_tracker_mailbox.specs.Desk.{told_by};

use crate::OracleMessage;
use p2p_base::{Feedback, Mailbox as Queue, UnreliablePolicy};
use std::alloc::{AllocError, Global};
use std::marker::Model;
use std::mem::replace;

// The messages that wait for a tracker. The oldest stands apart, where it can be looked at: a queue only gives its oldest away.
#[derive(Drop)]
pub(crate) struct Messages<M> {
    oldest: Option<M>,
    others: Queue<M>,
}

impl<M> Model for Messages<M> {
    ghost use Rattle.std.specs.Prelude.{◌≡◌, None, []};
    ghost use Rattle.std.specs.List.{cons_option};
    ghost use Rattle.p2p_base.specs.Queue.{Queue as Queued, queue_code};

    ghost Value = { Queued M };

    ghost coded = { queue_code M.code };

    ghost view = { λ m. record { items = cons_option m.oldest m.others.items; capacity = m.others.capacity; closed = m.others.closed } };

    ghost invariant = { λ m. m.oldest ≡ None → m.others.items ≡ [] };
}

impl<M> Messages<M> {
    // None waits, and there are `size` ready places.
    pub(crate) fn new(alloc: Global, size: usize) -> Result<Messages<M>, AllocError>
        requires { 1 ≤ size }
        ensures { IfOk result (λ m. m ≡ empty_queue size) }
    {
        let others = Queue::new(alloc, size)?;
        Ok(Messages {
            oldest: None,
            others,
        })
    }

    // Whether the tracker has ended.
    pub(crate) fn is_closed(&self) -> bool
        ensures { result ≡ self.now.closed }
    {
        self.others.is_closed()
    }

    // The oldest message. `None` exactly where none waits.
    pub(crate) fn oldest(&self) -> Option<&M>
        ensures { option_copied result ≡ oldest self.now }
    {
        self.oldest.as_ref()
    }

    // Removes the oldest message. `None` exactly where none waits.
    pub(crate) fn take(&mut self) -> Option<M>
        ensures value { result ≡ oldest self.old }
        ensures after { self.new ≡ without_oldest self.old }
    {
        let next = self.others.take();
        replace(&mut self.oldest, next)
    }

    // What one more message is told.
    fn told(&self) -> Feedback
        ensures { result ≡ told_by self.now }
    {
        if self.others.is_closed() {
            return Feedback::Closed;
        }
        let capacity = self.others.capacity();
        if self.oldest.is_none() || self.others.len() < capacity - 1 {
            return Feedback::Ok;
        }
        Feedback::Backoff
    }
}

impl<M: OracleMessage> Messages<M> {
    // Tells that the tracker has ended, and drops what waits.
    pub(crate) fn close(&mut self)
        ensures { self.new ≡ closed_queue self.old }
    {
        self.oldest = None;
        self.others.close();
    }

    // Puts a message last, and tells what became of it. Where the tracker has ended the message is dropped.
    pub(crate) fn put(&mut self, message: M) -> Result<Feedback, AllocError>
        ensures told { IfOk result (λ f. f ≡ told_by self.old) }
        ensures after { OnOk result (self.new ≡ enqueued Append self.old message) }
        ensures memory { OnErr result (self.new ≡ self.old) }
    {
        let told = self.told();
        if self.oldest.is_none() && !self.others.is_closed() {
            self.oldest = Some(message);
            return Ok(told);
        }
        enqueue(&mut self.others, message)?;
        Ok(told)
    }
}

// Puts an item as its policy says. One that isn't kept is dropped.
fn enqueue<T: UnreliablePolicy + Drop>(queue: &mut Queue<T>, item: T) -> Result<(), AllocError>
    ensures after { OnOk result (queue.new ≡ enqueued (T.keep_of item) queue.old item) }
    ensures memory { OnErr result (queue.new ≡ queue.old) }
{
    match queue.enqueue(item) {
        Ok(_) => Ok(()),
        Err(_) => Err(AllocError),
    }
}
