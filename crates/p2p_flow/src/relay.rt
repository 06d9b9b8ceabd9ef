//! `Relay`, the two queues of messages towards one connection.
ghost use Rattle.std.specs.Prelude.{◌≡◌, ◌≤◌, length, IfOk, IfErr, OnOk, OnErr, IsTrue};
ghost use Rattle.p2p_base.specs.Queue.{oldest, without_oldest};
ghost use Rattle.p2p_flow.specs.Lanes.{empty_lanes, send_answer, sent_on, takes_in, closed_lanes};

use crate::refusing::{self, Refusing};
use p2p_base::{Mailbox, NoRoom, Sent};
use std::alloc::{AllocError, Global};
use std::marker::Model;

/// The messages that wait for one connection: those with priority, and those without.
///
/// Each of the two has `size` places and refuses a message when they are taken.
///
/// Ports `Relay` of commonware-p2p, and its `Receivers`, as one value.
#[derive(Drop)]
pub struct Relay<T> {
    high: Mailbox<Refusing<T>>,
    low: Mailbox<Refusing<T>>,
}

impl<T> Model for Relay<T> {
    ghost use Rattle.std.specs.Prelude.{◌≡◌};
    ghost use Rattle.p2p_flow.specs.Lanes.{Lanes, lanes_code};

    ghost Value = { Lanes T };

    ghost coded = { lanes_code T.code };

    ghost view = { λ r. record { high = r.high; low = r.low } };

    ghost invariant = { λ r. (r.low.capacity ≡ r.high.capacity) × (r.low.closed ≡ r.high.closed) };
}

impl<T> Relay<T> {
    /// How many places each of the two queues has.
    pub fn capacity(&self) -> usize
        ensures high { result ≡ self.now.high.capacity }
        ensures low { result ≡ self.now.low.capacity }
    {
        self.high.capacity()
    }

    /// Whether the relay is closed.
    pub fn is_closed(&self) -> bool
        ensures high { result ≡ self.now.high.closed }
        ensures low { result ≡ self.now.low.closed }
    {
        self.high.is_closed()
    }

    /// How many messages with priority wait.
    pub fn high_len(&self) -> usize
        ensures { result ≡ length self.now.high.items }
    {
        self.high.len()
    }

    /// How many messages without priority wait.
    pub fn low_len(&self) -> usize
        ensures { result ≡ length self.now.low.items }
    {
        self.low.len()
    }

    /// Removes the oldest message with priority. `None` exactly where none waits.
    pub fn take_high(&mut self) -> Option<T>
        ensures value { result ≡ oldest self.old.high }
        ensures after { self.new ≡ record self.old { high = without_oldest self.old.high } }
    {
        refusing::take(&mut self.high)
    }

    /// Removes the oldest message without priority. `None` exactly where none waits.
    pub fn take_low(&mut self) -> Option<T>
        ensures value { result ≡ oldest self.old.low }
        ensures after { self.new ≡ record self.old { low = without_oldest self.old.low } }
    {
        refusing::take(&mut self.low)
    }
}

impl<T: Drop> Relay<T> {
    /// An empty relay, with `size` places with priority and as many without.
    pub fn new(alloc: Global, size: usize) -> Result<Relay<T>, AllocError>
        requires { 1 ≤ size }
        ensures { IfOk result (λ r. r ≡ empty_lanes size) }
    {
        let high = Mailbox::new(alloc, size)?;
        let low = Mailbox::new(alloc, size)?;
        Ok(Relay { high, low })
    }

    /// Puts a message last in the queue of its priority. A closed relay hands it back first, and a full queue refuses it.
    ///
    /// `NoRoom` hands the message back where there is no memory for it, and the relay stays as it was.
    pub fn send(&mut self, message: T, priority: bool) -> Result<Sent<T>, NoRoom<T>>
        ensures answer { IfOk result (λ s. s ≡ send_answer self.old message priority) }
        ensures after { OnOk result (self.new ≡ sent_on self.old message priority) }
        ensures no_room { IfErr result (λ e. (e.0 ≡ message) × (self.new ≡ self.old)) }
        ensures memory { OnErr result (IsTrue (takes_in self.old priority)) }
    {
        if priority {
            refusing::put(&mut self.high, message)
        } else {
            refusing::put(&mut self.low, message)
        }
    }

    /// Closes the relay and drops what waits.
    pub fn close(&mut self)
        ensures { self.new ≡ closed_lanes self.old }
    {
        self.high.close();
        self.low.close();
    }
}
