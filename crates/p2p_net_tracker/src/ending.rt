//! What a connection that ends takes with it of what it was told, and that its peer is free.
ghost use Rattle.std.specs.Prelude.{◌≡◌, [], ◌∷◌, ◌++◌, drop, length, slice_get, is_some, IfOk, OnOk, if◌then◌else◌};
ghost use Rattle.p2p_log.specs.declared.queue.Queue.{Queue as Name};
ghost use Rattle.p2p_log.specs.declared.queue.Queue.TheVariants as queue;
ghost use Rattle.p2p_log.specs.QueueCode.{same_queue};
ghost use Rattle.p2p_net_queues.specs.Board.{held, items_in};
ghost use Rattle.p2p_tracker_directory.specs.Reserved.{peer_of};
ghost use Rattle.p2p_tracker_mailbox.specs.Mailboxes.{with_message_in};
ghost use Rattle.p2p_tracker_mailbox.specs.declared.message.Message.TheVariants as message;
ghost use Rattle.p2p_net_tracker.specs.Ending.{dropped_row, noted_with, released_by, releasing_row};

use crate::tracker::Tracker;
use p2p_base::{Key, NoRoom};
use p2p_log::{Cause, Envelope, Item, Queue};
use p2p_log_rules::Row;
use p2p_net_queues::{Deque, Turn, drop_items};
use p2p_tracker::Mailbox;
use p2p_tracker_directory::Reservation;
use std::alloc::{AllocError, Global};
use std::collections::VecDeque;

/// Puts these items last, in order.
fn gather_all(all: &mut Deque<Envelope>, items: VecDeque<Envelope>) -> Result<(), AllocError>
    ensures { OnOk result (all.new ≡ all.old ++ items.items) }
{
    for item in items {
        all.push(item)?;
    }
    Ok(())
}

/// The items of a line, where there is one.
fn gather(alloc: Global, line: Option<VecDeque<Envelope>>) -> Result<Deque<Envelope>, AllocError>
    ensures { IfOk result (λ all. all ≡ items_in line) }
{
    let mut all = Deque::new(alloc);
    if let Some(items) = line {
        gather_all(&mut all, items)?;
    }
    Ok(all)
}

/// Gives a reservation back to the tracker. Its key is the answer.
fn give_back(mailbox: &mut Mailbox<Key>, reserved: Reservation<Key>) -> Result<Key, AllocError>
    ensures key { IfOk result (λ k. k ≡ peer_of reserved) }
    ensures mailbox { OnOk result (mailbox.new ≡ with_message_in mailbox.old (message.Release reserved)) }
{
    let key = *reserved.metadata().public_key();
    match mailbox.release(reserved) {
        Ok(_) => Ok(key),
        Err(NoRoom(_)) => Err(AllocError),
    }
}

impl Tracker {
    /// Whether anything waits of what a connection of this node was told, which is that it is to end.
    pub fn kills_wait(&self, node: u64, conn: u64) -> bool
        ensures { result ≡ is_some (slice_get (held self.now.told (queue.Control node conn)) 0) }
    {
        self.told.front(Queue::Control { node, conn }).is_some()
    }

    /// Takes the oldest of what a connection was told, which is that it is to end. `None` exactly where nothing waits for it.
    pub fn take_kill(&mut self, turn: Turn, conn: u64) -> Option<Envelope>
        ensures oldest { result ≡ slice_get (held self.old.told (queue.Control turn.node conn)) 0 }
        ensures told { (q : Name) → held self.new.told q
            ≡ (if same_queue (queue.Control turn.node conn) q then drop 1 (held self.old.told q) else held self.old.told q) }
        ensures rest { self.new ≡ record self.old { told = self.new.told } }
    {
        let node = turn.node;
        self.told.pop(Queue::Control { node, conn })
    }

    /// Ends all that a connection was told and did not take, with the connection: the oldest first, each with its copies.
    ///
    /// `Err` only where there is no memory. Some of it may then be gone and missing in the row, and its node goes no further.
    pub fn drop_control(&mut self, turn: Turn, conn: u64, row: &mut Row) -> Result<(), AllocError>
        ensures row { OnOk result (row.new ≡ dropped_row (held self.old.told (queue.Control turn.node conn)) row.old) }
        ensures told { OnOk result ((q : Name) → held self.new.told q
            ≡ (if same_queue (queue.Control turn.node conn) q then [] else held self.old.told q)) }
        ensures rest { OnOk result (self.new ≡ record self.old { told = self.new.told }) }
    {
        let node = turn.node;
        let line = self.told.take_all(Queue::Control { node, conn });
        let left = gather(turn.alloc, line)?;
        drop_items(row, left, Cause::ConnectionEnded)?;
        Ok(())
    }

    /// Gives the reservation of a connection that has ended back to the tracker, as the row's next put. From then on the tracker
    /// puts no kill of the connection. What its mailbox makes of the message is not told: it keeps it also where it is full.
    ///
    /// `Err` only where there is no memory. The message may then wait without its name, or the connection still be one that can be
    /// killed, and its node goes no further.
    pub fn release(
        &mut self,
        turn: Turn,
        conn: u64,
        reserved: Reservation<Key>,
        row: &mut Row,
    ) -> Result<(), AllocError>
        ensures row { OnOk result (row.new ≡ releasing_row turn.node (peer_of reserved) row.old) }
        ensures after { OnOk result (self.new ≡ released_by turn.entry (length row.old.puts) conn reserved self.old) }
    {
        let key = give_back(&mut self.mailbox, reserved)?;
        self.names.push((turn.entry, row.puts.len() as u64))?;
        row.puts
            .push((Queue::Tracker(turn.node), Item::Release(key)))?;
        self.note_ended(conn)?;
        Ok(())
    }

    /// A connection of the node has ended: from now on the tracker puts no kill of it.
    ///
    /// `Err` only where there is no memory.
    pub fn note_ended(&mut self, conn: u64) -> Result<(), AllocError>
        ensures { OnOk result (self.new ≡ record self.old { ended = noted_with conn self.old.ended }) }
    {
        self.ended.insert(conn, ())?;
        Ok(())
    }
}
