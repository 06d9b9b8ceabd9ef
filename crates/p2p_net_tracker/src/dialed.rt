//! What a node's dialer and its listener took of what they were told, and what they, the attempts and the handshakes asked.
ghost use Rattle.std.specs.Prelude.{◌≡◌, ◌++◌, ◌&&◌, true, drop, IfOk, OnOk, if◌then◌else◌};
ghost use Rattle.p2p_log.specs.declared.queue.Queue.{Queue as Name};
ghost use Rattle.p2p_log.specs.declared.queue.Queue.TheVariants as queue;
ghost use Rattle.p2p_log.specs.QueueCode.{same_queue};
ghost use Rattle.p2p_net_queues.specs.Board.{held};
ghost use Rattle.p2p_net_tracker.specs.Dialed.{taken_names, asked_puts, names_asked, dialed_row, updated_row};

use crate::telling::pop_name;
use crate::tracker::Tracker;
use p2p_log::{Item, Queue, Reply};
use p2p_log_rules::Row;
use p2p_net_queues::{Turn, only};
use std::alloc::AllocError;

impl Tracker {
    /// The row of a step of the node's dialer, which took the oldest of its answers or none, and asked this. Both were done in
    /// the actor's mailbox already.
    ///
    /// `Err` only where there is no memory.
    pub fn dialed(&mut self, turn: Turn, took: bool, asked: Option<Item>) -> Result<Row, AllocError>
        ensures row { IfOk result (λ r. r ≡ dialed_row (held self.old.told (queue.Dialer turn.node)) turn.node took asked) }
        ensures told { OnOk result ((q : Name) → held self.new.told q
            ≡ (if took && same_queue (queue.Dialer turn.node) q then drop 1 (held self.old.told q) else held self.old.told q)) }
        ensures rest { OnOk result (self.new ≡ record self.old { told = self.new.told; names = self.old.names ++ names_asked turn.entry asked }) }
    {
        let mut row = only(turn.alloc, Reply::Ok);
        self.take_where(Queue::Dialer(turn.node), took, &mut row)?;
        self.put_message(turn, asked, &mut row)?;
        Ok(row)
    }

    // Takes the oldest item of a queue, where one was taken.
    pub(crate) fn take_where(
        &mut self,
        queue: Queue,
        took: bool,
        row: &mut Row,
    ) -> Result<(), AllocError>
        ensures row { OnOk result (row.new ≡ record row.old { takes = row.old.takes ++ taken_names took (held self.old.told queue) }) }
        ensures told { OnOk result ((q : Name) → held self.new.told q
            ≡ (if took && same_queue queue q then drop 1 (held self.old.told q) else held self.old.told q)) }
        ensures rest { OnOk result (self.new ≡ record self.old { told = self.new.told }) }
    {
        if took {
            self.take_oldest(queue, row)?;
        }
        Ok(())
    }

    // Takes the oldest item of a queue, where there is one.
    fn take_oldest(&mut self, queue: Queue, row: &mut Row) -> Result<(), AllocError>
        ensures row { OnOk result (row.new ≡ record row.old { takes = row.old.takes ++ taken_names true (held self.old.told queue) }) }
        ensures told { OnOk result ((q : Name) → held self.new.told q
            ≡ (if same_queue queue q then drop 1 (held self.old.told q) else held self.old.told q)) }
        ensures rest { OnOk result (self.new ≡ record self.old { told = self.new.told }) }
    {
        if let Some(name) = pop_name(&mut self.told, queue) {
            row.takes.push(name)?;
        }
        Ok(())
    }

    /// The row of a step of the node's listener, which took the update that it was told. It was taken from the actor's mailbox
    /// already.
    ///
    /// `Err` only where there is no memory.
    pub fn take_update(&mut self, turn: Turn) -> Result<Row, AllocError>
        ensures row { IfOk result (λ r. r ≡ updated_row (held self.old.told (queue.Addresses turn.node))) }
        ensures told { OnOk result ((q : Name) → held self.new.told q
            ≡ (if same_queue (queue.Addresses turn.node) q then drop 1 (held self.old.told q) else held self.old.told q)) }
        ensures rest { OnOk result (self.new ≡ record self.old { told = self.new.told }) }
    {
        let mut row = only(turn.alloc, Reply::Ok);
        self.take_oldest(Queue::Addresses(turn.node), &mut row)?;
        Ok(row)
    }

    /// The row with what the dialer, the listener, an attempt or a handshake put in the actor's mailbox, which has this entry's
    /// name. It was put there already.
    ///
    /// `Err` only where there is no memory.
    pub fn put_message(
        &mut self,
        turn: Turn,
        asked: Option<Item>,
        row: &mut Row,
    ) -> Result<(), AllocError>
        ensures row { OnOk result (row.new ≡ record row.old { puts = row.old.puts ++ asked_puts turn.node asked }) }
        ensures names { OnOk result (self.new ≡ record self.old { names = self.old.names ++ names_asked turn.entry asked }) }
    {
        if let Some(item) = asked {
            self.names.push((turn.entry, 0))?;
            row.puts.push((Queue::Tracker(turn.node), item))?;
        }
        Ok(())
    }
}
