//! What ends with a node that stops of what its tracker told and was asked.
ghost use Rattle.std.specs.Prelude.{◌≡◌, [], ◌++◌, IfOk, OnOk, if◌then◌else◌};
ghost use Rattle.p2p_log.specs.declared.queue.Queue.{Queue as Name};
ghost use Rattle.p2p_log.specs.QueueCode.{same_queue};
ghost use Rattle.p2p_log_rules.specs.Attempting.{left_ends};
ghost use Rattle.p2p_net_queues.specs.Board.{held};
ghost use Rattle.p2p_net_queues.specs.Rows.{item_ends};
ghost use Rattle.p2p_tracker_mailbox.specs.Mailboxes.{closed_mailbox};

use crate::tracker::Tracker;
use p2p_log::{End, Envelope, Queue};
use p2p_log_rules::Row;
use p2p_net_queues::end_items;
use std::alloc::{AllocError, Global};
use std::collections::VecDeque;

/// Ends these items, in order.
fn end_each(row: &mut Row, left: VecDeque<Envelope>) -> Result<(), AllocError>
    ensures { OnOk result (row.new ≡ record row.old { ends = row.old.ends ++ left_ends left.items }) }
{
    for kept in left {
        row.ends.push(End::Item(kept.entry, kept.place))?;
    }
    Ok(())
}

impl Tracker {
    /// The messages that wait in the mailbox end, by their names, in order. `stop` takes them out of the actor's mailbox.
    ///
    /// `Err` only where there is no memory. Some may then be missing in the row, and its node goes no further.
    pub fn end_mailbox(&mut self, alloc: Global, row: &mut Row) -> Result<(), AllocError>
        ensures row { OnOk result (row.new ≡ record row.old { ends = row.old.ends ++ item_ends self.old.names }) }
        ensures after { OnOk result (self.new ≡ record self.old { names = [] }) }
    {
        let names = self.names.take_all(alloc);
        end_items(row, names)?;
        Ok(())
    }

    /// Ends all that stands in a queue in which the tracker told something.
    ///
    /// `Err` only where there is no memory. Some of it may then be gone and missing in the row, and its node goes no further.
    pub fn end_queue(&mut self, queue: Queue, row: &mut Row) -> Result<(), AllocError>
        ensures row { OnOk result (row.new ≡ record row.old { ends = row.old.ends ++ left_ends (held self.old.told queue) }) }
        ensures told { OnOk result ((q : Name) → held self.new.told q ≡ (if same_queue queue q then [] else held self.old.told q)) }
        ensures rest { OnOk result (self.new ≡ record self.old { told = self.new.told }) }
    {
        if let Some(left) = self.told.take_all(queue) {
            end_each(row, left)?;
        }
        Ok(())
    }

    /// The actor's mailbox closes: nothing waits there for it, for the dialer, the listener or a handshake, and no handshake runs.
    /// What waits at the desk for those who asked by the oracle stays, and whoever asks from now on is told that it has ended.
    pub fn stop(&mut self)
        ensures { self.new ≡ record self.old { mailbox = closed_mailbox self.old.mailbox } }
    {
        self.mailbox.close();
    }
}
