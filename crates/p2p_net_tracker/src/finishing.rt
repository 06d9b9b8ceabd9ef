//! What a handshake of a node's listener is told of its exchange of keys.
ghost use Rattle.std.specs.Prelude.{◌≡◌, [], ◌∷◌, ◌++◌, length, OnOk, if◌then◌else◌};
ghost use Rattle.p2p_log.specs.declared.queue.Queue.{Queue as Name};
ghost use Rattle.p2p_log.specs.declared.queue.Queue.TheVariants as queue;
ghost use Rattle.p2p_log.specs.QueueCode.{same_queue};
ghost use Rattle.p2p_net_queues.specs.Board.{held};
ghost use Rattle.p2p_net_tracker.specs.Finishing.{finished_put, told_finished};

use crate::tracker::Tracker;
use p2p_log::{Envelope, Item, Queue};
use p2p_log_rules::Row;
use p2p_net_queues::Turn;
use std::alloc::AllocError;

impl Tracker {
    /// Tells a handshake of the node's listener whether its keys were exchanged, by one put more of this row. The
    /// handshake itself changes what waits for it in the actor's mailbox.
    ///
    /// `Err` only where there is no memory.
    pub fn tell_finished(
        &mut self,
        turn: Turn,
        handshake: u64,
        ok: bool,
        row: &mut Row,
    ) -> Result<(), AllocError>
        ensures row { OnOk result (row.new
            ≡ record row.old { puts = row.old.puts ++ finished_put turn.node handshake ok ∷ [] }) }
        ensures told { OnOk result ((q : Name) → held self.new.told q
            ≡ (if same_queue (queue.Handshake turn.node handshake) q
            then held self.old.told q ++ told_finished turn.node handshake ok turn.entry (length row.old.puts) ∷ []
            else held self.old.told q)) }
        ensures rest { OnOk result (self.new ≡ record self.old { told = self.new.told }) }
    {
        let queue = Queue::Handshake {
            node: turn.node,
            handshake,
        };
        let told = Envelope {
            entry: turn.entry,
            place: row.puts.len() as u64,
            queue,
            item: Item::Finished(ok),
        };
        self.told.push(turn.alloc, queue, told)?;
        row.puts.push((queue, Item::Finished(ok)))?;
        Ok(())
    }
}
