//! What a step of a handshake of the node's listener took, and what ends where the handshake ended.
ghost use Rattle.std.specs.Prelude.{◌≡◌, [], ◌++◌, ◌&&◌, IfOk, OnOk, if◌then◌else◌};
ghost use Rattle.p2p_log.specs.declared.queue.Queue.{Queue as Name};
ghost use Rattle.p2p_log.specs.declared.queue.Queue.TheVariants as queue;
ghost use Rattle.p2p_log.specs.QueueCode.{same_queue};
ghost use Rattle.p2p_net_queues.specs.Board.{held};
ghost use Rattle.p2p_net_tracker.specs.Handshaking.{left_of, ends_by, handshake_step_row};

use crate::tracker::Tracker;
use p2p_log::{Queue, Reply};
use p2p_log_rules::Row;
use p2p_net_queues::{Turn, only};
use std::alloc::AllocError;

impl Tracker {
    /// The row of a step of a handshake of the node's listener, which took the oldest of what it was told or none, and
    /// where it ended, what still waited for it ends. Both were done in the actor's mailbox already.
    ///
    /// `Err` only where there is no memory.
    pub fn handshake_step(
        &mut self,
        turn: Turn,
        handshake: u64,
        took: bool,
        ended: bool,
    ) -> Result<Row, AllocError>
        ensures row { IfOk result (λ r. r ≡ handshake_step_row took ended (held self.old.told (queue.Handshake turn.node handshake))) }
        ensures told { OnOk result ((q : Name) → held self.new.told q
            ≡ (if same_queue (queue.Handshake turn.node handshake) q then left_of took ended (held self.old.told q) else held self.old.told q)) }
        ensures rest { OnOk result (self.new ≡ record self.old { told = self.new.told }) }
    {
        let queue = Queue::Handshake {
            node: turn.node,
            handshake,
        };
        let mut row = only(turn.alloc, Reply::Ok);
        self.take_where(queue, took, &mut row)?;
        self.end_where(queue, ended, &mut row)?;
        Ok(row)
    }

    // Ends all that stands in a queue, where it ended.
    fn end_where(&mut self, queue: Queue, ended: bool, row: &mut Row) -> Result<(), AllocError>
        ensures row { OnOk result (row.new ≡ record row.old { ends = row.old.ends ++ ends_by ended (held self.old.told queue) }) }
        ensures told { OnOk result ((q : Name) → held self.new.told q
            ≡ (if ended && same_queue queue q then [] else held self.old.told q)) }
        ensures rest { OnOk result (self.new ≡ record self.old { told = self.new.told }) }
    {
        if ended {
            self.end_queue(queue, row)?;
        }
        Ok(())
    }
}
