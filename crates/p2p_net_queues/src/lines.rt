//! Lines of a log, as the queues of a table: what an entry puts in one stands in its row too.
ghost use Rattle.std.specs.Prelude.{◌≡◌, [], ◌∷◌, ◌++◌, length, OnOk};
ghost use Rattle.p2p_net_queues.specs.Tables.{pushed_at};

use crate::{Deque, Table, Turn};
use p2p_log::{Envelope, Item, Queue};
use p2p_log_rules::Row;
use std::alloc::AllocError;

impl Table<Deque<Envelope>> {
    /// Puts an item last in the queue of a key, and in the row, whose place names it.
    ///
    /// `Err` only where there is no memory. The row and the queue may then differ, and the node that owns them goes no further.
    pub fn put(
        &mut self,
        turn: Turn,
        row: &mut Row,
        key: u64,
        queue: Queue,
        item: Item,
    ) -> Result<(), AllocError>
        ensures row { OnOk result (row.new ≡ record row.old { puts = row.old.puts ++ (queue, item) ∷ [] }) }
        ensures after { OnOk result (self.new ≡ pushed_at self.old key (record { entry = turn.entry; place = length row.old.puts; queue = queue; item = item })) }
    {
        let place = row.puts.len() as u64;
        let kept = item.try_clone(turn.alloc)?;
        self.push_at(
            turn.alloc,
            key,
            Envelope {
                entry: turn.entry,
                place,
                queue,
                item: kept,
            },
        )?;
        row.puts.push((queue, item))?;
        Ok(())
    }
}
