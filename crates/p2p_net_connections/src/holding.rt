//! What came over the connections of a node and waits for their quotas.
ghost use Rattle.std.specs.Prelude.{◌≡◌, [], ◌∷◌, ◌++◌, length, slice_get, OnOk};
ghost use Rattle.std.specs.Option.{option_copied};
ghost use Rattle.p2p_net_queues.specs.Tables.{waiting};
ghost use Rattle.p2p_net_connections.specs.Connections.{held_with, without_held};

use crate::connections::Connections;
use p2p_log::{Envelope, Item, Queue};
use p2p_log_rules::Row;
use p2p_net_queues::Turn;
use std::alloc::AllocError;

impl Connections {
    /// The oldest that came over a connection and waits for its quota.
    pub fn held(&self, conn: u64) -> Option<&Envelope>
        ensures { option_copied result ≡ slice_get (waiting self.now.held conn) 0 }
    {
        self.held.front_at(conn)
    }

    /// Has an item that came over a connection wait for its quota, and puts it in the row.
    ///
    /// `Err` only where there is no memory. The item may then wait and not stand in the row, and its node goes no further.
    pub fn hold(
        &mut self,
        turn: Turn,
        row: &mut Row,
        conn: u64,
        item: Item,
    ) -> Result<(), AllocError>
        ensures row { OnOk result (row.new ≡ record row.old { puts = row.old.puts ++ (Queue.Held turn.node conn, item) ∷ [] }) }
        ensures after { OnOk result (self.new ≡ held_with turn.entry (length row.old.puts) turn.node conn item self.old) }
    {
        let queue = Queue::Held {
            node: turn.node,
            conn,
        };
        self.held.put(turn, row, conn, queue, item)?;
        Ok(())
    }

    /// Takes the oldest that waits for the quota of a connection.
    pub fn unhold(&mut self, conn: u64)
        ensures { self.new ≡ without_held conn self.old }
    {
        let _taken = self.held.pop_at(conn);
    }
}
