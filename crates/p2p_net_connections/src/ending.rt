//! The end of a connection of the node, and of what waits for it.
ghost use Rattle.std.specs.Prelude.{◌≡◌, ◌==◌, ◌++◌, ℕ, None, cond, OnOk};
ghost use Rattle.p2p_log.specs.Drained.{all_end};
ghost use Rattle.p2p_net_queues.specs.Tables.{at, waiting, cleared_at};

use crate::connections::{Connection, Connections};
use p2p_log::Cause;
use p2p_log_rules::Row;
use p2p_net_queues::drop_items;
use std::alloc::{AllocError, Global};

impl Connections {
    /// What came over a connection and waits for its quota ends untaken for this cause, the oldest first, each item
    /// with its copies.
    ///
    /// `Err` only where there is no memory. The items may then be gone and told of to nobody, and its node goes no further.
    pub fn drop_held(
        &mut self,
        alloc: Global,
        row: &mut Row,
        conn: u64,
        cause: Cause,
    ) -> Result<(), AllocError>
        ensures row { OnOk result (row.new ≡ record row.old { ends = row.old.ends ++ all_end cause (waiting self.old.held conn) }) }
        ensures after { OnOk result (self.new ≡ record self.old { held = cleared_at self.old.held conn }) }
    {
        let left = self.held.take_all_at(alloc, conn);
        drop_items(row, left, cause)
    }

    /// The router's answers that wait for a connection end untaken for this cause, the oldest first.
    ///
    /// `Err` only where there is no memory. The answers may then be gone and told of to nobody, and its node goes no further.
    pub fn drop_answers(
        &mut self,
        alloc: Global,
        row: &mut Row,
        conn: u64,
        cause: Cause,
    ) -> Result<(), AllocError>
        ensures row { OnOk result (row.new ≡ record row.old { ends = row.old.ends ++ all_end cause (waiting self.old.answers conn) }) }
        ensures after { OnOk result (self.new ≡ record self.old { answers = cleared_at self.old.answers conn }) }
    {
        let left = self.answers.take_all_at(alloc, conn);
        drop_items(row, left, cause)
    }

    /// A connection ends: it is kept no longer, and given with the right to connect with its peer, where it is one.
    pub fn end(&mut self, conn: u64) -> Option<Connection>
        ensures connection { result ≡ at self.old.spawned conn }
        ensures others { (c : ℕ) → at self.new.spawned c ≡ cond (c == conn) None (at self.old.spawned c) }
        ensures rest { self.new ≡ record self.old { spawned = self.new.spawned } }
    {
        self.spawned.remove(conn)
    }
}
