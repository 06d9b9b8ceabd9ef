//! What a connection that begins tells the tracker.
ghost use Rattle.std.specs.Prelude.{◌≡◌, OnOk};
ghost use Rattle.p2p_net_tracker.specs.Connecting.{connected_by, connecting_row};

use crate::tracker::Tracker;
use p2p_base::Key;
use p2p_log::Item;
use p2p_log_rules::Row;
use p2p_net_queues::Turn;
use std::alloc::AllocError;

impl Tracker {
    /// Tells the tracker that a connection with a peer has begun, as the row's next put. What its mailbox makes of the message
    /// is not told: it keeps it also where it is full.
    ///
    /// `Err` only where there is no memory. The message may then wait without its name, and its node goes no further.
    pub fn connect(
        &mut self,
        turn: Turn,
        conn: u64,
        peer: Key,
        row: &mut Row,
    ) -> Result<(), AllocError>
        ensures row { OnOk result (row.new ≡ connecting_row turn.node conn peer row.old) }
        ensures after { OnOk result (self.new ≡ connected_by turn.entry conn peer self.old) }
    {
        let _ = self.mailbox.connect(peer, conn)?;
        self.put_message(turn, Some(Item::Connect { conn, key: peer }), row)?;
        Ok(())
    }
}
