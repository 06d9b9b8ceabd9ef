//! The pings of the connections of a node: when the next is due, and which of those that come are admitted.
ghost use Rattle.std.specs.Prelude.{◌≡◌, OnOk};
ghost use Rattle.p2p_log_rules.specs.Pings.{is_past as past_test};
ghost use Rattle.p2p_net_connections.specs.Connections.{pinged_on, pinged_with, may_ping, ping_metered};

use crate::connections::{Connections, Stage};
use std::alloc::AllocError;

/// Whether the next ping of a connection at this stage is due at the moment `now`, in nanoseconds, of a node that pings so often.
pub fn is_past(stage: Option<Stage>, frequency: u64, now: u64) -> bool
    ensures { result ≡ past_test frequency now (pinged_on stage) }
{
    match stage {
        Some(Stage::Running { pinged }) => pinged as u128 + frequency as u128 <= now as u128,
        _ => false,
    }
}

impl Connections {
    /// A connection pings at this moment, in nanoseconds, where a ping is due, and counts from there to the next.
    ///
    /// `Err` only where there is no memory. Nothing is changed then, and its node goes no further.
    pub fn ping(&mut self, conn: u64, now: u64, due: bool) -> Result<(), AllocError>
        ensures { OnOk result (self.new ≡ pinged_with due conn now self.old) }
    {
        if !due {
            return Ok(());
        }
        self.stages.insert(conn, Stage::Running { pinged: now })?;
        Ok(())
    }

    /// Whether a ping that came over a connection is admitted at this moment, in nanoseconds. One that is admitted counts from
    /// then on. None is over one that has ended.
    pub fn admit_ping(&mut self, conn: u64, now: u64) -> bool
        ensures admits { result ≡ may_ping self.old conn now }
        ensures after { self.new ≡ ping_metered conn now self.old }
    {
        match self.spawned.find_mut(conn) {
            Some(connection) => connection.pings.check(now).is_ok(),
            None => false,
        }
    }
}
