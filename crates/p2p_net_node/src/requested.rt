//! What was requested of a node.
ghost use Rattle.std.specs.Prelude.{◌≡◌, ◌+◌, ◌<◌, ◌^◌, OnOk};
ghost use Rattle.p2p_net_node.specs.Requested.{nothing_requested, with_channel, with_request, MayNote};

use crate::node::Node;
use p2p_log::Act;
use p2p_net_queues::Table;
use std::alloc::{AllocError, Global};

/// What was requested of a node that valid input goes by, by the events alone: whatever came of them.
pub struct Requested {
    /// Whether it was asked to start.
    pub started: bool,
    /// How many messages each channel would hold that it was asked to register.
    pub capacities: Table<usize>,
    /// How many these would hold together.
    pub total: usize,
}

impl Drop for Requested {
    fn drop(self) {
        let Requested {
            started: _started,
            capacities: _capacities,
            total: _total,
        } = self;
    }
}

impl Requested {
    /// Nothing was requested.
    pub fn new(alloc: Global) -> Requested
        ensures { result ≡ nothing_requested }
    {
        Requested {
            started: false,
            capacities: Table::new(alloc),
            total: 0,
        }
    }

    /// Notes that a channel was asked for that would hold so many messages.
    fn register(&mut self, channel: u64, capacity: usize) -> Result<(), AllocError>
        requires { self.old.total + capacity < 2 ^ 64 }
        ensures { OnOk result (self.new ≡ with_channel channel capacity self.old) }
    {
        self.capacities.insert(channel, capacity)?;
        self.total += capacity;
        Ok(())
    }

    /// Notes what an act requests of its node.
    ///
    /// `Err` only where there is no memory. It may then be noted in part, and the world goes no further.
    pub fn note(&mut self, node: &Node, act: &Act) -> Result<(), AllocError>
        requires { MayNote node.now act.now self.old }
        ensures { OnOk result (self.new ≡ with_request node.now act.now self.old) }
    {
        match act {
            Act::Register { channel, quota, .. } => {
                let capacity = node.capacity(*quota) as usize;
                Ok(self.register(*channel, capacity)?)
            }
            Act::Start { .. } => {
                self.started = true;
                Ok(())
            }
            Act::Stop { by_start, .. } => {
                self.started = self.started || *by_start;
                Ok(())
            }
            _ => Ok(()),
        }
    }
}
