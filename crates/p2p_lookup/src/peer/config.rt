//! `Config`, the sizes and quotas of a connection.
ghost use Rattle.std.specs.Prelude.{◌≡◌, IfOk};

use p2p_base::List;
use p2p_flow::Channel;
use p2p_runtime::Quota;
use std::alloc::{AllocError, Global};

/// The sizes and quotas of a connection.
///
/// Ports `Config` of commonware-p2p's peer.
#[derive(Drop, PartialEq, Eq, Debug)]
pub struct Config {
    /// The channels with their quotas, no channel twice.
    pub channels: List<(Channel, Quota)>,
    /// How many places its control has, and each of its relay's two queues: 1 or more.
    pub mailbox_size: usize,
    /// How many frames a batch has at most: 1 or more.
    pub send_batch_size: usize,
    /// How long after its last ping the next one goes out, in nanoseconds.
    pub ping_frequency: u64,
    /// How many bytes a message has at most.
    pub max_message_size: u32,
}

impl Config {
    /// An equal configuration. `Err` only where memory runs out.
    pub fn try_clone(&self, alloc: Global) -> Result<Config, AllocError>
        ensures { IfOk result (λ cfg. cfg ≡ self.now) }
    {
        let channels = self.channels.try_clone(alloc)?;
        Ok(Config {
            channels,
            mailbox_size: self.mailbox_size,
            send_batch_size: self.send_batch_size,
            ping_frequency: self.ping_frequency,
            max_message_size: self.max_message_size,
        })
    }
}

/// The sizes of a connection.
#[derive(Clone, Copy, Debug)]
pub struct Limits {
    /// How many places each of its relay's two queues has: 1 or more.
    pub mailbox_size: usize,
    /// How many frames a batch has at most: 1 or more.
    pub send_batch_size: usize,
    /// How long after its last ping the next one goes out, in nanoseconds.
    pub ping_frequency: u64,
    /// How many bytes a message has at most.
    pub max_message_size: u32,
}
