//! `Config`, the sizes and quotas of a connection.
ghost use Rattle.std.specs.Prelude.{◌≡◌, IfOk};

use p2p_base::List;
use p2p_discovery::PayloadConfig;
use p2p_flow::Channel;
use p2p_runtime::Quota;
use std::alloc::{AllocError, Global};

/// The sizes and quotas of a connection.
///
/// Ports `Config` of commonware-p2p's discovery peer, without the verifier of infos, which is lent to each step.
#[derive(Drop, PartialEq, Eq, Debug)]
pub struct Config {
    /// The channels with their quotas, no channel twice.
    pub channels: List<(Channel, Quota)>,
    /// How many places its control has, and each of its relay's two queues: 1 or more.
    pub mailbox_size: usize,
    /// How many frames a batch has at most: 1 or more.
    pub send_batch_size: usize,
    /// How long after a bit vector the next one is due, in nanoseconds.
    pub gossip_bit_vec_frequency: u64,
    /// How many bits a bit vector that comes has at most.
    pub max_peers_per_set: usize,
    /// How many infos come at once at most.
    pub peer_gossip_max_count: usize,
    /// How many bytes a message has at most.
    pub max_message_size: u32,
}

impl Config {
    /// An equal configuration. `Err` only where memory runs out.
    pub fn try_clone(&self, alloc: Global) -> Result<Config, AllocError>
        ensures { IfOk result (λ cfg. cfg ≡ self.now) }
    {
        let channels = self.channels.try_clone(alloc)?;
        Ok(Config {
            channels,
            mailbox_size: self.mailbox_size,
            send_batch_size: self.send_batch_size,
            gossip_bit_vec_frequency: self.gossip_bit_vec_frequency,
            max_peers_per_set: self.max_peers_per_set,
            peer_gossip_max_count: self.peer_gossip_max_count,
            max_message_size: self.max_message_size,
        })
    }
}

/// The sizes of a connection.
#[derive(Clone, Copy, Debug)]
pub struct Limits {
    /// How many places each of its relay's two queues has: 1 or more.
    pub mailbox_size: usize,
    /// How many frames a batch has at most: 1 or more.
    pub send_batch_size: usize,
    /// How long after a bit vector the next one is due, in nanoseconds.
    pub gossip_bit_vec_frequency: u64,
    /// How large what comes may be.
    pub payload: PayloadConfig,
}
