//! What a node is made of.
use crate::event::Rate;
use p2p_base::Key;

/// What a node is made of.
///
/// Ports `lookup::Config` of commonware-p2p, as far as the acts that are built read it.
#[derive(Clone, Copy, Debug, PartialEq, Eq)]
pub struct Config {
    /// The key by which the node is known.
    pub public_key: Key,

    /// How many peers a peer set has at most.
    pub max_peers_per_set: usize,

    /// How many bytes a message has at most.
    pub max_message_size: u32,

    /// How many messages a mailbox of the node holds.
    pub mailbox_size: usize,

    /// How many peer sets are retained.
    pub tracked_peer_sets: usize,

    /// How many frames are written at once, a ping among them.
    pub send_batch_size: usize,

    /// How long a connection that runs waits until it pings, and from one ping to the next, in nanoseconds.
    pub ping_frequency: u64,

    /// Whether addresses that are not global may be dialed, and listened to.
    pub allow_private_ips: bool,

    /// Whether names may be dialed.
    pub allow_dns: bool,

    /// Whether a peer may dial from another address than its own.
    pub bypass_ip_check: bool,

    /// The least time between two reservations of a peer, in nanoseconds.
    pub peer_connection_cooldown: u64,

    /// How long a block lasts, in nanoseconds.
    pub block_duration: u64,

    /// How many handshakes run at a time at most.
    pub max_concurrent_handshakes: u32,

    /// How often a peer may connect from one address.
    pub allowed_handshake_rate_per_ip: Rate,

    /// How often peers may connect from one subnet.
    pub allowed_handshake_rate_per_subnet: Rate,

    /// How long a handshake waits until its keys are exchanged, and an attempt once it is linked, in nanoseconds.
    pub handshake_timeout: u64,

    /// How long an attempt to dial waits in all, in nanoseconds.
    pub dial_timeout: u64,

    /// How long the dialer waits after a dial, and at least before it asks again whom to dial, in nanoseconds.
    pub dial_frequency: u64,
}
