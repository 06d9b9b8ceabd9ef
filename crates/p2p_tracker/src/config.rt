//! `Config`, what a tracker is told when it is made.

/// What a tracker is told when it is made. Durations are in nanoseconds.
///
/// Ports `Config` of commonware-p2p's lookup tracker.
#[derive(Clone, Copy, PartialEq, Eq, Debug)]
pub struct Config<C> {
    /// The key of this node.
    pub public_key: C,
    /// How many messages its mailbox has room for.
    pub mailbox_size: usize,
    /// How many distinct keys a peer set has at most, the own one counted.
    pub max_peers_per_set: usize,
    /// How many peer sets are kept.
    pub tracked_peer_sets: usize,
    /// The least time between two grants of a peer.
    pub peer_connection_cooldown: u64,
    /// Whether addresses that aren't global may be dialed, and listened to.
    pub allow_private_ips: bool,
    /// Whether names may be dialed.
    pub allow_dns: bool,
    /// Whether a peer may dial from another address than its own.
    pub bypass_ip_check: bool,
    /// How long a block lasts.
    pub block_duration: u64,
}
