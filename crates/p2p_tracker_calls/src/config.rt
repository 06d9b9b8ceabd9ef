//! `Config`, what a directory is told when it is made.

/// What a directory is told when it is made. Durations are in nanoseconds.
///
/// Ports `Config` of commonware-p2p's lookup directory.
#[derive(Clone, Copy, PartialEq, Eq, Debug)]
pub struct Config {
    /// Whether addresses that aren't global may be dialed.
    pub allow_private_ips: bool,
    /// Whether names may be dialed.
    pub allow_dns: bool,
    /// Whether a peer may dial from another address than its own.
    pub bypass_ip_check: bool,
    /// How many peer sets are kept.
    pub max_sets: usize,
    /// The least time between two grants of a peer.
    pub peer_connection_cooldown: u64,
    /// How long a block lasts.
    pub block_duration: u64,
}
