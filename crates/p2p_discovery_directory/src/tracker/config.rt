//! `Config`, what a tracker is told when it is made.
use p2p_address::Ingress;
use p2p_base::List;

/// What a tracker is told when it is made. Durations are in nanoseconds.
///
/// It makes no directory, and signs nothing: both are handed to it, and made with the same values.
///
/// Ports `Config` of commonware-p2p's discovery tracker.
#[derive(Drop, PartialEq, Eq, Debug)]
pub struct Config<P> {
    /// The key of this node.
    pub public_key: P,
    /// Under what its infos are signed.
    pub namespace: List<u8>,
    /// Where this node is dialed.
    pub dialable: Ingress,
    /// How many messages its mailbox has room for.
    pub mailbox_size: usize,
    /// How many distinct keys a peer set has at most, the own one counted.
    pub max_peers_per_set: usize,
    /// How many peer sets are kept.
    pub tracked_peer_sets: usize,
    /// The least time between two grants of a peer.
    pub peer_connection_cooldown: u64,
    /// How many infos are told at once at most.
    pub peer_gossip_max_count: usize,
    /// Whether addresses that aren't global may be dialed.
    pub allow_private_ips: bool,
    /// Whether names may be dialed.
    pub allow_dns: bool,
    /// Whether a peer may dial from another address than its own.
    pub bypass_ip_check: bool,
    /// How long a block lasts.
    pub block_duration: u64,
}
