//! `Config`, what a node of a network of lookup is made of.
use p2p_address::SocketAddr;
use p2p_base::List;
use p2p_runtime::Quota;

/// What a node of a network of lookup is made of. Times are in nanoseconds.
///
/// Ports `lookup::Config` of commonware-p2p, with the own key in place of what exchanges keys.
#[derive(Drop, PartialEq, Eq, Debug)]
pub struct Config<P> {
    /// The key by which the node is known.
    pub public_key: P,
    /// Under what is signed as keys are exchanged.
    pub namespace: List<u8>,
    /// Where the node listens.
    pub listen: SocketAddr,
    /// Whether addresses that are not global may be dialed, and may connect.
    pub allow_private_ips: bool,
    /// Whether names may be dialed.
    pub allow_dns: bool,
    /// Whether a peer may connect from another address than its own.
    pub bypass_ip_check: bool,
    /// How many bytes a message has at most.
    pub max_message_size: u32,
    /// How many distinct keys a peer set has at most, the own one counted.
    pub max_peers_per_set: usize,
    /// How many messages a mailbox of the node holds.
    pub mailbox_size: usize,
    /// How many frames are written at once at most.
    pub send_batch_size: usize,
    /// How long a handshake waits until its keys are exchanged, and an attempt once it is linked.
    pub handshake_timeout: u64,
    /// How long an attempt to dial waits in all.
    pub dial_timeout: u64,
    /// The least time between two reservations of a peer.
    pub peer_connection_cooldown: u64,
    /// How many handshakes run at a time at most.
    pub max_concurrent_handshakes: u32,
    /// How often a peer may connect from one address.
    pub allowed_handshake_rate_per_ip: Quota,
    /// How often peers may connect from one subnet.
    pub allowed_handshake_rate_per_subnet: Quota,
    /// How long a connection waits from one ping to the next.
    pub ping_frequency: u64,
    /// How long the dialer waits after a dial.
    pub dial_frequency: u64,
    /// How many peer sets are kept.
    pub tracked_peer_sets: usize,
    /// How long a block lasts.
    pub block_duration: u64,
}
