//! `Config`, what a node of a discovered network is made of.
ghost use Rattle.std.specs.Prelude.{◌≡◌, ◌^◌, ◌<◌, SomeIff};
ghost use Rattle.p2p_discovery.specs.GossipSize.{gossip_size};

use p2p_address::{Ingress, SocketAddr};
use p2p_base::{List, PublicKey};
use p2p_runtime::Quota;

/// A peer that is known before any other tells of it, and where it is dialed.
///
/// Ports `Bootstrapper` of commonware-p2p.
pub type Bootstrapper<P> = (P, Ingress);

/// What a node of a discovered network is made of. Times are in nanoseconds.
///
/// Ports `discovery::Config` of commonware-p2p, with the own key in place of what exchanges keys.
#[derive(Drop, PartialEq, Eq, Debug)]
pub struct Config<P> {
    /// The key by which the node is known.
    pub public_key: P,
    /// Under what its infos are signed.
    pub namespace: List<u8>,
    /// Where the node listens.
    pub listen: SocketAddr,
    /// Where the node is dialed, as it says itself.
    pub dialable: Ingress,
    /// The peers that are known from the start.
    pub bootstrappers: List<Bootstrapper<P>>,
    /// Whether names may be dialed.
    pub allow_dns: bool,
    /// Whether addresses that are not global may be dialed.
    pub allow_private_ips: bool,
    /// Whether a peer may dial from another address than its own.
    pub bypass_ip_check: bool,
    /// How many bytes a message has at most.
    pub max_message_size: u32,
    /// How many distinct keys a peer set has at most, the own one counted.
    pub max_peers_per_set: usize,
    /// How many messages a mailbox of the node holds.
    pub mailbox_size: usize,
    /// How many frames are written at once at most.
    pub send_batch_size: usize,
    /// How far the moment of an info that is believed may lie ahead.
    pub synchrony_bound: u64,
    /// How long a handshake waits until its keys are exchanged.
    pub handshake_timeout: u64,
    /// How long an attempt to dial waits in all.
    pub dial_timeout: u64,
    /// The least time between two reservations of a peer.
    pub peer_connection_cooldown: u64,
    /// How many handshakes run at a time at most.
    pub max_concurrent_handshakes: u32,
    /// How often a peer may connect from one address.
    pub allowed_handshake_rate_per_ip: Quota,
    /// How often peers may connect from one subnet.
    pub allowed_handshake_rate_per_subnet: Quota,
    /// How long the dialer waits after a dial.
    pub dial_frequency: u64,
    /// After how many failed dials the info of a peer is asked for again.
    pub dial_fail_limit: usize,
    /// How many peer sets are kept.
    pub tracked_peer_sets: usize,
    /// How long a connection waits from one bit vector to the next.
    pub gossip_bit_vec_frequency: u64,
    /// How many infos are told at once at most.
    pub peer_gossip_max_count: usize,
    /// How long a block lasts.
    pub block_duration: u64,
}

impl<P: PublicKey> Config<P> {
    /// How many bytes what peers tell of each other has at most. `None` exactly where that isn't below 2^64.
    ///
    /// Ports `Config::max_gossip_size` of commonware-p2p.
    pub fn max_gossip_size(&self) -> Option<usize>
        ensures { SomeIff result (gossip_size P.SIZE self.now.max_peers_per_set self.now.peer_gossip_max_count < 2 ^ 64)
            (gossip_size P.SIZE self.now.max_peers_per_set self.now.peer_gossip_max_count) }
    {
        p2p_discovery::max_gossip_size::<P>(self.max_peers_per_set, self.peer_gossip_max_count)
    }
}
