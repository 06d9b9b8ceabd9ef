//! The presets of a configuration.
ghost use Rattle.std.specs.Prelude.{◌≡◌};
ghost use Rattle.p2p_discovery_peer.specs.Presets.{recommended, local};

use crate::config::{Bootstrapper, Config};
use p2p_address::{Ingress, SocketAddr};
use p2p_base::List;
use p2p_peer_shared::quota;

impl<P> Config<P> {
    /// What is recommended where peers are anywhere: addresses that are not global are refused, and much is waited for.
    ///
    /// Ports `Config::recommended` of commonware-p2p.
    pub fn recommended(
        public_key: P,
        namespace: List<u8>,
        listen: SocketAddr,
        dialable: Ingress,
        bootstrappers: List<Bootstrapper<P>>,
        max_peers_per_set: usize,
        max_message_size: u32,
        mailbox_size: usize,
    ) -> Config<P>
        ensures { result ≡ recommended public_key namespace listen dialable bootstrappers max_peers_per_set max_message_size mailbox_size }
    {
        Config {
            public_key,
            namespace,
            listen,
            dialable,
            bootstrappers,
            allow_dns: true,
            allow_private_ips: false,
            bypass_ip_check: false,
            max_message_size,
            max_peers_per_set,
            mailbox_size,
            send_batch_size: 8,
            synchrony_bound: 5_000_000_000,
            handshake_timeout: 5_000_000_000,
            dial_timeout: 15_000_000_000,
            peer_connection_cooldown: 60_000_000_000,
            max_concurrent_handshakes: 512,
            allowed_handshake_rate_per_ip: quota(1, 5_000_000_000),
            allowed_handshake_rate_per_subnet: quota(64, 15_625_000),
            dial_frequency: 1_000_000_000,
            dial_fail_limit: 2,
            tracked_peer_sets: 4,
            gossip_bit_vec_frequency: 50_000_000_000,
            peer_gossip_max_count: 32,
            block_duration: 14_400_000_000_000,
        }
    }

    /// What suits nodes that are near each other: addresses that are not global are allowed, and little is waited for.
    ///
    /// Ports `Config::local` of commonware-p2p.
    pub fn local(
        public_key: P,
        namespace: List<u8>,
        listen: SocketAddr,
        dialable: Ingress,
        bootstrappers: List<Bootstrapper<P>>,
        max_peers_per_set: usize,
        max_message_size: u32,
        mailbox_size: usize,
    ) -> Config<P>
        ensures { result ≡ local public_key namespace listen dialable bootstrappers max_peers_per_set max_message_size mailbox_size }
    {
        Config {
            public_key,
            namespace,
            listen,
            dialable,
            bootstrappers,
            allow_dns: true,
            allow_private_ips: true,
            bypass_ip_check: false,
            max_message_size,
            max_peers_per_set,
            mailbox_size,
            send_batch_size: 8,
            synchrony_bound: 5_000_000_000,
            handshake_timeout: 5_000_000_000,
            dial_timeout: 15_000_000_000,
            peer_connection_cooldown: 1_000_000_000,
            max_concurrent_handshakes: 1024,
            allowed_handshake_rate_per_ip: quota(16, 62_500_000),
            allowed_handshake_rate_per_subnet: quota(128, 7_812_500),
            dial_frequency: 500_000_000,
            dial_fail_limit: 1,
            tracked_peer_sets: 4,
            gossip_bit_vec_frequency: 5_000_000_000,
            peer_gossip_max_count: 32,
            block_duration: 3_600_000_000_000,
        }
    }
}
