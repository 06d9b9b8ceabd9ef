//! The presets of a configuration.
ghost use Rattle.std.specs.Prelude.{◌≡◌};
ghost use Rattle.p2p_log.specs.Presets.{recommended, local};

use crate::config::Config;
use crate::event::Rate;
use p2p_base::Key;

impl Config {
    /// What is recommended where peers are anywhere: addresses that are not global are refused, and much is waited for. Times are in
    /// nanoseconds.
    ///
    /// Ports `Config::recommended` of commonware-p2p, without `namespace` and `listen`, which nothing here reads.
    pub fn recommended(
        public_key: Key,
        max_peers_per_set: usize,
        max_message_size: u32,
        mailbox_size: usize,
    ) -> Config
        ensures { result ≡ recommended public_key max_peers_per_set max_message_size mailbox_size }
    {
        Config {
            public_key,
            max_peers_per_set,
            max_message_size,
            mailbox_size,
            tracked_peer_sets: 4,
            send_batch_size: 8,
            ping_frequency: 50_000_000_000,
            allow_private_ips: false,
            allow_dns: true,
            bypass_ip_check: false,
            peer_connection_cooldown: 60_000_000_000,
            block_duration: 14_400_000_000_000,
            max_concurrent_handshakes: 512,
            allowed_handshake_rate_per_ip: Rate {
                burst: 1,
                period: 5_000_000_000,
            },
            allowed_handshake_rate_per_subnet: Rate {
                burst: 64,
                period: 15_625_000,
            },
            handshake_timeout: 5_000_000_000,
            dial_timeout: 15_000_000_000,
            dial_frequency: 1_000_000_000,
        }
    }

    /// What suits nodes that are near each other: addresses that are not global are allowed, and little is waited for. Times are in
    /// nanoseconds.
    ///
    /// Ports `Config::local` of commonware-p2p, without `namespace` and `listen`, which nothing here reads.
    pub fn local(
        public_key: Key,
        max_peers_per_set: usize,
        max_message_size: u32,
        mailbox_size: usize,
    ) -> Config
        ensures { result ≡ local public_key max_peers_per_set max_message_size mailbox_size }
    {
        Config {
            public_key,
            max_peers_per_set,
            max_message_size,
            mailbox_size,
            tracked_peer_sets: 4,
            send_batch_size: 8,
            ping_frequency: 5_000_000_000,
            allow_private_ips: true,
            allow_dns: true,
            bypass_ip_check: false,
            peer_connection_cooldown: 1_000_000_000,
            block_duration: 3_600_000_000_000,
            max_concurrent_handshakes: 1024,
            allowed_handshake_rate_per_ip: Rate {
                burst: 16,
                period: 62_500_000,
            },
            allowed_handshake_rate_per_subnet: Rate {
                burst: 128,
                period: 7_812_500,
            },
            handshake_timeout: 5_000_000_000,
            dial_timeout: 15_000_000_000,
            dial_frequency: 500_000_000,
        }
    }
}
