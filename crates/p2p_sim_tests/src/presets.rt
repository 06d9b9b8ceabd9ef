//! What the presets of a configuration stand for.
use p2p_base::Key;
use p2p_log::{Config, Rate};
use p2p_sim_script::read_script;
use serde_json::Value;

// The numbers of the presets are those of the Rust crate.
pub const LOCAL: Config = Config {
    public_key: Key(1),
    max_peers_per_set: 2,
    max_message_size: 9,
    mailbox_size: 3,
    tracked_peer_sets: 4,
    send_batch_size: 8,
    ping_frequency: 5_000_000_000,
    allow_private_ips: true,
    allow_dns: true,
    bypass_ip_check: false,
    peer_connection_cooldown: 1_000_000_000,
    block_duration: 3_600_000_000_000,
    max_concurrent_handshakes: 1024,
    allowed_handshake_rate_per_ip: Rate {
        burst: 16,
        period: 62_500_000,
    },
    allowed_handshake_rate_per_subnet: Rate {
        burst: 128,
        period: 7_812_500,
    },
    handshake_timeout: 5_000_000_000,
    dial_timeout: 15_000_000_000,
    dial_frequency: 500_000_000,
};

const RECOMMENDED: Config = Config {
    public_key: Key(7),
    max_peers_per_set: 5,
    max_message_size: 6,
    mailbox_size: 4,
    tracked_peer_sets: 4,
    send_batch_size: 8,
    ping_frequency: 50_000_000_000,
    allow_private_ips: false,
    allow_dns: true,
    bypass_ip_check: false,
    peer_connection_cooldown: 60_000_000_000,
    block_duration: 14_400_000_000_000,
    max_concurrent_handshakes: 512,
    allowed_handshake_rate_per_ip: Rate {
        burst: 1,
        period: 5_000_000_000,
    },
    allowed_handshake_rate_per_subnet: Rate {
        burst: 64,
        period: 15_625_000,
    },
    handshake_timeout: 5_000_000_000,
    dial_timeout: 15_000_000_000,
    dial_frequency: 1_000_000_000,
};

const TEXT: &str = r#"{"configs":[
    {"key":1,"preset":"local","max_peers_per_set":2,"max_message_size":9,"mailbox_size":3},
    {"key":7,"preset":"recommended","max_peers_per_set":5,"max_message_size":6,"mailbox_size":4}],
"script":[]}"#;

#[test]
fn a_preset_gives_what_a_configuration_leaves_out(rt: HostRuntime) {
    let tree = Value::from_str(rt.alloc(), TEXT).expect(&rt, "JSON");
    let read = read_script(rt.alloc(), &tree);
    let (configs, script) = read.expect(&rt, "a script");
    assert!(rt; configs.as_slice() == [LOCAL, RECOMMENDED].as_slice());
    assert!(rt; script.is_empty());
}
