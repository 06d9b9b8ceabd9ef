//! `Config`, what the listener and the dialer are told when they are made.
use p2p_runtime::Quota;

/// What the listener and the dialer are told when they are made. Durations are in nanoseconds.
///
/// Ports `Config` of commonware-p2p's listener and that of its dialer.
#[derive(Clone, Copy, PartialEq, Eq, Debug)]
pub struct Config {
    /// Whether addresses that aren't global may be dialed, and may connect.
    pub allow_private_ips: bool,
    /// Whether a peer may connect from an address that isn't registered.
    pub bypass_ip_check: bool,
    /// How many handshakes run at a time at most.
    pub max_concurrent_handshakes: u32,
    /// How often a peer may connect from one address.
    pub allowed_handshake_rate_per_ip: Quota,
    /// How often peers may connect from one subnet.
    pub allowed_handshake_rate_per_subnet: Quota,
    /// How long a handshake waits until its keys are exchanged, and an attempt once it is linked.
    pub handshake_timeout: u64,
    /// How long an attempt waits in all.
    pub dial_timeout: u64,
    /// How long the dialer waits after a dial, and at least before it asks again whom to dial.
    pub dial_frequency: u64,
    /// How long it waits at most before it asks again.
    pub peer_connection_cooldown: u64,
}
