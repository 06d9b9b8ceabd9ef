//! Whether configurations may be asked for.
ghost use Rattle.std.specs.Prelude.{◌≡◌, ◌*◌, IfOk, true};
ghost use Rattle.p2p_log_rules.specs.Valid.{fits as fits_of, sizes_fit as sizes_test, is_quota as quota_test, config_fault as fault_of};

use p2p_log::{Config, Rate};
use std::alloc::{AllocError, Global};
use std::collections::BTreeSet;

/// The greatest `max_message_size` that a link takes, in bytes.
pub const MESSAGE_MAX: u32 = 16_777_200;

/// Whether a rate admits something, sometimes.
fn is_quota(rate: Rate) -> bool
    ensures { result ≡ quota_test rate }
{
    rate.burst > 0 && rate.period > 0
}

/// Whether sizes and counts are 1 or more, a link takes the messages, the retained peers can be counted, and peers may connect.
pub fn fits(config: &Config) -> bool
    ensures { result ≡ fits_of config.now }
{
    sizes_fit(config)
        && (config.max_concurrent_handshakes > 0
            && (is_quota(config.allowed_handshake_rate_per_ip)
                && is_quota(config.allowed_handshake_rate_per_subnet)))
}

/// Whether sizes and counts are 1 or more, a link takes the messages, and the retained peers can be counted.
fn sizes_fit(config: &Config) -> bool
    ensures { result ≡ sizes_test config.now }
{
    config.max_peers_per_set > 0
        && config.mailbox_size > 0
        && (config.tracked_peer_sets > 0 && config.send_batch_size > 0)
        && config.max_message_size <= MESSAGE_MAX
        && config.max_peers_per_set as u128 * (config.tracked_peer_sets as u128)
            <= usize::MAX as u128
}

/// How many peers a node retains, of a configuration that fits.
pub fn retained(config: &Config) -> usize
    requires { fits_of config.now ≡ true }
    ensures { result ≡ config.now.max_peers_per_set * config.now.tracked_peer_sets }
{
    config.max_peers_per_set * config.tracked_peer_sets
}

/// The first configuration that does not fit, or has the key of an earlier one.
pub fn config_fault(alloc: Global, configs: &[Config]) -> Result<Option<usize>, AllocError>
    ensures { IfOk result (λ fault. fault ≡ fault_of configs.now) }
{
    let mut keys = BTreeSet::new(alloc);
    for (i, config) in configs.iter().enumerate() {
        if !fits(config) || keys.contains(&config.public_key.0) {
            return Ok(Some(i));
        }
        keys.insert(config.public_key.0)?;
    }
    Ok(None)
}
