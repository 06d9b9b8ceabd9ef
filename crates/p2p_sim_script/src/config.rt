//! The configuration of a node.
ghost use Rattle.std.specs.Prelude.{◌≡◌, ◌-◌, ◌^◌};
ghost use Rattle.p2p_sim_script.specs.View.{view};
ghost use Rattle.p2p_sim_script.specs.Tree.{absent_or, within as a_within};
ghost use Rattle.p2p_sim_script.specs.ConfigForm.{config_of, named_of, with_dials, with_peers};

use crate::error::ScriptError;
use crate::parts::rate_or;
use crate::preset::read_preset;
use crate::tree::{FromTree, flag_or, only, whole, whole_or, within, within_or};
use crate::value::Value;
use p2p_base::Key;
use p2p_log::Config;
use std::alloc::Global;

const NAMES: [&str; 19] = [
    "key",
    "preset",
    "max_peers_per_set",
    "max_message_size",
    "mailbox_size",
    "tracked_peer_sets",
    "send_batch_size",
    "ping_frequency",
    "allow_private_ips",
    "allow_dns",
    "bypass_ip_check",
    "peer_connection_cooldown",
    "block_duration",
    "max_concurrent_handshakes",
    "allowed_handshake_rate_per_ip",
    "allowed_handshake_rate_per_subnet",
    "handshake_timeout",
    "dial_timeout",
    "dial_frequency",
];

// What has to be there, and all else as the preset gives it.
fn read_named(tree: &Value) -> Option<Config>
    ensures { result ≡ named_of (view tree.now) }
{
    let public_key = Key(whole(tree, "key")?);
    let preset = read_preset(tree.get("preset")?)?;
    let max_peers_per_set = within(tree, "max_peers_per_set", 1, u64::MAX)? as usize;
    let max_message_size = within(tree, "max_message_size", 0, u32::MAX as u64)? as u32;
    let mailbox_size = within(tree, "mailbox_size", 1, u64::MAX)? as usize;
    Some(preset.config(
        public_key,
        max_peers_per_set,
        max_message_size,
        mailbox_size,
    ))
}

// `base` with what `tree` says of peer sets, batches, pings, addresses and blocks, where it does.
fn read_peers(tree: &Value, base: Config) -> Option<Config>
    ensures { result ≡ with_peers base (view tree.now) }
{
    let sets = within_or(tree, "tracked_peer_sets", 1, base.tracked_peer_sets as u64)?;
    let batch = within_or(tree, "send_batch_size", 1, base.send_batch_size as u64)?;
    let ping_frequency = whole_or(tree, "ping_frequency", base.ping_frequency)?;
    let private = flag_or(tree, "allow_private_ips", base.allow_private_ips)?;
    let dns = flag_or(tree, "allow_dns", base.allow_dns)?;
    let bypass = flag_or(tree, "bypass_ip_check", base.bypass_ip_check)?;
    let cooldown = whole_or(
        tree,
        "peer_connection_cooldown",
        base.peer_connection_cooldown,
    )?;
    let block_duration = whole_or(tree, "block_duration", base.block_duration)?;
    Some(Config {
        tracked_peer_sets: sets as usize,
        send_batch_size: batch as usize,
        ping_frequency,
        allow_private_ips: private,
        allow_dns: dns,
        bypass_ip_check: bypass,
        peer_connection_cooldown: cooldown,
        block_duration,
        ..base
    })
}

// How many handshakes run at a time at most, or `default` where nothing is said of it.
fn handshakes_or(tree: &Value, default: u32) -> Option<u32>
    ensures { result ≡ absent_or default "max_concurrent_handshakes" (a_within 1 (2 ^ 32 - 1)) (view tree.now) }
{
    let name = "max_concurrent_handshakes";
    match tree.get(name) {
        Some(_) => Some(within(tree, name, 1, u32::MAX as u64)? as u32),
        None => Some(default),
    }
}

// `base` with what `tree` says of dials and handshakes, where it does.
fn read_dials(tree: &Value, base: Config) -> Option<Config>
    ensures { result ≡ with_dials base (view tree.now) }
{
    let max_concurrent_handshakes = handshakes_or(tree, base.max_concurrent_handshakes)?;
    let allowed_handshake_rate_per_ip = rate_or(
        tree,
        "allowed_handshake_rate_per_ip",
        base.allowed_handshake_rate_per_ip,
    )?;
    let allowed_handshake_rate_per_subnet = rate_or(
        tree,
        "allowed_handshake_rate_per_subnet",
        base.allowed_handshake_rate_per_subnet,
    )?;
    let handshake_timeout = whole_or(tree, "handshake_timeout", base.handshake_timeout)?;
    let dial_timeout = whole_or(tree, "dial_timeout", base.dial_timeout)?;
    let dial_frequency = whole_or(tree, "dial_frequency", base.dial_frequency)?;
    Some(Config {
        max_concurrent_handshakes,
        allowed_handshake_rate_per_ip,
        allowed_handshake_rate_per_subnet,
        handshake_timeout,
        dial_timeout,
        dial_frequency,
        ..base
    })
}

fn read_config(tree: &Value) -> Option<Config>
    ensures { result ≡ config_of (view tree.now) }
{
    if !only(tree, &NAMES) {
        return None;
    }
    let named = read_named(tree)?;
    let config = read_peers(tree, named)?;
    read_dials(tree, config)
}

impl FromTree for Config {
    ghost form = { config_of };

    fn from_tree(_alloc: Global, tree: &Value) -> Result<Config, ScriptError> {
        read_config(tree).ok_or(ScriptError::NotScript)
    }
}
