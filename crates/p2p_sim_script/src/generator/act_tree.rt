//! The JSON tree of each act of a made script.
ghost use Rattle.std.specs.Prelude.{◌≡◌, IfOk};
ghost use Rattle.serde_json.specs.View.{view};
ghost use Rattle.p2p_sim_script.specs.GeneratedTree.{node_tree as a_node, numbered_tree as a_numbered, register_tree as a_register, tracking_tree as a_tracking, track_tree as a_track, connect_tree as a_connect, finish_tree as a_finish, send_tree as a_send};

use crate::generator::peer_tree::{peers_tree, socket_tree};
use p2p_address::SocketAddr;
use p2p_log::Rate;
use serde_json::{Value, json};
use std::alloc::{AllocError, Global};

/// An act that names its node alone.
pub fn node_tree(alloc: Global, at: u64, word: &str, node: u64) -> Result<Value, AllocError>
    ensures { IfOk result (λ v. view v ≡ a_node at word.now node) }
{
    json!(in alloc; {"at": at, "do": word, "node": node})
}

/// An act that names its node, and a number by this name.
pub fn numbered_tree(
    alloc: Global,
    at: u64,
    word: &str,
    name: &str,
    number: u64,
    node: u64,
) -> Result<Value, AllocError>
    ensures { IfOk result (λ v. view v ≡ a_numbered at word.now name.now number node) }
{
    json!(in alloc; {"at": at, "do": word, "node": node, name: number})
}

/// A channel is registered.
pub fn register_tree(
    alloc: Global,
    at: u64,
    channel: u64,
    node: u64,
    quota: Rate,
) -> Result<Value, AllocError>
    ensures { IfOk result (λ v. view v ≡ a_register at channel node quota) }
{
    let burst = quota.burst;
    let period = quota.period;
    let rate = json!(in alloc; {"burst": burst, "period": period})?;
    json!(in alloc; {"at": at, "channel": channel, "do": "register", "node": node, "quota": rate})
}

// A node tracks these peers.
fn tracking_tree(
    alloc: Global,
    at: u64,
    primary: Value,
    secondary: Value,
    node: u64,
) -> Result<Value, AllocError>
    ensures { IfOk result (λ v. view v ≡ a_tracking at (view primary) (view secondary) node) }
{
    json!(in alloc; {
        "at": at,
        "do": "track",
        "index": 0u64,
        "node": node,
        "primary": primary,
        "secondary": secondary
    })
}

/// A node of a made script tracks its peers: node 0 the others, as secondary ones, and each of these node 0.
pub fn track_tree(alloc: Global, at: u64, node: u64) -> Result<Value, AllocError>
    ensures { IfOk result (λ v. view v ≡ a_track at node) }
{
    if node == 0 {
        let secondary = peers_tree(alloc, &[1, 2, 3])?;
        return tracking_tree(alloc, at, Value::Array(Vec::new(alloc)), secondary, node);
    }
    let primary = peers_tree(alloc, &[0])?;
    tracking_tree(alloc, at, primary, Value::Array(Vec::new(alloc)), node)
}

/// A link is made from one node to another.
pub fn connect_tree(
    alloc: Global,
    at: u64,
    attempt: u64,
    from: SocketAddr,
    node: u64,
    to: u64,
) -> Result<Value, AllocError>
    ensures { IfOk result (λ v. view v ≡ a_connect at attempt from node to) }
{
    let from = socket_tree(alloc, from)?;
    json!(in alloc; {
        "at": at,
        "attempt": attempt,
        "do": "connect",
        "from": from,
        "node": node,
        "to": to
    })
}

/// The exchange of keys over a link ends.
pub fn finish_tree(alloc: Global, at: u64, link: u64, ok: bool) -> Result<Value, AllocError>
    ensures { IfOk result (λ v. view v ≡ a_finish at link ok) }
{
    json!(in alloc; {"at": at, "do": "finish", "link": link, "ok": ok})
}

/// Bytes are sent to all.
pub fn send_tree(
    alloc: Global,
    at: u64,
    bytes: &[u8],
    channel: u64,
    node: u64,
    priority: bool,
) -> Result<Value, AllocError>
    ensures { IfOk result (λ v. view v ≡ a_send at bytes.now channel node priority) }
{
    let digits = hex::encode(alloc, bytes)?;
    json!(in alloc; {
        "at": at,
        "bytes": digits,
        "channel": channel,
        "do": "send",
        "node": node,
        "priority": priority,
        "to": "all"
    })
}
