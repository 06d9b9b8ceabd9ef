//! The JSON trees of addresses, and of the nodes of a made script as each other's peers.
ghost use Rattle.std.specs.Prelude.{◌≡◌, ℕ, ◌≤◌, slice_index, IfOk};
ghost use Rattle.serde_json.specs.View.{view};
ghost use Rattle.p2p_sim_script.specs.GeneratedTree.{numbers_tree, socket_tree as socket_of_tree, peer_tree as a_peer, peers_tree as all_peers};

use crate::generator::peers::{key, socket};
use p2p_address::{IpAddr, SocketAddr};
use serde_json::{Value, json};
use std::alloc::{AllocError, Global};

// Bytes, as numbers.
fn bytes_tree(alloc: Global, bytes: &[u8]) -> Result<Value, AllocError>
    ensures { IfOk result (λ v. view v ≡ numbers_tree bytes.now) }
{
    let mut numbers = Vec::with_capacity(alloc, bytes.len())?;
    for byte in bytes {
        numbers.push(Value::from(*byte))?;
    }
    Ok(Value::Array(numbers))
}

/// An address, and its port.
pub fn socket_tree(alloc: Global, socket: SocketAddr) -> Result<Value, AllocError>
    ensures { IfOk result (λ v. view v ≡ socket_of_tree socket) }
{
    let ip = match socket.ip {
        IpAddr::V4(bytes) => bytes_tree(alloc, &bytes)?,
        IpAddr::V6(bytes) => bytes_tree(alloc, &bytes)?,
    };
    let port = socket.port;
    json!(in alloc; {"ip": ip, "port": port})
}

// A node as a peer: its key, and where it is dialed and dials from.
fn peer_tree(alloc: Global, node: u64) -> Result<Value, AllocError>
    requires { node ≤ 3 }
    ensures { IfOk result (λ v. view v ≡ a_peer node) }
{
    let number = key(node).0;
    let address = socket_tree(alloc, socket(node, 3000))?;
    json!(in alloc; [number, {"symmetric": address}])
}

/// Nodes as peers.
pub fn peers_tree(alloc: Global, nodes: &[u64]) -> Result<Value, AllocError>
    requires { (i : ℕ) → slice_index nodes.now i ≤ 3 }
    ensures { IfOk result (λ v. view v ≡ all_peers nodes.now) }
{
    let mut peers = Vec::with_capacity(alloc, nodes.len())?;
    for node in nodes {
        peers.push(peer_tree(alloc, *node)?)?;
    }
    Ok(Value::Array(peers))
}
