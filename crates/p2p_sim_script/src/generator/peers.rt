//! The nodes of the script, as each other's peers.
ghost use Rattle.std.specs.Prelude.{◌≡◌, ℕ, ◌≤◌, map, slice_index, IfOk};
ghost use Rattle.p2p_base.specs.Sorted.{sorted_once, by_key};
ghost use Rattle.p2p_log.specs.Keys.{key_cmp};
ghost use Rattle.p2p_sim_script.specs.GeneratedActs.{key_at, socket_at, peer_at, tracked_at};

use p2p_address::{Address, IpAddr, SocketAddr};
use p2p_base::{Key, Map};
use p2p_flow::AddressableTrackedPeers;
use std::alloc::{AllocError, Global};

/// The key of a node.
pub fn key(node: u64) -> Key
    requires { node ≤ 3 }
    ensures { result ≡ key_at node }
{
    Key(node + 1)
}

/// A port of a node.
pub fn socket(node: u64, port: u16) -> SocketAddr
    requires { node ≤ 3 }
    ensures { result ≡ socket_at node port }
{
    let last = node as u8 + 1;
    SocketAddr {
        ip: IpAddr::V4([10, 0, 0, last]),
        port,
    }
}

// Nodes with their addresses.
fn peers(alloc: Global, nodes: &[u64]) -> Result<Map<Key, Address>, AllocError>
    requires { (i : ℕ) → slice_index nodes.now i ≤ 3 }
    ensures { IfOk result (λ peers. peers ≡ sorted_once (by_key key_cmp) (map peer_at nodes.now)) }
{
    let mut pairs = Vec::with_capacity(alloc, nodes.len())?;
    for node in nodes {
        pairs.push((key(*node), Address::Symmetric(socket(*node, 3000))))?;
    }
    // No node stands there twice, so that memory alone can be wanting.
    match Map::try_from(pairs) {
        Ok(peers) => Ok(peers),
        Err(_) => Err(AllocError),
    }
}

/// Whom a node tracks.
pub fn tracked(alloc: Global, node: u64) -> Result<AddressableTrackedPeers<Key>, AllocError>
    ensures { IfOk result (λ peers. peers ≡ tracked_at node) }
{
    if node == 0 {
        let secondary = peers(alloc, &[1, 2, 3])?;
        return Ok(AddressableTrackedPeers {
            primary: Map::empty(alloc),
            secondary,
        });
    }
    let primary = peers(alloc, &[0])?;
    Ok(AddressableTrackedPeers {
        primary,
        secondary: Map::empty(alloc),
    })
}
