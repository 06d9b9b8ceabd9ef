//! How long what peers tell of each other is at most.
ghost use Rattle.std.specs.Prelude.{◌≡◌, ◌^◌, ◌<◌, SomeIff};
ghost use Rattle.p2p_discovery.specs.GossipSize.{gossip_size};

use crate::bit_vec::byte_count;
use p2p_base::PublicKey;

/// How many bytes a bit vector of `max_peers_per_set` bits, a list of `peer_gossip_max_count` infos and a greeting have at most.
/// `None` exactly where that isn't below 2^64.
///
/// Ports `max_gossip_size` of commonware-p2p.
pub fn max_gossip_size<P: PublicKey>(
    max_peers_per_set: usize,
    peer_gossip_max_count: usize,
) -> Option<usize>
    ensures { SomeIff result (gossip_size P.SIZE max_peers_per_set peer_gossip_max_count < 2 ^ 64)
        (gossip_size P.SIZE max_peers_per_set peer_gossip_max_count) }
{
    let bit_vec = byte_count(max_peers_per_set as u64) as usize + 21;
    let greeting = P::SIZE.checked_add(399)?;
    let info = P::SIZE.checked_add(398)?;
    let peers = info.checked_mul(peer_gossip_max_count)?.checked_add(6)?;
    Some(bit_vec.max(peers.max(greeting)))
}
