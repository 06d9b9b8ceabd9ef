//! The peers of a set, each at the one address that all have.
ghost use Rattle.std.specs.Prelude.{◌≡◌, IfOk};
ghost use Rattle.std.specs.List.Sorted.{IsStrictlySortedBy};
ghost use Rattle.p2p_discovery_directory.specs.AsLookup.{nowhere, placed};

use p2p_address::{Address, IpAddr, SocketAddr};
use p2p_base::{Map, PublicKey, Set, SetError};
use p2p_flow::{AddressableTrackedPeers, TrackedPeers};
use std::alloc::{AllocError, Global};

// An address, of which nothing is asked.
fn nowhere() -> Address
    ensures { result ≡ nowhere }
{
    Address::Symmetric(SocketAddr {
        ip: IpAddr::V4([0, 0, 0, 0]),
        port: 0,
    })
}

fn pairs_of<P: Copy>(alloc: Global, keys: &[P]) -> Result<Vec<(P, Address)>, AllocError>
    ensures { IfOk result (λ v. v.items ≡ placed keys.now) }
{
    let mut pairs = Vec::new(alloc);
    for key in keys {
        pairs.push((*key, nowhere()))?;
    }
    Ok(pairs)
}

// No key stands twice in a set.
fn map_of<P: PublicKey>(alloc: Global, keys: &[P]) -> Result<Map<P, Address>, AllocError>
    requires { IsStrictlySortedBy P.cmp keys.now }
    ensures { IfOk result (λ m. m ≡ placed keys.now) }
{
    let pairs = pairs_of(alloc, keys)?;
    match Map::try_from(pairs) {
        Ok(peers) => Ok(peers),
        Err(SetError::Duplicate) => unreachable!(),
        Err(SetError::Memory) => Err(AllocError),
    }
}

// The peers at that address.
pub(super) fn placed_peers<P: PublicKey>(
    alloc: Global,
    peers: &TrackedPeers<P>,
) -> Result<AddressableTrackedPeers<P>, AllocError>
    ensures primary { IfOk result (λ a. a.primary ≡ placed peers.now.primary) }
    ensures secondary { IfOk result (λ a. a.secondary ≡ placed peers.now.secondary) }
{
    let primary = map_of(alloc, peers.primary.as_slice())?;
    let secondary = map_of(alloc, peers.secondary.as_slice())?;
    Ok(AddressableTrackedPeers { primary, secondary })
}
