//! Peers by their keys, and the hosts where they are, which go by the last byte of their addresses.
use p2p_address::{Address, IpAddr, SocketAddr};
use p2p_base::{Key, Map};
use p2p_flow::AddressableTrackedPeers;
use p2p_tracker_directory::{Config, Directory};
use std::alloc::{AllocError, Global};

pub fn ip(host: u8) -> IpAddr {
    IpAddr::V4([10, 0, 0, host])
}

pub fn socket(host: u8) -> SocketAddr {
    SocketAddr {
        ip: ip(host),
        port: 80,
    }
}

pub fn address(host: u8) -> Address {
    Address::Symmetric(socket(host))
}

// This key alone, at this host.
pub fn at(alloc: Global, key: u64, host: u8) -> Result<Map<Key, Address>, AllocError> {
    let pairs = Vec::from_array(alloc, [(Key(key), address(host))])?;
    Map::try_from(pairs).map_err(|_| AllocError)
}

// A set of this key alone, at this host.
pub fn alone(
    alloc: Global,
    key: u64,
    host: u8,
) -> Result<AddressableTrackedPeers<Key>, AllocError> {
    Ok(AddressableTrackedPeers::primary(alloc, at(alloc, key, host)?))
}

// The rules of a directory that keeps two sets, and whose blocks last for five nanoseconds.
const CONFIG: Config = Config {
    allow_private_ips: true,
    allow_dns: false,
    bypass_ip_check: false,
    max_sets: 2,
    peer_connection_cooldown: 100,
    block_duration: 5,
};

// A directory of the key 0 by these rules.
pub fn directory(alloc: Global) -> Result<Directory<Key>, AllocError> {
    Directory::init(alloc, Key(0), CONFIG)
}

// The same with blocks that last for ten nanoseconds, which tracks the keys 2 and 3, both at the host 2.
pub fn sharing(alloc: Global) -> Result<Directory<Key>, AllocError> {
    let cfg = Config {
        block_duration: 10,
        ..CONFIG
    };
    let mut directory = Directory::init(alloc, Key(0), cfg)?;
    let pairs = Vec::from_array(alloc, [(Key(2), address(2)), (Key(3), address(2))])?;
    let peers = Map::try_from(pairs).map_err(|_| AllocError)?;
    directory.track(1, AddressableTrackedPeers::primary(alloc, peers))?;
    Ok(directory)
}

// The same, which tracks the key 7, at the host 7.
pub fn tracking(alloc: Global) -> Result<Directory<Key>, AllocError> {
    let mut directory = directory(alloc)?;
    directory.track(3, alone(alloc, 7, 7)?)?;
    Ok(directory)
}

// The same of the keys from 1 up to `keys`, each at one of the hosts 0 to 6, in turn.
pub fn spread(alloc: Global, keys: u64) -> Result<Directory<Key>, AllocError> {
    let mut directory = directory(alloc)?;
    let mut pairs = Vec::new(alloc);
    for key in 1..keys {
        let host = u8::try_from(key % 7).unwrap_or(0);
        pairs.push((Key(key), address(host)))?;
    }
    let peers = Map::try_from(pairs).map_err(|_| AllocError)?;
    directory.track(1, AddressableTrackedPeers::primary(alloc, peers))?;
    Ok(directory)
}
