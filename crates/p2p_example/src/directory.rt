//! `p2p_tracker_directory`: which peers may be dialed, and who holds the right to connect with one.
use crate::SECOND;
use anyhow::Result;
use p2p_address::{Address, IpAddr, SocketAddr};
use p2p_base::{Key, Map};
use p2p_flow::AddressableTrackedPeers;
use p2p_tracker_directory::{Config, Directory, Metadata};
use std::alloc::Global;

/// A node of the key 1 tracks the keys 2 and 3. It blocks 3 for a minute, and connects with 2, twice.
pub fn show(rt: &impl Print, alloc: Global) -> Result<()> {
    println!(rt; "directory")?;
    let mut directory = Directory::init(alloc, Key(1), config())?;
    directory.track(0, two_peers(alloc)?)?;
    list(rt, &directory, 0)?;
    directory.block(&Key(3), 0)?;
    list(rt, &directory, 0)?;
    dial(rt, &mut directory, 0)?;
    connect_and_release(rt, &mut directory)?;
    // Its cooldown counts from the grant, at the moment 0.
    dial(rt, &mut directory, SECOND - 1)?;
    dial(rt, &mut directory, SECOND)?;
    // It is reserved now, and stays so however late it is.
    dial(rt, &mut directory, 9 * SECOND)?;
    // The block of 3 has ended at the moment that is its end.
    list(rt, &directory, 60 * SECOND)
}

/// Prints whom to dial: who is tracked, and neither blocked nor held.
fn list(rt: &impl Print, directory: &Directory<Key>, now: u64) -> Result<()> {
    let whom = directory.dialable(now)?;
    println!(rt; "  to dial at {now}: {:?}", whom.peers.as_slice())?;
    Ok(())
}

/// Private addresses are allowed, names are not; a peer that was reserved may be again after a second.
fn config() -> Config {
    Config {
        allow_private_ips: true,
        allow_dns: false,
        bypass_ip_check: false,
        max_sets: 2,
        peer_connection_cooldown: SECOND,
        block_duration: 60 * SECOND,
    }
}

/// The keys 2 and 3, each at one address for both ways.
fn two_peers(alloc: Global) -> Result<AddressableTrackedPeers<Key>> {
    let peers = Vec::from_array(alloc, [(Key(2), at(2)), (Key(3), at(3))])?;
    // `Map::try_from` refuses a key that stands twice.
    Ok(AddressableTrackedPeers::primary(alloc, Map::try_from(peers)?))
}

/// The address 10.0.0.`host`, port 3000.
fn at(host: u8) -> Address {
    Address::Symmetric(SocketAddr {
        ip: IpAddr::V4([10, 0, 0, host]),
        port: 3000,
    })
}

/// Asks for the right to dial the key 2. The last argument, which a caller draws, puts off the moment at which the peer is listed again.
fn dial(rt: &impl Print, directory: &mut Directory<Key>, now: u64) -> Result<()> {
    match directory.dial(&Key(2), now, 0)? {
        Some((reservation, ingress)) => {
            println!(rt;
                "  dial 2 at {now}: {:?} at {ingress:?}",
                reservation.metadata()
            )?;
        }
        None => println!(rt; "  dial 2 at {now}: not granted")?,
    }
    Ok(())
}

/// Begins the connection with the key 2, and gives the peer back. `connect` asks that the peer is reserved, and `release` that it is held:
/// without the tests that tell so these calls would not be proved.
fn connect_and_release(rt: &impl Print, directory: &mut Directory<Key>) -> Result<()> {
    let peer = Key(2);
    if directory.may_connect(&peer) {
        // False where its address changed since it was reserved.
        println!(rt; "  connect 2: {}", directory.connect(&peer))?;
    }
    if directory.may_release(&peer) {
        directory.release(&Metadata::Dialer(peer));
        println!(rt; "  release 2")?;
    }
    Ok(())
}
