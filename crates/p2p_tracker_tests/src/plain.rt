//! Plain directories of discovery, by each of their calls.
use crate::infos::signed;
use p2p_base::{Key, List, Set};
use p2p_discovery::BitVec;
use p2p_discovery_directory::{DirectoryOf, Metadata, PlainDirectory};
use p2p_flow::TrackedPeers;
use p2p_tracker_directory::Config;
use std::alloc::{AllocError, Global};
use std::test::Fail;

// A directory of the key 0 that keeps two sets, and whose blocks last for five nanoseconds.
fn directory(alloc: Global) -> Result<PlainDirectory<Key>, AllocError> {
    let cfg = Config {
        allow_private_ips: true,
        allow_dns: false,
        bypass_ip_check: false,
        max_sets: 2,
        peer_connection_cooldown: 100,
        block_duration: 5,
    };
    PlainDirectory::new(alloc, signed(alloc, 0, 0)?, cfg)
}

// A set of this key alone.
fn alone(alloc: Global, key: u64) -> Result<TrackedPeers<Key>, AllocError> {
    let keys = Set::from_iter_dedup(Vec::from_array(alloc, [Key(key)])?)?;
    Ok(TrackedPeers::primary(alloc, keys))
}

// The set 3 has the key 7, and the set 5 the key 8.
#[test]
fn a_plain_directory_tells_who_is_in_its_sets(rt: HostRuntime) {
    let alloc = rt.alloc();
    let mut directory = directory(alloc).expect(&rt, "memory");
    assert!(rt; directory.latest_update().expect(&rt, "memory").is_none());
    for (index, key) in [(3, 7), (5, 8)] {
        let peers = alone(alloc, key).expect(&rt, "memory");
        let killed = directory.track(index, peers).expect(&rt, "memory");
        assert!(rt; killed.expect(&rt, "a later set").is_empty());
    }
    let peers = alone(alloc, 9).expect(&rt, "memory");
    assert!(rt; directory.track(5, peers).expect(&rt, "memory").is_none());
    let update = directory
        .latest_update()
        .expect(&rt, "memory")
        .expect(&rt, "a set");
    let kept = directory
        .get_peer_set(5)
        .expect(&rt, "memory")
        .expect(&rt, "it is kept");
    assert_eq!(rt; update.all.primary.as_slice(), [Key(7), Key(8)].as_slice());
    assert!(rt; update.index == 5 && update.latest == kept);
    assert_eq!(rt; kept.primary.as_slice(), [Key(8)].as_slice());
    assert!(rt; directory.get_peer_set(4).expect(&rt, "memory").is_none());
    assert!(rt; directory.eligible(&Key(7), 0) && !directory.eligible(&Key(9), 0));
}

#[test]
fn a_plain_directory_grants_a_peer_to_one_at_a_time(rt: HostRuntime) {
    let alloc = rt.alloc();
    let mut directory = directory(alloc).expect(&rt, "memory");
    let peers = alone(alloc, 7).expect(&rt, "memory");
    assert!(rt; directory.track(1, peers).expect(&rt, "memory").is_some());
    assert!(rt; directory.acceptable(&Key(7), 0));
    assert!(rt; !directory.may_connect(&Key(7)) && !directory.may_release(&Key(7)));
    let granted = directory.listen(&Key(7), 0, 0).expect(&rt, "memory");
    let reservation = granted.expect(&rt, "it is tracked");
    assert!(rt; *reservation.metadata() == Metadata::Listener(Key(7)));
    assert_eq!(rt; *reservation.metadata().public_key(), Key(7));
    assert!(rt; !directory.acceptable(&Key(7), u64::MAX));
    let again = directory.listen(&Key(7), u64::MAX, 0).expect(&rt, "memory");
    assert!(rt; again.is_none());
    assert!(rt; directory.may_connect(&Key(7)));
    directory.connect(&Key(7), false);
    assert!(rt; !directory.may_connect(&Key(7)));
    assert!(rt; directory.may_release(&Key(7)));
    directory.release(&Metadata::Listener(Key(7)));
    let early = directory.listen(&Key(7), 99, 0).expect(&rt, "memory");
    assert!(rt; early.is_none());
    assert!(rt;
        directory
            .listen(&Key(7), 100, 0)
            .expect(&rt, "memory")
            .is_some()
    );
}

// Whether who knows nobody of the set 1 is told of one peer, and whether that one is known.
fn gossips(alloc: Global, directory: &PlainDirectory<Key>) -> Result<[bool; 2], AllocError> {
    let bits = List::from_slice(alloc, &[false])?;
    let Some(told) = directory.infos(&BitVec { index: 1, bits })? else {
        return Ok([false; 2]);
    };
    let Some(known) = directory.random_bit_vec(0)? else {
        return Ok([false; 2]);
    };
    Ok([told.len() == 1, known.bits.as_slice() == [true].as_slice()])
}

#[test]
fn a_plain_directory_dials_a_peer_that_said_where(rt: HostRuntime) -> Result<(), Fail> {
    let alloc = rt.alloc();
    let mut directory = directory(alloc)?;
    assert!(rt; directory.track(1, alone(alloc, 7)?)?.is_some());
    assert!(rt; directory.dial(&Key(7), 0, 0)?.is_none());
    let mut infos = Vec::new(alloc);
    infos.push(signed(alloc, 7, 3)?)?;
    directory.update_peers(infos);
    assert!(rt; directory.info(&Key(7)).is_some() && directory.info(&Key(0)).is_some());
    assert!(rt; gossips(alloc, &directory)? == [true; 2]);
    let listed = directory.dialable(0)?;
    assert_eq!(rt; listed.peers.as_slice(), [Key(7)].as_slice());
    assert!(rt; directory.dial(&Key(7), 0, 0)?.is_some());
    let listed = directory.dialable(0)?;
    assert!(rt; listed.peers.as_slice().is_empty());
    Ok(())
}

#[test]
fn a_plain_directory_blocks_a_peer_for_a_time(rt: HostRuntime) {
    let alloc = rt.alloc();
    let mut directory = directory(alloc).expect(&rt, "memory");
    let peers = alone(alloc, 7).expect(&rt, "memory");
    assert!(rt; directory.track(1, peers).expect(&rt, "memory").is_some());
    assert_eq!(rt; directory.block(&Key(7), 0), Ok(true));
    assert_eq!(rt; directory.block(&Key(7), 4), Ok(false));
    assert!(rt; !directory.eligible(&Key(7), 4));
    let blocked = directory.blocked_peers(4).expect(&rt, "memory");
    assert_eq!(rt; blocked.as_slice(), [Key(7)].as_slice());
    assert!(rt; !directory.unblock_expired(4));
    assert!(rt; directory.unblock_expired(5));
    assert!(rt; directory.eligible(&Key(7), 5));
}
