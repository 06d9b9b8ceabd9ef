//! The limit of what an oracle of a discovered network hands in.
use p2p_base::{Feedback, Key, Set};
use p2p_discovery_directory::tracker::{Mailbox, Message, Oracle};
use p2p_flow::{Blocker, Manager, TrackError, TrackedPeers};
use std::alloc::{AllocError, Global};
use std::test::Fail;

// The mailbox of a tracker, and the oracle of key 1, whose sets have two keys, its own counted.
fn asking(alloc: Global) -> Result<(Mailbox<Key>, Oracle<Key>), AllocError> {
    Ok((Mailbox::new(alloc, 4)?, Oracle::new(Key(1), 2)))
}

// These keys, as primary peers.
fn peers(alloc: Global, keys: &[Key]) -> Result<TrackedPeers<Key>, AllocError> {
    let keys = Set::from_iter_dedup(Vec::from_slice(alloc, keys)?)?;
    Ok(TrackedPeers::primary(alloc, keys))
}

// With its own key unlisted, two others are one too many.
#[test]
fn an_own_key_that_is_not_listed_counts(rt: HostRuntime) {
    let alloc = rt.alloc();
    let (mut way, mut oracle) = asking(alloc).expect(&rt, "memory");
    let others = peers(alloc, &[Key(2), Key(3)]).expect(&rt, "memory");
    let told = oracle.track(alloc, &mut way.desk, 6, others);
    assert_eq!(rt;
        told,
        Err(TrackError::PeerSetTooLarge { count: 3, limit: 2 })
    );
    assert!(rt; way.take().is_none());
    let listed = peers(alloc, &[Key(1), Key(2)]).expect(&rt, "memory");
    let told = oracle.track(alloc, &mut way.desk, 6, listed);
    assert_eq!(rt; told, Ok(Feedback::Ok));
    let told = oracle.block(alloc, &mut way.desk, Key(2));
    assert_eq!(rt; told, Ok(Feedback::Ok));
    assert!(rt; matches!(way.take(), Some(Message::Register { index: 6, .. })));
    assert!(rt; matches!(way.take(), Some(Message::Block { public_key: Key(2) })));
    assert!(rt; way.take().is_none());
}
