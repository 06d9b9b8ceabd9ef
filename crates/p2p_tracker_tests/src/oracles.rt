//! An oracle, by each of its calls, and what answers it.
use crate::peers::{alone, at};
use p2p_base::{Feedback, Key, Set};
use p2p_flow::{
    AddressableManager, AddressableTrackedPeers, Blocker, PeerSetUpdate, Polled, Provider,
    TrackError, TrackedPeers,
};
use p2p_tracker_mailbox::{Mailbox, Message, Oracle};

// A set may have two keys, the oracle's own counted.
#[test]
fn an_oracle_hands_in_what_is_within_its_limit(rt: HostRuntime) {
    let alloc = rt.alloc();
    let mut way = Mailbox::new(alloc, 4).expect(&rt, "memory");
    let mut oracle = Oracle::new(Key(1), 2);
    let primary = at(alloc, 2, 7).expect(&rt, "memory");
    let secondary = at(alloc, 3, 7).expect(&rt, "memory");
    let three = AddressableTrackedPeers::new(primary, secondary);
    let told = oracle.track(alloc, &mut way.desk, 6, three);
    assert_eq!(rt;
        told,
        Err(TrackError::PeerSetTooLarge { count: 3, limit: 2 })
    );
    let two = alone(alloc, 2, 7).expect(&rt, "memory");
    let told = oracle.track(alloc, &mut way.desk, 6, two);
    assert_eq!(rt; told, Ok(Feedback::Ok));
    let moved = at(alloc, 2, 8).expect(&rt, "memory");
    assert_eq!(rt;
        oracle.overwrite(alloc, &mut way.desk, moved),
        Ok(Feedback::Ok)
    );
    assert_eq!(rt;
        oracle.block(alloc, &mut way.desk, Key(2)),
        Ok(Feedback::Ok)
    );
    assert!(rt; matches!(way.take(), Some(Message::Register { index: 6, .. })));
    assert!(rt; matches!(way.take(), Some(Message::Overwrite { .. })));
    assert!(rt; matches!(way.take(), Some(Message::Block { public_key: Key(2) })));
    assert!(rt; way.take().is_none());
}

#[test]
fn the_first_answer_to_a_question_stands(rt: HostRuntime) {
    let alloc = rt.alloc();
    let mut way: Mailbox<Key> = Mailbox::new(alloc, 4).expect(&rt, "memory");
    let mut oracle = Oracle::new(Key(1), 2);
    let asked = oracle
        .peer_set(alloc, &mut way.desk, 7)
        .expect(&rt, "memory");
    assert_eq!(rt; asked, (0, Feedback::Ok));
    let before = oracle.poll_peer_set(&mut way.desk, asked.0);
    assert!(rt; before == Polled::Pending);
    way.answer_peer_set(asked.0, Some(TrackedPeers::empty(alloc)));
    way.answer_peer_set(asked.0, None);
    let after = oracle.poll_peer_set(&mut way.desk, asked.0);
    assert!(rt; after == Polled::Ready(Some(TrackedPeers::empty(alloc))));
}

#[test]
fn a_subscription_is_told_each_update(rt: HostRuntime) {
    let alloc = rt.alloc();
    let mut way: Mailbox<Key> = Mailbox::new(alloc, 4).expect(&rt, "memory");
    let mut oracle = Oracle::new(Key(1), 2);
    let asked = oracle.subscribe(alloc, &mut way.desk).expect(&rt, "memory");
    assert_eq!(rt; asked, (0, Feedback::Ok));
    let update = PeerSetUpdate {
        index: 3,
        latest: TrackedPeers::empty(alloc),
        all: TrackedPeers::empty(alloc),
    };
    assert_eq!(rt; way.put_update(asked.0, update), Ok(()));
    let told = oracle.poll_update(&mut way.desk, asked.0);
    assert!(rt; matches!(told, Ok(Polled::Ready(PeerSetUpdate { index: 3, .. }))));
}

#[test]
fn a_subscription_is_told_the_newest_blocked_keys(rt: HostRuntime) {
    let alloc = rt.alloc();
    let mut way: Mailbox<Key> = Mailbox::new(alloc, 4).expect(&rt, "memory");
    let mut oracle = Oracle::new(Key(1), 2);
    let asked = oracle.blocked(alloc, &mut way.desk).expect(&rt, "memory");
    assert_eq!(rt; asked, (0, Feedback::Ok));
    assert!(rt; way.put_blocked(asked.0, Set::empty(alloc)).is_none());
    let keys = Vec::from_array(alloc, [Key(2)]).expect(&rt, "memory");
    let newest = Set::from_iter_dedup(keys).expect(&rt, "memory");
    let dropped = way.put_blocked(asked.0, newest).expect(&rt, "one waited");
    assert!(rt; dropped.is_empty());
    let told = oracle
        .poll_blocked(&mut way.desk, asked.0)
        .expect(&rt, "it runs");
    assert!(rt; matches!(&told, Polled::Ready(keys) if keys.as_slice() == [Key(2)].as_slice()));
}
