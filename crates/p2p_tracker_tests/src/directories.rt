//! Directories, by each of their calls.
use crate::peers::{address, alone, directory, ip, sharing, socket, spread, tracking};
use p2p_address::Ingress;
use p2p_base::{Feedback, Key};
use p2p_tracker_directory::Metadata;
use p2p_tracker_mailbox::{Mailbox, Message};

// The set 3 has the key 7, and the set 5 the key 8.
#[test]
fn a_directory_tells_who_is_in_its_sets(rt: HostRuntime) {
    let alloc = rt.alloc();
    let mut directory = directory(alloc).expect(&rt, "memory");
    assert!(rt; directory.latest_update().expect(&rt, "memory").is_none());
    assert_eq!(rt; directory.latest_set_index(), None);
    for (index, key) in [(3, 7), (5, 8)] {
        let peers = alone(alloc, key, 7).expect(&rt, "memory");
        let killed = directory.track(index, peers).expect(&rt, "memory");
        assert!(rt; killed.expect(&rt, "a later set").is_empty());
    }
    let peers = alone(alloc, 9, 7).expect(&rt, "memory");
    assert!(rt; directory.track(5, peers).expect(&rt, "memory").is_none());
    assert_eq!(rt; directory.latest_set_index(), Some(5));
    let all = directory.all().expect(&rt, "memory");
    let update = directory
        .latest_update()
        .expect(&rt, "memory")
        .expect(&rt, "a set");
    let kept = directory
        .get_peer_set(5)
        .expect(&rt, "memory")
        .expect(&rt, "it is kept");
    assert_eq!(rt; all.primary.as_slice(), [Key(7), Key(8)].as_slice());
    assert!(rt; all.secondary.is_empty());
    assert!(rt; update.index == 5 && update.all == all && update.latest == kept);
    assert_eq!(rt; kept.primary.as_slice(), [Key(8)].as_slice());
    assert!(rt; directory.get_peer_set(4).expect(&rt, "memory").is_none());
    assert!(rt; directory.eligible(&Key(7), 0) && !directory.eligible(&Key(9), 0));
}

#[test]
fn a_directory_grants_a_peer_to_one_at_a_time(rt: HostRuntime) {
    let alloc = rt.alloc();
    let mut directory = tracking(alloc).expect(&rt, "memory");
    assert!(rt; !directory.may_connect(&Key(7)) && !directory.may_release(&Key(7)));
    let granted = directory.dial(&Key(7), 0, 0).expect(&rt, "memory");
    let (reservation, ingress) = granted.expect(&rt, "it is tracked");
    assert!(rt; ingress == Ingress::Socket(socket(7)));
    assert_eq!(rt; *reservation.metadata(), Metadata::Dialer(Key(7)));
    assert!(rt;
        directory
            .dial(&Key(7), u64::MAX, 0)
            .expect(&rt, "memory")
            .is_none()
    );
    assert!(rt; directory.may_connect(&Key(7)));
    assert!(rt; directory.connect(&Key(7)));
    assert!(rt; directory.may_release(&Key(7)));
    directory.release(&Metadata::Dialer(Key(7)));
    let other = directory
        .listen(&Key(7), ip(8), 100, 0)
        .expect(&rt, "memory");
    assert!(rt; other.is_none());
    let granted = directory
        .listen(&Key(7), ip(7), 100, 0)
        .expect(&rt, "memory");
    let metadata = *granted.expect(&rt, "its cooldown is over").metadata();
    assert_eq!(rt; metadata, Metadata::Listener(Key(7)));
    assert_eq!(rt; *metadata.public_key(), Key(7));
}

#[test]
fn a_reservation_goes_back_through_the_mailbox(rt: HostRuntime) {
    let alloc = rt.alloc();
    let mut directory = tracking(alloc).expect(&rt, "memory");
    let granted = directory.dial(&Key(7), 0, 0).expect(&rt, "memory");
    let (reservation, _) = granted.expect(&rt, "it is tracked");
    let mut way = Mailbox::new(alloc, 1).expect(&rt, "memory");
    assert!(rt; matches!(way.release(reservation), Ok(Feedback::Ok)));
    let metadata = Metadata::Dialer(Key(7));
    assert!(rt; way.take() == Some(Message::Release { metadata }));
}

#[test]
fn a_directory_lists_a_peer_but_while_it_is_blocked(rt: HostRuntime) {
    let mut directory = tracking(rt.alloc()).expect(&rt, "memory");
    let whom = directory.dialable(0).expect(&rt, "memory");
    assert_eq!(rt; whom.peers.as_slice(), [Key(7)].as_slice());
    assert_eq!(rt; whom.next_query_at, None);
    let heard = directory.listenable(0).expect(&rt, "memory");
    assert_eq!(rt; heard.as_slice(), [ip(7)].as_slice());
    assert_eq!(rt; directory.overwrite(&Key(7), address(8)), Ok(true));
    assert_eq!(rt; directory.overwrite(&Key(7), address(8)), Ok(false));
    assert!(rt; directory.acceptable(&Key(7), ip(8), 0));
    assert_eq!(rt; directory.block(&Key(7), 0), Ok(true));
    assert_eq!(rt; directory.block(&Key(7), 4), Ok(false));
    assert!(rt; !directory.acceptable(&Key(7), ip(8), 4));
    let blocked = directory.blocked_peers(4).expect(&rt, "memory");
    assert_eq!(rt; blocked.as_slice(), [Key(7)].as_slice());
    assert!(rt; !directory.unblock_expired(4));
    assert!(rt; directory.unblock_expired(5));
    assert!(rt; directory.acceptable(&Key(7), ip(8), 5));
}

// The keys 2 and 3 are at the host 2, and a block lasts for ten nanoseconds.
#[test]
fn a_directory_counts_who_may_come_from_an_address(rt: HostRuntime) {
    let mut directory = sharing(rt.alloc()).expect(&rt, "memory");
    assert_eq!(rt; directory.listenable_count(&ip(2), 0), 2);
    assert_eq!(rt; directory.block(&Key(2), 0), Ok(true));
    assert_eq!(rt; directory.listenable_count(&ip(2), 9), 1);
    assert_eq!(rt; directory.listenable_count(&ip(2), 10), 2);
    assert_eq!(rt; directory.next_query_at(9), Some(10));
    assert_eq!(rt; directory.next_query_at(10), None);
    assert_eq!(rt; directory.overwrite(&Key(3), address(3)), Ok(true));
    assert_eq!(rt; directory.listenable_count(&ip(2), 10), 1);
    assert_eq!(rt; directory.listenable_count(&ip(3), 10), 1);
    let heard = directory.listenable(9).expect(&rt, "memory");
    assert_eq!(rt; heard.as_slice(), [ip(3)].as_slice());
}

// Of the keys 2 and 3 the first was granted and given back, and the second is held.
#[test]
fn a_directory_asks_again_when_a_peer_comes_up_for_a_dial(rt: HostRuntime) {
    let mut directory = sharing(rt.alloc()).expect(&rt, "memory");
    let granted = directory.dial(&Key(2), 0, 2).expect(&rt, "memory");
    assert!(rt; granted.is_some());
    let granted = directory.dial(&Key(3), 0, 3).expect(&rt, "memory");
    assert!(rt; granted.is_some());
    assert!(rt; directory.may_release(&Key(2)));
    directory.release(&Metadata::Dialer(Key(2)));
    let whom = directory.dialable(101).expect(&rt, "memory");
    assert!(rt; whom.peers.is_empty());
    assert_eq!(rt; whom.next_query_at, Some(102));
    assert_eq!(rt; directory.next_query_at(101), Some(102));
    let whom = directory.dialable(102).expect(&rt, "memory");
    assert_eq!(rt; whom.peers.as_slice(), [Key(2)].as_slice());
    assert_eq!(rt; whom.next_query_at, None);
    assert_eq!(rt; directory.listenable_count(&ip(2), 102), 2);
}

// Of the keys 1 to 200 each goes from one of seven hosts to one of eleven, and is granted and given back at a moment of its own.
#[test]
fn a_directory_follows_many_peers_that_move(rt: HostRuntime) {
    let mut directory = spread(rt.alloc(), 201).expect(&rt, "memory");
    assert_eq!(rt; directory.listenable_count(&ip(6), 0), 28);
    for key in 1..201 {
        let host = u8::try_from(key * 5 % 11).unwrap_or(0);
        let moved = directory.overwrite(&Key(key), address(host));
        assert_eq!(rt; moved, Ok(u64::from(host) != key % 7));
        let at = key * 37 % 200;
        let granted = directory.dial(&Key(key), at, 0).expect(&rt, "memory");
        assert!(rt; granted.is_some() && directory.may_release(&Key(key)));
        directory.release(&Metadata::Dialer(Key(key)));
    }
    let heard = directory.listenable(0).expect(&rt, "memory");
    assert_eq!(rt; heard.len(), 11);
    assert_eq!(rt; directory.listenable_count(&ip(0), 0), 18);
    assert_eq!(rt; directory.listenable_count(&ip(5), 0), 19);
    assert_eq!(rt; directory.next_query_at(0), Some(100));
    let whom = directory.dialable(149).expect(&rt, "memory");
    assert!(rt; whom.peers.len() == 50 && whom.next_query_at == Some(150));
    assert_eq!(rt; directory.next_query_at(298), Some(299));
    assert_eq!(rt; directory.next_query_at(299), None);
}
