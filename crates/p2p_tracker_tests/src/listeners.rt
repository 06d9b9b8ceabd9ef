//! A listener and a handshake, by each of their calls.
use crate::peers::{ip, socket};
use p2p_base::{Key, List};
use p2p_gates::{Arrival, Config, Handshake, Listener, Outcome, Put, Reply, Stepped, stream};
use p2p_runtime::Quota;
use p2p_tracker_mailbox::{HandshakeItem, Mailbox};
use std::alloc::{AllocError, Global};

// Private addresses may connect, each may, and one handshake runs at a time. `Err` where there is no such quota.
pub fn settings() -> Result<Config, AllocError> {
    let quota = Quota::per_second(100).ok_or(AllocError)?;
    Ok(Config {
        allow_private_ips: true,
        bypass_ip_check: true,
        max_concurrent_handshakes: 1,
        allowed_handshake_rate_per_ip: quota,
        allowed_handshake_rate_per_subnet: quota,
        handshake_timeout: 5,
        dial_timeout: 15,
        dial_frequency: 10,
        peer_connection_cooldown: 100,
    })
}

// Three peers arrive, and the handshake of the first has ended when the second is taken.
#[test]
fn a_listener_admits_as_many_as_have_a_place(rt: HostRuntime) {
    let mut way = Mailbox::new(rt.alloc(), 4).expect(&rt, "memory");
    let cfg = settings().expect(&rt, "a quota");
    let mut listener = Listener::new(rt.alloc(), cfg).expect(&rt, "memory");
    for link in 0..3 {
        assert_eq!(rt; listener.arrive(socket(1), Key(2), link), Ok(()));
    }
    let stepped = listener.step(&mut way, 5, 0).expect(&rt, "memory");
    assert!(rt;
        matches!(
            stepped,
            Stepped::Served {
                outcome: Outcome::Admitted(_),
                ..
            }
        )
    );
    listener.ended();
    let stepped = listener.step(&mut way, 6, 0).expect(&rt, "memory");
    assert!(rt;
        matches!(
            stepped,
            Stepped::Served {
                outcome: Outcome::Admitted(_),
                ..
            }
        )
    );
    let stepped = listener.step(&mut way, 7, 0).expect(&rt, "memory");
    let Stepped::Served {
        outcome: Outcome::Refused { link, reply },
        ..
    } = &stepped
    else {
        panic!(rt; "one arrival waits");
    };
    assert_eq!(rt; (*link, *reply), (2, Reply::TooMany));
}

// The handshake of the name 5 that a listener begins at 0 for the key 2, which arrives over the link 3.
fn handshake(alloc: Global, way: &mut Mailbox<Key>) -> Result<Option<Handshake<Key>>, AllocError> {
    let mut listener = Listener::new(alloc, settings()?)?;
    listener.arrive(socket(1), Key(2), 3)?;
    let stepped = listener.step(way, 5, 0)?;
    let Stepped::Served {
        took: _,
        put: _,
        left: _,
        outcome,
    } = stepped
    else {
        return Ok(None);
    };
    match outcome {
        Outcome::Admitted(handshake) => Ok(Some(handshake)),
        _ => Ok(None),
    }
}

#[test]
fn a_handshake_asks_for_its_peer_once_keys_were_exchanged(rt: HostRuntime) {
    let mut way = Mailbox::new(rt.alloc(), 4).expect(&rt, "memory");
    let begun = handshake(rt.alloc(), &mut way).expect(&rt, "memory");
    let mut handshake = begun.expect(&rt, "it is admitted");
    let from = socket(1);
    let arrival = Arrival {
        from,
        key: Key(2),
        link: 3,
    };
    assert_eq!(rt; handshake.name(), 5);
    assert_eq!(rt; *handshake.arrival(), arrival);
    assert_eq!(rt; handshake.finished(&mut way, true), Ok(()));
    assert!(rt; !handshake.is_accepted());
    let stepped = handshake.step(&mut way, 0).expect(&rt, "memory");
    let Stepped::Served { put, .. } = &stepped else {
        panic!(rt; "an item waits");
    };
    let due = Put::Listen {
        public_key: Key(2),
        source_ip: ip(1),
        handshake: 5,
    };
    assert_eq!(rt; *put, Some(due));
    assert!(rt; !handshake.has_ended());
    assert_eq!(rt;
        way.answer_handshake(5, HandshakeItem::Listen(None)),
        Ok(true)
    );
    let stepped = handshake.step(&mut way, 0).expect(&rt, "memory");
    assert!(rt;
        matches!(
            stepped,
            Stepped::Served {
                outcome: Outcome::Ended,
                ..
            }
        )
    );
    assert!(rt; handshake.has_ended());
}

#[test]
fn a_copy_of_what_both_ends_agree_on_is_equal(rt: HostRuntime) {
    let namespace = List::from_slice(rt.alloc(), &[1, 2]).expect(&rt, "memory");
    let agreed = stream::Config {
        namespace,
        max_message_size: 1024,
    };
    assert!(rt; agreed.try_clone(rt.alloc()).expect(&rt, "memory") == agreed);
}
