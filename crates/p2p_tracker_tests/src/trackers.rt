//! A tracker, by each of its calls.
ghost use Rattle.std.specs.Prelude.{◌≡◌, IfOk};
ghost use Rattle.p2p_tracker_mailbox.specs.Mailboxes.{new_mailbox};

use p2p_base::{Feedback, Key, PublicKey};
use p2p_flow::Blocker;
use p2p_tracker::{Actor, Config, Mailbox, Oracle, Put, Stepped};
use std::alloc::{AllocError, Global};

// A tracker of this key.
fn tracker<C: PublicKey>(
    alloc: Global,
    public_key: C,
) -> Result<(Actor<C>, Mailbox<C>, Oracle<C>), AllocError>
    ensures { IfOk result (λ r. r.1 ≡ new_mailbox 4) }
{
    Actor::new(
        alloc,
        Config {
            public_key,
            mailbox_size: 4,
            max_peers_per_set: 3,
            tracked_peer_sets: 2,
            peer_connection_cooldown: 1_000_000_000,
            allow_private_ips: true,
            allow_dns: false,
            bypass_ip_check: false,
            block_duration: 10,
        },
    )
}

#[test]
fn a_tracker_takes_a_message_a_step(rt: HostRuntime) {
    let (mut actor, mut way, mut oracle) = tracker(rt.alloc(), Key(1)).expect(&rt, "memory");
    assert!(rt; actor.may_release(&Key(2)) && !actor.may_connect(&Key(2)));
    let told = oracle.block(rt.alloc(), &mut way.desk, Key(2));
    assert_eq!(rt; told, Ok(Feedback::Ok));
    let stepped = actor.step(&mut way, 0, 0).expect(&rt, "memory");
    let Stepped::Message { put } = stepped else {
        panic!(rt; "a message waits");
    };
    assert!(rt; matches!(put.as_slice(), [Put::Listenable { .. }]));
    let stepped = actor.step(&mut way, 10, 0).expect(&rt, "memory");
    assert!(rt; matches!(stepped, Stepped::EndedBlocks { .. }));
}
