//! A router, its mailbox and its messenger.
ghost use Rattle.std.specs.Prelude.{◌≡◌, ◌+◌, length, IfOk, OnOk, IsTrue};
ghost use Rattle.p2p_router.specs.Messenger.{is_unbound};

use crate::node::{OK, routed};
use bytes::Bytes;
use p2p_base::{Feedback, Key, List, Unreliable};
use p2p_flow::{Carrier, Connected, Recipients, Relay};
use p2p_router::{Actor, Mailbox, Messenger, Routed, Stepped};
use p2p_wire::EncodedData;
use std::alloc::{AllocError, Global};

// An empty message for key 2, in its frame.
fn put(alloc: Global, mailbox: &mut Mailbox<Key>) -> Result<Unreliable, AllocError> {
    let frame = EncodedData::new(alloc, 7, Bytes::new())?;
    mailbox.content(Recipients::One(Key(2)), frame, false)
}

// Whether a mailbox of one place takes content, refuses more, and takes a release all the same.
fn filled(alloc: Global) -> Result<[bool; 4], AllocError> {
    let mut mailbox = Mailbox::new(alloc, 1)?;
    let empty = (mailbox.is_empty(), mailbox.capacity()) == (true, 1);
    let first = put(alloc, &mut mailbox)? == OK;
    let second = put(alloc, &mut mailbox)? == Unreliable::Rejected;
    let release = mailbox.release(Key(2))? == Feedback::Backoff;
    Ok([empty, first, second, release && mailbox.len() == 2])
}

#[test]
fn a_full_mailbox_refuses_content_alone(rt: HostRuntime) {
    assert!(rt; filled(rt.alloc()) == Ok([true; 4]));
}

// Whether a messenger without a mailbox takes content and two subscriptions, and is bound to one then.
fn bind(alloc: Global, messenger: &mut Messenger<Key>) -> Result<[bool; 4], AllocError>
    requires { IsTrue (is_unbound messenger.old.binding) }
{
    let told = messenger.content(alloc, Recipients::All, 7, Bytes::new(), true)?;
    let first = messenger.subscribe(alloc)?;
    let second = messenger.subscribe(alloc)?;
    let unbound = messenger.mailbox().is_none();
    let mailbox = Mailbox::<Key>::new(alloc, 1)?;
    if messenger.bind(mailbox).is_err() {
        return Err(AllocError);
    }
    Ok([
        told == OK,
        (first, second) == (0, 1),
        unbound,
        messenger.bound(),
    ])
}

// A new subscription.
fn subscribed(alloc: Global, messenger: &mut Messenger<Key>) -> Result<u64, AllocError>
    ensures number { IfOk result (λ n. n ≡ length messenger.old.lists) }
    ensures one_more { OnOk result (length messenger.new.lists ≡ length messenger.old.lists + 1) }
{
    messenger.subscribe(alloc)
}

// Whether it knows nobody, no list waits for its subscriptions, one of which is dropped, and it is closed then and takes nothing.
fn close(alloc: Global, messenger: &mut Messenger<Key>) -> Result<[bool; 4], AllocError> {
    let known = messenger.peers(alloc)?.is_empty();
    let dropped = subscribed(alloc, messenger)?;
    messenger.close_peers(dropped);
    messenger.close();
    let told = messenger.content(alloc, Recipients::All, 7, Bytes::new(), true)?;
    let refused = told == Unreliable::Outcome(Feedback::Closed);
    Ok([
        known,
        refused,
        messenger.take_list(0).is_none(),
        messenger.closed(),
    ])
}

// Both of a new messenger.
fn bound(alloc: Global) -> Result<[[bool; 4]; 2], AllocError> {
    let mut messenger = Messenger::unbound(alloc);
    let bound = bind(alloc, &mut messenger)?;
    Ok([bound, close(alloc, &mut messenger)?])
}

#[test]
fn a_messenger_goes_through_its_calls(rt: HostRuntime) {
    assert!(rt; bound(rt.alloc()) == Ok([[true; 4]; 2]));
}

// Tells a router of a connection of key 2 with a relay of one place, and that its peer is free, where no connection is given.
fn tell(
    alloc: Global,
    messenger: &mut Messenger<Key>,
    conn: Option<u64>,
) -> Result<bool, AllocError> {
    let relay = Relay::new(alloc, 1)?;
    let Some(mailbox) = messenger.mailbox() else {
        return Ok(false);
    };
    match conn {
        Some(conn) => Ok(mailbox.ready(Key(2), relay, conn).is_ok()),
        None => Ok(mailbox.release(Key(2))? == Feedback::Ok),
    }
}

// Whether a router takes a connection in, and knows its peer and its relay, and of no subscription.
fn connect(
    alloc: Global,
    actor: &mut Actor<Key>,
    messenger: &mut Messenger<Key>,
) -> Result<[bool; 5], AllocError> {
    let told = tell(alloc, messenger, Some(24))?;
    let taken = matches!(
        actor.step(messenger)?,
        Stepped::Ready {
            conn: 24,
            replaced: None,
            ..
        }
    );
    let known = (actor.len(), actor.has_relay(24), actor.peer(24)) == (1, true, Some(Key(2)));
    let relays = (actor.relay(24).is_some(), actor.relay_of(&Key(3)).is_some()) == (true, false);
    let listed = actor.peers_told(alloc, 0)?.is_empty();
    Ok([told, taken, known, relays, listed])
}

// Whether the first of three copies was put, the second has no connection, and the third no room.
fn is_routed(copies: &[Routed<Key>]) -> bool {
    matches!(
        copies,
        [
            Routed::Put {
                peer: Key(2),
                conn: 24,
                priority: false
            },
            Routed::NoConnection { peer: Key(3) },
            Routed::RelayFull {
                peer: Key(2),
                conn: 24
            }
        ]
    )
}

// Whether each key of a list gets a copy or a cause, and a release leaves no relay, and nothing more to do.
fn route(
    alloc: Global,
    actor: &mut Actor<Key>,
    messenger: &mut Messenger<Key>,
) -> Result<[bool; 4], AllocError> {
    let keys = List::from_slice(alloc, &[Key(2), Key(3), Key(2)])?;
    let told = messenger.content(alloc, Recipients::Some(keys), 7, Bytes::new(), false)?;
    let Stepped::Content { copies, .. } = actor.step(messenger)? else {
        return Ok([false; 4]);
    };
    let routed = is_routed(copies.as_slice());
    let is_told = tell(alloc, messenger, None)?;
    let stepped = actor.step(messenger)?;
    let released = is_told && matches!(stepped, Stepped::Release { peer: Key(2), .. });
    let idle = matches!(actor.step(messenger)?, Stepped::Idle);
    Ok([told == OK, routed, released, idle && !actor.has_relay(24)])
}

// Both of a new router.
fn steps(alloc: Global) -> Result<([bool; 5], [bool; 4]), AllocError> {
    let (mut actor, mut messenger) = routed(alloc)?;
    let connected = connect(alloc, &mut actor, &mut messenger)?;
    Ok((connected, route(alloc, &mut actor, &mut messenger)?))
}

#[test]
fn a_router_goes_through_its_calls(rt: HostRuntime) {
    assert!(rt; steps(rt.alloc()) == Ok(([true; 5], [true; 4])));
}
