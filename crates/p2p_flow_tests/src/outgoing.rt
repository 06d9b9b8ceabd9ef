//! What one connection writes next, how it is told to end, and how often it may do a thing.
use bytes::Bytes;
use p2p_base::Pushed;
use p2p_flow::Relay;
use p2p_flow_connection::{Control, Outbox, Prioritized, Throttle};
use p2p_lookup::peer::{Mailbox, Message};
use p2p_runtime::Quota;
use p2p_wire::EncodedData;
use std::alloc::{AllocError, Global};

// Lets frames of one byte wait in a relay: two without priority, and one with it.
fn wait(relay: &mut Relay<EncodedData>) {
    let channel = 7;
    for (byte, priority) in [(b"1", false), (b"2", false), (b"3", true)] {
        let payload = Bytes::from_static(byte);
        let _ = relay.send(EncodedData { channel, payload }, priority);
    }
}

// Whether the frame with priority is next; a batch of four is filled behind what was put there, and a kill is left out of it once it is
// full; and whether that is next, before what else waits, and the end is told then.
fn write(
    alloc: Global,
    outbox: &mut Outbox,
    control: &mut Mailbox,
    relay: &mut Relay<EncodedData>,
) -> Result<[bool; 5], AllocError> {
    let payload = Bytes::from_static(b"3");
    let high = Prioritized::Data(EncodedData {
        channel: 7,
        payload,
    });
    let next = outbox.next(control, relay) == Some(high);
    outbox.push(Bytes::from_static(b"a"))?;
    outbox.append(Vec::from_array(alloc, [Bytes::from_static(b"b"), Bytes::from_static(b"c")])?)?;
    let filled = !outbox.fill(alloc, control, relay)?;
    control.kill();
    let full = !outbox.fill(alloc, control, relay)?;
    let mut other = Outbox::new(alloc, 1);
    let killed = other.fill(alloc, control, relay)?;
    control.close();
    let ended = matches!(outbox.next(control, relay), Some(Prioritized::Closed));
    Ok([next, filled, full, killed, ended])
}

// The first byte of each of four frames.
fn first_bytes(frames: &[Bytes]) -> Option<[u8; 4]> {
    match frames {
        [a, b, c, d] => Some([*a.first()?, *b.first()?, *c.first()?, *d.first()?]),
        _ => None,
    }
}

// The same of a new batch, and the first byte of each of its four frames.
fn written(alloc: Global) -> Result<([bool; 5], Option<[u8; 4]>), AllocError> {
    let mut control = Mailbox::new(alloc, 1)?;
    let mut relay = Relay::new(alloc, 2)?;
    wait(&mut relay);
    let mut outbox = Outbox::new(alloc, 4);
    let written = write(alloc, &mut outbox, &mut control, &mut relay)?;
    Ok((written, first_bytes(outbox.drain().as_slice())))
}

#[test]
fn a_batch_goes_through_its_calls(rt: HostRuntime) {
    assert!(rt; written(rt.alloc()) == Ok(([true; 5], Some(*b"abc1"))));
}

// Whether a second kill takes the place of the first in a mailbox of one place, one is taken, which is no frame, and the mailbox tells
// that it is closed.
fn killed(alloc: Global) -> Result<[bool; 5], AllocError> {
    let mut control = Mailbox::new(alloc, 1)?;
    let kept = matches!(control.kill(), Pushed::Kept);
    let replaced = matches!(control.kill(), Pushed::Replaced(Message::Kill));
    let taken = [control.try_recv(), control.try_recv()] == [Some(Message::Kill), None];
    let frame = Mailbox::encode(alloc, Message::Kill)?;
    let open = !control.closed();
    control.close();
    Ok([
        kept,
        replaced,
        taken,
        frame.is_none(),
        open && control.closed(),
    ])
}

#[test]
fn two_kills_in_a_mailbox_of_one_are_one(rt: HostRuntime) {
    assert!(rt; killed(rt.alloc()) == Ok([true; 5]));
}

// What a throttle answers, and how many it received and limited.
type Throttled = ([Result<(), u128>; 5], u64, u64);

// That of a throttle of one a second that is asked five times at the moment 0.
fn throttled() -> Option<Throttled> {
    let mut throttle = Throttle::new(Quota::per_second(1)?);
    let answers = [
        throttle.receive(true, 0),
        throttle.receive(true, 0),
        throttle.receive(true, 0),
        throttle.receive(true, 0),
        throttle.receive(true, 0),
    ];
    Some((answers, throttle.received(), throttle.limited()))
}

// What one answers to a message that isn't limited, and then to what it doesn't count, twice; and how many it received and limited.
fn admitted() -> Option<([Result<(), u128>; 3], u64, u64)> {
    let mut throttle = Throttle::new(Quota::new(1, 10)?);
    let answers = [
        throttle.receive(false, 5),
        throttle.admit(5),
        throttle.admit(5),
    ];
    Some((answers, throttle.received(), throttle.limited()))
}

#[test]
fn a_throttle_counts_what_it_refuses(rt: HostRuntime) {
    let later = Err(1_000_000_000);
    let answers = [Ok(()), later, later, later, later];
    assert!(rt; throttled() == Some((answers, 5, 4)));
    assert!(rt; admitted() == Some(([Ok(()), Ok(()), Err(15)], 1, 0)));
}
