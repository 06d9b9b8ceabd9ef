//! The channels of a node, their sizes, and what their receivers get.
use crate::node::{channel, is_m, unrouted};
use bytes::Bytes;
use p2p_base::{Key, Sent};
use p2p_flow::Polled;
use p2p_flow_connection::Inbounds;
use p2p_flow_senders::channels::{Error, Receiver};
use p2p_flow_senders::{Channels, Receiver as _, RegisterError};
use p2p_runtime::Quota;
use std::alloc::{AllocError, Global};

// Registers a channel of new mailboxes, with a burst of two: how many messages its receiver holds, or why it isn't registered.
fn register(
    alloc: Global,
    channels: &mut Channels<Key>,
    channel: u64,
) -> Result<usize, RegisterError> {
    let Some(quota) = Quota::new(2, 5) else {
        return Err(RegisterError::Memory);
    };
    let mut way = unrouted(alloc);
    let mut inbounds = Inbounds::new(alloc);
    if inbounds.is_registered(channel) {
        return Err(RegisterError::Memory);
    }
    let halves = channels.register(alloc, &mut way, &mut inbounds, channel, quota)?;
    Ok(halves.1.capacity())
}

// What comes of three registrations where there are at most so many peers, the third of a channel that is registered.
fn registered(alloc: Global, channels: &mut Channels<Key>) -> [Result<usize, RegisterError>; 3] {
    [
        register(alloc, channels, 9),
        register(alloc, channels, 4),
        register(alloc, channels, 9),
    ]
}

// The numbers of two channels, in the order in which they are given.
fn numbers(given: &[(u64, Quota)]) -> Option<[u64; 2]> {
    match given {
        [first, second] => Some([first.0, second.0]),
        _ => None,
    }
}

// Whether two channels of four messages each make a router's mailbox of ten beside two, and of none beside too many, and are given in
// order.
fn sized(alloc: Global) -> [bool; 4] {
    let mut channels = Channels::new(alloc, 1024, 2);
    let told = registered(alloc, &mut channels);
    let wanted = [Ok(4), Ok(4), Err(RegisterError::DuplicateChannel(9))];
    let sizes = channels.outbound_mailbox_size(2) == Some(10);
    let none = channels.outbound_mailbox_size(usize::MAX).is_none();
    let collected = channels.collect();
    let given = numbers(collected.as_slice()) == Some([4, 9]);
    [told == wanted, sizes, none, given]
}

#[test]
fn channels_go_through_their_calls(rt: HostRuntime) {
    assert!(rt; sized(rt.alloc()) == [true; 4]);
}

// Whether a receiver waits, gets the message that is left at the end, and no more then.
fn receive(receiver: &mut Receiver<Key>, inbounds: &mut Inbounds<Key>) -> [bool; 4] {
    let pending = matches!(receiver.poll_recv(inbounds), Ok(Polled::Pending));
    let put = inbounds.put(7, (Key(2), Bytes::from_static(b"m")));
    inbounds.end();
    let received = is_m(receiver.poll_recv(inbounds));
    let ended = matches!(receiver.poll_recv(inbounds), Err(Error::NetworkClosed));
    [pending, matches!(put, Ok(Sent::Ok)), received, ended]
}

// The same of a new channel of three places.
fn received(alloc: Global) -> Result<[bool; 4], AllocError> {
    let (_, mut receiver, mut inbounds) = channel(alloc, &mut unrouted(alloc), 1024, 3)?;
    Ok(receive(&mut receiver, &mut inbounds))
}

#[test]
fn a_receiver_waits_and_gets_what_is_left_at_the_end(rt: HostRuntime) {
    assert!(rt; received(rt.alloc()) == Ok([true; 4]));
}
