//! A relay of one place for each lane, and to whom a message goes.
use p2p_base::{Key, List, Sent};
use p2p_flow::{Polled, Recipients, Relay};
use std::alloc::{AllocError, Global};

// Whether a lane takes one message and hands the second back, the other lane takes one beside it, each gives its own, and a closed
// relay hands back what comes.
fn relayed(alloc: Global) -> Result<[bool; 7], AllocError> {
    let mut relay = Relay::new(alloc, 1)?;
    let low = matches!(relay.send(1u8, false), Ok(Sent::Ok));
    let full = matches!(relay.send(2, false), Ok(Sent::Rejected(2)));
    let high = matches!(relay.send(3, true), Ok(Sent::Ok));
    let told = (relay.capacity(), relay.high_len(), relay.low_len()) == (1, 1, 1);
    let given = (relay.take_high(), relay.take_low()) == (Some(3), Some(1));
    relay.close();
    let back = matches!(relay.send(4, true), Ok(Sent::Closed(4)));
    Ok([low, full, high, told, given, back, relay.is_closed()])
}

#[test]
fn a_relay_goes_through_its_calls(rt: HostRuntime) {
    assert!(rt; relayed(rt.alloc()) == Ok([true; 7]));
}

// Whether a list of recipients equals its copy, and not one of them.
fn recipients(alloc: Global) -> Result<(bool, bool), AllocError> {
    let list = Recipients::Some(List::from_slice(alloc, &[Key(2), Key(2)])?);
    let is_copied = list.try_clone(alloc)? == list;
    Ok((is_copied, list == Recipients::One(Key(2))))
}

#[test]
fn plain_data_compares(rt: HostRuntime) {
    assert!(rt; recipients(rt.alloc()) == Ok((true, false)));
    assert!(rt; Polled::Ready(7) == Polled::Ready(7));
    assert!(rt; Polled::Ready(7) != Polled::Pending);
}
