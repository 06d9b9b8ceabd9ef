//! What comes over a connection, as the quotas of its channels admit it, and the mailboxes that it comes to.
use crate::node::{SECOND, one_a_second};
use bytes::Bytes;
use p2p_base::{Key, Sent};
use p2p_flow_connection::{Delivered, Inbounds, Inbox};
use p2p_wire::Data;
use std::alloc::{AllocError, Global};

// Whether a mailbox of one place takes a message and hands the second back, gives the first, and takes none once it is closed; and
// whether it is known until it is removed.
fn arrived(alloc: Global) -> Result<[bool; 6], AllocError> {
    let mut inbounds = Inbounds::new(alloc);
    inbounds.register(alloc, 7, 1)?;
    let first = matches!(inbounds.put(7, (Key(1), Bytes::new())), Ok(Sent::Ok));
    let second = matches!(
        inbounds.put(7, (Key(2), Bytes::new())),
        Ok(Sent::Rejected((Key(2), _)))
    );
    let given = matches!(inbounds.take(7), Some((Key(1), _)));
    inbounds.close(7);
    let closed = matches!(
        inbounds.put(7, (Key(3), Bytes::new())),
        Ok(Sent::Closed((Key(3), _)))
    );
    let known = inbounds.is_registered(7);
    inbounds.deregister(7);
    inbounds.end();
    let gone = !inbounds.is_registered(7) && inbounds.has_ended();
    Ok([first, second, given, closed, known, gone])
}

#[test]
fn mailboxes_of_channels_go_through_their_calls(rt: HostRuntime) {
    assert!(rt; arrived(rt.alloc()) == Ok([true; 6]));
}

// Delivers what is held at this moment, or else a message of key 1 on this channel.
fn deliver(
    inbox: &mut Inbox<Key>,
    inbounds: &mut Inbounds<Key>,
    channel: u64,
    now: u64,
) -> Result<Delivered<Key>, AllocError> {
    if inbox.is_holding() {
        return inbox.retry(inbounds, now);
    }
    let message = Bytes::from_static(b"m");
    inbox.deliver(inbounds, Key(1), Data { channel, message }, now)
}

// Whether one message is delivered a second, and what comes in between is held.
fn held(inbox: &mut Inbox<Key>, inbounds: &mut Inbounds<Key>) -> Result<[bool; 5], AllocError> {
    let first = matches!(deliver(inbox, inbounds, 7, 0)?, Delivered::Kept);
    let second = matches!(deliver(inbox, inbounds, 7, 0)?, Delivered::Held);
    let is_held = matches!(inbox.held(), Some((Key(1), _)));
    let early = matches!(deliver(inbox, inbounds, 7, SECOND - 1)?, Delivered::Held);
    let later = matches!(deliver(inbox, inbounds, 7, SECOND)?, Delivered::Kept);
    Ok([first, second, is_held, early, later])
}

// Whether a message is handed back whose mailbox is full or closed, and one on another channel is refused.
fn told(inbox: &mut Inbox<Key>, inbounds: &mut Inbounds<Key>) -> Result<[bool; 3], AllocError> {
    let full = matches!(
        deliver(inbox, inbounds, 7, 2 * SECOND)?,
        Delivered::MailboxFull((Key(1), _))
    );
    inbounds.close(7);
    let closed = matches!(
        deliver(inbox, inbounds, 7, 3 * SECOND)?,
        Delivered::Closed((Key(1), _))
    );
    let other = matches!(deliver(inbox, inbounds, 8, 0)?, Delivered::InvalidChannel);
    Ok([full, closed, other])
}

// The same of an inbox in which channel 7 has one message a second, and two places.
fn delivered(alloc: Global) -> Result<([bool; 5], [bool; 3], usize), AllocError> {
    let mut inbounds = Inbounds::new(alloc);
    inbounds.register(alloc, 7, 2)?;
    let quotas = Vec::from_slice(alloc, &[(7, one_a_second()?)])?;
    let mut inbox = Inbox::new(alloc, quotas)?;
    let held = held(&mut inbox, &mut inbounds)?;
    let told = told(&mut inbox, &mut inbounds)?;
    Ok((held, told, inbox.channels().len()))
}

#[test]
fn an_inbox_goes_through_its_calls(rt: HostRuntime) {
    assert!(rt; delivered(rt.alloc()) == Ok(([true; 5], [true; 3], 1)));
}
