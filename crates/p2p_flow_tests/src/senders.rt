//! To whom a message is sent, as a quota for each peer admits.
use crate::node::{OK, SECOND, sender, unrouted};
use bytes::Bytes;
use p2p_base::{Key, List};
use p2p_flow::Recipients;
use p2p_flow_senders::channels::UnlimitedSender;
use p2p_flow_senders::{CheckedSender as _, SendError, Sender, UnlimitedSender as _};
use p2p_router::Messenger;
use std::alloc::{AllocError, Global};

// Whether a message for a list in which key 2 stands twice is sent to it once, a check at the same moment tells when it is admitted
// again, one then admits it, and a message for whom it admitted is taken.
pub fn goes_through<S: Sender<PublicKey = Key>>(
    alloc: Global,
    sender: &S,
    way: &mut S::Way,
) -> Result<[bool; 4], SendError>
    requires { S.serves sender.now way.old }
{
    let twice = Recipients::Some(List::from_slice(alloc, &[Key(2), Key(2)])?);
    let sent = sender.send(alloc, way, twice, Bytes::from_static(b"six"), false, 0)?;
    let once = sent.as_slice() == [Key(2)].as_slice();
    let early = sender.check(alloc, way, Recipients::One(Key(2)), 0)?;
    let waits = early.err() == Some(1_000_000_000);
    let Ok(checked) = sender.check(alloc, way, Recipients::One(Key(2)), SECOND)? else {
        return Ok([once, waits, false, false]);
    };
    let admitted = checked.recipients() == [Key(2)].as_slice();
    let told = sender.send_checked(alloc, way, checked, Bytes::from_static(b"six"), true)?;
    Ok([once, waits, admitted, told == OK])
}

// Whether a message for key 3 is refused, which comes to five bytes where four are the limit, and counts all the same.
pub fn refuses<S: Sender<PublicKey = Key>>(
    alloc: Global,
    sender: &S,
    way: &mut S::Way,
    message: &'static [u8],
) -> Result<[bool; 2], AllocError>
    requires { S.serves sender.now way.old }
    ensures { S.serves sender.now way.new }
{
    let to = Recipients::One(Key(3));
    let sent = sender.send(alloc, way, to, Bytes::from_static(message), false, 0);
    let refused = sent.err() == Some(SendError::MessageTooLarge { size: 5, limit: 4 });
    let checked = sender.check(alloc, way, Recipients::One(Key(3)), 0)?;
    Ok([refused, checked.err() == Some(1_000_000_000)])
}

// Both of a new sender whose messages have at most four bytes.
fn limited(alloc: Global) -> Result<([bool; 2], [bool; 4]), SendError> {
    let mut way = unrouted(alloc);
    let sender = sender(alloc, &mut way, 4)?;
    let refused = refuses(alloc, &sender, &mut way, b"hello")?;
    Ok((refused, goes_through(alloc, &sender, &mut way)?))
}

#[test]
fn a_limited_sender_goes_through_its_calls(rt: HostRuntime) {
    assert!(rt; limited(rt.alloc()) == Ok(([true; 2], [true; 4])));
}

// Whether a sender without a quota has a message taken, and refuses one that is too long.
fn unlimited(alloc: Global) -> [bool; 2] {
    let mut way = unrouted(alloc);
    let sender: UnlimitedSender<Key, Messenger<Key>> = UnlimitedSender::new(7, 4);
    let four = sender.send(
        alloc,
        &mut way,
        Recipients::All,
        Bytes::from_static(b"four"),
        false,
    );
    let five = sender.send(
        alloc,
        &mut way,
        Recipients::All,
        Bytes::from_static(b"hello"),
        true,
    );
    let refused = Err(SendError::MessageTooLarge { size: 5, limit: 4 });
    [four == Ok(OK), five == refused]
}

#[test]
fn a_sender_without_a_quota_keeps_to_its_size(rt: HostRuntime) {
    assert!(rt; unlimited(rt.alloc()) == [true; 2]);
}
