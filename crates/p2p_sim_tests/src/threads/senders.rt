//! Two senders at a mailbox of capacity 1.
use crate::threads::gates::Meeting;
use p2p_base::Mailbox;
use p2p_threads::{MailboxCall, MailboxObject, MailboxReply, Numbered, Shared, senders};
use std::alloc::{AllocError, Global};
use std::sync::Wait;
use std::thread::Threads;

type Served = (MailboxCall<Numbered>, MailboxReply<Numbered>);

// Whether this is the message of a call.
fn is_of(message: Option<Numbered>, call: MailboxCall<Numbered>) -> bool {
    match message {
        Some(message) => call == MailboxCall::Enqueue(message),
        None => false,
    }
}

// What the two calls of a history were told, whether they differ, and whether a mailbox gives the message of the first and then none.
// `None` where there are not two calls.
fn told(
    mut mailbox: Mailbox<Numbered>,
    history: &[Served],
) -> Option<([MailboxReply<Numbered>; 2], [bool; 3])> {
    let [(first, told), (second, told_second)] = history else {
        return None;
    };
    let is_first = is_of(mailbox.take(), *first);
    let is_empty = mailbox.take() == None;
    Some(([*told, *told_second], [first != second, is_first, is_empty]))
}

// The same of two senders of one message each. `None` also where a call is out.
fn told_to_two<R: Threads + Wait + Sync>(
    rt: &R,
    alloc: Global,
) -> Result<Option<([MailboxReply<Numbered>; 2], [bool; 3])>, AllocError> {
    let mailbox = Mailbox::new(alloc, 1)?;
    let (shared, mut pass) = Shared::new(alloc, MailboxObject::new(mailbox))?;
    senders(rt, &shared, &mut pass, 2, 1, &Meeting::new())?;
    match shared.close(rt, pass) {
        Ok((object, history)) => Ok(told(object.into_inner(), history.as_slice())),
        Err(_) => Ok(None),
    }
}

#[test]
fn the_second_of_two_senders_is_rejected(rt: HostRuntime) {
    let replies = [MailboxReply::Ok, MailboxReply::Rejected];
    let wanted = Some((replies, [true, true, true]));
    assert_eq!(rt; told_to_two(&rt, rt.alloc()), Ok(wanted));
}
