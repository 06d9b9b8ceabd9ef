//! Mailboxes and rings at concrete types: what they keep, refuse and hand back.
use p2p_base::{Feedback, Keep, Mailbox, Pushed, Ring, Sent, Unreliable, UnreliablePolicy};
use std::alloc::{AllocError, Global};
use std::collections::VecDeque;

#[derive(Clone, Copy, PartialEq)]
struct Note(Keep, u8);

impl UnreliablePolicy for Note {
    ghost keep_of = { λ n. n.0 };

    fn keep(&self) -> Keep {
        self.0
    }
}

// Puts a note, and tells the answer.
fn put(mailbox: &mut Mailbox<Note>, note: Note) -> Option<Unreliable> {
    match mailbox.enqueue(note) {
        Ok(sent) => Some(sent.outcome()),
        Err(_) => None,
    }
}

// What six notes are answered at a mailbox of one place.
type Answers = [Option<Unreliable>; 6];

// That, and what it gives then.
fn overflowed(alloc: Global) -> Result<(Answers, [Option<Note>; 3]), AllocError> {
    let mut mailbox = Mailbox::new(alloc, 1)?;
    let answers = [
        put(&mut mailbox, Note(Keep::Refuse, 0)),
        put(&mut mailbox, Note(Keep::Refuse, 1)),
        put(&mut mailbox, Note(Keep::Append, 2)),
        put(&mut mailbox, Note(Keep::Append, 3)),
        put(&mut mailbox, Note(Keep::Replace, 4)),
        put(&mut mailbox, Note(Keep::Refuse, 5)),
    ];
    Ok((answers, [mailbox.take(), mailbox.take(), mailbox.take()]))
}

#[test]
fn a_mailbox_overflows_by_policy(rt: HostRuntime) {
    let backoff = Some(Unreliable::Outcome(Feedback::Backoff));
    let refused = Some(Unreliable::Rejected);
    let kept = Some(Unreliable::Outcome(Feedback::Ok));
    let answers = [kept, refused, backoff, backoff, backoff, refused];
    let given = [
        Some(Note(Keep::Refuse, 0)),
        Some(Note(Keep::Replace, 4)),
        None,
    ];
    assert!(rt; overflowed(rt.alloc()) == Ok((answers, given)));
    assert!(rt; Unreliable::Outcome(Feedback::Backoff).accepted());
}

// The length and the capacity of a mailbox, and whether it is empty and closed.
type Told = (usize, usize, bool, bool);

fn told(mailbox: &Mailbox<Note>) -> Told {
    let sizes = (mailbox.len(), mailbox.capacity());
    (sizes.0, sizes.1, mailbox.is_empty(), mailbox.is_closed())
}

// That of a mailbox of one place once two notes were appended, and once it was closed and the same were appended; whether none is left
// to him who appends; and whether a note is handed back.
fn appended(alloc: Global) -> Result<([Told; 2], [bool; 3]), AllocError> {
    let notes = [Note(Keep::Append, 1), Note(Keep::Append, 2)];
    let mut mailbox = Mailbox::new(alloc, 1)?;
    let mut first = VecDeque::from_vec(Vec::from_slice(alloc, &notes)?);
    mailbox.append(&mut first)?;
    let open = told(&mailbox);
    mailbox.close();
    let mut second = VecDeque::from_vec(Vec::from_slice(alloc, &notes)?);
    mailbox.append(&mut second)?;
    let back = matches!(
        mailbox.enqueue(notes[0]),
        Ok(Sent::Closed(Note(Keep::Append, 1)))
    );
    Ok((
        [open, told(&mailbox)],
        [first.is_empty(), second.is_empty(), back],
    ))
}

#[test]
fn a_closed_mailbox_hands_messages_back(rt: HostRuntime) {
    let wanted = [(2, 1, false, false), (0, 1, true, true)];
    assert!(rt; appended(rt.alloc()) == Ok((wanted, [true; 3])));
}

// Whether a ring of two places keeps two items, has the third in the place of the first, gives what is left, and hands back what comes
// once it is closed.
fn ring(alloc: Global) -> Result<[bool; 6], AllocError> {
    let mut ring = Ring::new(alloc, 2)?;
    let first = matches!(ring.send_lossy(1u8), Pushed::Kept);
    let second = matches!(ring.send_lossy(2), Pushed::Kept);
    let third = matches!(ring.send_lossy(3), Pushed::Replaced(1));
    let told = (ring.len(), ring.is_empty()) == (2, false);
    let given = [ring.try_recv(), ring.try_recv(), ring.try_recv()] == [Some(2), Some(3), None];
    ring.close();
    let back = matches!(ring.send_lossy(4), Pushed::Closed(4)) && ring.is_closed();
    Ok([first, second, third, told, given, back])
}

#[test]
fn a_ring_overwrites_the_oldest(rt: HostRuntime) {
    assert!(rt; ring(rt.alloc()) == Ok([true; 6]));
}
