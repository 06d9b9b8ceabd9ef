//! The control of a discovered connection, by each of its calls.
use crate::infos::signed;
use p2p_base::{Key, List, Sent};
use p2p_discovery::Info;
use p2p_discovery_directory::peer::{Mailbox, Message};
use p2p_flow_connection::Control;
use std::alloc::{AllocError, Global};
use std::test::Fail;

// The info of key 3 alone.
fn infos(alloc: Global) -> Result<List<Info<Key>>, AllocError> {
    Ok(List::new(Vec::from_array(alloc, [signed(alloc, 3, 0)?])?))
}

// With one place, a second list is refused, and a kill waits behind the first.
#[test]
fn a_kill_is_kept_where_infos_are_refused(rt: HostRuntime) {
    let alloc = rt.alloc();
    let mut control: Mailbox<Key> = Mailbox::new(alloc, 1).expect(&rt, "memory");
    let first = infos(alloc).expect(&rt, "memory");
    assert!(rt; matches!(control.peers(first), Ok(Sent::Ok)));
    let second = infos(alloc).expect(&rt, "memory");
    assert!(rt; matches!(control.peers(second), Ok(Sent::Rejected(Message::Peers(_)))));
    assert!(rt; matches!(control.kill(), Ok(Sent::Backoff)));
    assert!(rt; matches!(control.try_recv(), Some(Message::Peers(_))));
    assert!(rt; matches!(control.try_recv(), Some(Message::Kill)));
    assert!(rt; control.try_recv().is_none());
}
