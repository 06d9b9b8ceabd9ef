//! A tracker's mailbox, by each of its calls.
use crate::peers::ip;
use p2p_base::{Feedback, Key};
use p2p_tracker_mailbox::{DialerAnswer, HandshakeItem, Mailbox, Message};

// Two places are ready, and what is beyond waits behind them.
#[test]
fn messages_wait_in_their_order(rt: HostRuntime) {
    let mut way = Mailbox::new(rt.alloc(), 2).expect(&rt, "memory");
    assert_eq!(rt; way.connect(Key(2), 9), Ok(Feedback::Ok));
    assert_eq!(rt; way.dial(Key(3)), Ok(Feedback::Ok));
    assert_eq!(rt; way.acceptable(Key(4), ip(7), 5), Ok(Feedback::Backoff));
    assert_eq!(rt; way.listen(Key(4), ip(7), 5), Ok(Feedback::Backoff));
    assert_eq!(rt; way.dialable(), Ok(Feedback::Backoff));
    let first = way.take().expect(&rt, "five wait");
    let public_key = Key(2);
    assert!(rt;
        first
            == Message::Connect {
                public_key,
                conn: 9
            }
    );
    assert!(rt; first.try_clone().expect(&rt, "memory") == first);
    assert!(rt; matches!(way.take(), Some(Message::Dial { public_key: Key(3) })));
    assert!(rt; matches!(way.take(), Some(Message::Acceptable { handshake: 5, .. })));
    assert!(rt; matches!(way.take(), Some(Message::Listen { handshake: 5, .. })));
    assert!(rt; !way.is_closed());
    way.close();
    assert!(rt; way.is_closed() && way.desk.is_closed());
    assert!(rt; way.take().is_none());
    assert_eq!(rt; way.dialable(), Ok(Feedback::Closed));
}

#[test]
fn what_waits_is_taken_by_whom_it_is_for(rt: HostRuntime) {
    let mut way: Mailbox<Key> = Mailbox::new(rt.alloc(), 2).expect(&rt, "memory");
    assert_eq!(rt; way.handshakes.begin(5), Ok(()));
    assert!(rt; way.handshakes.contains(5) && !way.handshakes.contains(6));
    let acceptable = HandshakeItem::Acceptable(true);
    assert_eq!(rt; way.answer_handshake(5, acceptable), Ok(true));
    assert_eq!(rt;
        way.answer_handshake(6, HandshakeItem::Listen(None)),
        Ok(false)
    );
    assert_eq!(rt; way.finish_handshake(5, false), Ok(()));
    let taken = way.handshakes.take(5);
    assert!(rt; matches!(taken, Some(HandshakeItem::Acceptable(true))));
    let mut rest = way.handshakes.end(5).expect(&rt, "it runs");
    assert!(rt; matches!(rest.take(), Some(HandshakeItem::Finished(false))));
    assert!(rt; rest.take().is_none());
    assert_eq!(rt; way.answer_dialer(DialerAnswer::Dial(None)), Ok(()));
    assert!(rt; matches!(way.dialer.take(), Some(DialerAnswer::Dial(None))));
}
