//! Values that are sent and received as bytes.
use crate::node::{OK, SECOND, channel, sender, unrouted};
use crate::number::Number;
use bytes::Bytes;
use p2p_base::{Feedback, Key};
use p2p_flow::{Polled, Recipients};
use p2p_flow_connection::Inbounds;
use p2p_flow_senders::channels::{Error, Receiver};
use p2p_flow_senders::{SendError, Sender};
use p2p_mux::codec::{
    BackgroundReceiver, Stepped, WrappedBackgroundReceiver, WrappedReceiver, WrappedSender, wrap,
};
use p2p_tracker_mailbox::{Mailbox, Message, Oracle};
use p2p_wire::CodecError;
use std::alloc::{AllocError, Global};

// Lets these bytes of a peer wait.
fn put(inbounds: &mut Inbounds<Key>, from: u64, bytes: &'static [u8]) {
    let _ = inbounds.put(7, (Key(from), Bytes::from_static(bytes)));
}

type Received = Result<Polled<(Key, Result<Number, CodecError>)>, Error>;

// What is received of the bytes of a number and of one byte, after both, and once the node has ended.
fn receive(
    alloc: Global,
    numbers: &mut WrappedReceiver<Receiver<Key>, Number>,
    inbounds: &mut Inbounds<Key>,
) -> [Received; 4] {
    put(inbounds, 2, b"\x00\x00\x01\x2C");
    put(inbounds, 3, b"\x01");
    let number = numbers.poll_recv(alloc, inbounds);
    let byte = numbers.poll_recv(alloc, inbounds);
    let after = numbers.poll_recv(alloc, inbounds);
    inbounds.end();
    [number, byte, after, numbers.poll_recv(alloc, inbounds)]
}

// The same of a new channel.
fn received(alloc: Global) -> Result<[Received; 4], AllocError> {
    let (sender, receiver, mut inbounds) = channel(alloc, &mut unrouted(alloc), 1024, 4)?;
    let (_, mut numbers) = wrap::<_, _, Number>((), sender, receiver);
    Ok(receive(alloc, &mut numbers, &mut inbounds))
}

#[test]
fn bytes_are_received_as_numbers(rt: HostRuntime) {
    let wanted = [
        Ok(Polled::Ready((Key(2), Ok(Number(300))))),
        Ok(Polled::Ready((Key(3), Err(CodecError::EndOfBuffer)))),
        Ok(Polled::Pending),
        Err(Error::NetworkClosed),
    ];
    assert!(rt; received(rt.alloc()) == Ok(wanted));
}

// Whether a number is sent to key 2, as a value or lent, and at the same moment to nobody.
fn send<S: Sender<PublicKey = Key>>(
    alloc: Global,
    numbers: &WrappedSender<S, Number>,
    way: &mut S::Way,
) -> Result<[bool; 3], SendError>
    requires { S.serves numbers.now way.old }
    ensures { S.serves numbers.now way.new }
{
    let first = numbers.send(alloc, way, Recipients::One(Key(2)), Number(300), false, 0)?;
    let none = numbers.send_ref(alloc, way, Recipients::One(Key(2)), &Number(300), false, 0)?;
    let to = Recipients::One(Key(2));
    let second = numbers.send_ref(alloc, way, to, &Number(300), false, SECOND)?;
    Ok([
        first.as_slice() == [Key(2)].as_slice(),
        none.is_empty(),
        second.as_slice() == [Key(2)].as_slice(),
    ])
}

// Whether a check admits key 3, and a number is taken for whom it admitted, and in the same way one that is lent, a second later than the
// last moment.
fn send_checked<S: Sender<PublicKey = Key>>(
    alloc: Global,
    numbers: &WrappedSender<S, Number>,
    way: &mut S::Way,
) -> Result<[bool; 3], SendError>
    requires { S.serves numbers.now way.old }
{
    let Ok(checked) = numbers.check(alloc, way, Recipients::One(Key(3)), SECOND)? else {
        return Ok([false; 3]);
    };
    let admitted = checked.recipients() == [Key(3)].as_slice();
    let first = checked.send(alloc, numbers, way, Number(1), true)?;
    let Ok(checked) = numbers.check(alloc, way, Recipients::One(Key(3)), 2 * SECOND)? else {
        return Ok([admitted, first == OK, false]);
    };
    let second = checked.send_ref(alloc, numbers, way, &Number(1), true)?;
    Ok([admitted, first == OK, second == OK])
}

// Both of a new sender.
fn sent(alloc: Global) -> Result<[[bool; 3]; 2], SendError> {
    let mut way = unrouted(alloc);
    let numbers = WrappedSender::new(sender(alloc, &mut way, 1024)?);
    let sent = send(alloc, &numbers, &mut way)?;
    Ok([sent, send_checked(alloc, &numbers, &mut way)?])
}

#[test]
fn numbers_are_sent_as_values_or_lent(rt: HostRuntime) {
    assert!(rt; sent(rt.alloc()) == Ok([[true; 3]; 2]));
}

// A background receiver, with what it is lent.
#[derive(Drop)]
struct Background {
    receiver: WrappedBackgroundReceiver<Oracle<Key>, Receiver<Key>, Number>,
    inbounds: Inbounds<Key>,
    mailbox: Mailbox<Key>,
    out: BackgroundReceiver<Key, Number>,
}

// A background receiver over a channel that holds one message.
fn started(alloc: Global) -> Result<Background, AllocError> {
    let mailbox = Mailbox::new(alloc, 4)?;
    let (_, receiver, inbounds) = channel(alloc, &mut unrouted(alloc), 1024, 1)?;
    let made = WrappedBackgroundReceiver::new(alloc, receiver, (), Oracle::new(Key(1), 4));
    let Ok((receiver, out)) = made else {
        return Err(AllocError);
    };
    Ok(Background {
        receiver,
        inbounds,
        mailbox,
        out,
    })
}

impl Background {
    // One step.
    fn step(&mut self, alloc: Global) -> Result<Stepped<Key>, AllocError> {
        let way = &mut self.mailbox.desk;
        self.receiver
            .step(alloc, &mut self.inbounds, way, &mut self.out)
    }

    // What it does where nothing waits, of the bytes of two numbers and of one byte, and once the node has ended.
    fn work(&mut self, alloc: Global) -> Result<[Stepped<Key>; 5], AllocError> {
        let nothing = self.step(alloc)?;
        put(&mut self.inbounds, 2, b"\x00\x00\x01\x2C");
        let first = self.step(alloc)?;
        put(&mut self.inbounds, 3, b"\x00\x00\x01\x2C");
        let second = self.step(alloc)?;
        put(&mut self.inbounds, 5, b"\x01");
        let byte = self.step(alloc)?;
        self.inbounds.end();
        Ok([nothing, first, second, byte, self.step(alloc)?])
    }

    // Whether the one number that it forwarded comes, and then its end, and one key is to be blocked.
    fn told(&mut self) -> [bool; 4] {
        let number = self.out.poll_recv() == Ok(Polled::Ready((Key(2), Number(300))));
        let ended = self.out.poll_recv().is_err() && self.out.has_ended();
        let blocked = matches!(
            self.mailbox.take(),
            Some(Message::Block { public_key: Key(5) })
        );
        [number, ended, blocked, self.mailbox.take().is_none()]
    }
}

// Both of a new background receiver.
fn worked(alloc: Global) -> Result<([Stepped<Key>; 5], [bool; 4]), AllocError> {
    let mut background = started(alloc)?;
    let stepped = background.work(alloc)?;
    Ok((stepped, background.told()))
}

#[test]
fn a_background_receiver_forwards_drops_and_blocks(rt: HostRuntime) {
    let stepped = [
        Stepped::Idle,
        Stepped::Forwarded { peer: Key(2) },
        Stepped::Dropped { peer: Key(3) },
        Stepped::Blocked {
            peer: Key(5),
            error: CodecError::EndOfBuffer,
            told: Feedback::Ok,
        },
        Stepped::Ended,
    ];
    assert!(rt; worked(rt.alloc()) == Ok((stepped, [true; 4])));
}
