//! A muxer over channel 7 of a node: registrations of subchannels, and the messages that then come.
use crate::node::{Sends, channel, is_m, unrouted};
use bytes::Bytes;
use p2p_base::{Key, Sent, Set};
use p2p_flow::{Polled, TrackedPeers};
use p2p_flow_connection::Inbounds;
use p2p_flow_senders::Receiver as _;
use p2p_flow_senders::channels::Receiver;
use p2p_mux::{
    BackupReceiver, Builder, DropCause, Error, MuxHandle, MuxQueues, MuxStepped, Muxer,
    StaticProvider, SubReceiver,
};
use std::alloc::{AllocError, Global};

type TestMuxer = Muxer<Sends, Receiver<Key>>;

// Asks for the subchannel 5, takes a step, and gives its receiver.
fn register(
    muxer: &mut TestMuxer,
    handle: &MuxHandle<Sends>,
    queues: &mut MuxQueues<Key>,
    inbounds: &mut Inbounds<Key>,
) -> Result<SubReceiver<Key>, AllocError> {
    let Ok(request) = handle.register(queues, 5) else {
        return Err(AllocError);
    };
    let _ = muxer.step(queues, inbounds)?;
    if !queues.is_open(request) {
        return Err(AllocError);
    }
    match handle.poll_register(queues, request) {
        Ok(Polled::Ready((_, receiver))) => Ok(receiver),
        _ => Err(AllocError),
    }
}

// What a second request for the same subchannel comes to, and one that is given up before the muxer takes it.
fn refuse(
    muxer: &mut TestMuxer,
    handle: &MuxHandle<Sends>,
    queues: &mut MuxQueues<Key>,
    inbounds: &mut Inbounds<Key>,
) -> Result<[MuxStepped; 2], AllocError> {
    let requests = [handle.register(queues, 5), handle.register(queues, 6)];
    if requests != [Ok(1), Ok(2)] {
        return Err(AllocError);
    }
    if !queues.is_open(2) {
        return Err(AllocError);
    }
    handle.give_up(queues, 2)?;
    Ok([muxer.step(queues, inbounds)?, muxer.step(queues, inbounds)?])
}

// Whether its answer says so.
fn is_refused(handle: &MuxHandle<Sends>, queues: &mut MuxQueues<Key>) -> bool {
    if !queues.is_open(1) {
        return false;
    }
    matches!(
        handle.poll_register(queues, 1),
        Err(Error::AlreadyRegistered(5))
    )
}

// Lets a message of key 2 wait, and takes a step of a muxer.
fn pass(
    muxer: &mut TestMuxer,
    queues: &mut MuxQueues<Key>,
    inbounds: &mut Inbounds<Key>,
    message: &'static [u8],
) -> Result<MuxStepped, AllocError> {
    match inbounds.put(7, (Key(2), Bytes::from_static(message))) {
        Ok(Sent::Ok) => Ok(muxer.step(queues, inbounds)?),
        _ => Err(AllocError),
    }
}

// What becomes of a message on the subchannel 5, one on 6, one without a prefix, and of none.
fn route(
    muxer: &mut TestMuxer,
    queues: &mut MuxQueues<Key>,
    inbounds: &mut Inbounds<Key>,
) -> Result<[MuxStepped; 4], AllocError> {
    Ok([
        pass(muxer, queues, inbounds, b"\x05m")?,
        pass(muxer, queues, inbounds, b"\x06m")?,
        pass(muxer, queues, inbounds, b"")?,
        muxer.step(queues, inbounds)?,
    ])
}

// Whether a receiver has eight places, gets the message, waits then, and is closed.
fn receive(mut receiver: SubReceiver<Key>, queues: &mut MuxQueues<Key>) -> [bool; 4] {
    let places = receiver.capacity() == 8;
    let received = is_m(receiver.poll_recv(queues));
    let pending = matches!(receiver.poll_recv(queues), Ok(Polled::Pending));
    [places, received, pending, receiver.close(queues).is_ok()]
}

// What a muxer does once that was told, and once its channel has ended.
fn end(
    muxer: &mut TestMuxer,
    queues: &mut MuxQueues<Key>,
    inbounds: &mut Inbounds<Key>,
) -> Result<[MuxStepped; 2], AllocError> {
    let closed = muxer.step(queues, inbounds)?;
    inbounds.end();
    Ok([closed, muxer.step(queues, inbounds)?])
}

type Worked = ([MuxStepped; 2], [MuxStepped; 4], [bool; 4], [MuxStepped; 2]);

// All that of a new muxer, and whether the second request was refused, and the muxer has ended and takes no more.
fn worked(alloc: Global) -> Result<(Worked, [bool; 2]), AllocError> {
    let (sender, receiver, mut inbounds) = channel(alloc, &mut unrouted(alloc), 1024, 8)?;
    let Ok((mut muxer, handle, mut queues)) = Muxer::new(alloc, sender, receiver) else {
        return Err(AllocError);
    };
    let receiver = register(&mut muxer, &handle, &mut queues, &mut inbounds)?;
    let refused = refuse(&mut muxer, &handle, &mut queues, &mut inbounds)?;
    let is_refused = is_refused(&handle, &mut queues);
    let routed = route(&mut muxer, &mut queues, &mut inbounds)?;
    let received = receive(receiver, &mut queues);
    let ended = end(&mut muxer, &mut queues, &mut inbounds)?;
    let has_ended = queues.has_ended() && handle.register(&mut queues, 7) == Err(Error::Closed);
    Ok(((refused, routed, received, ended), [is_refused, has_ended]))
}

#[test]
fn a_muxer_goes_through_its_calls(rt: HostRuntime) {
    let refused = [
        MuxStepped::Refused {
            request: 1,
            subchannel: 5,
        },
        MuxStepped::GivenUp {
            request: 2,
            subchannel: 6,
        },
    ];
    let routed = [
        MuxStepped::Routed {
            request: 0,
            subchannel: 5,
        },
        MuxStepped::Dropped {
            cause: DropCause::NoRoute { subchannel: 6 },
        },
        MuxStepped::Dropped {
            cause: DropCause::PrefixBad,
        },
        MuxStepped::Idle,
    ];
    let ended = [
        MuxStepped::Deregistered { subchannel: 5 },
        MuxStepped::Ended,
    ];
    let worked_so = (refused, routed, [true; 4], ended);
    assert!(rt; worked(rt.alloc()) == Ok((worked_so, [true; 2])));
}

// Whether a backup gets a message on the subchannel 300, waits then, and ends with its muxer.
fn take(backup: &mut BackupReceiver<Key>, queues: &mut MuxQueues<Key>) -> [bool; 3] {
    let received = match backup.poll_recv(queues) {
        Ok(Polled::Ready((subchannel, (from, message)))) => {
            (subchannel, from) == (300, Key(2)) && message.as_slice() == b"m".as_slice()
        }
        Ok(Polled::Pending) => false,
        Err(_) => false,
    };
    let pending = matches!(backup.poll_recv(queues), Ok(Polled::Pending));
    queues.end();
    let ended = matches!(backup.poll_recv(queues), Err(Error::Closed));
    [received, pending, ended]
}

// What becomes of that message and of a second one at a muxer with a backup of one place, and that.
fn backed_up(alloc: Global) -> Result<([MuxStepped; 2], [bool; 3]), AllocError> {
    let (sender, receiver, mut inbounds) = channel(alloc, &mut unrouted(alloc), 1024, 1)?;
    let Ok(builder) = Muxer::builder(alloc, sender, receiver) else {
        return Err(AllocError);
    };
    let Ok(builder) = builder.with_backup() else {
        return Err(AllocError);
    };
    let (mut muxer, _, mut queues, mut backup) = builder.build();
    let first = pass(&mut muxer, &mut queues, &mut inbounds, b"\xAC\x02m")?;
    let second = pass(&mut muxer, &mut queues, &mut inbounds, b"\x06m")?;
    Ok(([first, second], take(&mut backup, &mut queues)))
}

#[test]
fn the_backup_gets_each_message_without_a_route(rt: HostRuntime) {
    let passed = [
        MuxStepped::BackedUp { subchannel: 300 },
        MuxStepped::Dropped {
            cause: DropCause::BackupFull { subchannel: 6 },
        },
    ];
    assert!(rt; backed_up(rt.alloc()) == Ok((passed, [true; 3])));
}

// Whether a provider of one set, with the index 3, has these peers there and in its update, and has no other set.
fn provided(
    provider: &StaticProvider<Key>,
    peers: &TrackedPeers<Key>,
) -> Result<[bool; 3], AllocError> {
    let there = match provider.peer_set(3)? {
        Some(set) => set == *peers,
        None => false,
    };
    let other = provider.peer_set(4)?.is_none();
    let update = provider.subscribe()?;
    let told = update.index == 3 && update.latest == *peers && update.all == *peers;
    Ok([there, other, told])
}

// The same of two peers.
fn provided_two(alloc: Global) -> Result<[bool; 3], AllocError> {
    let keys = Set::from_iter_dedup(Vec::from_slice(alloc, &[Key(5), Key(2)])?)?;
    let provider = StaticProvider::new(alloc, 3, keys.try_clone()?);
    provided(&provider, &TrackedPeers::primary(alloc, keys))
}

#[test]
fn a_static_provider_tells_of_its_set(rt: HostRuntime) {
    assert!(rt; provided_two(rt.alloc()) == Ok([true; 3]));
}
