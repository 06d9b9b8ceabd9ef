//! What is sent on subchannels, and the builders of a muxer with a global sender.
ghost use Rattle.std.specs.Prelude.{◌≡◌, IfOk};
ghost use Rattle.p2p_flow_senders.specs.Limits.{HasLimit};

use crate::node::{OK, SECOND, channel, unrouted};
use crate::senders::{goes_through, refuses};
use bytes::Bytes;
use p2p_base::{Key, Unreliable};
use p2p_flow::{Carrier, Polled, Recipients};
use p2p_flow_connection::Inbounds;
use p2p_flow_senders::channels::{Receiver, Sender as Sends};
use p2p_flow_senders::{CheckedSender as _, LimitedSender, SendError, Way};
use p2p_mux::{BackupReceiver, Builder, GlobalSender, MuxQueues, Muxer, SubSender};
use std::alloc::{AllocError, Global};

// The sender of the subchannel 1, at a muxer over these halves of a channel.
fn registered<M: Carrier<Key>>(
    alloc: Global,
    sender: Sends<Key, M>,
    receiver: Receiver<Key>,
    inbounds: &mut Inbounds<Key>,
) -> Result<SubSender<Sends<Key, M>>, AllocError>
    ensures { IfOk result (λ s. s.sender ≡ sender) }
{
    let Ok((mut muxer, handle, mut queues)) = Muxer::new(alloc, sender, receiver) else {
        return Err(AllocError);
    };
    let Ok(ticket) = handle.register(&mut queues, 1) else {
        return Err(AllocError);
    };
    let _ = muxer.step(&mut queues, inbounds)?;
    if !queues.is_open(ticket) {
        return Err(AllocError);
    }
    match handle.poll_register(&mut queues, ticket) {
        Ok(Polled::Ready((sender, _))) => Ok(sender),
        _ => Err(AllocError),
    }
}

// The same over channel 7, whose messages have at most four bytes.
fn sub_sender<M: Carrier<Key>>(
    alloc: Global,
    way: &mut Way<Key, M>,
) -> Result<SubSender<Sends<Key, M>>, AllocError>
    ensures { IfOk result (λ s. HasLimit M.subscriptions s.sender way.new) }
{
    let (sender, receiver, mut inbounds) = channel(alloc, way, 4, 2)?;
    registered(alloc, sender, receiver, &mut inbounds)
}

// Whether a payload of four bytes is too long with its prefix, and shorter ones go through.
fn sub_sent(alloc: Global) -> Result<([bool; 2], [bool; 4]), SendError> {
    let mut way = unrouted(alloc);
    let sender = sub_sender(alloc, &mut way)?;
    let refused = refuses(alloc, &sender, &mut way, b"four")?;
    Ok((refused, goes_through(alloc, &sender, &mut way)?))
}

#[test]
fn the_sender_of_a_subchannel_goes_through_its_calls(rt: HostRuntime) {
    assert!(rt; sub_sent(rt.alloc()) == Ok(([true; 2], [true; 4])));
}

// The global sender of a builder over these halves of a channel.
fn global<M: Carrier<Key>>(
    alloc: Global,
    sender: Sends<Key, M>,
    receiver: Receiver<Key>,
) -> Result<GlobalSender<Sends<Key, M>>, AllocError>
    ensures { IfOk result (λ g. g ≡ sender) }
{
    let Ok(builder) = Muxer::builder(alloc, sender, receiver) else {
        return Err(AllocError);
    };
    let (_, _, _, global) = builder.with_global_sender().build();
    Ok(global)
}

// The same over channel 7, whose messages have at most four bytes.
fn global_sender<M: Carrier<Key>>(
    alloc: Global,
    way: &mut Way<Key, M>,
) -> Result<GlobalSender<Sends<Key, M>>, AllocError>
    ensures { IfOk result (λ g. HasLimit M.subscriptions g way.new) }
{
    let (sender, receiver, _) = channel(alloc, way, 4, 2)?;
    global(alloc, sender, receiver)
}

// Whether key 2 is sent a message on the subchannel 5 at once, none at the same moment, and one later that was checked.
fn sends_on<S: LimitedSender<PublicKey = Key>>(
    alloc: Global,
    global: &GlobalSender<S>,
    way: &mut S::Way,
) -> Result<[bool; 3], SendError>
    requires { S.serves global.now way.old }
    ensures { S.serves global.now way.new }
{
    let hi = Bytes::from_static(b"hi");
    let first = global.send(alloc, way, 5, Recipients::One(Key(2)), hi, false, 0)?;
    let more = Bytes::from_static(b"hi");
    let second = global.send(alloc, way, 5, Recipients::One(Key(2)), more, false, 0)?;
    let Ok(checked) = global.check(alloc, way, Recipients::One(Key(2)), SECOND)? else {
        return Ok([first == OK, second == Unreliable::Rejected, false]);
    };
    let checked = checked.with_subchannel(5);
    let third = global.send_checked(alloc, way, checked, Bytes::from_static(b"hi"), false)?;
    Ok([first == OK, second == Unreliable::Rejected, third == OK])
}

// Whether a message without a subchannel is refused, for whom a check admits.
fn wants_one<S: LimitedSender<PublicKey = Key>>(
    alloc: Global,
    global: &GlobalSender<S>,
    way: &mut S::Way,
) -> Result<[bool; 2], AllocError>
    requires { S.serves global.now way.old }
{
    let Ok(checked) = global.check(alloc, way, Recipients::One(Key(3)), 0)? else {
        return Ok([false; 2]);
    };
    let admitted = checked.recipients() == [Key(3)].as_slice();
    let told = global.send_checked(alloc, way, checked, Bytes::from_static(b"hi"), false);
    Ok([admitted, told == Err(SendError::NoSubchannel)])
}

// Both of a new one.
fn sent_globally(alloc: Global) -> Result<([bool; 3], [bool; 2]), SendError> {
    let mut way = unrouted(alloc);
    let global = global_sender(alloc, &mut way)?;
    let sent = sends_on(alloc, &global, &mut way)?;
    Ok((sent, wants_one(alloc, &global, &mut way)?))
}

#[test]
fn a_global_sender_wants_a_subchannel(rt: HostRuntime) {
    assert!(rt; sent_globally(rt.alloc()) == Ok(([true; 3], [true; 2])));
}

// Whether a backup waits for messages of its muxer.
fn waits(mut backup: BackupReceiver<Key>, mut queues: MuxQueues<Key>) -> bool {
    matches!(backup.poll_recv(&mut queues), Ok(Polled::Pending))
}

// Whether a builder that has a backup first and a global sender then builds both.
fn backup_first(alloc: Global) -> Result<bool, AllocError> {
    let (sender, receiver, _) = channel(alloc, &mut unrouted(alloc), 4, 1)?;
    let Ok(builder) = Muxer::builder(alloc, sender, receiver) else {
        return Err(AllocError);
    };
    let Ok(builder) = builder.with_backup() else {
        return Err(AllocError);
    };
    let (_, _, queues, backup, _) = builder.with_global_sender().build();
    Ok(waits(backup, queues))
}

// The same of one that has them the other way round.
fn global_sender_first(alloc: Global) -> Result<bool, AllocError> {
    let (sender, receiver, _) = channel(alloc, &mut unrouted(alloc), 4, 1)?;
    let Ok(builder) = Muxer::builder(alloc, sender, receiver) else {
        return Err(AllocError);
    };
    let Ok(builder) = builder.with_global_sender().with_backup() else {
        return Err(AllocError);
    };
    let (_, _, queues, backup, _) = builder.build();
    Ok(waits(backup, queues))
}

#[test]
fn a_muxer_is_built_with_both_in_either_order(rt: HostRuntime) {
    assert!(rt; backup_first(rt.alloc()) == Ok(true));
    assert!(rt; global_sender_first(rt.alloc()) == Ok(true));
}
