//! `p2p_mux`, over `p2p_flow_senders` and `p2p_router`: a subchannel of a channel, and a message that goes once round.
ghost use Rattle.std.specs.Prelude.{◌≡◌, IfOk};
ghost use Rattle.p2p_flow_senders.specs.Limits.{HasLimit};

use crate::SECOND;
use anyhow::{Context, Result, bail};
use bytes::Bytes;
use p2p_base::Key;
use p2p_flow::{Carrier, Polled, Recipients, Relay};
use p2p_flow_connection::Inbounds;
use p2p_flow_senders::channels::{Receiver, Sender as ChannelSender};
use p2p_flow_senders::{Channels, LimitedSender, Receiver as _, Sender, Way};
use p2p_mux::{MuxHandle, MuxQueues, Muxer, SubReceiver, SubSender};
use p2p_router::{Actor, Config, Messenger};
use p2p_runtime::Quota;
use p2p_wire::{EncodedData, Message};
use std::alloc::Global;

/// What is sent on the subchannel 5 of channel 7 waits, as a frame, for the connection with the key 2. Nobody is there to read it, so it is
/// handed back to this node as if the key 2 had sent it, and the muxer puts it into the queue of its subchannel.
///
/// Senders, receivers and handles are small names. What several of them reach stands apart, and is lent to each call: `way` for senders,
/// `inbounds` for the receivers of channels, `queues` for those of subchannels.
pub fn show(rt: &impl Print, alloc: Global) -> Result<()> {
    println!(rt; "muxed channel")?;
    let (mut router, messenger) = connected(alloc)?;
    let mut way = Way::new(alloc, messenger);
    let mut inbounds = Inbounds::new(alloc);
    let (sender, receiver) = channel(alloc, &mut way, &mut inbounds)?;
    let Ok((mut muxer, handle, mut queues)) = Muxer::new(alloc, sender, receiver) else {
        bail!("no memory for a muxer");
    };
    let (sender, mut receiver) = open(rt, &mut muxer, &handle, &mut queues, &mut inbounds)?;
    send(rt, alloc, &sender, &mut way, "hello")?;
    // At the same moment the quota admits no second message, so nobody is sent it.
    send(rt, alloc, &sender, &mut way, "again")?;
    let frame = routed(&mut router, &mut way.messenger)?;
    println!(rt; "  frame: {:?}", frame.payload.as_slice())?;
    arrive(frame, &mut inbounds)?;
    println!(rt; "  muxer: {:?}", muxer.step(&mut queues, &mut inbounds)?)?;
    receive(rt, &mut receiver, &mut queues)?;
    receive(rt, &mut receiver, &mut queues)
}

/// A router to which the key 2 is connected, and the messenger by which senders reach it.
fn connected(alloc: Global) -> Result<(Actor<Key>, Messenger<Key>)> {
    let (router, mut mailbox) = Actor::new(alloc, Config { mailbox_size: 4 })?;
    // The relay is where messages wait for a connection; this connection is called 1.
    if mailbox.ready(Key(2), Relay::new(alloc, 4)?, 1).is_err() {
        bail!("no memory for the connection");
    }
    let mut messenger = Messenger::unbound(alloc);
    if messenger.bind(mailbox).is_err() {
        bail!("no memory for the messenger");
    }
    Ok((router, messenger))
}

/// The sender and the receiver of channel 7, with one message a second for each peer, of at most 1,024 bytes.
///
/// The clause says that the sender was made in this way; each call of it asks for that.
fn channel<M: Carrier<Key>>(
    alloc: Global,
    way: &mut Way<Key, M>,
    inbounds: &mut Inbounds<Key>,
) -> Result<(ChannelSender<Key, M>, Receiver<Key>)>
    ensures { IfOk result (λ made. HasLimit M.subscriptions made.0 way.new) }
{
    let quota = Quota::with_period(SECOND).context("a second is not 0")?;
    let mut channels = Channels::new(alloc, 1024, 2);
    // `register` asks that the channel has no mailbox yet.
    if inbounds.is_registered(7) {
        bail!("channel 7 is registered");
    }
    Ok(channels.register(alloc, way, inbounds, 7, quota)?)
}

/// Asks for the subchannel 5. The answer is there once the muxer took a step; `is_open` tells that it can be asked for.
fn open<S: LimitedSender<PublicKey = Key>>(
    rt: &impl Print,
    muxer: &mut Muxer<S, Receiver<Key>>,
    handle: &MuxHandle<S>,
    queues: &mut MuxQueues<Key>,
    inbounds: &mut Inbounds<Key>,
) -> Result<(SubSender<S>, SubReceiver<Key>)>
    ensures { IfOk result (λ halves. halves.0.sender ≡ handle.now.sender) }
{
    let request = handle.register(queues, 5)?;
    println!(rt; "  muxer: {:?}", muxer.step(queues, inbounds)?)?;
    if !queues.is_open(request) {
        bail!("nothing was asked");
    }
    match handle.poll_register(queues, request)? {
        Polled::Ready(halves) => Ok(halves),
        Polled::Pending => bail!("the muxer has not answered"),
    }
}

/// Sends a text to the key 2 at the moment 0, and prints to whom it goes.
fn send<S: Sender<PublicKey = Key>>(
    rt: &impl Print,
    alloc: Global,
    sender: &S,
    way: &mut S::Way,
    text: &'static str,
) -> Result<()>
    requires { S.serves sender.now way.old }
    ensures { S.serves sender.now way.new }
{
    let message = Bytes::from_static(text.as_bytes());
    let to = sender.send(alloc, way, Recipients::One(Key(2)), message, false, 0)?;
    println!(rt; "  {text} is sent to: {:?}", to.as_slice())?;
    Ok(())
}

/// The frame that waits for connection 1, once the router took, one a step, that connection, the subscription of the channel's sender to the
/// list of peers, and the message.
fn routed(router: &mut Actor<Key>, messenger: &mut Messenger<Key>) -> Result<EncodedData> {
    for _ in 0..3 {
        router.step(messenger)?;
    }
    let relay = router.relay(1).context("the key 2 is connected")?;
    // It was sent without priority.
    relay.take_low().context("a message waits")
}

/// Puts the message of a frame into the mailbox of its channel, as one of the key 2.
fn arrive(frame: EncodedData, inbounds: &mut Inbounds<Key>) -> Result<()> {
    let Message::Data(data) = Message::decode(frame.payload, 1024)? else {
        bail!("a ping");
    };
    if inbounds.put(data.channel, (Key(2), data.message)).is_err() {
        bail!("no memory for a message");
    }
    Ok(())
}

/// Prints the message that waits on the subchannel, if one does. Its prefix is gone.
fn receive(
    rt: &impl Print,
    receiver: &mut SubReceiver<Key>,
    queues: &mut MuxQueues<Key>,
) -> Result<()> {
    match receiver.poll_recv(queues)? {
        Polled::Ready((from, message)) => {
            println!(rt; "  received of {from}: {:?}", message.as_slice())?;
        }
        Polled::Pending => println!(rt; "  nothing waits")?,
    }
    Ok(())
}
