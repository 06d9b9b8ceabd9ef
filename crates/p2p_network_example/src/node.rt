//! A node: what it is made of, its start, and its channel.
ghost use Rattle.std.specs.Prelude.{◌≡◌, length, IfOk};
ghost use Rattle.p2p_flow_senders.specs.Limits.{HasLimit};

use crate::{CHANNEL, SECOND};
use anyhow::{Context, Result, bail};
use bytes::Bytes;
use p2p_address::{Address, IpAddr, SocketAddr};
use p2p_base::{Key, List, Map};
use p2p_flow::{AddressableManager, AddressableTrackedPeers, Blocker, Polled, Recipients};
use p2p_flow_senders::channels::{Receiver, Sender};
use p2p_flow_senders::{Receiver as _, Sender as _};
use p2p_lookup::{Config, Network, Running};
use p2p_router::Messenger;
use p2p_runtime::Quota;
use p2p_tracker::Oracle;
use std::alloc::Global;

/// A node that has started, its oracle, and the halves of its channel.
#[derive(Drop)]
pub struct Node {
    pub key: Key,
    pub running: Running<Key>,
    pub oracle: Oracle<Key>,
    pub sender: Sender<Key, Messenger<Key>>,
    pub receiver: Receiver<Key>,
}

/// The address 10.0.0.`host`, port `port`.
pub fn at(host: u8, port: u16) -> SocketAddr {
    SocketAddr {
        ip: IpAddr::V4([10, 0, 0, host]),
        port,
    }
}

/// The node of a key, which listens at its port 3000. Its peer sets have two keys at most, its messages 1,024 bytes, and a mailbox holds four
/// of them.
fn network(alloc: Global, host: u8) -> Result<(Network<Key>, Oracle<Key>)> {
    let key = Key(host as u64);
    let cfg = Config::local(key, List::empty(alloc), at(host, 3000), 2, 1024, 4);
    // `Network::new` asks for it.
    if !cfg.fits() {
        bail!("a size is 0, or too large");
    }
    let made = Network::new(alloc, cfg)?;
    Ok(made)
}

/// The keys 1 and 2, each at one address for both ways.
fn both(alloc: Global) -> Result<AddressableTrackedPeers<Key>> {
    let first = Address::Symmetric(at(1, 3000));
    let second = Address::Symmetric(at(2, 3000));
    let peers = Vec::from_array(alloc, [(Key(1), first), (Key(2), second)])?;
    Ok(AddressableTrackedPeers::primary(alloc, Map::try_from(peers)?))
}

/// Registers the channel of a node, with one message a second for each peer.
fn register(
    rt: &impl Print,
    alloc: Global,
    key: Key,
    network: &mut Network<Key>,
) -> Result<(Sender<Key, Messenger<Key>>, Receiver<Key>)>
    ensures { IfOk result (λ r. HasLimit (λ d. length d.lists) r.0 network.new.way) }
{
    let quota = Quota::with_period(SECOND).context("a second is not 0")?;
    let (sender, receiver) = network.register(alloc, CHANNEL, quota)?;
    // One message for each peer that is retained: two keys in each of the four sets that are kept.
    println!(rt;
        "  node {key}: channel {CHANNEL} holds {} messages",
        receiver.capacity()
    )?;
    Ok((sender, receiver))
}

/// Asks the tracker of a node for a peer set of both keys. It takes that by its next step.
fn track(
    rt: &impl Print,
    alloc: Global,
    key: Key,
    oracle: &mut Oracle<Key>,
    network: &mut Network<Key>,
) -> Result<()>
    ensures { network.new.way ≡ network.old.way }
{
    let told = oracle.track(alloc, &mut network.tracker_way.desk, 0, both(alloc)?)?;
    println!(rt; "  node {key}: a set of both keys is asked for: {told:?}")?;
    Ok(())
}

/// A node of a key, which has started at the moment 0, with its channel, and which asks its tracker for a peer set.
pub fn start(rt: &impl Print, alloc: Global, host: u8, bind: bool) -> Result<Node>
    ensures { IfOk result (λ n. HasLimit (λ d. length d.lists) n.sender n.running.way) }
{
    let key = Key(host as u64);
    let (mut network, mut oracle) = network(alloc, host)?;
    let (sender, receiver) = register(rt, alloc, key, &mut network)?;
    track(rt, alloc, key, &mut oracle, &mut network)?;
    // `start` asks for it.
    if !network.can_start() {
        bail!("the mailboxes are too large");
    }
    let Ok(running) = network.start(alloc, 0, bind) else {
        bail!("no memory for a node");
    };
    println!(rt; "  node {key}: it has started")?;
    Ok(Node {
        key,
        running,
        oracle,
        sender,
        receiver,
    })
}

/// Sends `hello` to the key 2 at this moment, and prints to whom it goes.
pub fn send(rt: &impl Print, alloc: Global, node: &mut Node, now: u64) -> Result<()>
    requires { HasLimit (λ d. length d.lists) node.old.sender node.old.running.way }
    ensures sender { node.new.sender ≡ node.old.sender }
    ensures serves { HasLimit (λ d. length d.lists) node.new.sender node.new.running.way }
{
    let way = &mut node.running.way;
    let message = Bytes::from_static(b"hello");
    let to = node
        .sender
        .send(alloc, way, Recipients::One(Key(2)), message, false, now)?;
    println!(rt; "  node {}: hello is sent to {:?}", node.key, to.as_slice())?;
    Ok(())
}

/// Prints the message that waits on the channel, if one does.
pub fn hear(rt: &impl Print, node: &mut Node) -> Result<()>
    ensures sender { node.new.sender ≡ node.old.sender }
    ensures way { node.new.running.way ≡ node.old.running.way }
{
    match node.receiver.poll_recv(&mut node.running.inbounds) {
        Ok(Polled::Ready((from, message))) => {
            println!(rt;
                "  node {}: received of {from}: {:?}",
                node.key,
                message.as_slice()
            )?;
        }
        Ok(Polled::Pending) => println!(rt; "  node {}: nothing waits", node.key)?,
        Err(closed) => println!(rt; "  node {}: {closed}", node.key)?,
    }
    Ok(())
}

/// Ends a node as a start does that does not bind: its messenger and its tracker's mailbox are closed, and its receivers get no more.
pub fn close(rt: &impl Print, alloc: Global, node: &mut Node) -> Result<()>
    requires { HasLimit (λ d. length d.lists) node.old.sender node.old.running.way }
{
    node.running.way.messenger.close();
    node.running.tracker_way.close();
    node.running.inbounds.end();
    println!(rt; "  node {}: it is closed", node.key)?;
    show_ended(rt, alloc, node)
}

/// Shows that a node has ended: nobody is sent a message, the oracle is told so, and the receiver too. A second after the start the quota of
/// each peer admits a message again.
pub fn show_ended(rt: &impl Print, alloc: Global, node: &mut Node) -> Result<()>
    requires { HasLimit (λ d. length d.lists) node.old.sender node.old.running.way }
{
    send(rt, alloc, node, SECOND)?;
    let desk = &mut node.running.tracker_way.desk;
    let told = node.oracle.block(alloc, desk, Key(2))?;
    println!(rt; "  node {}: a block is asked for: {told:?}", node.key)?;
    hear(rt, node)
}
