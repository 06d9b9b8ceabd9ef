//! A connection of one node: how it is made, and the steps of its halves.
ghost use Rattle.std.specs.Prelude.{◌≡◌, OnOk};
ghost use Rattle.p2p_network_example.specs.Connecting.{KeepsSenders};

use crate::NAME;
use crate::tracker::{none_waits, serve};
use anyhow::{Result, bail};
use p2p_base::{Key, Sent};
use p2p_lookup::Running;
use p2p_lookup::peer::{Actor, Stepped};
use p2p_lookup::spawner::{self, Mailbox as SpawnerMailbox, Stepped as Made};
use p2p_router::Stepped as Routed;
use p2p_runtime::MemoryLink;
use p2p_tracker::Reservation;
use std::alloc::Global;

/// Gives a reservation to the spawner, which makes the connection.
pub fn spawn(
    rt: &impl Print,
    alloc: Global,
    key: Key,
    spawner: &mut spawner::Actor<Key>,
    way: &mut SpawnerMailbox<Key>,
    reservation: Reservation<Key>,
) -> Result<Actor<Key>> {
    let peer = *reservation.metadata().public_key();
    let Ok(Sent::Ok) = way.spawn(NAME, reservation) else {
        bail!("no room for a connection");
    };
    let Made::Spawned { connection, actor } = spawner.step(alloc, way, NAME)? else {
        bail!("the spawner has nothing to do");
    };
    println!(rt; "  node {key}: a connection with {peer} over link {connection}")?;
    Ok(actor)
}

/// Prints what a step of a half did.
fn show(rt: &impl Print, key: Key, stepped: &Stepped<Key>) -> Result<()> {
    match stepped {
        Stepped::Idle => println!(rt; "  node {key}: nothing is ready")?,
        Stepped::Started => println!(rt; "  node {key}: the connection has begun")?,
        Stepped::Running => println!(rt; "  node {key}: the connection runs")?,
        Stepped::Sent { ping, frames } => println!(rt;
            "  node {key}: it sends {:?}, a ping first: {ping}",
            frames.as_slice()
        )?,
        Stepped::Pinged { .. } => println!(rt; "  node {key}: a ping came")?,
        Stepped::Received {
            message,
            delivered,
            ..
        } => println!(rt;
            "  node {key}: channel {} gets {:?}: {delivered:?}",
            message.channel,
            message.message.as_slice()
        )?,
        Stepped::Ended { error, .. } => println!(rt; "  node {key}: the connection ends: {error}")?,
    }
    Ok(())
}

/// Lets the tracker take what a step of a connection put, where it put something: that it has begun, or its reservation, once it has ended.
fn tell(rt: &impl Print, key: Key, stepped: &Stepped<Key>, running: &mut Running<Key>) -> Result<()>
    ensures { running.new.way ≡ running.old.way }
{
    match stepped {
        Stepped::Started | Stepped::Ended { .. } => {
            serve(rt, key, &mut running.tracker, &mut running.tracker_way)
        }
        _ => Ok(()),
    }
}

/// One step of the sending half.
#[tactic(auto, using(crate::proofs::Connected::senders_still, crate::proofs::Connected::step_keeps))]
fn send(
    alloc: Global,
    connection: &mut Actor<Key>,
    running: &mut Running<Key>,
    link: &mut MemoryLink,
) -> Result<Stepped<Key>>
    ensures { OnOk result (KeepsSenders running.old.way running.new.way) }
{
    let stepped = connection.send_step(
        alloc,
        link,
        &mut running.router,
        &mut running.way.messenger,
        &mut running.tracker_way,
        0,
    )?;
    Ok(stepped)
}

/// One step of the receiving half.
#[tactic(auto, using(crate::proofs::Connected::senders_still, crate::proofs::Connected::step_keeps))]
fn receive(
    alloc: Global,
    connection: &mut Actor<Key>,
    running: &mut Running<Key>,
    link: &mut MemoryLink,
) -> Result<Stepped<Key>>
    ensures { OnOk result (KeepsSenders running.old.way running.new.way) }
{
    let stepped = connection.recv_step(
        alloc,
        link,
        &mut running.inbounds,
        &mut running.router,
        &mut running.way.messenger,
        &mut running.tracker_way,
        0,
    )?;
    Ok(stepped)
}

/// One step of the sending half at the moment 0, and one of the tracker, where it is told something.
pub fn send_step(
    rt: &impl Print,
    alloc: Global,
    key: Key,
    connection: &mut Actor<Key>,
    running: &mut Running<Key>,
    link: &mut MemoryLink,
) -> Result<()>
    ensures { OnOk result (KeepsSenders running.old.way running.new.way) }
{
    none_waits(&running.tracker_way)?;
    let stepped = send(alloc, connection, running, link)?;
    show(rt, key, &stepped)?;
    tell(rt, key, &stepped, running)
}

/// One step of the receiving half at the moment 0, and one of the tracker, where it is told something.
pub fn recv_step(
    rt: &impl Print,
    alloc: Global,
    key: Key,
    connection: &mut Actor<Key>,
    running: &mut Running<Key>,
    link: &mut MemoryLink,
) -> Result<()>
    ensures { OnOk result (KeepsSenders running.old.way running.new.way) }
{
    none_waits(&running.tracker_way)?;
    let stepped = receive(alloc, connection, running, link)?;
    show(rt, key, &stepped)?;
    tell(rt, key, &stepped, running)
}

/// One step of the router, and what it did.
pub fn route(rt: &impl Print, key: Key, running: &mut Running<Key>) -> Result<()>
    ensures { OnOk result (KeepsSenders running.old.way running.new.way) }
{
    let stepped = routed(running)?;
    show_routed(rt, key, &stepped)
}

/// One step of the router.
#[tactic(auto, using(crate::proofs::Connected::senders_still))]
fn routed(running: &mut Running<Key>) -> Result<Routed<Key>>
    ensures { OnOk result (KeepsSenders running.old.way running.new.way) }
{
    let stepped = running.router.step(&mut running.way.messenger)?;
    Ok(stepped)
}

/// Prints what a step of the router did. To a sender that subscribed, and to each that did before it, it tells which peers are connected.
fn show_routed(rt: &impl Print, key: Key, stepped: &Routed<Key>) -> Result<()> {
    match stepped {
        Routed::Idle => println!(rt; "  node {key}: the router is idle")?,
        Routed::Ready { told, .. } => show_peers(rt, key, told.peers.as_slice())?,
        Routed::Release { told, .. } => show_peers(rt, key, told.peers.as_slice())?,
        Routed::SubscribePeers { told, .. } => show_peers(rt, key, told.peers.as_slice())?,
        Routed::Content { copies, .. } => {
            println!(rt; "  node {key}: the router puts {:?}", copies.as_slice())?;
        }
    }
    Ok(())
}

/// Prints which peers are connected.
fn show_peers(rt: &impl Print, key: Key, peers: &[Key]) -> Result<()> {
    println!(rt; "  node {key}: the router tells of {peers:?}")?;
    Ok(())
}
