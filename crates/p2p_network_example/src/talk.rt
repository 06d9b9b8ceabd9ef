//! Two nodes that meet, of which the one says something to the other, and then ends.
ghost use Rattle.std.specs.Prelude.{length, IfOk, OnOk};
ghost use Rattle.p2p_flow_senders.specs.Limits.{HasLimit};
ghost use Rattle.p2p_network_example.specs.Connecting.{KeepsSenders};

use crate::connection::{recv_step, route, send_step, spawn};
use crate::gates::meet;
use crate::node::{Node, close, hear, send, start};
use crate::tracker::serve;
use crate::wire::Wire;
use anyhow::Result;
use p2p_base::Key;
use p2p_lookup::Running;
use p2p_lookup::peer::Actor;
use p2p_runtime::MemoryLink;
use p2p_tracker::Reservation;
use std::alloc::Global;

/// The first node dials the second, and says `hello`. Then its connection is killed, and that of the second ends with it.
pub fn show(rt: &impl Print, alloc: Global) -> Result<()> {
    println!(rt; "two nodes that talk")?;
    let mut first = begin(rt, alloc, 1)?;
    let mut second = begin(rt, alloc, 2)?;
    let (dialing, listening) = meet(rt, &mut first.running, &mut second.running)?;
    let mut wire = Wire::new(alloc);
    let mut near = connect(
        rt,
        alloc,
        Key(1),
        &mut first.running,
        dialing,
        &mut wire.near,
    )?;
    let mut far = connect(
        rt,
        alloc,
        Key(2),
        &mut second.running,
        listening,
        &mut wire.far,
    )?;
    say(rt, alloc, &mut first, &mut near, &mut wire)?;
    recv_step(
        rt,
        alloc,
        Key(2),
        &mut far,
        &mut second.running,
        &mut wire.far,
    )?;
    hear(rt, &mut second)?;
    end(rt, alloc, &mut first.running, &mut near, &mut wire)?;
    recv_step(
        rt,
        alloc,
        Key(2),
        &mut far,
        &mut second.running,
        &mut wire.far,
    )?;
    route(rt, Key(2), &mut second.running)?;
    close(rt, alloc, &mut first)?;
    close(rt, alloc, &mut second)
}

/// A node whose tracker has taken its peer set. It tells the listener from where peers may come: from the other node alone.
fn begin(rt: &impl Print, alloc: Global, host: u8) -> Result<Node>
    ensures { IfOk result (λ n. HasLimit (λ d. length d.lists) n.sender n.running.way) }
{
    let mut node = start(rt, alloc, host, true)?;
    let (tracker, way) = (&mut node.running.tracker, &mut node.running.tracker_way);
    serve(rt, node.key, tracker, way)?;
    Ok(node)
}

/// Makes the connection of a reservation, and begins it: the tracker is told, and the router gets its relay. The router first tells the
/// node's sender, which asked for the lists of peers as its channel was registered, that nobody is connected.
fn connect(
    rt: &impl Print,
    alloc: Global,
    key: Key,
    running: &mut Running<Key>,
    reservation: Reservation<Key>,
    link: &mut MemoryLink,
) -> Result<Actor<Key>>
    ensures { OnOk result (KeepsSenders running.old.way running.new.way) }
{
    let (spawner, way) = (&mut running.spawner, &mut running.spawner_way);
    let mut connection = spawn(rt, alloc, key, spawner, way, reservation)?;
    send_step(rt, alloc, key, &mut connection, running, link)?;
    route(rt, key, running)?;
    route(rt, key, running)?;
    send_step(rt, alloc, key, &mut connection, running, link)?;
    Ok(connection)
}

/// Sends `hello` from the node of the key 1 to that of the key 2: the router puts its frame into the relay of the connection, whose sending
/// half writes it to the link.
fn say(
    rt: &impl Print,
    alloc: Global,
    node: &mut Node,
    connection: &mut Actor<Key>,
    wire: &mut Wire,
) -> Result<()>
    requires { HasLimit (λ d. length d.lists) node.old.sender node.old.running.way }
    ensures { OnOk result (HasLimit (λ d. length d.lists) node.new.sender node.new.running.way) }
{
    send(rt, alloc, node, 0)?;
    route(rt, Key(1), &mut node.running)?;
    send_step(
        rt,
        alloc,
        Key(1),
        connection,
        &mut node.running,
        &mut wire.near,
    )?;
    wire.carry()
}

/// Kills the connection of the node of the key 1, whose end of the link is dropped then.
fn end(
    rt: &impl Print,
    alloc: Global,
    running: &mut Running<Key>,
    connection: &mut Actor<Key>,
    wire: &mut Wire,
) -> Result<()>
    ensures { OnOk result (KeepsSenders running.old.way running.new.way) }
{
    let told = connection.control().kill();
    println!(rt; "  node 1: a kill is put: {told:?}")?;
    send_step(rt, alloc, Key(1), connection, running, &mut wire.near)?;
    wire.part();
    route(rt, Key(1), running)
}
