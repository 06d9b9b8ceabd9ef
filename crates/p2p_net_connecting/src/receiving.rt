//! What the receiving half of a connection does: it takes what comes over its link, or what it holds, as the quotas admit it.
ghost use Rattle.std.specs.Prelude.{◌≡◌, IfOk, OnOk, IsTrue};
ghost use Rattle.p2p_log_rules.specs.Effect.{hold_row};
ghost use Rattle.p2p_router.specs.Messenger.{is_bound};
ghost use Rattle.p2p_net_channels.specs.Arrivals.{held_item};
ghost use Rattle.p2p_net_connecting.specs.Receiving.{frame_in, first_in, kept_in, held_first, verdict, asked_of, passed_row, passed_into, held_into, Takes, Receives, Retries, RecvSteps};

use crate::connecting::half_at;
use crate::ending::{end_refused, end_unread, other_side};
use p2p_base::Key;
use p2p_log::{Cause, Ended, Reply, Side};
use p2p_log_rules::{Half, Row};
use p2p_net_channels::{Arriving, hold, open, reopen};
use p2p_net_connections::{Connections, Stage};
use p2p_net_links::Links;
use p2p_net_node::Node;
use p2p_net_queues::{Turn, only, taking};
use std::alloc::AllocError;

/// What came over a connection: the name of its item, and what it is.
#[derive(Drop)]
pub struct Arrival {
    pub name: (u64, u64),
    pub arriving: Arriving,
}

/// What is in the first frame in one direction of a link, where it can be read and is within the limit.
fn look(links: &Links, link: u64, side: Side, limit: u32) -> Result<Option<Arrival>, AllocError>
    ensures { IfOk result (λ found. found ≡ frame_in limit (first_in links.now link side)) }
{
    match links.front(link, side) {
        None => Ok(None),
        Some(first) => {
            let name = (first.entry, first.place);
            match open(&first.item, limit as usize)? {
                None => Ok(None),
                Some(arriving) => Ok(Some(Arrival { name, arriving })),
            }
        }
    }
}

/// What a connection has held longest.
fn look_held(connections: &Connections, conn: u64) -> Result<Option<Arrival>, AllocError>
    ensures { IfOk result (λ found. found ≡ kept_in (held_first connections.now conn)) }
{
    match connections.held(conn) {
        None => Ok(None),
        Some(first) => {
            let name = (first.entry, first.place);
            match reopen(&first.item)? {
                None => Ok(None),
                Some(arriving) => Ok(Some(Arrival { name, arriving })),
            }
        }
    }
}

/// Asks the quota of what came over a connection whether it admits it at the moment `at`, in nanoseconds. `None` where it is
/// a message on a channel that is not registered.
fn admit(
    node: &mut Node,
    conn: u64,
    at: u64,
    arriving: &Arriving,
) -> Result<Option<bool>, AllocError>
    ensures verdict { IfOk result (λ v. v ≡ verdict conn at arriving.now node.old) }
    ensures after { OnOk result (node.new ≡ asked_of conn at arriving.now node.old) }
    ensures failed { OnOk result (node.new.failed ≡ node.old.failed) }
{
    match arriving {
        Arriving::Ping => Ok(Some(node.connections.admit_ping(conn, at))),
        Arriving::Message(arrived) => {
            if !node.channels.inbounds.is_registered(arrived.channel) {
                return Ok(None);
            }
            Ok(Some(node.channels.admit(arrived.channel, conn, at)?))
        }
    }
}

/// What was admitted leaves: a message goes into its channel, and a ping leaves no trace.
fn pass(node: &mut Node, turn: Turn, from: Key, arrival: Arrival) -> Result<Row, AllocError>
    ensures row { IfOk result (λ r. r ≡ passed_row turn.node from arrival.name arrival.arriving node.old.channels) }
    ensures after { OnOk result (node.new ≡ passed_into turn.entry turn.node from arrival.arriving node.old) }
{
    let Arrival { name, arriving } = arrival;
    let mut row = taking(turn.alloc, name)?;
    match arriving {
        Arriving::Ping => Ok(row),
        Arriving::Message(arrived) => {
            node.channels.deliver(turn, &mut row, from, arrived)?;
            Ok(row)
        }
    }
}

/// What is not admitted yet is held.
fn hold_back(node: &mut Node, turn: Turn, conn: u64, arrival: Arrival) -> Result<Row, AllocError>
    ensures row { IfOk result (λ r. r ≡ hold_row turn.node conn arrival.name (held_item arrival.arriving)) }
    ensures after { OnOk result (node.new ≡ held_into turn.entry turn.node conn arrival.arriving node.old) }
{
    let Arrival { name, arriving } = arrival;
    let mut row = taking(turn.alloc, name)?;
    node.connections.hold(turn, &mut row, conn, hold(arriving))?;
    Ok(row)
}

/// Delivers what came in the first frame in flight, or holds it. Where it is on a channel that is not registered, the
/// connection ends.
fn take(
    node: &mut Node,
    turn: Turn,
    links: &mut Links,
    conn: u64,
    at: u64,
    half: Half,
    arrival: Arrival,
) -> Result<Row, AllocError>
    requires bound { IsTrue (is_bound node.old.router.messenger.binding) }
    ensures does { IfOk result (λ r. Takes turn.entry turn.node conn at half arrival node.old node.new links.old links.new r) }
    ensures failed { OnOk result (node.new.failed ≡ node.old.failed) }
{
    let Some(admitted) = admit(node, conn, at, &arrival.arriving)? else {
        let why = Ended::InvalidChannel;
        let row = end_refused(
            node,
            turn,
            links,
            conn,
            half,
            why,
            Cause::ChannelUnregistered,
        )?;
        return Ok(row);
    };
    let _ = links.take(half.link, other_side(half.writes));
    if admitted {
        Ok(pass(node, turn, half.peer, arrival)?)
    } else {
        Ok(hold_back(node, turn, conn, arrival)?)
    }
}

/// Takes the first frame off a link. Where it cannot be read, or none will come since the link is broken, the connection
/// ends.
fn receive(
    node: &mut Node,
    turn: Turn,
    links: &mut Links,
    conn: u64,
    at: u64,
    half: Half,
) -> Result<Row, AllocError>
    requires bound { IsTrue (is_bound node.old.router.messenger.binding) }
    ensures does { IfOk result (λ r. Receives turn.entry turn.node conn at half node.old node.new links.old links.new r) }
    ensures failed { OnOk result (node.new.failed ≡ node.old.failed) }
{
    let side = other_side(half.writes);
    if links.front(half.link, side).is_none() {
        if links.is_broken(half.link, side) {
            return Ok(end_unread(node, turn, links, conn, half)?);
        }
        return Ok(only(turn.alloc, Reply::Idle));
    }
    match look(links, half.link, side, node.config.max_message_size)? {
        Some(arrival) => Ok(take(node, turn, links, conn, at, half, arrival)?),
        None => {
            let why = Ended::DecodeFailed;
            Ok(end_refused(node, turn, links, conn, half, why, Cause::FrameRefused)?)
        }
    }
}

/// Delivers what a connection has held longest, where its quota admits it now.
fn retry(node: &mut Node, turn: Turn, conn: u64, at: u64, from: Key) -> Result<Row, AllocError>
    ensures does { IfOk result (λ r. Retries turn.entry turn.node conn at from node.old node.new r) }
    ensures failed { OnOk result (node.new.failed ≡ node.old.failed) }
{
    let Some(arrival) = look_held(&node.connections, conn)? else {
        return Ok(only(turn.alloc, Reply::Idle));
    };
    match admit(node, conn, at, &arrival.arriving)? {
        Some(true) => {
            node.connections.unhold(conn);
            Ok(pass(node, turn, from, arrival)?)
        }
        _ => Ok(only(turn.alloc, Reply::Idle)),
    }
}

/// One step of the receiving half of a connection that runs, at the moment `at`, in nanoseconds.
pub fn recv_step(
    node: &mut Node,
    turn: Turn,
    links: &mut Links,
    conn: u64,
    at: u64,
) -> Result<Row, AllocError>
    ensures does { IfOk result (λ r. RecvSteps turn.entry turn.node conn at node.old node.new links.old links.new r) }
    ensures failed { OnOk result (node.new.failed ≡ node.old.failed) }
{
    if !node.is_up() {
        return Ok(only(turn.alloc, Reply::Gone));
    }
    let Some(half) = half_at(node, turn.node, links, conn) else {
        return Ok(only(turn.alloc, Reply::Gone));
    };
    match node.connections.stage(conn) {
        Some(Stage::Running { .. }) => {
            if node.connections.held(conn).is_some() {
                Ok(retry(node, turn, conn, at, half.peer)?)
            } else {
                Ok(receive(node, turn, links, conn, at, half)?)
            }
        }
        _ => Ok(only(turn.alloc, Reply::Idle)),
    }
}
