//! What the sending half of a connection does: it begins, takes its router's answer, and from then on writes batches.
ghost use Rattle.std.specs.Prelude.{◌≡◌, ◌≤◌, ◌&&◌, IfOk, OnOk, IsTrue};
ghost use Rattle.p2p_router.specs.Messenger.{is_bound};
ghost use Rattle.p2p_log_rules.specs.Effect.{beside_ping as beside_a_ping, other_side as other_side_of};
ghost use Rattle.p2p_net_links.specs.Cutting.{is_broken_at};
ghost use Rattle.p2p_net_connecting.specs.Connecting.{half_by, has_more, Begins, WritesTo, Writes, Works, SendSteps};

use crate::ending::{end_killed, end_unwritten, other_side};
use p2p_base::{Key, List};
use p2p_log::{Item, Queue, Reply};
use p2p_log_rules::{Half, Row};
use p2p_net_connections::{Stage, is_past};
use p2p_net_links::{Links, side_at};
use p2p_net_node::Node;
use p2p_net_queues::{Turn, only};
use std::alloc::AllocError;

/// How many messages a batch of this size has beside its ping, where it has one.
fn beside_ping(due: bool, size: usize) -> usize
    ensures { result ≡ beside_a_ping due size }
{
    if due { size.saturating_sub(1) } else { size }
}

/// Whether something is to be written: a ping that is `due`, or one of these frames.
fn writes(due: bool, frames: &[((u64, u64), Item)]) -> bool
    ensures { result ≡ has_more due frames.now }
{
    due || !frames.is_empty()
}

/// The node's half of a connection, where there is one of this name.
pub(crate) fn half_at(node: &Node, number: u64, links: &Links, conn: u64) -> Option<Half>
    ensures { result ≡ half_by number node.now.connections links.now conn }
{
    let Some(connection) = node.connections.find(conn) else {
        return None;
    };
    let Some(dialer) = links.dialer(connection.link) else {
        return None;
    };
    Some(Half {
        peer: *connection.reservation.metadata().public_key(),
        link: connection.link,
        writes: side_at(number, dialer),
    })
}

/// A connection begins: the tracker and the router are told whom it is with.
fn begin(node: &mut Node, turn: Turn, conn: u64, peer: Key) -> Result<Row, AllocError>
    requires size { 1 ≤ node.old.config.mailbox_size }
    requires bound { IsTrue (is_bound node.old.router.messenger.binding) }
    ensures does { IfOk result (λ r. Begins turn.entry turn.node conn peer node.old node.new r) }
    ensures failed { OnOk result (node.new.failed ≡ node.old.failed) }
{
    let size = node.config.mailbox_size;
    let mut row = only(turn.alloc, Reply::Ok);
    node.tracker.connect(turn, conn, peer, &mut row)?;
    node.router.ready(turn, 1, conn, peer, size)?;
    row.puts.push((Queue::Router(turn.node), Item::Ready { conn, key: peer }))?;
    node.connections.begin(conn)?;
    Ok(row)
}

/// Writes these frames of a connection to its link, with a ping before them where one is `due` at the moment `at`, in
/// nanoseconds. Where there is something to write and the link is broken, the connection ends in its place.
fn write_frames(
    node: &mut Node,
    turn: Turn,
    links: &mut Links,
    conn: u64,
    at: u64,
    half: Half,
    due: bool,
    frames: List<((u64, u64), Item)>,
) -> Result<Row, AllocError>
    requires bound { IsTrue (is_bound node.old.router.messenger.binding) }
    ensures does { IfOk result (λ r. WritesTo (has_more due frames && is_broken_at links.old (other_side_of half.writes) half.link)
        turn.entry turn.node conn at half due frames node.old node.new links.old links.new r) }
    ensures failed { OnOk result (node.new.failed ≡ node.old.failed) }
{
    if writes(due, frames.as_slice()) && links.is_broken(half.link, other_side(half.writes)) {
        return Ok(end_unwritten(node, turn, links, conn, half, &frames)?);
    }
    let row = links.write(turn, half.link, half.writes, due, frames)?;
    node.connections.ping(conn, at, due)?;
    Ok(row)
}

/// Takes a batch of a connection, and writes it to its link, with a ping before it where one is `due` at the moment `at`, in
/// nanoseconds, or else the connection ends.
fn write(
    node: &mut Node,
    turn: Turn,
    links: &mut Links,
    conn: u64,
    at: u64,
    half: Half,
    due: bool,
) -> Result<Row, AllocError>
    requires bound { IsTrue (is_bound node.old.router.messenger.binding) }
    ensures does { IfOk result (λ r. Writes turn.entry turn.node conn at half due node.old node.new links.old links.new r) }
    ensures failed { OnOk result (node.new.failed ≡ node.old.failed) }
{
    let most = beside_ping(due, node.config.send_batch_size);
    let frames = node.router.batch(turn.alloc, conn, most)?;
    Ok(write_frames(node, turn, links, conn, at, half, due, frames)?)
}

/// A step of a half that runs: where it is told to end, and its batch has room for that beside its ping, it ends; else it
/// writes a batch.
fn work(
    node: &mut Node,
    turn: Turn,
    links: &mut Links,
    conn: u64,
    at: u64,
    half: Half,
    due: bool,
) -> Result<Row, AllocError>
    requires bound { IsTrue (is_bound node.old.router.messenger.binding) }
    ensures does { IfOk result (λ r. Works turn.entry turn.node conn at half due node.old node.new links.old links.new r) }
    ensures failed { OnOk result (node.new.failed ≡ node.old.failed) }
{
    let room = beside_ping(due, node.config.send_batch_size) > 0;
    if room && node.tracker.kills_wait(turn.node, conn) {
        Ok(end_killed(node, turn, links, conn, half)?)
    } else {
        Ok(write(node, turn, links, conn, at, half, due)?)
    }
}

/// One step of the sending half of a connection, at the moment `at`, in nanoseconds.
pub fn send_step(
    node: &mut Node,
    turn: Turn,
    links: &mut Links,
    conn: u64,
    at: u64,
) -> Result<Row, AllocError>
    requires size { 1 ≤ node.old.config.mailbox_size }
    ensures does { IfOk result (λ r. SendSteps turn.entry turn.node conn at node.old node.new links.old links.new r) }
    ensures failed { OnOk result (node.new.failed ≡ node.old.failed) }
{
    if !node.is_up() {
        return Ok(only(turn.alloc, Reply::Gone));
    }
    let Some(half) = half_at(node, turn.node, links, conn) else {
        return Ok(only(turn.alloc, Reply::Gone));
    };
    let stage = node.connections.stage(conn);
    match stage {
        None => Ok(begin(node, turn, conn, half.peer)?),
        Some(Stage::Begun) => Ok(node.connections.run(turn.alloc, conn, at)?),
        Some(Stage::Running { .. }) => {
            let due = is_past(stage, node.config.ping_frequency, at);
            Ok(work(node, turn, links, conn, at, half, due)?)
        }
    }
}
