//! The end of a connection: what waits for it ends, and its router and its tracker are told that its peer is free.
ghost use Rattle.std.specs.Prelude.{◌≡◌, drop, slice_get, if◌then◌else◌, IfOk, OnOk, IsTrue};
ghost use Rattle.p2p_log.specs.declared.queue.Queue.{Queue as Name};
ghost use Rattle.p2p_log.specs.declared.queue.Queue.TheVariants as queue;
ghost use Rattle.p2p_log.specs.QueueCode.{same_queue};
ghost use Rattle.p2p_log_rules.specs.Effect.{other_side as other_side_of};
ghost use Rattle.p2p_net_queues.specs.Board.{held};
ghost use Rattle.p2p_router.specs.Messenger.{is_bound};
ghost use Rattle.p2p_net_connecting.specs.Ending.{took_first, DropsWaiting, Frees, Ends, EndsKilled, EndsUnwritten, EndsUnread, EndsRefused};

use p2p_base::{Key, List};
use p2p_log::{Cause, Ended, Item, Queue, Reply, Side};
use p2p_log_rules::{Half, Row};
use p2p_net_connections::Connection;
use p2p_net_links::Links;
use p2p_net_node::Node;
use p2p_net_queues::{Turn, drop_named, only, take_all_dropped, take_dropped};
use std::alloc::AllocError;

/// The direction opposite to this one.
pub(crate) fn other_side(side: Side) -> Side
    ensures { result ≡ other_side_of side }
{
    match side {
        Side::Out => Side::In,
        Side::In => Side::Out,
    }
}

/// All that waits for a connection ends with it, and its end of the link is dropped.
fn drop_waiting(
    node: &mut Node,
    turn: Turn,
    links: &mut Links,
    conn: u64,
    half: Half,
    row: &mut Row,
) -> Result<(), AllocError>
    ensures does { OnOk result (DropsWaiting turn.node conn half node.old node.new links.old links.new row.old row.new) }
    ensures failed { OnOk result (node.new.failed ≡ node.old.failed) }
{
    let cause = Cause::ConnectionEnded;
    let frames = node.router.take_all(turn.alloc, conn)?;
    drop_named(row, frames.as_slice(), cause)?;
    node.connections.drop_held(turn.alloc, row, conn, cause)?;
    node.tracker.drop_control(turn, conn, row)?;
    node.connections.drop_answers(turn.alloc, row, conn, cause)?;
    Ok(links.drop_end(turn.alloc, row, half.link, half.writes, cause)?)
}

/// The router is told that the peer of a connection is free, and then the tracker, as the row's next puts.
fn free(
    node: &mut Node,
    turn: Turn,
    conn: u64,
    peer: Key,
    connection: Connection,
    row: &mut Row,
) -> Result<(), AllocError>
    requires bound { IsTrue (is_bound node.old.router.messenger.binding) }
    ensures does { OnOk result (Frees turn.entry turn.node conn peer connection node.old node.new row.old row.new) }
    ensures failed { OnOk result (node.new.failed ≡ node.old.failed) }
{
    let Connection { reservation, .. } = connection;
    let place = row.puts.len() as u64;
    node.router.release(turn, place, conn, peer)?;
    row.puts
        .push((Queue::Router(turn.node), Item::Release(peer)))?;
    Ok(node.tracker.release(turn, conn, reservation, row)?)
}

/// A connection ends: it is kept no longer, what waits for it ends, and its peer is free.
fn end(
    node: &mut Node,
    turn: Turn,
    links: &mut Links,
    conn: u64,
    half: Half,
    row: &mut Row,
) -> Result<(), AllocError>
    requires bound { IsTrue (is_bound node.old.router.messenger.binding) }
    ensures does { OnOk result (Ends turn.entry turn.node conn half node.old node.new links.old links.new row.old row.new) }
    ensures failed { OnOk result (node.new.failed ≡ node.old.failed) }
{
    let Some(connection) = node.connections.end(conn) else {
        return Ok(());
    };
    drop_waiting(node, turn, links, conn, half, row)?;
    Ok(free(node, turn, conn, half.peer, connection, row)?)
}

/// Takes the oldest of what a connection was told, where something waits for it.
fn take_told(node: &mut Node, turn: Turn, conn: u64, row: &mut Row) -> Result<(), AllocError>
    ensures row { OnOk result (row.new
        ≡ took_first Cause.ConnectionEnded (slice_get (held node.old.tracker.told (queue.Control turn.node conn)) 0) row.old) }
    ensures told { OnOk result ((q : Name) → held node.new.tracker.told q
        ≡ (if same_queue (queue.Control turn.node conn) q then drop 1 (held node.old.tracker.told q) else held node.old.tracker.told q)) }
    ensures tracker { OnOk result (node.new.tracker ≡ record node.old.tracker { told = node.new.tracker.told }) }
    ensures rest { OnOk result (node.new ≡ record node.old { tracker = node.new.tracker }) }
{
    match node.tracker.take_kill(turn, conn) {
        None => Ok(()),
        Some(kill) => {
            let name = (kill.entry, kill.place);
            Ok(take_dropped(row, name, &kill.item, Cause::ConnectionEnded)?)
        }
    }
}

/// A connection ends that is told to: what told it is taken.
pub(crate) fn end_killed(
    node: &mut Node,
    turn: Turn,
    links: &mut Links,
    conn: u64,
    half: Half,
) -> Result<Row, AllocError>
    requires bound { IsTrue (is_bound node.old.router.messenger.binding) }
    ensures does { IfOk result (λ r. EndsKilled turn.entry turn.node conn half node.old node.new links.old links.new r) }
    ensures failed { OnOk result (node.new.failed ≡ node.old.failed) }
{
    let mut row = only(turn.alloc, Reply::Ended(Ended::Killed));
    take_told(node, turn, conn, &mut row)?;
    end(node, turn, links, conn, half, &mut row)?;
    Ok(row)
}

/// A connection ends that has something to write to a link that is broken: these frames, which were taken.
pub(crate) fn end_unwritten(
    node: &mut Node,
    turn: Turn,
    links: &mut Links,
    conn: u64,
    half: Half,
    frames: &List<((u64, u64), Item)>,
) -> Result<Row, AllocError>
    requires bound { IsTrue (is_bound node.old.router.messenger.binding) }
    ensures does { IfOk result (λ r. EndsUnwritten turn.entry turn.node conn half frames.now node.old node.new links.old links.new r) }
    ensures failed { OnOk result (node.new.failed ≡ node.old.failed) }
{
    let mut row = only(turn.alloc, Reply::Ended(Ended::SendFailed));
    take_all_dropped(&mut row, frames.as_slice(), Cause::ConnectionEnded)?;
    end(node, turn, links, conn, half, &mut row)?;
    Ok(row)
}

/// A connection ends towards which no frame is in flight, and none will be: its link is broken.
pub(crate) fn end_unread(
    node: &mut Node,
    turn: Turn,
    links: &mut Links,
    conn: u64,
    half: Half,
) -> Result<Row, AllocError>
    requires bound { IsTrue (is_bound node.old.router.messenger.binding) }
    ensures does { IfOk result (λ r. EndsUnread turn.entry turn.node conn half node.old node.new links.old links.new r) }
    ensures failed { OnOk result (node.new.failed ≡ node.old.failed) }
{
    let mut row = only(turn.alloc, Reply::Ended(Ended::ReceiveFailed));
    end(node, turn, links, conn, half, &mut row)?;
    Ok(row)
}

/// A connection ends that refuses the first frame in flight towards it, which is taken.
pub(crate) fn end_refused(
    node: &mut Node,
    turn: Turn,
    links: &mut Links,
    conn: u64,
    half: Half,
    why: Ended,
    cause: Cause,
) -> Result<Row, AllocError>
    requires bound { IsTrue (is_bound node.old.router.messenger.binding) }
    ensures does { IfOk result (λ r. EndsRefused turn.entry turn.node conn half why cause node.old node.new links.old links.new r) }
    ensures failed { OnOk result (node.new.failed ≡ node.old.failed) }
{
    let mut row = only(turn.alloc, Reply::Ended(why));
    if let Some(frame) = links.take(half.link, other_side(half.writes)) {
        take_dropped(&mut row, (frame.entry, frame.place), &frame.item, cause)?;
    }
    end(node, turn, links, conn, half, &mut row)?;
    Ok(row)
}
