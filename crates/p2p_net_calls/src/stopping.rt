//! The stop of a node: all that waits for it and for what it holds ends, one queue after another, and each end of a link that it
//! had is dropped. What its readers and those who asked it may still take stays.
ghost use Rattle.std.specs.Prelude.{◌≡◌, ◌≤◌, ◌++◌, ◌∷◌, [], Some, length, map, IfOk, OnOk};
ghost use Rattle.std.specs.List.Sorted.{IsStrictlySortedBy};
ghost use Rattle.std.specs.Map.{keys_of};
ghost use Rattle.std.specs.Ordering.{nat_cmp};
ghost use Rattle.p2p_net_queues.specs.Tables as table;
ghost use Rattle.p2p_net_links.specs.Left.{all_dropped};
ghost use Rattle.p2p_net_links.specs.declared.links.Links.{Links as TheLinks};
ghost use Rattle.p2p_net_calls.specs.Stopping.{dialing_side, half_side, listening_side, DropsEnd, EndsOne, EndsTold, StopsAttempt, StopsHandshake, StopsConnection, HandshakesStopped, ConnectionsStopped, WaitingEnded, MessagesTaken, ArrivalsTaken, MailboxesEnded, HasClosed, StopsRunning, Stops, Drains, end_of, ends_held, ends_handed, handed_end, messages_handed, arrivals_handed, arrival_handed, queues_held, queues_of, attempt_holder, handshake_holder, connection_holder, half_holder, waiting_queues};

use p2p_base::List;
use p2p_log::{Cause, End, Queue, Reply, Side};
use p2p_log_rules::Row;
use p2p_net_links::{Links, side_at};
use p2p_net_node::Node;
use p2p_net_queues::{Turn, only};
use std::alloc::{AllocError, Global};

/// The end of a link that a connection of a node has.
fn half_end(node: u64, link: u64, links: &Links) -> Option<(u64, Side)>
    ensures { result ≡ half_side node link (table.at links.now.dialers link) }
{
    match links.dialer(link) {
        None => None,
        Some(dialer) => Some((link, side_at(node, dialer))),
    }
}

/// The dialing end of a link, where there is one.
fn dialing_end(link: Option<u64>) -> Option<(u64, Side)>
    ensures { result ≡ dialing_side link }
{
    match link {
        None => None,
        Some(link) => Some((link, Side::Out)),
    }
}

/// An end of a link is dropped, where there is one, and what is in flight towards it ends.
fn drop_end(
    turn: Turn,
    links: &mut Links,
    row: &mut Row,
    end: Option<(u64, Side)>,
) -> Result<(), AllocError>
    ensures { OnOk result (DropsEnd end links.old links.new row.old row.new) }
{
    match end {
        None => Ok(()),
        Some((link, side)) => links.drop_end(turn.alloc, row, link, side, Cause::NodeStopped),
    }
}

/// The first attempt stops: what waits for it ends, and the dialing end of its link is dropped. False where there is none.
fn stop_attempt(
    node: &mut Node,
    turn: Turn,
    links: &mut Links,
    row: &mut Row,
) -> Result<bool, AllocError>
    ensures does { IfOk result (λ more. StopsAttempt node.old.dialing.attempts node.old node.new links.old links.new row.old row.new more) }
    ensures ordered { IsStrictlySortedBy nat_cmp (keys_of node.old.dialing.attempts) }
{
    let Some(stopped) = node.dialing.stop_first(turn.alloc, row)? else {
        return Ok(false);
    };
    drop_end(turn, links, row, dialing_end(stopped.link))?;
    Ok(true)
}

/// All attempts stop.
fn stop_attempts(
    node: &mut Node,
    turn: Turn,
    links: &mut Links,
    row: &mut Row,
) -> Result<(), AllocError>
    ensures drains { OnOk result (Drains turn.node (queues_held (map (attempt_holder turn.node) node.old.dialing.attempts)) node.old node.new links.old links.new row.old row.new) }
    ensures ends { OnOk result (links.new ≡ all_dropped (ends_held (map (attempt_holder turn.node) node.old.dialing.attempts)) links.old) }
    ensures rest { OnOk result (node.new ≡ record node.old { dialing = record node.old.dialing { attempts = [] } }) }
    ensures ordered { IsStrictlySortedBy nat_cmp (keys_of node.old.dialing.attempts) }
{
    while stop_attempt(node, turn, links, row)? {}
    Ok(())
}

/// The listening end of a link.
fn listening_end(link: Option<u64>) -> Option<(u64, Side)>
    ensures { result ≡ listening_side link }
{
    match link {
        None => None,
        Some(link) => Some((link, Side::In)),
    }
}

/// The first handshake stops: what it was told and did not take ends, and the listening end of its link is dropped. False where
/// there is none.
fn stop_handshake(
    node: &mut Node,
    turn: Turn,
    links: &mut Links,
    row: &mut Row,
) -> Result<bool, AllocError>
    requires { IsStrictlySortedBy nat_cmp (keys_of node.old.listening.handshakes) → length node.old.listening.handshakes ≤ node.old.listening.actor.places.held }
    ensures does { IfOk result (λ more. StopsHandshake turn.node node.old.listening.handshakes node.old node.new links.old links.new row.old row.new more) }
    ensures ordered { IsStrictlySortedBy nat_cmp (keys_of node.old.listening.handshakes) }
{
    let Some(stopped) = node.listening.stop_first() else {
        return Ok(false);
    };
    let queue = Queue::Handshake {
        node: turn.node,
        handshake: stopped.name,
    };
    node.tracker.end_queue(queue, row)?;
    drop_end(turn, links, row, listening_end(stopped.link))?;
    Ok(true)
}

/// All handshakes stop.
fn stop_handshakes(
    node: &mut Node,
    turn: Turn,
    links: &mut Links,
    row: &mut Row,
) -> Result<(), AllocError>
    requires { IsStrictlySortedBy nat_cmp (keys_of node.old.listening.handshakes) → length node.old.listening.handshakes ≤ node.old.listening.actor.places.held }
    ensures drains { OnOk result (Drains turn.node (queues_held (map (handshake_holder turn.node) node.old.listening.handshakes)) node.old node.new links.old links.new row.old row.new) }
    ensures ends { OnOk result (links.new ≡ all_dropped (ends_held (map (handshake_holder turn.node) node.old.listening.handshakes)) links.old) }
    ensures rest { OnOk result (HandshakesStopped node.old node.new) }
    ensures ordered { IsStrictlySortedBy nat_cmp (keys_of node.old.listening.handshakes) }
{
    while stop_handshake(node, turn, links, row)? {}
    Ok(())
}

/// All that waits for a connection ends.
fn end_waiting(node: &mut Node, turn: Turn, row: &mut Row, conn: u64) -> Result<(), AllocError>
    ensures drains { OnOk result ((l : TheLinks) → Drains turn.node (waiting_queues turn.node conn) node.old node.new l l row.old row.new) }
    ensures rest { OnOk result (WaitingEnded node.old node.new) }
{
    node.router.end_lane(conn, true, row)?;
    node.router.end_lane(conn, false, row)?;
    node.connections
        .drop_held(turn.alloc, row, conn, Cause::NodeStopped)?;
    let queue = Queue::Control {
        node: turn.node,
        conn,
    };
    node.tracker.end_queue(queue, row)?;
    node.connections
        .drop_answers(turn.alloc, row, conn, Cause::NodeStopped)?;
    Ok(())
}

/// What waits for a connection ends, and its end of the link is dropped, where it has one.
fn end_half(
    node: &mut Node,
    turn: Turn,
    links: &mut Links,
    row: &mut Row,
    conn: u64,
    end: Option<(u64, Side)>,
) -> Result<(), AllocError>
    ensures drains { OnOk result (Drains turn.node (queues_of (half_holder turn.node conn end)) node.old node.new links.old links.new row.old row.new) }
    ensures ends { OnOk result (links.new ≡ all_dropped (end_of end) links.old) }
    ensures rest { OnOk result (WaitingEnded node.old node.new) }
{
    if end.is_some() {
        end_waiting(node, turn, row, conn)?;
    }
    drop_end(turn, links, row, end)?;
    Ok(())
}

/// The first connection stops: what waits for it ends, its end of the link is dropped, and its relay is closed. False where there is
/// none.
fn stop_connection(
    node: &mut Node,
    turn: Turn,
    links: &mut Links,
    row: &mut Row,
) -> Result<bool, AllocError>
    ensures does { IfOk result (λ more. StopsConnection turn.node node.old.connections.spawned node.old node.new links.old links.new row.old row.new more) }
    ensures ordered { IsStrictlySortedBy nat_cmp (keys_of node.old.connections.spawned) }
{
    let Some((conn, connection)) = node.connections.stop_first() else {
        return Ok(false);
    };
    let end = half_end(turn.node, connection.link, links);
    end_half(node, turn, links, row, conn, end)?;
    node.router
        .leave(*connection.reservation.metadata().public_key());
    node.tracker.note_ended(conn)?;
    Ok(true)
}

/// All connections stop.
fn stop_connections(
    node: &mut Node,
    turn: Turn,
    links: &mut Links,
    row: &mut Row,
) -> Result<(), AllocError>
    ensures drains { OnOk result (Drains turn.node (queues_held (map (connection_holder turn.node links.old) node.old.connections.spawned)) node.old node.new links.old links.new row.old row.new) }
    ensures ends { OnOk result (links.new ≡ all_dropped (ends_held (map (connection_holder turn.node links.old) node.old.connections.spawned)) links.old) }
    ensures rest { OnOk result (ConnectionsStopped node.old node.new) }
    ensures ordered { IsStrictlySortedBy nat_cmp (keys_of node.old.connections.spawned) }
{
    while stop_connection(node, turn, links, row)? {}
    Ok(())
}

/// An item of this name ends, and the end of a link that it hands on is dropped, where it hands on one.
fn end_one(
    turn: Turn,
    links: &mut Links,
    row: &mut Row,
    one: ((u64, u64), Option<(u64, Side)>),
) -> Result<(), AllocError>
    ensures { OnOk result (EndsOne one links.old links.new row.old row.new) }
{
    let (name, end) = one;
    row.ends.push(End::Item(name.0, name.1))?;
    drop_end(turn, links, row, end)
}

/// Items of these names end, one after another, and right after each of them what is in flight towards the end of a link that it
/// hands on.
fn end_each(
    turn: Turn,
    links: &mut Links,
    row: &mut Row,
    all: &[((u64, u64), Option<(u64, Side)>)],
) -> Result<(), AllocError>
    ensures links { OnOk result (links.new ≡ all_dropped (ends_handed all.now) links.old) }
    ensures row { OnOk result (row.new ≡ record row.old { ends = row.old.ends ++ handed_end links.old all.now }) }
{
    for one in all {
        end_one(turn, links, row, *one)?;
    }
    Ok(())
}

/// Takes the messages to the spawner: their names, and the ends of links that they hand on.
fn take_messages(
    node: &mut Node,
    turn: Turn,
    links: &Links,
) -> Result<List<((u64, u64), Option<(u64, Side)>)>, AllocError>
    ensures messages { IfOk result (λ all. all ≡ messages_handed turn.node links.now node.old.spawning.names node.old.spawning.mailbox.items) }
    ensures none { OnOk result (MessagesTaken node.old node.new) }
{
    let mut all = List::empty(turn.alloc);
    while let Some((name, link)) = node.spawning.stop_first() {
        all.push((name, half_end(turn.node, link, links)))?;
    }
    Ok(all)
}

/// What waits for the spawner ends, with what is in flight towards the ends of links that it is handed.
fn stop_messages(
    node: &mut Node,
    turn: Turn,
    links: &mut Links,
    row: &mut Row,
) -> Result<(), AllocError>
    ensures taken { OnOk result (MessagesTaken node.old node.new) }
    ensures links { OnOk result (links.new ≡ all_dropped (ends_handed (messages_handed turn.node links.old node.old.spawning.names node.old.spawning.mailbox.items)) links.old) }
    ensures row { OnOk result (row.new ≡ record row.old { ends = row.old.ends ++ handed_end links.old (messages_handed turn.node links.old node.old.spawning.names node.old.spawning.mailbox.items) }) }
{
    let messages = take_messages(node, turn, links)?;
    end_each(turn, links, row, messages.as_slice())
}

/// These arrivals, each with the listening end of its link.
fn with_ends(
    alloc: Global,
    arrivals: &[((u64, u64), u64)],
) -> Result<List<((u64, u64), Option<(u64, Side)>)>, AllocError>
    ensures { IfOk result (λ all. all ≡ map arrival_handed arrivals.now) }
{
    let mut all = List::empty(alloc);
    for arrival in arrivals {
        all.push((arrival.0, Some((arrival.1, Side::In))))?;
    }
    Ok(all)
}

/// What waits for the listener ends, with what is in flight towards the listening ends of its links.
fn stop_arrivals(
    node: &mut Node,
    turn: Turn,
    links: &mut Links,
    row: &mut Row,
) -> Result<(), AllocError>
    ensures taken { OnOk result (ArrivalsTaken node.old node.new) }
    ensures links { OnOk result (links.new ≡ all_dropped (ends_handed (arrivals_handed node.old.listening)) links.old) }
    ensures row { OnOk result (row.new ≡ record row.old { ends = row.old.ends ++ handed_end links.old (arrivals_handed node.old.listening) }) }
{
    let arrivals = node.listening.take_arrivals(turn.alloc)?;
    let all = with_ends(turn.alloc, arrivals.as_slice())?;
    end_each(turn, links, row, all.as_slice())
}

/// What waits in a queue of the tracker's for those whom it told ends.
fn end_told(node: &mut Node, row: &mut Row, queue: Queue) -> Result<(), AllocError>
    ensures { OnOk result (EndsTold queue node.old node.new row.old row.new) }
{
    node.tracker.end_queue(queue, row)
}

/// What waits for the router and for the tracker ends.
fn stop_mailboxes(node: &mut Node, turn: Turn, row: &mut Row) -> Result<(), AllocError>
    ensures drains { OnOk result ((l : TheLinks) → Drains turn.node (Queue.Router turn.node ∷ Queue.Tracker turn.node ∷ []) node.old node.new l l row.old row.new) }
    ensures rest { OnOk result (MailboxesEnded node.old node.new) }
{
    node.router.end_mailbox(row)?;
    node.tracker.end_mailbox(turn.alloc, row)?;
    Ok(())
}

/// What the tracker told the listener and the dialer ends, which they did not take.
fn stop_told(node: &mut Node, turn: Turn, row: &mut Row) -> Result<(), AllocError>
    ensures drains { OnOk result ((l : TheLinks) → Drains turn.node (Queue.Addresses turn.node ∷ Queue.Dialer turn.node ∷ []) node.old node.new l l row.old row.new) }
    ensures rest { OnOk result (node.new ≡ record node.old { tracker = record node.old.tracker { told = node.new.tracker.told } }) }
{
    end_told(node, row, Queue::Addresses(turn.node))?;
    end_told(node, row, Queue::Dialer(turn.node))?;
    Ok(())
}

/// A node that was emptied stops: its actors are gone, the mailbox of its tracker and its channels have ended, and it answers for
/// the others.
fn close(node: &mut Node, alloc: Global) -> Result<(), AllocError>
    ensures { OnOk result (HasClosed node.old node.new) }
{
    node.router.close();
    node.tracker.stop();
    node.dialing.stop();
    node.listening.forget_ends(alloc);
    node.channels.inbounds.end();
    node.stopped = true;
    Ok(())
}

/// Stops a node that has not stopped.
fn stop_running(node: &mut Node, turn: Turn, links: &mut Links) -> Result<Row, AllocError>
    requires { IsStrictlySortedBy nat_cmp (keys_of node.old.listening.handshakes) → length node.old.listening.handshakes ≤ node.old.listening.actor.places.held }
    ensures does { IfOk result (λ r. StopsRunning turn.node node.old node.new links.old links.new r) }
    ensures failed { OnOk result (node.new.failed ≡ node.old.failed) }
{
    let mut row = only(turn.alloc, Reply::Ok);
    stop_mailboxes(node, turn, &mut row)?;
    stop_messages(node, turn, links, &mut row)?;
    stop_arrivals(node, turn, links, &mut row)?;
    stop_told(node, turn, &mut row)?;
    stop_attempts(node, turn, links, &mut row)?;
    stop_handshakes(node, turn, links, &mut row)?;
    stop_connections(node, turn, links, &mut row)?;
    close(node, turn.alloc)?;
    Ok(row)
}

/// Stops the node, where it has not stopped: what waits for it and for what it holds ends, and each end of a link that it had is
/// dropped. What its readers and those who asked it may still take stays.
///
/// `Err` only where there is no memory. Some of it may then have ended and be missing in the row, and the node goes no further.
pub fn stop(node: &mut Node, turn: Turn, links: &mut Links) -> Result<Row, AllocError>
    requires { IsStrictlySortedBy nat_cmp (keys_of node.old.listening.handshakes) → length node.old.listening.handshakes ≤ node.old.listening.actor.places.held }
    ensures does { IfOk result (λ r. Stops turn.node node.old.stopped node.old node.new links.old links.new r) }
    ensures failed { OnOk result (node.new.failed ≡ node.old.failed) }
{
    if node.stopped {
        return Ok(only(turn.alloc, Reply::Gone));
    }
    Ok(stop_running(node, turn, links)?)
}
