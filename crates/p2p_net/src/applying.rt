//! What an event that names one node makes of it: the act, by the crate of its group, and the entry that comes of it.
ghost use Rattle.std.specs.Prelude.{◌≡◌, IfOk, OnOk, IfErr, false};
ghost use Rattle.p2p_log_rules.specs.Effect.{entry_of as entry_of_row};
ghost use Rattle.p2p_net_node.specs.Ready.{IsReady};
ghost use Rattle.p2p_net.specs.Acts.{NodeDoes};
ghost use Rattle.p2p_net.specs.Applying.{NodeRecords, NodeApplies, NodeStandsWith, NodeRefused};

use crate::error::NodeError;
use p2p_base::List;
use p2p_log::{Act, Entry, Event, Reply};
use p2p_log_rules::Row;
use p2p_net_calls::{check, close, read, register, send, send_checked, start, stop};
use p2p_net_connecting::{recv_step, route, send_step, spawn_step, track_step};
use p2p_net_dialing::{attempt_step, dial_step, handshake_step, listen_step};
use p2p_net_links::Links;
use p2p_net_node::Node;
use p2p_net_queues::{Turn, only};
use std::alloc::{AllocError, Global};

/// The list, which takes no more memory than it holds.
fn fitted<T>(list: List<T>) -> List<T>
    ensures { result ≡ list }
{
    let mut items = list.into_inner();
    items.shrink_to_fit();
    List::new(items)
}

/// The entry of an event that came to this row. It is kept as long as the log, so its lists take no more memory than they hold.
///
/// `Err` only where memory runs out.
pub(crate) fn entry_of(alloc: Global, event: &Event, row: Row) -> Result<Entry, AllocError>
    ensures { IfOk result (λ e. e ≡ entry_of_row event.now row) }
{
    let Row {
        reply,
        takes,
        puts,
        ends,
    } = row;
    Ok(Entry {
        event: event.try_clone(alloc)?,
        reply,
        takes: fitted(takes),
        puts: fitted(puts),
        ends: fitted(ends),
    })
}

/// Does this node's part of the event of this number, which names it alone, and gives the entry that comes of it. Where this node and
/// the links stand for a log that the event may follow, that is its effect, and they stand for the log with it.
///
/// Where there is no memory, the answer is `NodeError::Memory`, and `NodeError::Failed` at each later event, which then
/// changes nothing.
pub fn apply_to(
    node: &mut Node,
    alloc: Global,
    number: u64,
    event: &Event,
    links: &mut Links,
) -> Result<Entry, NodeError>
    requires { IsReady event.now.act node.old }
    ensures stands { IfOk result (λ e. NodeStandsWith number event.now node.old node.new links.old links.new e) }
    ensures does { IfOk result (λ e. NodeApplies number event.now node.old node.new links.old links.new e) }
    ensures works { OnOk result (node.new.failed ≡ false) }
    ensures err { IfErr result (λ e. NodeRefused e node.old node.new links.old links.new) }
{
    if node.failed {
        return Err(NodeError::Failed);
    }
    let turn = Turn {
        alloc,
        entry: number,
        node: node.router.number,
    };
    match entry_at(node, turn, links, event) {
        Ok(entry) => Ok(entry),
        Err(_) => {
            node.failed = true;
            Err(NodeError::Memory)
        }
    }
}

/// The entry that comes of an event.
fn entry_at(
    node: &mut Node,
    turn: Turn,
    links: &mut Links,
    event: &Event,
) -> Result<Entry, AllocError>
    requires { IsReady event.now.act node.old }
    ensures does { IfOk result (λ e. NodeRecords turn.entry turn.node event.now node.old node.new links.old links.new e) }
    ensures failed { OnOk result (node.new.failed ≡ node.old.failed) }
{
    let row = act_at(node, turn, links, event)?;
    Ok(entry_of(turn.alloc, event, row)?)
}

/// Does this node's part of an event that names it alone.
fn act_at(node: &mut Node, turn: Turn, links: &mut Links, event: &Event) -> Result<Row, AllocError>
    requires { IsReady event.now.act node.old }
    ensures does { IfOk result (λ r. NodeDoes turn.entry turn.node event.now.at event.now.seed event.now.act node.old node.new links.old links.new r) }
    ensures failed { OnOk result (node.new.failed ≡ node.old.failed) }
{
    match &event.act {
        Act::Register { channel, quota, .. } => Ok(register(node, turn, *channel, *quota)?),
        Act::Start { .. } => Ok(start(node, turn, event.at)?),
        Act::Stop { .. } => Ok(stop(node, turn, links)?),
        Act::Send {
            bytes,
            channel,
            priority,
            to,
            ..
        } => Ok(send(node, turn, event.at, *channel, bytes, *priority, to)?),
        Act::Check { channel, to, .. } => Ok(check(node, turn, event.at, *channel, to)?),
        Act::SendChecked {
            bytes,
            check,
            priority,
        } => Ok(send_checked(node, turn, *check, bytes, *priority)?),
        Act::Router { .. } => Ok(route(node, turn)?),
        Act::SendStep { conn, .. } => Ok(send_step(node, turn, links, *conn, event.at)?),
        Act::RecvStep { conn, .. } => Ok(recv_step(node, turn, links, *conn, event.at)?),
        Act::Recv { channel, .. } => Ok(read(node, turn, *channel)?),
        Act::Close { channel, .. } => Ok(close(node, turn, *channel)?),
        Act::Connect { .. } => Ok(only(turn.alloc, Reply::Idle)),
        Act::Finish { .. } => Ok(only(turn.alloc, Reply::Idle)),
        Act::Cut { .. } => Ok(only(turn.alloc, Reply::Idle)),
        Act::Ask { asked, .. } => Ok(node.tracker.ask(turn, asked)?),
        Act::Answer { question } => Ok(node.tracker.answer(turn, *question)?),
        Act::Next { question } => Ok(node.tracker.next(turn, *question)?),
        Act::Tracker { .. } => Ok(track_step(node, turn, event.at, event.seed)?),
        Act::Dialer { .. } => Ok(dial_step(node, turn, event.at, event.seed)?),
        Act::Listener { .. } => Ok(listen_step(node, turn, links, event.at)?),
        Act::Handshake { handshake, .. } => {
            Ok(handshake_step(node, turn, links, *handshake, event.at)?)
        }
        Act::Spawner { .. } => Ok(spawn_step(node, turn)?),
        Act::Attempt { attempt, .. } => {
            Ok(attempt_step(node, turn, links, *attempt, event.at, event.seed)?)
        }
        Act::Resolve {
            addresses,
            attempt,
            ..
        } => Ok(node.dialing.resolve(turn, *attempt, addresses)?),
        Act::Refuse { attempt, .. } => Ok(node.dialing.answer_dial(turn, *attempt, false)?),
    }
}
