//! Whether an event may be asked for, after those before it.
ghost use Rattle.std.specs.Prelude.{◌≡◌, ◌&&◌, slice_get, nat_le};
ghost use Rattle.p2p_net_node.specs.Ready.{names_spawner, names_dialer, names_listener, links_attempt, checks as checks_test, asks_set as asks_set_test, subscribes as subscribes_test, may_register as may_register_test, may_ask as may_ask_test, may_at, may_act as may_act_test};

use crate::naming::{node_of, other_of};
use p2p_log::{Act, Asked, Entry, Event, Rate};
use p2p_net_node::{Node, Requested};

/// Whether a channel may be registered at a node: it was not asked to start, the channel is new, its quota admits something,
/// sometimes, and what it would hold can be counted.
fn may_register(node: &Node, requested: &Requested, channel: u64, quota: Rate) -> bool
    ensures { result ≡ may_register_test node.now requested.now channel quota }
{
    let capacity = node.capacity(quota);
    let most = usize::MAX as u128;
    ((!requested.started && !requested.capacities.has(channel))
        && (0 < quota.burst && 0 < quota.period))
        && (capacity <= most
            && node.config.mailbox_size as u128 + (requested.total as u128 + capacity) <= most)
}

/// Whether the entry of this number is of a step of a node's spawner.
fn is_spawned(log: &[Entry], conn: u64, number: u64) -> bool
    ensures { result ≡ names_spawner number (slice_get log.now conn) }
{
    match log.get(conn as usize) {
        Some(entry) => match &entry.event.act {
            Act::Spawner { node } => *node == number,
            _ => false,
        },
        None => false,
    }
}

/// Whether the entry of this number is of a check.
fn checks(log: &[Entry], check: u64) -> bool
    ensures { result ≡ checks_test (slice_get log.now check) }
{
    match log.get(check as usize) {
        Some(entry) => matches!(&entry.event.act, Act::Check { .. }),
        None => false,
    }
}

/// Whether the entry of this number is of a question for a peer set.
fn asks_set(log: &[Entry], question: u64) -> bool
    ensures { result ≡ asks_set_test (slice_get log.now question) }
{
    match log.get(question as usize) {
        Some(entry) => match &entry.event.act {
            Act::Ask { asked, .. } => matches!(asked, Asked::PeerSet { .. }),
            _ => false,
        },
        None => false,
    }
}

/// Whether the entry of this number is of a subscription.
fn subscribes(log: &[Entry], question: u64) -> bool
    ensures { result ≡ subscribes_test (slice_get log.now question) }
{
    match log.get(question as usize) {
        Some(entry) => match &entry.event.act {
            Act::Ask { asked, .. } => matches!(asked, Asked::Subscribe | Asked::Blocked),
            _ => false,
        },
        None => false,
    }
}

/// Whether the entry of this number is of a step of a node's dialer.
fn is_dialed(log: &[Entry], attempt: u64, number: u64) -> bool
    ensures { result ≡ names_dialer number (slice_get log.now attempt) }
{
    match log.get(attempt as usize) {
        Some(entry) => match &entry.event.act {
            Act::Dialer { node } => *node == number,
            _ => false,
        },
        None => false,
    }
}

/// Whether the entry of this number is of a step of a node's listener.
fn is_listened(log: &[Entry], handshake: u64, number: u64) -> bool
    ensures { result ≡ names_listener number (slice_get log.now handshake) }
{
    match log.get(handshake as usize) {
        Some(entry) => match &entry.event.act {
            Act::Listener { node } => *node == number,
            _ => false,
        },
        None => false,
    }
}

/// Whether the entry of this number links an attempt to a node.
fn is_linked(log: &[Entry], link: u64) -> bool
    ensures { result ≡ links_attempt (slice_get log.now link) }
{
    match log.get(link as usize) {
        Some(entry) => matches!(&entry.event.act, Act::Connect { .. }),
        None => false,
    }
}

/// Whether a node may be asked for an act, after these entries and by what was requested of it so far.
fn may_ask(log: &[Entry], node: &Node, requested: &Requested, act: &Act) -> bool
    ensures { result ≡ may_ask_test log.now node.now requested.now act.now }
{
    match act {
        Act::Register { channel, quota, .. } => may_register(node, requested, *channel, *quota),
        Act::Start { .. } => !requested.started,
        Act::Stop { by_start, .. } => !(*by_start && requested.started),
        Act::SendChecked { check, .. } => checks(log, *check),
        Act::SendStep { conn, node } => is_spawned(log, *conn, *node),
        Act::RecvStep { conn, node } => is_spawned(log, *conn, *node),
        Act::Answer { question } => asks_set(log, *question),
        Act::Next { question } => subscribes(log, *question),
        Act::Handshake { handshake, node } => is_listened(log, *handshake, *node),
        Act::Attempt { attempt, node } => is_dialed(log, *attempt, *node),
        Act::Resolve { attempt, node, .. } => is_dialed(log, *attempt, *node),
        Act::Connect { attempt, node, .. } => is_dialed(log, *attempt, *node),
        Act::Refuse { attempt, node } => is_dialed(log, *attempt, *node),
        Act::Finish { link, .. } => is_linked(log, *link),
        Act::Cut { link } => is_linked(log, *link),
        _ => true,
    }
}

/// Whether the node of this number is there, and may be asked for an act.
fn may_ask_at(
    nodes: &[Node],
    requested: &[Requested],
    log: &[Entry],
    number: u64,
    act: &Act,
) -> bool
    ensures { result ≡ may_at (slice_get nodes.now number) (slice_get requested.now number) log.now act.now }
{
    match nodes.get(number as usize) {
        Some(node) => match requested.get(number as usize) {
            Some(requested) => may_ask(log, node, requested, act),
            None => false,
        },
        None => false,
    }
}

/// Whether the nodes that an act names are there, and the first may be asked for it.
fn may_act(nodes: &[Node], requested: &[Requested], log: &[Entry], act: &Act) -> bool
    ensures { result ≡ may_act_test nodes.now requested.now log.now act.now }
{
    let count = nodes.len() as u64;
    let number = node_of(log, act);
    number < count
        && other_of(log, number, act) < count
        && may_ask_at(nodes, requested, log, number, act)
}

/// Whether an event may be asked for after these entries, of which the last was at the moment `last`.
pub(crate) fn is_valid(
    nodes: &[Node],
    requested: &[Requested],
    log: &[Entry],
    last: u64,
    event: &Event,
) -> bool
    ensures { result ≡ (nat_le last event.now.at && may_act_test nodes.now requested.now log.now event.now.act) }
{
    last <= event.at && may_act(nodes, requested, log, &event.act)
}
