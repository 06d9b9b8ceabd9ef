//! The nodes that an act names.
ghost use Rattle.std.specs.Prelude.{◌≡◌, slice_get};
ghost use Rattle.p2p_net_node.specs.Places.{asked_node as asked_node_of, node_asked as node_asked_by, node_checking as node_checking_by, nodes_linked as nodes_linked_by, node_of as node_of_act, other_of as other_of_act};

use p2p_log::{Act, Entry};
use p2p_net_node::Ends;

/// The node whose tracker an act asks.
fn asked_node(act: &Act) -> Option<u64>
    ensures { result ≡ asked_node_of act.now }
{
    match act {
        Act::Ask { node, .. } => Some(*node),
        _ => None,
    }
}

/// The node of which the event of this number asked, or the first.
fn node_asked(log: &[Entry], question: u64) -> u64
    ensures { result ≡ node_asked_by (slice_get log.now question) }
{
    match log.get(question as usize) {
        Some(entry) => match asked_node(&entry.event.act) {
            Some(node) => node,
            None => 0,
        },
        None => 0,
    }
}

/// The nodes between which the event of this number made a link, or the first at both ends.
fn nodes_linked(log: &[Entry], link: u64) -> Ends
    ensures { result ≡ nodes_linked_by (slice_get log.now link) }
{
    match log.get(link as usize) {
        Some(entry) => match &entry.event.act {
            Act::Connect { node, to, .. } => Ends {
                dials: *node,
                listens: *to,
            },
            _ => Ends {
                dials: 0,
                listens: 0,
            },
        },
        None => Ends {
            dials: 0,
            listens: 0,
        },
    }
}

/// The node at which the event of this number checks, or the first.
fn node_checking(log: &[Entry], check: u64) -> u64
    ensures { result ≡ node_checking_by (slice_get log.now check) }
{
    match log.get(check as usize) {
        Some(entry) => match &entry.event.act {
            Act::Check { node, .. } => *node,
            _ => 0,
        },
        None => 0,
    }
}

/// The node that an act names first, after these entries.
pub(crate) fn node_of(log: &[Entry], act: &Act) -> u64
    ensures { result ≡ node_of_act log.now act.now }
{
    match act {
        Act::Register { node, .. } => *node,
        Act::Start { node } => *node,
        Act::Stop { node, .. } => *node,
        Act::Send { node, .. } => *node,
        Act::Check { node, .. } => *node,
        Act::SendChecked { check, .. } => node_checking(log, *check),
        Act::Router { node } => *node,
        Act::SendStep { node, .. } => *node,
        Act::RecvStep { node, .. } => *node,
        Act::Recv { node, .. } => *node,
        Act::Close { node, .. } => *node,
        Act::Ask { node, .. } => *node,
        Act::Answer { question } => node_asked(log, *question),
        Act::Next { question } => node_asked(log, *question),
        Act::Tracker { node } => *node,
        Act::Dialer { node } => *node,
        Act::Listener { node } => *node,
        Act::Handshake { node, .. } => *node,
        Act::Spawner { node } => *node,
        Act::Attempt { node, .. } => *node,
        Act::Resolve { node, .. } => *node,
        Act::Connect { node, .. } => *node,
        Act::Refuse { node, .. } => *node,
        Act::Finish { link, .. } => nodes_linked(log, *link).dials,
        Act::Cut { link } => nodes_linked(log, *link).dials,
    }
}

/// The other node that an act names, or the first one again, after these entries.
pub(crate) fn other_of(log: &[Entry], first: u64, act: &Act) -> u64
    ensures { result ≡ other_of_act log.now first act.now }
{
    match act {
        Act::Connect { to, .. } => *to,
        Act::Finish { link, .. } => nodes_linked(log, *link).listens,
        Act::Cut { link } => nodes_linked(log, *link).listens,
        _ => first,
    }
}
