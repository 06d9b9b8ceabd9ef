//! The JSON tree of an event of a made script.
ghost use Rattle.std.specs.Prelude.{◌≡◌, map, IfOk};
ghost use Rattle.serde_json.specs.View.{view, items_view, items_of};
ghost use Rattle.p2p_sim_script.specs.GeneratedTree.{begun_tree, act_tree as tree_of_act, event_tree as tree_of_event};

use crate::generator::act_tree::{
    connect_tree, finish_tree, node_tree, numbered_tree, register_tree, send_tree, track_tree,
};
use p2p_log::{Act, Event};
use serde_json::Value;
use std::alloc::{AllocError, Global};

// An act of those by which nodes get their connections. There is nothing of an act that stands in no made script.
fn beginning_tree(alloc: Global, at: u64, act: &Act) -> Result<Value, AllocError>
    ensures { IfOk result (λ v. view v ≡ begun_tree at act.now) }
{
    match act {
        Act::Register {
            channel,
            node,
            quota,
        } => register_tree(alloc, at, *channel, *node, *quota),
        Act::Start { node } => node_tree(alloc, at, "start", *node),
        Act::Ask { node, .. } => track_tree(alloc, at, *node),
        Act::Dialer { node } => node_tree(alloc, at, "dialer", *node),
        Act::Listener { node } => node_tree(alloc, at, "listener", *node),
        Act::Spawner { node } => node_tree(alloc, at, "spawner", *node),
        Act::Attempt { attempt, node } => {
            numbered_tree(alloc, at, "attempt", "attempt", *attempt, *node)
        }
        Act::Handshake { handshake, node } => {
            numbered_tree(alloc, at, "handshake", "handshake", *handshake, *node)
        }
        Act::Connect {
            attempt,
            from,
            node,
            to,
        } => connect_tree(alloc, at, *attempt, *from, *node, *to),
        Act::Finish { link, ok } => finish_tree(alloc, at, *link, *ok),
        _ => Ok(Value::Null),
    }
}

// An act of a made script.
fn act_tree(alloc: Global, at: u64, act: &Act) -> Result<Value, AllocError>
    ensures { IfOk result (λ v. view v ≡ tree_of_act at act.now) }
{
    match act {
        Act::Send {
            bytes,
            channel,
            node,
            priority,
            ..
        } => send_tree(alloc, at, bytes.as_slice(), *channel, *node, *priority),
        Act::Router { node } => node_tree(alloc, at, "router", *node),
        Act::SendStep { conn, node } => {
            numbered_tree(alloc, at, "send_step", "conn", *conn, *node)
        }
        Act::RecvStep { conn, node } => {
            numbered_tree(alloc, at, "recv_step", "conn", *conn, *node)
        }
        Act::Recv { channel, node } => {
            numbered_tree(alloc, at, "recv", "channel", *channel, *node)
        }
        Act::Tracker { node } => node_tree(alloc, at, "tracker", *node),
        _ => beginning_tree(alloc, at, act),
    }
}

/// Events of a made script, in order.
pub fn events_tree(alloc: Global, events: &[Event]) -> Result<Vec<Value>, AllocError>
    ensures { IfOk result (λ trees. items_view trees.items ≡ items_of (map tree_of_event events.now)) }
{
    let mut trees = Vec::with_capacity(alloc, events.len())?;
    for event in events {
        trees.push(act_tree(alloc, event.at, &event.act)?)?;
    }
    Ok(trees)
}
