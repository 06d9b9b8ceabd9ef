//! The acts, each by its own names.
ghost use Rattle.std.specs.Prelude.{◌≡◌};
ghost use Rattle.p2p_sim_script.specs.View.{view};
ghost use Rattle.p2p_sim_script.specs.Gives.{Gives};
ghost use Rattle.p2p_sim_script.specs.ActForm.{act_named, act_of, check_of, close_of, recv_of, recv_step_of, register_of, router_of, send_checked_of, send_of, send_step_of, sending_act_named, start_of, stop_of};

use crate::error::ScriptError;
use crate::parts::{read_node, read_rate};
use crate::tracker_act::read_tracker_named;
use crate::tree::{field, flag_or, only, whole};
use crate::value::Value;
use p2p_log::Act;
use std::alloc::Global;

fn read_register(tree: &Value) -> Option<Act>
    ensures { result ≡ register_of (view tree.now) }
{
    if !only(tree, &["at", "seed", "do", "channel", "node", "quota"]) {
        return None;
    }
    let channel = whole(tree, "channel")?;
    let node = whole(tree, "node")?;
    let quota = read_rate(tree.get("quota")?)?;
    Some(Act::Register {
        channel,
        node,
        quota,
    })
}

fn read_start(tree: &Value) -> Option<Act>
    ensures { result ≡ start_of (view tree.now) }
{
    if !only(tree, &["at", "seed", "do", "bind", "node"]) {
        return None;
    }
    let binds = flag_or(tree, "bind", true)?;
    let node = whole(tree, "node")?;
    if binds {
        Some(Act::Start { node })
    } else {
        Some(Act::Stop {
            by_start: true,
            node,
        })
    }
}

fn read_stop(tree: &Value) -> Option<Act>
    ensures { result ≡ stop_of (view tree.now) }
{
    let node = read_node(tree)?;
    Some(Act::Stop {
        by_start: false,
        node,
    })
}

fn read_router(tree: &Value) -> Option<Act>
    ensures { result ≡ router_of (view tree.now) }
{
    let node = read_node(tree)?;
    Some(Act::Router { node })
}

fn read_send_step(tree: &Value) -> Option<Act>
    ensures { result ≡ send_step_of (view tree.now) }
{
    if !only(tree, &["at", "seed", "do", "conn", "node"]) {
        return None;
    }
    let conn = whole(tree, "conn")?;
    let node = whole(tree, "node")?;
    Some(Act::SendStep { conn, node })
}

fn read_recv_step(tree: &Value) -> Option<Act>
    ensures { result ≡ recv_step_of (view tree.now) }
{
    if !only(tree, &["at", "seed", "do", "conn", "node"]) {
        return None;
    }
    let conn = whole(tree, "conn")?;
    let node = whole(tree, "node")?;
    Some(Act::RecvStep { conn, node })
}

fn read_recv(tree: &Value) -> Option<Act>
    ensures { result ≡ recv_of (view tree.now) }
{
    if !only(tree, &["at", "seed", "do", "channel", "node"]) {
        return None;
    }
    let channel = whole(tree, "channel")?;
    let node = whole(tree, "node")?;
    Some(Act::Recv { channel, node })
}

fn read_close(tree: &Value) -> Option<Act>
    ensures { result ≡ close_of (view tree.now) }
{
    if !only(tree, &["at", "seed", "do", "channel", "node"]) {
        return None;
    }
    let channel = whole(tree, "channel")?;
    let node = whole(tree, "node")?;
    Some(Act::Close { channel, node })
}

fn read_send(alloc: Global, tree: &Value) -> Result<Act, ScriptError>
    ensures { Gives result (send_of (view tree.now)) }
{
    if !only(
        tree,
        &[
            "at", "seed", "do", "bytes", "channel", "node", "priority", "to",
        ],
    ) {
        return Err(ScriptError::NotScript);
    }
    Ok(Act::Send {
        bytes: field(alloc, tree, "bytes")?,
        channel: field(alloc, tree, "channel")?,
        node: field(alloc, tree, "node")?,
        priority: field(alloc, tree, "priority")?,
        to: field(alloc, tree, "to")?,
    })
}

fn read_check(alloc: Global, tree: &Value) -> Result<Act, ScriptError>
    ensures { Gives result (check_of (view tree.now)) }
{
    if !only(tree, &["at", "seed", "do", "channel", "node", "to"]) {
        return Err(ScriptError::NotScript);
    }
    Ok(Act::Check {
        channel: field(alloc, tree, "channel")?,
        node: field(alloc, tree, "node")?,
        to: field(alloc, tree, "to")?,
    })
}

fn read_send_checked(alloc: Global, tree: &Value) -> Result<Act, ScriptError>
    ensures { Gives result (send_checked_of (view tree.now)) }
{
    if !only(tree, &["at", "seed", "do", "bytes", "check", "priority"]) {
        return Err(ScriptError::NotScript);
    }
    Ok(Act::SendChecked {
        bytes: field(alloc, tree, "bytes")?,
        check: field(alloc, tree, "check")?,
        priority: field(alloc, tree, "priority")?,
    })
}

fn read_sending_named(alloc: Global, word: &str, tree: &Value) -> Result<Act, ScriptError>
    ensures { Gives result (sending_act_named word.now (view tree.now)) }
{
    match word {
        "send" => read_send(alloc, tree),
        "check" => read_check(alloc, tree),
        "send_checked" => read_send_checked(alloc, tree),
        _ => read_tracker_named(alloc, word, tree),
    }
}

fn read_named(alloc: Global, word: &str, tree: &Value) -> Result<Act, ScriptError>
    ensures { Gives result (act_named word.now (view tree.now)) }
{
    let act = match word {
        "register" => read_register(tree),
        "start" => read_start(tree),
        "stop" => read_stop(tree),
        "router" => read_router(tree),
        "send_step" => read_send_step(tree),
        "recv_step" => read_recv_step(tree),
        "recv" => read_recv(tree),
        "close" => read_close(tree),
        _ => return read_sending_named(alloc, word, tree),
    };
    act.ok_or(ScriptError::NotScript)
}

/// The act that an event asks for, by its word `do`.
pub(crate) fn read_act(alloc: Global, tree: &Value) -> Result<Act, ScriptError>
    ensures { Gives result (act_of (view tree.now)) }
{
    let word = tree
        .get("do")
        .and_then(Value::as_str)
        .ok_or(ScriptError::NotScript)?;
    read_named(alloc, word, tree)
}
