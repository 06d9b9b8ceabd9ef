//! The acts of a node's dialer, of its attempts, of its listener, of its handshakes, of its spawner and of links, each by its
//! own names.
ghost use Rattle.std.specs.Prelude.{◌≡◌};
ghost use Rattle.p2p_sim_script.specs.View.{view};
ghost use Rattle.p2p_sim_script.specs.DialerActForm.{attempt_named_of, attempt_of, connect_of, cut_of, dialer_act_named, dialer_of, finish_of, handshake_of, listener_of, refuse_of, resolve_of, spawner_of};
ghost use Rattle.p2p_sim_script.specs.Gives.{Gives};

use crate::error::ScriptError;
use crate::parts::read_node;
use crate::tree::{field, only, whole};
use crate::value::Value;
use p2p_log::Act;
use std::alloc::Global;

fn read_dialer(tree: &Value) -> Option<Act>
    ensures { result ≡ dialer_of (view tree.now) }
{
    let node = read_node(tree)?;
    Some(Act::Dialer { node })
}

fn read_listener(tree: &Value) -> Option<Act>
    ensures { result ≡ listener_of (view tree.now) }
{
    let node = read_node(tree)?;
    Some(Act::Listener { node })
}

fn read_handshake(tree: &Value) -> Option<Act>
    ensures { result ≡ handshake_of (view tree.now) }
{
    if !only(tree, &["at", "seed", "do", "handshake", "node"]) {
        return None;
    }
    let handshake = whole(tree, "handshake")?;
    let node = whole(tree, "node")?;
    Some(Act::Handshake { handshake, node })
}

fn read_spawner(tree: &Value) -> Option<Act>
    ensures { result ≡ spawner_of (view tree.now) }
{
    let node = read_node(tree)?;
    Some(Act::Spawner { node })
}

// The attempt, and the node, of an act that names nothing else.
fn read_attempt_named(tree: &Value) -> Option<(u64, u64)>
    ensures { result ≡ attempt_named_of (view tree.now) }
{
    if !only(tree, &["at", "seed", "do", "attempt", "node"]) {
        return None;
    }
    let attempt = whole(tree, "attempt")?;
    let node = whole(tree, "node")?;
    Some((attempt, node))
}

fn read_attempt(tree: &Value) -> Option<Act>
    ensures { result ≡ attempt_of (view tree.now) }
{
    let (attempt, node) = read_attempt_named(tree)?;
    Some(Act::Attempt { attempt, node })
}

fn read_refuse(tree: &Value) -> Option<Act>
    ensures { result ≡ refuse_of (view tree.now) }
{
    let (attempt, node) = read_attempt_named(tree)?;
    Some(Act::Refuse { attempt, node })
}

fn read_resolve(alloc: Global, tree: &Value) -> Result<Act, ScriptError>
    ensures { Gives result (resolve_of (view tree.now)) }
{
    if !only(tree, &["at", "seed", "do", "addresses", "attempt", "node"]) {
        return Err(ScriptError::NotScript);
    }
    let addresses = field(alloc, tree, "addresses")?;
    let attempt = field(alloc, tree, "attempt")?;
    let node = field(alloc, tree, "node")?;
    Ok(Act::Resolve {
        addresses,
        attempt,
        node,
    })
}

fn read_connect(alloc: Global, tree: &Value) -> Result<Act, ScriptError>
    ensures { Gives result (connect_of (view tree.now)) }
{
    if !only(tree, &["at", "seed", "do", "attempt", "from", "node", "to"]) {
        return Err(ScriptError::NotScript);
    }
    let attempt = field(alloc, tree, "attempt")?;
    let from = field(alloc, tree, "from")?;
    let node = field(alloc, tree, "node")?;
    let to = field(alloc, tree, "to")?;
    Ok(Act::Connect {
        attempt,
        from,
        node,
        to,
    })
}

fn read_finish(alloc: Global, tree: &Value) -> Result<Act, ScriptError>
    ensures { Gives result (finish_of (view tree.now)) }
{
    if !only(tree, &["at", "seed", "do", "link", "ok"]) {
        return Err(ScriptError::NotScript);
    }
    let link = field(alloc, tree, "link")?;
    let ok = field(alloc, tree, "ok")?;
    Ok(Act::Finish { link, ok })
}

fn read_cut(tree: &Value) -> Option<Act>
    ensures { result ≡ cut_of (view tree.now) }
{
    if !only(tree, &["at", "seed", "do", "link"]) {
        return None;
    }
    let link = whole(tree, "link")?;
    Some(Act::Cut { link })
}

/// The act of a dialer, an attempt, a listener, a handshake, a spawner or a link that `word` asks for.
pub(crate) fn read_dialer_named(alloc: Global, word: &str, tree: &Value) -> Result<Act, ScriptError>
    ensures { Gives result (dialer_act_named word.now (view tree.now)) }
{
    let act = match word {
        "dialer" => read_dialer(tree),
        "attempt" => read_attempt(tree),
        "resolve" => return read_resolve(alloc, tree),
        "connect" => return read_connect(alloc, tree),
        "refuse" => read_refuse(tree),
        "finish" => return read_finish(alloc, tree),
        "cut" => read_cut(tree),
        "listener" => read_listener(tree),
        "handshake" => read_handshake(tree),
        "spawner" => read_spawner(tree),
        _ => None,
    };
    act.ok_or(ScriptError::NotScript)
}
