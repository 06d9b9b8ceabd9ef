//! The acts about a node's tracker, each by its own names.
ghost use Rattle.std.specs.Prelude.{◌≡◌};
ghost use Rattle.p2p_sim_script.specs.View.{view};
ghost use Rattle.p2p_sim_script.specs.Gives.{Gives};
ghost use Rattle.p2p_sim_script.specs.TrackerActForm.{answer_of, block_of, blocked_of, next_of, overwrite_of, peer_set_of, question_of, subscribe_of, track_of, tracker_act_named, tracker_of};

use crate::address::peers_or_none;
use crate::dialer_act::read_dialer_named;
use crate::error::ScriptError;
use crate::parts::read_node;
use crate::tree::{field, only, whole};
use crate::value::Value;
use p2p_base::Key;
use p2p_flow::AddressableTrackedPeers;
use p2p_log::{Act, Asked};
use std::alloc::Global;

fn read_track(alloc: Global, tree: &Value) -> Result<Act, ScriptError>
    ensures { Gives result (track_of (view tree.now)) }
{
    if !only(
        tree,
        &["at", "seed", "do", "index", "node", "primary", "secondary"],
    ) {
        return Err(ScriptError::NotScript);
    }
    let index = field(alloc, tree, "index")?;
    let node = field(alloc, tree, "node")?;
    let primary = field(alloc, tree, "primary")?;
    let secondary = peers_or_none(alloc, tree, "secondary")?;
    let peers = AddressableTrackedPeers { primary, secondary };
    Ok(Act::Ask {
        asked: Asked::Track { index, peers },
        node,
    })
}

fn read_overwrite(alloc: Global, tree: &Value) -> Result<Act, ScriptError>
    ensures { Gives result (overwrite_of (view tree.now)) }
{
    if !only(tree, &["at", "seed", "do", "node", "peers"]) {
        return Err(ScriptError::NotScript);
    }
    let node = field(alloc, tree, "node")?;
    let peers = field(alloc, tree, "peers")?;
    Ok(Act::Ask {
        asked: Asked::Overwrite { peers },
        node,
    })
}

fn read_block(tree: &Value) -> Option<Act>
    ensures { result ≡ block_of (view tree.now) }
{
    if !only(tree, &["at", "seed", "do", "key", "node"]) {
        return None;
    }
    let key = Key(whole(tree, "key")?);
    let node = whole(tree, "node")?;
    Some(Act::Ask {
        asked: Asked::Block { key },
        node,
    })
}

fn read_peer_set(tree: &Value) -> Option<Act>
    ensures { result ≡ peer_set_of (view tree.now) }
{
    if !only(tree, &["at", "seed", "do", "index", "node"]) {
        return None;
    }
    let index = whole(tree, "index")?;
    let node = whole(tree, "node")?;
    Some(Act::Ask {
        asked: Asked::PeerSet { index },
        node,
    })
}

fn read_subscribe(tree: &Value) -> Option<Act>
    ensures { result ≡ subscribe_of (view tree.now) }
{
    let node = read_node(tree)?;
    Some(Act::Ask {
        asked: Asked::Subscribe,
        node,
    })
}

fn read_blocked(tree: &Value) -> Option<Act>
    ensures { result ≡ blocked_of (view tree.now) }
{
    let node = read_node(tree)?;
    Some(Act::Ask {
        asked: Asked::Blocked,
        node,
    })
}

fn read_tracker(tree: &Value) -> Option<Act>
    ensures { result ≡ tracker_of (view tree.now) }
{
    let node = read_node(tree)?;
    Some(Act::Tracker { node })
}

fn read_question(tree: &Value) -> Option<u64>
    ensures { result ≡ question_of (view tree.now) }
{
    if !only(tree, &["at", "seed", "do", "question"]) {
        return None;
    }
    whole(tree, "question")
}

fn read_answer(tree: &Value) -> Option<Act>
    ensures { result ≡ answer_of (view tree.now) }
{
    let question = read_question(tree)?;
    Some(Act::Answer { question })
}

fn read_next(tree: &Value) -> Option<Act>
    ensures { result ≡ next_of (view tree.now) }
{
    let question = read_question(tree)?;
    Some(Act::Next { question })
}

/// The act about a tracker that `word` asks for, or else the one of a dialer.
pub(crate) fn read_tracker_named(
    alloc: Global,
    word: &str,
    tree: &Value,
) -> Result<Act, ScriptError>
    ensures { Gives result (tracker_act_named word.now (view tree.now)) }
{
    let act = match word {
        "track" => return read_track(alloc, tree),
        "overwrite" => return read_overwrite(alloc, tree),
        "block" => read_block(tree),
        "peer_set" => read_peer_set(tree),
        "subscribe" => read_subscribe(tree),
        "blocked" => read_blocked(tree),
        "answer" => read_answer(tree),
        "next" => read_next(tree),
        "tracker" => read_tracker(tree),
        _ => return read_dialer_named(alloc, word, tree),
    };
    act.ok_or(ScriptError::NotScript)
}
