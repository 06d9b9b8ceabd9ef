//! The text of a made script.
ghost use Rattle.std.specs.Prelude.{◌≡◌, ◌≤◌, IfOk};
ghost use Rattle.std.specs.String.{string_bytes};
ghost use Rattle.serde_json.specs.View.{view};
ghost use Rattle.p2p_sim_script.specs.Generated.{generated_configs, generated_events};
ghost use Rattle.p2p_sim_script.specs.GeneratedText.{Says};
ghost use Rattle.p2p_sim_script.specs.GeneratedTree.{config_tree as tree_of_config, script_tree as tree_of_script};

use crate::generator::event_tree::events_tree;
use crate::generator::generated::generated_script;
use p2p_log::Event;
use serde_json::{Value, json};
use std::alloc::{AllocError, Global};

// The configuration of a node.
fn config_tree(alloc: Global, node: u64) -> Result<Value, AllocError>
    requires { node ≤ 3 }
    ensures { IfOk result (λ v. view v ≡ tree_of_config node) }
{
    let key = node + 1;
    json!(in alloc; {
        "key": key,
        "mailbox_size": 64u64,
        "max_message_size": 1024u64,
        "max_peers_per_set": 4u64,
        "preset": "local"
    })
}

// The four nodes, and these events.
fn script_tree(alloc: Global, events: &[Event]) -> Result<Value, AllocError>
    ensures { IfOk result (λ v. view v ≡ tree_of_script events.now) }
{
    let first = config_tree(alloc, 0)?;
    let second = config_tree(alloc, 1)?;
    let third = config_tree(alloc, 2)?;
    let fourth = config_tree(alloc, 3)?;
    let events = Value::Array(events_tree(alloc, events)?);
    json!(in alloc; {"configs": [first, second, third, fourth], "script": events})
}

/// The JSON text of the script that `generated_script` gives for this count and this seed, as `gen` runs it: what is read of the text
/// is that script.
///
/// `count` is at most 100,000, which is for the caller to know: no call tells, comparing the number does. `Err` only where memory runs
/// out. It takes time and memory in proportion to `count`.
pub fn generated(alloc: Global, count: u64, seed: u64) -> Result<String, AllocError>
    requires { count ≤ 100000 }
    ensures { IfOk result (λ text. Says (string_bytes text) generated_configs (generated_events count seed)) }
{
    let made = generated_script(alloc, count, seed)?;
    let tree = script_tree(alloc, made.1.as_slice())?;
    tree.to_string(alloc)
}
