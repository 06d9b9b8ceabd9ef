//! What an event names: keys, bytes, recipients, rates.
ghost use Rattle.std.specs.Prelude.{◌≡◌};
ghost use Rattle.serde_json.specs.Find.{get};
ghost use Rattle.p2p_sim_script.specs.View.{view};
ghost use Rattle.p2p_sim_script.specs.Gives.{Gives};
ghost use Rattle.p2p_sim_script.specs.Tree.{field_at, form_or};
ghost use Rattle.p2p_sim_script.specs.Parts.{all_named, all_of, bytes_of, key_of, keys_of, node_of, one_of, rate_of, recipients_of, some_of};

use crate::error::ScriptError;
use crate::tree::{FromTree, field, only, whole, within};
use crate::value::Value;
use bytes::Bytes;
use hex::FromHexError;
use p2p_base::{Key, List};
use p2p_log::{Rate, Recipients};
use std::alloc::Global;

/// The node of an act that names nothing else.
pub(crate) fn read_node(tree: &Value) -> Option<u64>
    ensures { result ≡ node_of (view tree.now) }
{
    if !only(tree, &["at", "seed", "do", "node"]) {
        return None;
    }
    whole(tree, "node")
}

fn read_key(tree: &Value) -> Option<Key>
    ensures { result ≡ key_of (view tree.now) }
{
    Some(Key(tree.as_u64()?))
}

impl FromTree for Key {
    ghost form = { key_of };

    fn from_tree(_alloc: Global, tree: &Value) -> Result<Key, ScriptError> {
        read_key(tree).ok_or(ScriptError::NotScript)
    }
}

/// The bytes that a hexadecimal text spells.
pub(crate) fn read_bytes(alloc: Global, tree: &Value) -> Result<Bytes, ScriptError>
    ensures { Gives result (bytes_of (view tree.now)) }
{
    let text = tree.as_str().ok_or(ScriptError::NotScript)?;
    match hex::decode(alloc, text) {
        Ok(bytes) => Ok(Bytes::from_vec(bytes)?),
        Err(FromHexError::OutOfMemory) => Err(ScriptError::Memory),
        Err(_) => Err(ScriptError::NotScript),
    }
}

impl FromTree for Bytes {
    ghost form = { bytes_of };

    fn from_tree(alloc: Global, tree: &Value) -> Result<Bytes, ScriptError> {
        read_bytes(alloc, tree)
    }
}

/// How often something may happen: what a channel takes, or how often peers may connect.
pub(crate) fn read_rate(tree: &Value) -> Option<Rate>
    ensures { result ≡ rate_of (view tree.now) }
{
    if !only(tree, &["burst", "period"]) {
        return None;
    }
    let burst = within(tree, "burst", 1, u32::MAX as u64)? as u32;
    let period = within(tree, "period", 1, u64::MAX)?;
    Some(Rate { burst, period })
}

/// The rate at `name`, or `default` where there is no such name.
pub(crate) fn rate_or(tree: &Value, name: &str, default: Rate) -> Option<Rate>
    ensures { result ≡ form_or default rate_of (get name.now (view tree.now)) }
{
    match tree.get(name) {
        Some(value) => read_rate(value),
        None => Some(default),
    }
}

fn all_by(word: &str) -> Option<Recipients>
    ensures { result ≡ all_named word.now }
{
    match word {
        "all" => Some(Recipients::All),
        _ => None,
    }
}

fn read_all(tree: &Value) -> Option<Recipients>
    ensures { result ≡ all_of (view tree.now) }
{
    all_by(tree.as_str()?)
}

fn read_one(tree: &Value) -> Option<Recipients>
    ensures { result ≡ one_of (view tree.now) }
{
    if !only(tree, &["one"]) {
        return None;
    }
    Some(Recipients::One(read_key(tree.get("one")?)?))
}

fn read_some(alloc: Global, tree: &Value) -> Result<Recipients, ScriptError>
    ensures { Gives result (some_of (view tree.now)) }
{
    if !only(tree, &["some"]) {
        return Err(ScriptError::NotScript);
    }
    Ok(Recipients::Some(field(alloc, tree, "some")?))
}

fn read_keys(alloc: Global, tree: &Value) -> Result<Recipients, ScriptError>
    ensures { Gives result (keys_of (view tree.now)) }
{
    match read_one(tree) {
        Some(to) => Ok(to),
        None => read_some(alloc, tree),
    }
}

impl FromTree for Recipients {
    ghost form = { recipients_of };

    fn from_tree(alloc: Global, tree: &Value) -> Result<Recipients, ScriptError> {
        match read_all(tree) {
            Some(to) => Ok(to),
            None => read_keys(alloc, tree),
        }
    }
}
