//! What the forms of all parts stand on: an object's names and fields, and whole numbers.
ghost use Rattle.std.specs.Prelude.{◌≡◌, ℕ, ◌-◌, ◌^◌, List, map, Option};
ghost use Rattle.serde_json.specs.Data.{Data};
ghost use Rattle.serde_json.specs.Find.{get, as_bool};
ghost use Rattle.p2p_sim_script.specs.View.{view, members_view};
ghost use Rattle.p2p_sim_script.specs.Gives.{Gives};
ghost use Rattle.p2p_sim_script.specs.Tree.{field_at, form_or, only_at, has_only, whole as a_whole, within as a_within};

use crate::error::ScriptError;
use crate::value::Value;
use std::alloc::Global;

/// What can be read from a tree.
pub(crate) trait FromTree: Drop {
    // The form of such a tree, and what it says.
    ghost form: { Data → Option Self };

    /// What `tree` says. `NotScript` exactly where it hasn't the form, `Memory` where there was none.
    fn from_tree(alloc: Global, tree: &Value) -> Result<Self, ScriptError>
        ensures { Gives result (form (view tree.now)) };
}

impl FromTree for u64 {
    ghost use Rattle.p2p_sim_script.specs.Tree.{whole};

    ghost form = { whole };

    fn from_tree(_alloc: Global, tree: &Value) -> Result<u64, ScriptError> {
        tree.as_u64().ok_or(ScriptError::NotScript)
    }
}

impl FromTree for bool {
    ghost use Rattle.serde_json.specs.Find.{as_bool};

    ghost form = { as_bool };

    fn from_tree(_alloc: Global, tree: &Value) -> Result<bool, ScriptError> {
        tree.as_bool().ok_or(ScriptError::NotScript)
    }
}

/// What the value at `name` says.
pub(crate) fn field<T: FromTree>(alloc: Global, tree: &Value, name: &str) -> Result<T, ScriptError>
    ensures { Gives result (field_at name.now T.form (view tree.now)) }
{
    match tree.get(name) {
        Some(value) => T::from_tree(alloc, value),
        None => Err(ScriptError::NotScript),
    }
}

/// Whether `tree` is an object with no other names than `names`.
pub(crate) fn only(tree: &Value, names: &[&str]) -> bool
    ensures { result ≡ only_at (map (λ n. n.now) names.now) (view tree.now) }
{
    match tree.as_object() {
        Some(members) => has_only_names(members, names),
        None => false,
    }
}

fn has_only_names(members: &[(&str, Value<'_>)], names: &[&str]) -> bool
    ensures { result ≡ has_only (map (λ n. n.now) names.now) (members_view members.now) }
{
    members.iter().all(|member| names.contains(&member.0))
}

/// The whole number at `name`.
pub(crate) fn whole(tree: &Value, name: &str) -> Option<u64>
    ensures { result ≡ field_at name.now a_whole (view tree.now) }
{
    tree.get(name)?.as_u64()
}

/// The whole number at `name`, or `default` where there is no such name.
pub(crate) fn whole_or(tree: &Value, name: &str, default: u64) -> Option<u64>
    ensures { result ≡ form_or default a_whole (get name.now (view tree.now)) }
{
    match tree.get(name) {
        Some(value) => value.as_u64(),
        None => Some(default),
    }
}

/// The flag at `name`, or `default` where there is no such name.
pub(crate) fn flag_or(tree: &Value, name: &str, default: bool) -> Option<bool>
    ensures { result ≡ form_or default as_bool (get name.now (view tree.now)) }
{
    match tree.get(name) {
        Some(value) => value.as_bool(),
        None => Some(default),
    }
}

/// The whole number at `name`, where it is at least `least` and at most `most`.
pub(crate) fn within(tree: &Value, name: &str, least: u64, most: u64) -> Option<u64>
    ensures { result ≡ field_at name.now (a_within least most) (view tree.now) }
{
    let number = whole(tree, name)?;
    if least <= number && number <= most {
        Some(number)
    } else {
        None
    }
}

/// The whole number at `name`, where it is at least `least`, or `default` where there is no such name.
pub(crate) fn within_or(tree: &Value, name: &str, least: u64, default: u64) -> Option<u64>
    ensures { result ≡ form_or default (a_within least (2 ^ 64 - 1)) (get name.now (view tree.now)) }
{
    match tree.get(name) {
        Some(_) => within(tree, name, least, u64::MAX),
        None => Some(default),
    }
}
