//! A tree of serde_json, borrowed.
ghost use Rattle.std.specs.Prelude.{◌≡◌, IfOk};
ghost use Rattle.serde_json.specs.View.{view as owned_view, items_view as owned_items, members_view as owned_members};
ghost use Rattle.p2p_sim_script.specs.View.{view, items_view, members_view};

use crate::value::Value;
use serde_json::{Map, Value as Owned};
use std::alloc::{AllocError, Global};

/// The value that `tree` is, with its texts borrowed from it. Takes time in proportion to the size of the tree.
#[cycle(borrow)]
pub(crate) fn borrowed<'a>(alloc: Global, tree: &'a Owned) -> Result<Value<'a>, AllocError>
    ensures { IfOk result (λ v. view v ≡ owned_view tree.now) }
{
    match tree {
        Owned::Null => Ok(Value::Null),
        Owned::Bool(flag) => Ok(Value::Bool(*flag)),
        Owned::Number(number) => Ok(Value::Number(*number)),
        Owned::String(text) => Ok(Value::String(text.as_str())),
        Owned::Array(items) => Ok(Value::Array(borrowed_items(alloc, items)?)),
        Owned::Object(members) => Ok(Value::Object(borrowed_members(alloc, members)?)),
    }
}

#[cycle(borrow)]
fn borrowed_items<'a>(alloc: Global, items: &'a Vec<Owned>) -> Result<Vec<Value<'a>>, AllocError>
    ensures { IfOk result (λ v. items_view v.items ≡ owned_items items.now.items) }
{
    let mut found = Vec::with_capacity(alloc, items.len())?;
    for item in items {
        found.push(borrowed(alloc, item)?)?;
    }
    Ok(found)
}

#[cycle(borrow)]
fn borrowed_members<'a>(
    alloc: Global,
    members: &'a Map<String, Owned>,
) -> Result<Vec<(&'a str, Value<'a>)>, AllocError>
    ensures { IfOk result (λ m. members_view m.items ≡ owned_members members.now.entries) }
{
    let mut found = Vec::new(alloc);
    for (key, member) in members.iter() {
        found.push((key.as_str(), borrowed(alloc, member)?))?;
    }
    Ok(found)
}
