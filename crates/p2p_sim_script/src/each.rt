//! A list, read item by item: an item's tree is let go as soon as it has said what it says.
ghost use Rattle.std.specs.Prelude.{◌≡◌, ◌<◌, ◌≤◌, ◌∷◌, length, Some, None, Err, IfOk, OnOk};
ghost use Rattle.json.specs.Json.{parse_map};
ghost use Rattle.p2p_sim_script.specs.View.{view};
ghost use Rattle.p2p_sim_script.specs.Tree.{each, list_of};
ghost use Rattle.p2p_sim_script.specs.Taken.{value_taken, items_taken};

use crate::error::{ReadError, ScriptError};
use crate::reading::{read_from, read_items, read_value};
use crate::tree::FromTree;
use crate::value::Value;
use json::{Reader, Token};
use p2p_base::List;
use std::alloc::Global;

/// What the next value of the reader says as a list. `None` where it hasn't the form of one.
pub(crate) fn read_list<T: FromTree>(
    alloc: Global,
    reader: &mut Reader<'_>,
    depth: usize,
) -> Result<Option<List<T>>, ReadError>
    ensures ok { IfOk result (λ list. parse_map (list_of T.form) (value_taken depth reader.old) ≡ Some (list, reader.new)) }
    ensures shorter { OnOk result (length reader.new < length reader.old) }
    ensures not_json { result ≡ Err ReadError.NotJson → value_taken depth reader.old ≡ None }
{
    let token = reader.next().ok_or(ReadError::NotJson)?;
    match token {
        Token::BeginArray => {
            if depth == 0 {
                return Err(ReadError::NotJson);
            }
            Ok(read_each(alloc, reader, depth - 1)?)
        }
        _ => {
            let tree = read_from(alloc, token, reader, depth)?;
            Ok(said(alloc, &tree)?)
        }
    }
}

// What the items say that an array has left. Where one hasn't the form, the others are read for their syntax alone.
fn read_each<T: FromTree>(
    alloc: Global,
    reader: &mut Reader<'_>,
    depth: usize,
) -> Result<Option<List<T>>, ReadError>
    ensures ok { IfOk result (λ list. parse_map (each T.form) (items_taken depth reader.old) ≡ Some (list, reader.new)) }
    ensures within { OnOk result (length reader.new ≤ length reader.old) }
    ensures not_json { result ≡ Err ReadError.NotJson → items_taken depth reader.old ≡ None }
{
    let mut list = Vec::new(alloc);
    'items: while !reader.take_end_array() {
        let Some(item) = read_item(alloc, reader, depth)? else {
            drop(read_items(alloc, reader, depth)?);
            return Ok(None);
        };
        list.push(item)?;
    }
    Ok(Some(List::new(list)))
}

// What the next value of the reader says. `None` where it hasn't the form.
fn read_item<T: FromTree>(
    alloc: Global,
    reader: &mut Reader<'_>,
    depth: usize,
) -> Result<Option<T>, ReadError>
    ensures ok { IfOk result (λ said. parse_map T.form (value_taken depth reader.old) ≡ Some (said, reader.new)) }
    ensures shorter { OnOk result (length reader.new < length reader.old) }
    ensures not_json { result ≡ Err ReadError.NotJson → value_taken depth reader.old ≡ None }
{
    let tree = read_value(alloc, reader, depth)?;
    Ok(said(alloc, &tree)?)
}

// What `tree` says. `None` where it hasn't the form.
fn said<T: FromTree>(alloc: Global, tree: &Value) -> Result<Option<T>, ReadError>
    ensures ok { IfOk result (λ said. said ≡ T.form (view tree.now)) }
    ensures err { ¬ (result ≡ Err ReadError.NotJson) }
{
    match T::from_tree(alloc, tree) {
        Ok(said) => Ok(Some(said)),
        Err(ScriptError::NotScript) => Ok(None),
        Err(ScriptError::Memory) => Err(ReadError::Memory),
    }
}
