//! A script, read of its text.
ghost use Rattle.std.specs.Prelude.{◌≡◌, ◌-◌, ◌<◌, false, length, Some, None, Err, IfOk, OnOk, option_map};
ghost use Rattle.json.specs.Json.{parse_map};
ghost use Rattle.serde_json.specs.Data.{Data, Members, no_members, object};
ghost use Rattle.serde_json.specs.Read.{read};
ghost use Rattle.p2p_sim_script.specs.ConfigForm.{config_of};
ghost use Rattle.p2p_sim_script.specs.Form.{event_of, script_of};
ghost use Rattle.p2p_sim_script.specs.Said.{Says, said_more, script_said};
ghost use Rattle.p2p_sim_script.specs.Taken.{value_taken, members_taken};
ghost use Rattle.p2p_sim_script.specs.Tree.{list_of};

use crate::each::read_list;
use crate::error::{ReadError, ScriptError};
use crate::reading::{read_from, read_value};
use crate::script::read_tree;
use json::{Reader, Scratch, Token};
use p2p_base::List;
use p2p_log::{Config, Event};
use std::alloc::Global;

// How deep arrays and objects may nest, as in serde_json.
const DEPTH: usize = 127;

// What an object's members say so far. `None` stands for a list that isn't there, and for one without the form.
#[derive(Drop)]
struct Found {
    configs: Option<List<Config>>,
    script: Option<List<Event>>,
    // Whether no member had another name.
    only: bool,
}

/// The configurations and the events that `text` says. `None` where it is JSON that hasn't the form of a script.
///
/// Each event is made while the text is read: no tree of the whole text is built. Takes time in proportion to the length of the
/// text.
pub fn read_script_text(
    alloc: Global,
    text: &str,
) -> Result<Option<(List<Config>, List<Event>)>, ReadError>
    ensures ok { IfOk result (λ script. option_map script_of (read text.now) ≡ Some script) }
    ensures not_json { result ≡ Err ReadError.NotJson → read text.now ≡ None }
{
    let mut scratch = Scratch::new(alloc);
    read_whole(alloc, text, &mut scratch)
}

fn read_whole(
    alloc: Global,
    text: &str,
    scratch: &mut Scratch,
) -> Result<Option<(List<Config>, List<Event>)>, ReadError>
    ensures ok { IfOk result (λ script. option_map script_of (read text.now) ≡ Some script) }
    ensures not_json { result ≡ Err ReadError.NotJson → read text.now ≡ None }
{
    let mut reader = Reader::new(text, scratch)?;
    let script = read_outer(alloc, &mut reader)?;
    if reader.next().is_some() {
        return Err(ReadError::NotJson);
    }
    Ok(script)
}

// What the next value of the reader says as a script.
fn read_outer(
    alloc: Global,
    reader: &mut Reader<'_>,
) -> Result<Option<(List<Config>, List<Event>)>, ReadError>
    ensures ok { IfOk result (λ script. parse_map script_of (value_taken DEPTH reader.old) ≡ Some (script, reader.new)) }
    ensures not_json { result ≡ Err ReadError.NotJson → value_taken DEPTH reader.old ≡ None }
{
    let token = reader.next().ok_or(ReadError::NotJson)?;
    match token {
        Token::BeginObject => Ok(script(read_found(alloc, reader)?)),
        _ => {
            let tree = read_from(alloc, token, reader, DEPTH)?;
            match read_tree(alloc, &tree) {
                Ok(script) => Ok(Some(script)),
                Err(ScriptError::NotScript) => Ok(None),
                Err(ScriptError::Memory) => Err(ReadError::Memory),
            }
        }
    }
}

// The script that an object's members say.
fn script(found: Found) -> Option<(List<Config>, List<Event>)>
    ensures { result ≡ script_said found }
{
    if !found.only {
        return None;
    }
    let configs = found.configs?;
    let script = found.script?;
    Some((configs, script))
}

// What an object's members say, and the brace that closes it. Of members of one name the last counts.
fn read_found(alloc: Global, reader: &mut Reader<'_>) -> Result<Found, ReadError>
    ensures ok { IfOk result (λ found. (members : Members)
        × (members_taken (DEPTH - 1) no_members reader.old ≡ Some (members, reader.new)) × Says found members) }
    ensures not_json { result ≡ Err ReadError.NotJson → members_taken (DEPTH - 1) no_members reader.old ≡ None }
{
    let mut found = Found {
        configs: None,
        script: None,
        only: true,
    };
    'members: while let Some(name) = reader.next_key()? {
        read_member(alloc, reader, name, &mut found)?;
    }
    Ok(found)
}

// Reads the value of one member.
fn read_member(
    alloc: Global,
    reader: &mut Reader<'_>,
    name: &str,
    found: &mut Found,
) -> Result<(), ReadError>
    ensures ok { OnOk result ((tree : Data) × (value_taken (DEPTH - 1) reader.old ≡ Some (tree, reader.new))
        × (found.new ≡ said_more found.old name.now tree)) }
    ensures shorter { OnOk result (length reader.new < length reader.old) }
    ensures not_json { result ≡ Err ReadError.NotJson → value_taken (DEPTH - 1) reader.old ≡ None }
{
    if name == "configs" {
        return Ok(read_configs(alloc, reader, found)?);
    }
    if name == "script" {
        return Ok(read_events(alloc, reader, found)?);
    }
    Ok(read_other(alloc, reader, found)?)
}

fn read_configs(alloc: Global, reader: &mut Reader<'_>, found: &mut Found) -> Result<(), ReadError>
    ensures ok { OnOk result ((tree : Data) × (value_taken (DEPTH - 1) reader.old ≡ Some (tree, reader.new))
        × (found.new ≡ record found.old { configs = list_of config_of tree })) }
    ensures shorter { OnOk result (length reader.new < length reader.old) }
    ensures not_json { result ≡ Err ReadError.NotJson → value_taken (DEPTH - 1) reader.old ≡ None }
{
    let list = read_list(alloc, reader, DEPTH - 1)?;
    found.configs = list;
    Ok(())
}

fn read_events(alloc: Global, reader: &mut Reader<'_>, found: &mut Found) -> Result<(), ReadError>
    ensures ok { OnOk result ((tree : Data) × (value_taken (DEPTH - 1) reader.old ≡ Some (tree, reader.new))
        × (found.new ≡ record found.old { script = list_of event_of tree })) }
    ensures shorter { OnOk result (length reader.new < length reader.old) }
    ensures not_json { result ≡ Err ReadError.NotJson → value_taken (DEPTH - 1) reader.old ≡ None }
{
    let list = read_list(alloc, reader, DEPTH - 1)?;
    found.script = list;
    Ok(())
}

fn read_other(alloc: Global, reader: &mut Reader<'_>, found: &mut Found) -> Result<(), ReadError>
    ensures ok { OnOk result ((tree : Data) × (value_taken (DEPTH - 1) reader.old ≡ Some (tree, reader.new))
        × (found.new ≡ record found.old { only = false })) }
    ensures shorter { OnOk result (length reader.new < length reader.old) }
    ensures not_json { result ≡ Err ReadError.NotJson → value_taken (DEPTH - 1) reader.old ≡ None }
{
    let tree = read_value(alloc, reader, DEPTH - 1)?;
    found.only = false;
    drop(tree);
    Ok(())
}
