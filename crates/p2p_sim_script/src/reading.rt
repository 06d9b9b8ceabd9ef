//! A JSON value, read at the front of what a reader has left.
ghost use Rattle.std.specs.Prelude.{◌≡◌, ◌<◌, ◌≤◌, ◌∷◌, length, Some, None, Err, IfOk, OnOk};
ghost use Rattle.json.specs.Reads.{token_of};
ghost use Rattle.serde_json.specs.Data.{no_members};
ghost use Rattle.p2p_sim_script.specs.View.{view, items_view, members_view};
ghost use Rattle.p2p_sim_script.specs.Taken.{value_taken, items_taken, members_taken};

use crate::error::ReadError;
use crate::number::read_number;
use crate::value::Value;
use json::{Reader, Token};
use std::alloc::Global;

/// The next value of the reader, as serde_json reads it. Arrays and objects may nest `depth` deep.
#[cycle(read)]
pub(crate) fn read_value<'a>(
    alloc: Global,
    reader: &mut Reader<'a>,
    depth: usize,
) -> Result<Value<'a>, ReadError>
    ensures ok { IfOk result (λ v. value_taken depth reader.old ≡ Some (view v, reader.new)) }
    ensures shorter { OnOk result (length reader.new < length reader.old) }
    ensures not_json { result ≡ Err ReadError.NotJson → value_taken depth reader.old ≡ None }
{
    let token = reader.next().ok_or(ReadError::NotJson)?;
    read_from(alloc, token, reader, depth)
}

/// The value whose first token is `token`, and whose others are next.
#[cycle(read)]
pub(crate) fn read_from<'a>(
    alloc: Global,
    token: Token<'a>,
    reader: &mut Reader<'a>,
    depth: usize,
) -> Result<Value<'a>, ReadError>
    ensures ok { IfOk result (λ v. value_taken depth (token_of token.entry ∷ reader.old) ≡ Some (view v, reader.new)) }
    ensures within { OnOk result (length reader.new ≤ length reader.old) }
    ensures not_json { result ≡ Err ReadError.NotJson → value_taken depth (token_of token.entry ∷ reader.old) ≡ None }
{
    match token {
        Token::String(text) => Ok(Value::String(text)),
        Token::Number(text) => match read_number(text) {
            Some(number) => Ok(Value::Number(number)),
            None => Err(ReadError::NotJson),
        },
        Token::Bool(flag) => Ok(Value::Bool(flag)),
        Token::Null => Ok(Value::Null),
        Token::EndObject | Token::EndArray | Token::Key(_) | Token::Bad => Err(ReadError::NotJson),
        Token::BeginArray => {
            if depth == 0 {
                return Err(ReadError::NotJson);
            }
            Ok(Value::Array(read_items(alloc, reader, depth - 1)?))
        }
        Token::BeginObject => {
            if depth == 0 {
                return Err(ReadError::NotJson);
            }
            Ok(Value::Object(read_members(alloc, reader, depth - 1)?))
        }
    }
}

/// The items that an array has left, and the bracket that closes it.
#[cycle(read)]
pub(crate) fn read_items<'a>(
    alloc: Global,
    reader: &mut Reader<'a>,
    depth: usize,
) -> Result<Vec<Value<'a>>, ReadError>
    ensures ok { IfOk result (λ v. items_taken depth reader.old ≡ Some (items_view v.items, reader.new)) }
    ensures within { OnOk result (length reader.new ≤ length reader.old) }
    ensures not_json { result ≡ Err ReadError.NotJson → items_taken depth reader.old ≡ None }
{
    let mut found = Vec::new(alloc);
    'items: while !reader.take_end_array() {
        let item = read_value(alloc, reader, depth)?;
        found.push(item)?;
    }
    Ok(found)
}

// The members that an object has left, and the brace that closes it.
#[cycle(read)]
fn read_members<'a>(
    alloc: Global,
    reader: &mut Reader<'a>,
    depth: usize,
) -> Result<Vec<(&'a str, Value<'a>)>, ReadError>
    ensures ok { IfOk result (λ m. members_taken depth no_members reader.old ≡ Some (members_view m.items, reader.new)) }
    ensures within { OnOk result (length reader.new ≤ length reader.old) }
    ensures not_json { result ≡ Err ReadError.NotJson → members_taken depth no_members reader.old ≡ None }
{
    let mut found = Vec::new(alloc);
    'members: while let Some(name) = reader.next_key()? {
        let member = read_value(alloc, reader, depth)?;
        found.push((name, member))?;
    }
    Ok(found)
}
