//! The names of what stands in a router's queues, beside a row in building.
ghost use Rattle.std.specs.Prelude.{◌≡◌, ℕ, ◌++◌, ◌∷◌, [], drop, slice_get, OnOk, IfOk, if◌then◌else◌};
ghost use Rattle.p2p_log.specs.QueueCode.{same_queue};
ghost use Rattle.p2p_net_queues.specs.Board.{held};
ghost use Rattle.p2p_net_router.specs.Names.{tag_of, takes_of};
ghost use Rattle.p2p_net_router.specs.Building.{NamesBuild};

use crate::Name;
use p2p_log::{Item, Queue};
use p2p_log_rules::Row;
use p2p_net_queues::{Board, Turn};
use std::alloc::AllocError;

/// The copy of a frame, and the send of content.
fn tag(item: &Item) -> Option<(u64, u64)>
    ensures { result ≡ tag_of item.now }
{
    match item {
        Item::Content { send, .. } => Some((*send, 0)),
        Item::Frame { copy, .. } => *copy,
        _ => None,
    }
}

/// The row puts an item last in a queue, and the queue has its name.
pub fn note(
    turn: Turn,
    names: &mut Board<Name>,
    row: &mut Row,
    queue: Queue,
    item: Item,
) -> Result<(), AllocError>
    ensures row { OnOk result (row.new ≡ record row.old { puts = row.old.puts ++ (queue, item) ∷ [] }) }
    ensures names { OnOk result ((n : _) (items : _) → NamesBuild n names.old items turn.entry row.old → NamesBuild n names.new items turn.entry row.new) }
{
    let place = row.puts.len() as u64;
    let tag = tag(&item);
    row.puts.push((queue, item))?;
    let name = Name {
        entry: turn.entry,
        place,
        tag,
    };
    names.push(turn.alloc, queue, name)?;
    Ok(())
}

/// The row takes the oldest item of a queue, whose name goes.
pub fn take(
    names: &mut Board<Name>,
    row: &mut Row,
    queue: Queue,
) -> Result<Option<Name>, AllocError>
    ensures first { IfOk result (λ name. name ≡ slice_get (held names.old queue) 0) }
    ensures row { IfOk result (λ name. row.new ≡ record row.old { takes = row.old.takes ++ takes_of name }) }
    ensures names { OnOk result ((q : _) → held names.new q ≡ (if same_queue queue q then drop 1 (held names.old q) else held names.old q)) }
{
    match names.pop(queue) {
        None => Ok(None),
        Some(name) => {
            row.takes.push((name.entry, name.place))?;
            Ok(Some(name))
        }
    }
}
