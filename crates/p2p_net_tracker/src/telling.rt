//! What newer items overwrite, and what is put for those who asked.
ghost use Rattle.std.specs.Prelude.{◌≡◌, [], ◌∷◌, ◌++◌, length, flat_map, filter, drop, count_by, slice_get, IfOk, OnOk, if◌then◌else◌};
ghost use Rattle.p2p_log.specs.declared.queue.Queue.{Queue as Name};
ghost use Rattle.p2p_log.specs.QueueCode.{same_queue};
ghost use Rattle.p2p_log.specs.Lines.{placed, stands_in};
ghost use Rattle.p2p_log_rules.specs.TrackerRows.{ring_of, rings_of};
ghost use Rattle.p2p_net_queues.specs.Board.{held};
ghost use Rattle.p2p_log_rules.specs.Rows.{overwritten};
ghost use Rattle.p2p_net_tracker.specs.Heeding.{heeded_by};
ghost use Rattle.p2p_net_tracker.specs.Naming.{named_puts};
ghost use Rattle.p2p_net_tracker.specs.Telling.{is_ring, lost, name_first, told_in, told_to};

use crate::heeding::heed;
use crate::naming::{Tickets, name_all};
use p2p_base::{Key, List};
use p2p_log::{End, Envelope, Item, Queue};
use p2p_log_rules::Row;
use p2p_net_queues::{Board, Table, Turn};
use p2p_tracker::Put;
use std::alloc::AllocError;

/// Whether a queue holds one item, which the next one overwrites.
fn is_ring(queue: &Queue) -> bool
    ensures { result ≡ is_ring queue.now }
{
    match queue {
        Queue::Addresses(_) => true,
        Queue::Blocked { .. } => true,
        _ => false,
    }
}

/// Puts what the tracker put where those who asked find it, but for the kills of connections that have ended, and ends what it
/// overwrites.
pub fn tell(
    turn: Turn,
    tickets: &Tickets,
    ended: &Table<()>,
    told: &mut Board<Envelope>,
    row: &mut Row,
    put: List<Put<Key>>,
) -> Result<(), AllocError>
    ensures row { OnOk result (row.new ≡ told_in (held told.old) (heeded_by ended.now (named_puts turn.node tickets.now put)) row.old) }
    ensures told { OnOk result ((q : Name) → held told.new q
        ≡ told_to (held told.old) (heeded_by ended.now (named_puts turn.node tickets.now put)) turn.entry (length row.old.puts) q) }
{
    let named = name_all(turn.alloc, turn.node, tickets, put)?;
    let puts = heed(turn.alloc, ended, named)?;
    overwrite(told, row, puts.as_slice())?;
    put_all(turn, told, row, puts)?;
    Ok(())
}

/// The name of the oldest item of a queue, which is taken.
pub fn pop_name(told: &mut Board<Envelope>, queue: Queue) -> Option<(u64, u64)>
    ensures name { result ≡ name_first (slice_get (held told.old queue) 0) }
    ensures told { (q : Name) → held told.new q ≡ (if same_queue queue q then drop 1 (held told.old q) else held told.old q) }
{
    match told.pop(queue) {
        Some(oldest) => Some((oldest.entry, oldest.place)),
        None => None,
    }
}

/// Ends the oldest item of a queue.
fn end_oldest(told: &mut Board<Envelope>, row: &mut Row, queue: Queue) -> Result<(), AllocError>
    ensures row { OnOk result (row.new ≡ record row.old { ends = row.old.ends ++ overwritten (held told.old queue) }) }
    ensures told { OnOk result ((q : Name) → held told.new q ≡ (if same_queue queue q then drop 1 (held told.old q) else held told.old q)) }
{
    if let Some((entry, place)) = pop_name(told, queue) {
        row.ends.push(End::Item(entry, place))?;
    }
    Ok(())
}

/// Ends what stands in a queue, where it is a ring.
fn overwrite_one(told: &mut Board<Envelope>, row: &mut Row, queue: &Queue) -> Result<(), AllocError>
    ensures row { OnOk result (row.new ≡ record row.old { ends = row.old.ends ++ flat_map (λ p. overwritten (held told.old p)) (ring_of queue.now) }) }
    ensures told { OnOk result ((q : Name) → held told.new q ≡ drop (count_by (λ p. same_queue p q) (ring_of queue.now)) (held told.old q)) }
{
    if is_ring(queue) {
        end_oldest(told, row, *queue)?;
    }
    Ok(())
}

/// Ends what stands in the rings into which these items go, one after another.
fn overwrite(
    told: &mut Board<Envelope>,
    row: &mut Row,
    puts: &[(Queue, Item)],
) -> Result<(), AllocError>
    ensures row { OnOk result (row.new ≡ record row.old { ends = row.old.ends ++ lost (held told.old) [] (rings_of puts.now) }) }
    ensures told { OnOk result ((q : Name) → held told.new q ≡ drop (count_by (λ p. same_queue p q) (rings_of puts.now)) (held told.old q)) }
{
    for put in puts {
        overwrite_one(told, row, &put.0)?;
    }
    Ok(())
}

/// Puts these items in their queues, in order, and in the row, whose places name them.
fn put_all(
    turn: Turn,
    told: &mut Board<Envelope>,
    row: &mut Row,
    puts: List<(Queue, Item)>,
) -> Result<(), AllocError>
    ensures row { OnOk result (row.new ≡ record row.old { puts = row.old.puts ++ puts }) }
    ensures told { OnOk result ((q : Name) → held told.new q ≡ held told.old q ++ filter (stands_in q) (placed turn.entry (length row.old.puts) puts)) }
{
    for put in puts.into_inner() {
        put_one(turn, told, row, put)?;
    }
    Ok(())
}

/// Puts an item in its queue, and in the row, whose place names it.
fn put_one(
    turn: Turn,
    told: &mut Board<Envelope>,
    row: &mut Row,
    put: (Queue, Item),
) -> Result<(), AllocError>
    ensures row { OnOk result (row.new ≡ record row.old { puts = row.old.puts ++ put ∷ [] }) }
    ensures told { OnOk result ((q : Name) → held told.new q ≡ held told.old q ++ filter (stands_in q) (placed turn.entry (length row.old.puts) (put ∷ []))) }
{
    let (queue, item) = put;
    let kept = Envelope {
        entry: turn.entry,
        place: row.puts.len() as u64,
        queue,
        item: item.try_clone(turn.alloc)?,
    };
    told.push(turn.alloc, queue, kept)?;
    row.puts.push((queue, item))?;
    Ok(())
}
