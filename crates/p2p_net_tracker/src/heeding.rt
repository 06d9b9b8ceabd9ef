//! Kills that come too late: those of connections that have ended.
ghost use Rattle.std.specs.Prelude.{◌≡◌, ◌++◌, IfOk};
ghost use Rattle.p2p_log_rules.specs.TrackerPuts.{kills_ended};
ghost use Rattle.p2p_net_tracker.specs.Heeding.{is_noted, heeded_by};

use p2p_base::List;
use p2p_log::{Item, Queue};
use p2p_net_queues::Table;
use std::alloc::{AllocError, Global};

/// Whether it kills a connection that has ended.
fn is_late(ended: &Table<()>, put: &(Queue, Item)) -> bool
    ensures { result ≡ kills_ended (is_noted ended.now) put.now }
{
    match (&put.0, &put.1) {
        (Queue::Control { conn, .. }, Item::Kill) => ended.has(*conn),
        _ => false,
    }
}

/// All of these but the kills of connections that have ended, in order.
pub fn heed(
    alloc: Global,
    ended: &Table<()>,
    puts: List<(Queue, Item)>,
) -> Result<List<(Queue, Item)>, AllocError>
    ensures { IfOk result (λ l. l ≡ heeded_by ended.now puts) }
{
    let mut heeded = List::empty(alloc);
    for put in puts.into_inner() {
        if !is_late(ended, &put) {
            heeded.push(put)?;
        }
    }
    Ok(heeded)
}
