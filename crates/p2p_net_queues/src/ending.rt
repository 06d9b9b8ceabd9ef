//! The ends of the copies of a send, and of items.
ghost use Rattle.std.specs.Prelude.{◌≡◌, ◌++◌, IfOk, OnOk};
ghost use Rattle.p2p_log_rules.specs.Effect.{copies_end};
ghost use Rattle.p2p_net_queues.specs.Rows.{item_ends};

use crate::Deque;
use p2p_base::{Key, List};
use p2p_log::{End, Outcome};
use p2p_log_rules::Row;
use std::alloc::{AllocError, Global};

/// Each copy of a send to these keys ends so.
pub fn end_copies(
    alloc: Global,
    send: u64,
    to: &[Key],
    outcome: Outcome,
) -> Result<List<End>, AllocError>
    ensures { IfOk result (λ ends. ends ≡ copies_end send 0 to.now outcome) }
{
    let mut ends = List::empty(alloc);
    for place in 0..to.len() {
        ends.push(End::Copy(send, place as u64, outcome))?;
    }
    Ok(ends)
}

/// The items of these names end, in order.
pub fn end_items(row: &mut Row, names: Deque<(u64, u64)>) -> Result<(), AllocError>
    ensures { OnOk result (row.new ≡ record row.old { ends = row.old.ends ++ item_ends names }) }
{
    for name in names.into_inner() {
        row.ends.push(End::Item(name.0, name.1))?;
    }
    Ok(())
}
