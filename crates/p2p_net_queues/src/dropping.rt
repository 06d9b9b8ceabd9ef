//! The ends of items that leave their queue untaken, each with its copies.
ghost use Rattle.std.specs.Prelude.{◌≡◌, ◌++◌, ◌∷◌, [], map, OnOk};
ghost use Rattle.p2p_log.specs.Copies.{copies_of};
ghost use Rattle.p2p_log.specs.Drained.{all_end};
ghost use Rattle.p2p_net_queues.specs.Rows.{dropped, sent_dropped, named_ends, named_end, taken_dropped, all_dropped};

use crate::Deque;
use p2p_base::Key;
use p2p_log::{Cause, End, Envelope, Item, Outcome};
use p2p_log_rules::Row;
use std::alloc::AllocError;

/// The copy of this name is dropped for this cause.
///
/// `Err` only where there is no memory.
pub fn drop_copy(row: &mut Row, copy: (u64, u64), cause: Cause) -> Result<(), AllocError>
    ensures { OnOk result (row.new ≡ record row.old { ends = row.old.ends ++ dropped cause copy ∷ [] }) }
{
    row.ends
        .push(End::Copy(copy.0, copy.1, Outcome::Dropped(cause)))?;
    Ok(())
}

/// Each copy of a send to these keys is dropped for this cause, in order.
///
/// `Err` only where there is no memory. Some of them may then be missing in the row, and the node that ends them goes no further.
pub fn drop_sent(row: &mut Row, send: u64, to: &[Key], cause: Cause) -> Result<(), AllocError>
    ensures { OnOk result (row.new ≡ record row.old { ends = row.old.ends ++ sent_dropped cause send 0 to.now }) }
{
    for place in 0..to.len() {
        drop_copy(row, (send, place as u64), cause)?;
    }
    Ok(())
}

/// The copies that an item carries are dropped, in order.
fn drop_carried(row: &mut Row, item: &Item, cause: Cause) -> Result<(), AllocError>
    ensures { OnOk result (row.new ≡ record row.old { ends = row.old.ends ++ map (dropped cause) (copies_of item.now) }) }
{
    match item {
        Item::Content { send, to, .. } => drop_sent(row, *send, to.as_slice(), cause),
        Item::Frame { copy, .. } => match copy {
            Some(copy) => drop_copy(row, *copy, cause),
            None => Ok(()),
        },
        Item::Held { copy, .. } => drop_copy(row, *copy, cause),
        Item::Message { copy, .. } => drop_copy(row, *copy, cause),
        _ => Ok(()),
    }
}

/// An item of this name ends untaken, and right after it its copies, which are dropped.
fn drop_item(row: &mut Row, name: (u64, u64), item: &Item, cause: Cause) -> Result<(), AllocError>
    ensures { OnOk result (row.new ≡ record row.old { ends = row.old.ends ++ named_ends cause (name, item.now) }) }
{
    row.ends.push(End::Item(name.0, name.1))?;
    drop_carried(row, item, cause)
}

/// These items end untaken, one after another, and right after each of them its copies, which are dropped for this cause.
///
/// `Err` only where there is no memory. Some of them may then be missing in the row, and the node that took them goes no
/// further.
pub fn drop_items(row: &mut Row, items: Deque<Envelope>, cause: Cause) -> Result<(), AllocError>
    ensures { OnOk result (row.new ≡ record row.old { ends = row.old.ends ++ all_end cause items }) }
{
    for item in items.into_inner() {
        drop_item(row, (item.entry, item.place), &item.item, cause)?;
    }
    Ok(())
}

/// These items, of these names, end untaken, one after another, and right after each of them its copies, which are dropped for
/// this cause.
///
/// `Err` only where there is no memory. Some of them may then be missing in the row, and the node that took them goes no
/// further.
pub fn drop_named(
    row: &mut Row,
    items: &[((u64, u64), Item)],
    cause: Cause,
) -> Result<(), AllocError>
    ensures { OnOk result (row.new ≡ record row.old { ends = row.old.ends ++ named_end cause items.now }) }
{
    for item in items {
        drop_item(row, item.0, &item.1, cause)?;
    }
    Ok(())
}

/// An item of this name is taken, and its copies are dropped for this cause.
///
/// `Err` only where there is no memory. Some of it may then be missing in the row, and the node that took it goes no further.
pub fn take_dropped(
    row: &mut Row,
    name: (u64, u64),
    item: &Item,
    cause: Cause,
) -> Result<(), AllocError>
    ensures { OnOk result (row.new ≡ taken_dropped cause (name, item.now) row.old) }
{
    row.takes.push(name)?;
    drop_carried(row, item, cause)
}

/// These items, of these names, are taken, one after another, and the copies of each are dropped for this cause.
///
/// `Err` only where there is no memory. Some of them may then be missing in the row, and the node that took them goes no
/// further.
pub fn take_all_dropped(
    row: &mut Row,
    items: &[((u64, u64), Item)],
    cause: Cause,
) -> Result<(), AllocError>
    ensures { OnOk result (row.new ≡ all_dropped cause items.now row.old) }
{
    for item in items {
        take_dropped(row, item.0, &item.1, cause)?;
    }
    Ok(())
}
