//! Rows, before they move anything.
ghost use Rattle.std.specs.Prelude.{◌≡◌, IfOk};
ghost use Rattle.p2p_log_rules.specs.Effect.{only as only_reply};
ghost use Rattle.p2p_log_rules.specs.Rows.{taken_row};

use p2p_base::List;
use p2p_log::Reply;
use p2p_log_rules::Row;
use std::alloc::{AllocError, Global};

/// A row that moves nothing yet.
pub fn only(alloc: Global, reply: Reply) -> Row
    ensures { result ≡ only_reply reply }
{
    Row {
        reply,
        takes: List::empty(alloc),
        puts: List::empty(alloc),
        ends: List::empty(alloc),
    }
}

/// A row that takes the item of this name, and moves nothing else yet.
pub fn taking(alloc: Global, name: (u64, u64)) -> Result<Row, AllocError>
    ensures { IfOk result (λ r. r ≡ taken_row name) }
{
    let mut row = only(alloc, Reply::Ok);
    row.takes.push(name)?;
    Ok(row)
}
