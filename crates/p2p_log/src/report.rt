//! The whole log, and what became of each copy.
ghost use Rattle.std.specs.Prelude.{◌≡◌, IfOk};

use crate::end::Cause;
use crate::entry::Entry;
use crate::queue::Queue;
use p2p_base::List;
use std::alloc::{AllocError, Global};

/// The log of a network: one entry for each event, in order.
#[derive(PartialEq, Eq, Debug)]
pub struct Report {
    pub log: List<Entry>,
}

impl Drop for Report {
    fn drop(self) {
        let Report { log: _log } = self;
    }
}

impl Report {
    /// An equal log. `Err` only where memory runs out.
    pub fn try_clone(&self, alloc: Global) -> Result<Report, AllocError>
        ensures { IfOk result (λ r. r ≡ self.now) }
    {
        Ok(Report {
            log: List::new(clone_entries(alloc, self.log.as_slice())?),
        })
    }
}

/// Equal entries.
fn clone_entries(alloc: Global, entries: &[Entry]) -> Result<Vec<Entry>, AllocError>
    ensures { IfOk result (λ e. e.items ≡ entries.now) }
{
    let mut copies = Vec::with_capacity(alloc, entries.len())?;
    for entry in entries {
        let copy = entry.try_clone(alloc)?;
        copies.push(copy)?;
    }
    Ok(copies)
}

/// Where a copy is, or what became of it at which entry.
#[derive(Clone, Copy, Debug, PartialEq, Eq)]
pub enum Fate {
    /// It stands in this queue.
    Waiting(Queue),
    /// It was read from this queue at this entry.
    Delivered(Queue, u64),
    /// It was dropped for this cause at this entry.
    Dropped(Cause, u64),
}
