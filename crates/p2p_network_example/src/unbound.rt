//! A node that starts without being bound.
use crate::node::{show_ended, start};
use anyhow::Result;
use std::alloc::Global;

/// The node of the key 1, which has ended from its start on: its messenger and its tracker's mailbox are closed, and its receivers get no
/// more. What it asked its tracker before is dropped.
pub fn show(rt: &impl Print, alloc: Global) -> Result<()> {
    println!(rt; "a node that is not bound")?;
    let mut node = start(rt, alloc, 1, false)?;
    show_ended(rt, alloc, &mut node)
}
