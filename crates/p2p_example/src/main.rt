//! The libraries at work, a page for each: a mailbox, a quota, a frame, a directory, and a muxed channel.
//!
//! What it prints is compared with the crate's `stdout`. Each line there was worked out by hand from the rule that stands beside its call
//! here, and not taken from a run.
#![tactic(auto)]

mod directory;
mod frame;
mod mailbox;
mod muxed;
mod quota;

use anyhow::Result;

/// One second, in nanoseconds: the unit of all moments and periods.
const SECOND: u64 = 1_000_000_000;

fn main(rt: HostRuntime) -> Result<()> {
    // What takes memory is handed the allocator, and answers an error where there is none: hence each `?`.
    let alloc = rt.alloc();
    mailbox::show(&rt, alloc)?;
    quota::show(&rt)?;
    frame::show(&rt, alloc)?;
    directory::show(&rt, alloc)?;
    muxed::show(&rt, alloc)
}
