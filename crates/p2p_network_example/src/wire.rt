//! A link in memory, between two nodes.
use anyhow::{Result, bail};
use p2p_runtime::MemoryLink;
use std::alloc::Global;

/// The two ends of a link. Each is a link by itself, whose other end is played: what was written at one end is carried to the other.
#[derive(Drop)]
pub struct Wire {
    pub near: MemoryLink,
    pub far: MemoryLink,
}

impl Wire {
    /// An open link on which nothing is under way.
    pub fn new(alloc: Global) -> Wire {
        Wire {
            near: MemoryLink::new(alloc),
            far: MemoryLink::new(alloc),
        }
    }

    /// Carries the oldest frame that was written at the near end, if there is one, to the far end.
    pub fn carry(&mut self) -> Result<()> {
        if let Some(frame) = self.near.depart() {
            if self.far.arrive(frame).is_err() {
                bail!("no memory for a frame");
            }
        }
        Ok(())
    }

    /// The node of the near end has dropped it, and that of the far end is alone.
    pub fn part(&mut self) {
        self.far.leave();
    }
}
