//! The gate of the tests.
use p2p_threads::Gate;
use std::sync::atomic::{AtomicU64, Ordering};
use std::thread::yield_now;

// How often a sender looks for the other one.
const TURNS: u32 = 2_000_000;

/// Holds a sender until two have come, or for so many turns.
#[derive(Drop)]
pub struct Meeting {
    came: AtomicU64,
    met: AtomicU64,
    told: AtomicU64,
}

impl Meeting {
    pub fn new() -> Meeting {
        Meeting {
            came: AtomicU64::new(0),
            met: AtomicU64::new(0),
            told: AtomicU64::new(0),
        }
    }

    /// How many came, how many of them saw that two had come, and how many were answered.
    pub fn counts(&self) -> (u64, u64, u64) {
        (
            self.came.load(Ordering::SeqCst),
            self.met.load(Ordering::SeqCst),
            self.told.load(Ordering::SeqCst),
        )
    }
}

impl Gate for Meeting {
    fn pass(&self, _sender: u32, _call: u32) {
        self.came.fetch_add(1, Ordering::SeqCst);
        for _ in 0..TURNS {
            if self.came.load(Ordering::SeqCst) >= 2 {
                self.met.fetch_add(1, Ordering::SeqCst);
                return;
            }
            yield_now();
        }
    }

    fn answered(&self, _sender: u32, _call: u32) {
        self.told.fetch_add(1, Ordering::SeqCst);
    }
}
