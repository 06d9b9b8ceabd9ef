//! The gate of the program.
use p2p_threads::Gate;

/// A gate that does nothing.
pub struct NoGate;

impl Gate for NoGate {
    fn pass(&self, _sender: u32, _call: u32) {}

    fn answered(&self, _sender: u32, _call: u32) {}
}
