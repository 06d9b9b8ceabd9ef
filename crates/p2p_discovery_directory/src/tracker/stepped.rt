//! `Stepped`, what a step of the tracker answers.
use super::Put;
use p2p_base::{List, PublicKey};

/// What a step of the tracker took, and what it puts, in order.
#[derive(Drop)]
pub enum Stepped<P: PublicKey> {
    /// No block had ended and no message waited.
    Idle,
    /// The blocks that had ended were taken away, and no message was taken.
    EndedBlocks {
        /// What is put.
        put: List<Put<P>>,
    },
    /// The oldest message was taken.
    Message {
        /// What is put.
        put: List<Put<P>>,
    },
}
