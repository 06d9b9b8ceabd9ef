//! `Stepped`, what a step of a background receiver answers.
use p2p_base::Feedback;
use p2p_wire::CodecError;

/// What a step of a background receiver took, and what became of it.
#[derive(Clone, Copy, PartialEq, Eq, Debug)]
pub enum Stepped<P> {
    /// No message waits at the receiver.
    Idle,
    /// A message was taken, decoded, and put last in the queue.
    Forwarded {
        /// Its sender.
        peer: P,
    },
    /// A message was taken, decoded, and dropped, since the queue is full.
    Dropped {
        /// Its sender.
        peer: P,
    },
    /// A message was taken whose bytes are no value, and it was asked that its sender be blocked.
    Blocked {
        /// Its sender.
        peer: P,
        /// Why they are none.
        error: CodecError,
        /// What the blocker told.
        told: Feedback,
    },
    /// The receiver had ended, in this call or before. No more will be forwarded.
    Ended,
}
