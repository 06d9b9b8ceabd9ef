//! `Error`, why a receiver gets no more.
use thiserror::Error;

/// Why a receiver gets no more.
///
/// Ports `Error` of commonware-p2p's `channels`.
#[derive(Clone, Copy, PartialEq, Eq, Debug, Error)]
pub enum Error {
    /// The node ended, and nothing waits.
    #[error("network closed")]
    NetworkClosed,
}
