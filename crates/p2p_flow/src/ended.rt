//! `Ended`, why nothing more comes.
use thiserror::Error;

/// What answers has ended and nothing waits, so nothing more comes.
///
/// It stands for the end of a receiver of commonware-p2p.
#[derive(Clone, Copy, PartialEq, Eq, Debug, Error)]
#[error("stream ended")]
pub struct Ended;
