//! `TrackError`, why a peer set wasn't handed in.
ghost use Rattle.std.specs.Prelude.{◌≡◌};
ghost use Rattle.p2p_flow.specs.declared.track_error.TrackError.TheVariants as track_error;

use std::alloc::AllocError;
use thiserror::Error;

/// Why a peer set wasn't handed in. It is dropped, and nothing else has changed.
///
/// It stands for the panic of commonware-p2p's `track`.
#[derive(Clone, Copy, PartialEq, Eq, Debug, Error)]
pub enum TrackError {
    /// The set has more distinct keys, the local one counted, than are allowed.
    #[error("peer set too large: {count} > {limit}")]
    PeerSetTooLarge {
        /// How many distinct keys there are.
        count: usize,
        /// How many are allowed.
        limit: usize,
    },
    /// There was no memory.
    #[error("out of memory")]
    Memory,
}

impl From<AllocError> for TrackError {
    ghost from_gives = { λ _ error. error ≡ track_error.Memory };

    fn from(_: AllocError) -> TrackError {
        TrackError::Memory
    }
}
