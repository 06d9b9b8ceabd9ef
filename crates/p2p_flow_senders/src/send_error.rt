//! `SendError`, why a message wasn't sent.
ghost use Rattle.std.specs.Prelude.{◌≡◌};
ghost use Rattle.p2p_flow_senders.specs.declared.send_error.SendError.TheVariants as send_error;

use std::alloc::AllocError;
use thiserror::Error;

/// Why a message wasn't sent. Nothing is handed to the router then; cells that a check took stay taken.
///
/// The first two stand for panics of commonware-p2p.
#[derive(Clone, Copy, PartialEq, Eq, Debug, Error)]
pub enum SendError {
    /// The check passed, and the message is longer than is allowed.
    #[error("message too large: {size} > {limit}")]
    MessageTooLarge {
        /// How many bytes the message has, with its prefix.
        size: usize,
        /// How many are allowed.
        limit: u32,
    },
    /// The checked value has no subchannel.
    #[error("no subchannel")]
    NoSubchannel,
    /// There was no memory.
    #[error("out of memory")]
    Memory,
}

impl From<AllocError> for SendError {
    ghost from_gives = { λ _ error. error ≡ send_error.Memory };

    fn from(_: AllocError) -> SendError {
        SendError::Memory
    }
}
