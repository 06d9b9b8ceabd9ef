//! `RegisterError`, why a channel wasn't registered.
ghost use Rattle.std.specs.Prelude.{◌≡◌};
ghost use Rattle.p2p_flow_senders.specs.declared.register_error.RegisterError.TheVariants as register_error;

use p2p_flow::Channel;
use std::alloc::AllocError;
use thiserror::Error;

/// Why a channel wasn't registered. Nothing has changed then.
///
/// The first two stand for panics of commonware-p2p's `Channels`.
#[derive(Clone, Copy, PartialEq, Eq, Debug, Error)]
pub enum RegisterError {
    /// The channel is registered already.
    #[error("duplicate channel: {0}")]
    DuplicateChannel(Channel),
    /// The places of its mailbox, or of all mailboxes together, pass `usize`.
    #[error("capacity overflow: {bound} * {burst}")]
    CapacityOverflow {
        /// The most peers.
        bound: usize,
        /// The burst of each peer.
        burst: u32,
    },
    /// There was no memory.
    #[error("out of memory")]
    Memory,
}

impl From<AllocError> for RegisterError {
    ghost from_gives = { λ _ error. error ≡ register_error.Memory };

    fn from(_: AllocError) -> RegisterError {
        RegisterError::Memory
    }
}
