//! Why a node, or a world, does not go on.
use std::alloc::AllocError;
use thiserror::Error;

/// Why a node does not go on.
#[derive(Debug, Drop, Clone, Copy, PartialEq, Eq, Error)]
pub enum NodeError {
    /// There was no memory for this event.
    #[error("out of memory")]
    Memory,
    /// There was no memory for an earlier event.
    #[error("failed before")]
    Failed,
}

impl From<AllocError> for NodeError {
    ghost use Rattle.std.specs.Prelude.{◌≡◌};
    ghost use Rattle.p2p_net.specs.declared.error.NodeError.TheVariants as error;

    ghost from_gives = { λ _ e. e ≡ error.Memory };

    fn from(_error: AllocError) -> NodeError {
        NodeError::Memory
    }
}

/// Why a world does not go on.
#[derive(Debug, Drop, Clone, Copy, PartialEq, Eq, Error)]
pub enum RunError {
    /// The first configuration that does not fit, or has the key of an earlier one.
    #[error("configuration {0} is not valid")]
    Config(usize),
    /// The first event that may not be asked for.
    #[error("event {0} is not valid")]
    Event(usize),
    /// There was no memory.
    #[error("out of memory")]
    Memory,
}

impl From<AllocError> for RunError {
    ghost use Rattle.std.specs.Prelude.{◌≡◌};
    ghost use Rattle.p2p_net.specs.declared.error.RunError.TheVariants as error;

    ghost from_gives = { λ _ e. e ≡ error.Memory };

    fn from(_error: AllocError) -> RunError {
        RunError::Memory
    }
}
