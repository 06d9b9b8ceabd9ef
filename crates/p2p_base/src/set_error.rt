//! Why keys make no set and pairs no map.
ghost use Rattle.std.specs.Prelude.{◌≡◌};
ghost use Rattle.p2p_base.specs.declared.set_error.SetError.TheVariants as set_error;

use std::alloc::AllocError;
use thiserror::Error;

/// Why keys make no `Set` and pairs no `Map`. They are dropped.
#[derive(Clone, Copy, PartialEq, Eq, Debug, Error)]
pub enum SetError {
    /// A key repeats.
    #[error("duplicate key")]
    Duplicate,
    /// There was no memory.
    #[error("out of memory")]
    Memory,
}

impl From<AllocError> for SetError {
    ghost from_gives = { λ _ error. error ≡ set_error.Memory };

    fn from(_: AllocError) -> SetError {
        SetError::Memory
    }
}
