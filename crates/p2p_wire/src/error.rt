//! Why bytes could not be decoded.

ghost use Rattle.std.specs.Prelude.{◌≡◌};
ghost use Rattle.p2p_wire.specs.declared.error.CodecError.TheVariants.{Memory};

use std::alloc::AllocError;
use thiserror::Error;

/// Why bytes are no encoding of a value.
///
/// Ports the `codec::Error` of commonware-p2p's decoders.
#[derive(Clone, Copy, Debug, PartialEq, Eq, Error)]
pub enum CodecError {
    /// The bytes end before the value does.
    #[error("the bytes end early")]
    EndOfBuffer,
    /// This number, which says what kind of value follows, stands for none.
    #[error("{0} is no known kind")]
    InvalidEnum(u8),
    /// The length, in bytes, is above the limit.
    #[error("a length of {0} is above the limit")]
    InvalidLength(usize),
    /// A number isn't in its one spelling, or doesn't fit an integer of this many bytes.
    #[error("no varint of {0} bytes")]
    InvalidVarint(usize),
    /// This many bytes stand after the value.
    #[error("{0} bytes too many")]
    ExtraData(usize),
    /// Memory ran out. To decode a frame or a prefix takes no memory, so it never answers this.
    #[error("out of memory")]
    Memory,
}

impl From<AllocError> for CodecError {
    ghost from_gives = { λ _ e. e ≡ Memory };

    fn from(_error: AllocError) -> CodecError {
        CodecError::Memory
    }
}
