//! Why what a peer tells of others is not believed.
ghost use Rattle.std.specs.Prelude.{◌≡◌};
ghost use Rattle.p2p_discovery.specs.declared.types.error.Error.TheVariants.{Memory};

use std::alloc::AllocError;

/// Why what a peer tells of others is not believed.
///
/// Ports the `types::Error` of commonware-p2p's discovery.
#[derive(Clone, Copy, Debug, PartialEq, Eq, thiserror::Error)]
pub enum Error {
    /// There are this many infos, more than are told of at once.
    #[error("{0} peers are too many")]
    TooManyPeers(usize),
    /// An info is of the own peer.
    #[error("told of the own peer")]
    ReceivedSelf,
    /// An info is of a moment too far ahead.
    #[error("too far ahead")]
    SynchronyBound,
    /// An info isn't signed by its peer.
    #[error("invalid signature")]
    InvalidSignature,
    /// Memory ran out.
    #[error("out of memory")]
    Memory,
}

impl From<AllocError> for Error {
    ghost from_gives = { λ _ e. e ≡ Memory };

    fn from(_error: AllocError) -> Error {
        Error::Memory
    }
}
