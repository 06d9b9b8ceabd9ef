//! `Error`, why a subchannel isn't registered, or gives no more.
ghost use Rattle.std.specs.Prelude.{◌≡◌};
ghost use Rattle.p2p_mux.specs.declared.error.Error.TheVariants as error;

use p2p_flow::Channel;
use std::alloc::AllocError;
use thiserror::Error;

/// Why a subchannel isn't registered, or a receiver gives no more.
///
/// Ports `Error` of commonware-p2p's `mux`.
#[derive(Clone, Copy, PartialEq, Eq, Debug, Error)]
pub enum Error {
    /// A route of this subchannel stood when the muxer took the request.
    #[error("subchannel already registered: {0}")]
    AlreadyRegistered(Channel),
    /// The muxer has ended: before a registration was asked for, before the muxer took the request, or, of the backup's
    /// receiver, with nothing left in its queue.
    #[error("muxer is closed")]
    Closed,
    /// The route of the subchannel is gone, and nothing is left in its queue.
    #[error("recv failed")]
    RecvFailed,
    /// There was no memory.
    #[error("out of memory")]
    Memory,
}

impl From<AllocError> for Error {
    ghost from_gives = { λ _ e. e ≡ error.Memory };

    fn from(_: AllocError) -> Error {
        Error::Memory
    }
}
