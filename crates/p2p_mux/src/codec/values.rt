//! `Codec`, which writes values as bytes and reads them.
ghost use Rattle.std.specs.Prelude.{◌≡◌, ◌≢◌, List as Seq, ℕ, Result as Meaning, Err, IfOk};
ghost use Rattle.p2p_wire.specs.declared.error.CodecError.{CodecError as Fault};
ghost use Rattle.p2p_wire.specs.declared.error.CodecError.TheVariants as fault;
ghost use Rattle.p2p_mux.specs.Decoding.{IsDecoded};

use bytes::Bytes;
use p2p_wire::CodecError;
use std::alloc::{AllocError, Global};

/// A value that has bytes. Each value has one list of bytes, and bytes and a configuration have one meaning: a value,
/// or why they are no value's.
///
/// Ports `Codec` of commonware-p2p's `commonware-codec`.
pub trait Codec: Drop {
    /// What bytes are read by, as the greatest length of a list.
    type Cfg;

    // The bytes of a value.
    ghost encoding: { Self → Seq ℕ };

    // What bytes mean.
    ghost decoding: { Self.Cfg → Seq ℕ → Meaning Self Fault };

    /// The bytes of the value. `Err` only where memory runs out.
    fn encode(&self, alloc: Global) -> Result<Bytes, AllocError>
        ensures { IfOk result (λ bytes. bytes ≡ encoding self.now) };

    /// The value whose bytes these are. `Memory` where memory runs out; each other error says why they are no value's.
    fn decode(alloc: Global, bytes: Bytes, cfg: &Self::Cfg) -> Result<Self, CodecError>
        ensures { IsDecoded (decoding cfg.now bytes) result };

    // Want of memory is no meaning.
    ghost never_memory: { (cfg : Self.Cfg) (bytes : Seq ℕ) → decoding cfg bytes ≢ Err fault.Memory };
}
