//! `Number`, a value with a codec.
use bytes::Bytes;
use p2p_mux::codec::Codec;
use p2p_wire::CodecError;
use std::alloc::{AllocError, Global};

/// A number of four bytes.
#[derive(Clone, Copy, PartialEq, Eq, Debug)]
pub struct Number(pub u32);

impl Codec for Number {
    ghost use Rattle.std.specs.Int.{w32, to_be_bytes};
    ghost use Rattle.p2p_flow_tests.specs.Numbers.{number_of, never_memory as number_never_memory};

    type Cfg = ();

    ghost encoding = { λ n. to_be_bytes w32 n.0 };

    ghost decoding = { λ _ bytes. number_of bytes };

    fn encode(&self, alloc: Global) -> Result<Bytes, AllocError> {
        Bytes::copy_from_slice(alloc, &self.0.to_be_bytes())
    }

    fn decode(alloc: Global, bytes: Bytes, cfg: &()) -> Result<Number, CodecError> {
        let _ = alloc;
        let _ = cfg;
        if bytes.len() < 4 {
            return Err(CodecError::EndOfBuffer);
        }
        if bytes.len() > 4 {
            return Err(CodecError::ExtraData(bytes.len() - 4));
        }
        let mut number = [0u8; 4];
        number.copy_from_slice(bytes.as_slice());
        Ok(Number(u32::from_be_bytes(number)))
    }

    ghost never_memory = { λ _ bytes. number_never_memory bytes };
}
