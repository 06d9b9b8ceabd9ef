//! Payloads.
ghost use Rattle.std.specs.Prelude.{◌≡◌};
ghost use Rattle.p2p_discovery.specs.Reading.{Gives, whole as all_of, data_of, greeting_of, bit_vec_of, peers_of, payload_of};

use crate::payload::{BIT_VEC_PREFIX, GREETING_PREFIX, PEERS_PREFIX};
use crate::reading::bits::read_bit_vec;
use crate::reading::info::{read_info, read_peers};
use crate::{Payload, PayloadConfig};
use bytes::{Buf, Bytes};
use p2p_base::PublicKey;
use p2p_wire::{CodecError, DATA_PREFIX, Message, PING_PREFIX};
use std::alloc::Global;

// What was read, where it is all of the bytes.
fn whole<T: Drop>(read: T, rest: Bytes) -> Result<T, CodecError>
    ensures { result ≡ all_of (read, rest) }
{
    if !rest.is_empty() {
        return Err(CodecError::ExtraData(rest.len()));
    }
    Ok(read)
}

#[tactic(auto, unfolding(crate::specs::Reading::data_of))]
fn read_data<P: PublicKey>(bytes: Bytes, limit: usize) -> Result<Payload<P>, CodecError>
    ensures { result ≡ data_of limit bytes }
{
    match Message::decode(bytes, limit)? {
        Message::Data(data) => Ok(Payload::Data(data)),
        Message::Ping => Err(CodecError::InvalidEnum(PING_PREFIX)),
    }
}

#[tactic(auto, unfolding(crate::specs::Reading::greeting_of))]
fn read_greeting<P: PublicKey>(alloc: Global, bytes: Bytes) -> Result<Payload<P>, CodecError>
    ensures { Gives result (greeting_of P.key_of P.SIZE bytes) }
{
    let (info, rest) = read_info(alloc, bytes)?;
    let info = whole(info, rest)?;
    Ok(Payload::Greeting(info))
}

#[tactic(auto, unfolding(crate::specs::Reading::bit_vec_of))]
fn read_bits<P: PublicKey>(
    alloc: Global,
    bytes: Bytes,
    limit: u64,
) -> Result<Payload<P>, CodecError>
    ensures { Gives result (bit_vec_of limit bytes) }
{
    let (bits, rest) = read_bit_vec(alloc, bytes, limit)?;
    let bits = whole(bits, rest)?;
    Ok(Payload::BitVec(bits))
}

#[tactic(auto, unfolding(crate::specs::Reading::peers_of))]
fn read_infos<P: PublicKey>(
    alloc: Global,
    bytes: Bytes,
    limit: usize,
) -> Result<Payload<P>, CodecError>
    ensures { Gives result (peers_of P.key_of P.SIZE limit bytes) }
{
    let (infos, rest) = read_peers(alloc, bytes, limit)?;
    let infos = whole(infos, rest)?;
    Ok(Payload::Peers(infos))
}

#[tactic(auto, unfolding(crate::specs::Reading::payload_of))]
pub(crate) fn read_payload<P: PublicKey>(
    alloc: Global,
    bytes: Bytes,
    cfg: &PayloadConfig,
) -> Result<Payload<P>, CodecError>
    ensures { Gives result (payload_of P.key_of P.SIZE cfg.now bytes) }
{
    let Some(kind) = bytes.as_slice().first().copied() else {
        return Err(CodecError::EndOfBuffer);
    };
    if kind == DATA_PREFIX {
        return read_data(bytes, cfg.max_data_length);
    }
    let mut bytes = bytes;
    bytes.advance(1);
    match kind {
        GREETING_PREFIX => read_greeting(alloc, bytes),
        BIT_VEC_PREFIX => read_bits(alloc, bytes, cfg.max_bit_vec),
        PEERS_PREFIX => read_infos(alloc, bytes, cfg.max_peers),
        kind => Err(CodecError::InvalidEnum(kind)),
    }
}
