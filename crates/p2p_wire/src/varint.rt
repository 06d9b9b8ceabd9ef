//! Numbers of seven bits a byte, least first; the top bit of a byte says that another follows.

ghost use Rattle.std.specs.Prelude.{◌≡◌, ◌*◌, ◌^◌, ◌<◌, ◌≤◌, ◌++◌, [], ◌∷◌, IfOk, MatchResult, OnOk};
ghost use Rattle.p2p_wire.specs.Varint.{spelling, varint_at, u64_at, u32_at, Took, Reads};

use crate::error::CodecError;
use bytes::{Buf, Bytes};
use std::alloc::AllocError;

/// Takes the next byte.
pub(crate) fn take_u8(bytes: &mut Bytes) -> Result<u8, CodecError>
    ensures { MatchResult result (λ byte. (bytes.old ≡ byte ∷ bytes.new) × (byte < 256)) (λ e. (bytes.old ≡ []) × (e ≡ CodecError.EndOfBuffer)) }
{
    if bytes.is_empty() {
        return Err(CodecError::EndOfBuffer);
    }
    Ok(bytes.get_u8())
}

/// Takes a number that at most `places` bytes and then a byte below `last` spell.
fn take(bytes: &mut Bytes, width: usize, last: u8, places: u32) -> Result<u64, CodecError>
    requires some { 1 < last }
    requires digit { last ≤ 128 }
    requires range { last * 128 ^ places ≤ 2 ^ 64 }
    ensures exact { Took result bytes.new (varint_at width last places bytes.old) }
    ensures reads { Reads width (last * 128 ^ places) bytes.old (varint_at width last places bytes.old) }
{
    let byte = take_u8(bytes)?;
    if places == 0 {
        if byte < last {
            return Ok(u64::from(byte));
        }
        return Err(CodecError::InvalidVarint(width));
    }
    if byte < 128 {
        return Ok(u64::from(byte));
    }
    let high = take(bytes, width, last, places - 1)?;
    if high == 0 {
        return Err(CodecError::InvalidVarint(width));
    }
    Ok(high * 128 + u64::from(byte - 128))
}

/// The number below 2^64 at the front, and the bytes after it.
pub(crate) fn read_u64(bytes: Bytes) -> Result<(u64, Bytes), CodecError>
    ensures exact { result ≡ u64_at bytes }
    ensures reads { Reads 8 (2 ^ 64) bytes (u64_at bytes) }
{
    let mut bytes = bytes;
    let number = take(&mut bytes, 8, 2, 9)?;
    Ok((number, bytes))
}

/// The number below 2^32 at the front, and the bytes after it.
pub(crate) fn read_u32(bytes: Bytes) -> Result<(u32, Bytes), CodecError>
    ensures exact { result ≡ u32_at bytes }
    ensures reads { Reads 4 (2 ^ 32) bytes (u32_at bytes) }
{
    let mut bytes = bytes;
    let number = take(&mut bytes, 4, 16, 4)?;
    Ok((number as u32, bytes))
}

/// Adds the spelling of the number.
pub(crate) fn push(out: &mut Vec<u8>, number: u64) -> Result<(), AllocError>
    ensures { OnOk result (out.new.items ≡ out.old.items ++ spelling number) }
{
    let mut rest = number;
    while rest >= 128 {
        out.push((rest % 128) as u8 + 128)?;
        rest /= 128;
    }
    out.push(rest as u8)?;
    Ok(())
}
