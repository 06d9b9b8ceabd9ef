//! Numbers and runs of bytes.
ghost use Rattle.std.specs.Prelude.{◌≡◌, ℕ, ◌<◌, ◌^◌, slice_index, Err};
ghost use Rattle.p2p_wire.specs.Varint.{u32_at};
ghost use Rattle.p2p_discovery.specs.Narrowed.{narrowed};
ghost use Rattle.p2p_discovery.specs.Reading.{Gives, byte_at, bytes_at, sized_at};

use bytes::{Buf, Bytes};
use p2p_base::List;
use p2p_wire::{CodecError, parse};
use std::alloc::Global;

// How many bytes a number below 2^32 has at most.
const MOST_OF_U32: usize = 5;

pub(crate) fn read_byte(bytes: Bytes) -> Result<(u8, Bytes), CodecError>
    ensures { result ≡ byte_at bytes }
{
    let mut bytes = bytes;
    if bytes.is_empty() {
        return Err(CodecError::EndOfBuffer);
    }
    let byte = bytes.get_u8();
    Ok((byte, bytes))
}

// States that each of the bytes is below 256. It does nothing.
pub(crate) fn are_bytes(bytes: &[u8])
    ensures { (i : ℕ) → slice_index bytes.now i < 2 ^ 8 }
{
    let _ = bytes;
}

fn narrow_fault(fault: CodecError, len: usize) -> CodecError
    ensures { Err result ≡ narrowed (2 ^ 32) MOST_OF_U32 len (Err fault) }
{
    match fault {
        CodecError::EndOfBuffer if len < MOST_OF_U32 => CodecError::EndOfBuffer,
        CodecError::EndOfBuffer
        | CodecError::InvalidEnum(_)
        | CodecError::InvalidLength(_)
        | CodecError::InvalidVarint(_)
        | CodecError::ExtraData(_)
        | CodecError::Memory => CodecError::InvalidVarint(4),
    }
}

fn narrow(read: Result<(u64, Bytes), CodecError>, len: usize) -> Result<(u32, Bytes), CodecError>
    ensures { result ≡ narrowed (2 ^ 32) MOST_OF_U32 len read }
{
    match read {
        Ok((number, rest)) => match u32::try_from(number) {
            Ok(number) => Ok((number, rest)),
            Err(_) => Err(CodecError::InvalidVarint(4)),
        },
        Err(fault) => Err(narrow_fault(fault, len)),
    }
}

// It is read as a number below 2^64, and held against its own range.
pub(crate) fn read_u32(bytes: Bytes) -> Result<(u32, Bytes), CodecError>
    ensures { result ≡ u32_at bytes }
{
    are_bytes(bytes.as_slice());
    let len = bytes.len();
    narrow(parse(bytes), len)
}

pub(crate) fn read_array<const N: usize>(bytes: Bytes) -> Result<([u8; N], Bytes), CodecError>
    ensures { result ≡ bytes_at N bytes }
{
    if bytes.len() < N {
        return Err(CodecError::EndOfBuffer);
    }
    let mut array = [0; N];
    array.copy_from_slice(&bytes.as_slice()[..N]);
    let mut bytes = bytes;
    bytes.advance(N);
    Ok((array, bytes))
}

// The first bytes, of which there are so many, and those after them.
pub(crate) fn read_bytes(
    alloc: Global,
    bytes: Bytes,
    count: usize,
) -> Result<(List<u8>, Bytes), CodecError>
    ensures { Gives result (bytes_at count bytes) }
{
    if bytes.len() < count {
        return Err(CodecError::EndOfBuffer);
    }
    let front = List::from_slice(alloc, &bytes.as_slice()[..count])?;
    let mut bytes = bytes;
    bytes.advance(count);
    Ok((front, bytes))
}

#[tactic(auto, unfolding(crate::specs::Reading::sized_at))]
pub(crate) fn read_sized(
    alloc: Global,
    bytes: Bytes,
    limit: u32,
) -> Result<(List<u8>, Bytes), CodecError>
    ensures { Gives result (sized_at limit bytes) }
{
    let (size, bytes) = read_u32(bytes)?;
    if size > limit {
        return Err(CodecError::InvalidLength(size as usize));
    }
    read_bytes(alloc, bytes, size as usize)
}
