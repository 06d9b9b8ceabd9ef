//! Bit vectors.
ghost use Rattle.std.specs.Prelude.{◌≡◌, ◌++◌, ◌<◌, ◌≤◌, ◌^◌, OnOk};
ghost use Rattle.p2p_discovery.specs.Reading.{Gives, digits, unpacked, bits_at, bit_vec_at};

use crate::BitVec;
use crate::bit_vec::{byte_count, first_byte};
use bytes::{Buf, Bytes};
use p2p_base::List;
use p2p_wire::{CodecError, parse};
use std::alloc::{AllocError, Global};

// Adds the lowest bits of a byte, the lowest first.
fn push_digits(bits: &mut Vec<bool>, count: u32, byte: u8) -> Result<(), AllocError>
    ensures { OnOk result (bits.new.items ≡ bits.old.items ++ digits count byte) }
{
    let mut rest = byte;
    for _ in 0..count {
        bits.push(rest % 2 == 1)?;
        rest /= 2;
    }
    Ok(())
}

fn unpack(alloc: Global, bytes: &[u8], count: u64) -> Result<List<bool>, CodecError>
    ensures { Gives result (unpacked count bytes.now) }
{
    let mut bits = Vec::new(alloc);
    let mut left = count;
    for byte in bytes {
        let here = first_byte(left) as u32;
        if u32::from(*byte) >= 2u32.pow(here) {
            return Err(CodecError::InvalidEnum(*byte));
        }
        push_digits(&mut bits, here, *byte)?;
        left = left.saturating_sub(8);
    }
    Ok(List::new(bits))
}

#[tactic(auto, unfolding(crate::specs::Reading::bits_at))]
fn read_bits(alloc: Global, bytes: Bytes, count: u64) -> Result<(List<bool>, Bytes), CodecError>
    ensures { Gives result (bits_at count bytes) }
{
    let size = byte_count(count) as usize;
    if bytes.len() < size {
        return Err(CodecError::EndOfBuffer);
    }
    let bits = unpack(alloc, &bytes.as_slice()[..size], count)?;
    let mut bytes = bytes;
    bytes.advance(size);
    Ok((bits, bytes))
}

#[tactic(auto, unfolding(crate::specs::Reading::bit_vec_at))]
pub(crate) fn read_bit_vec(
    alloc: Global,
    bytes: Bytes,
    limit: u64,
) -> Result<(BitVec, Bytes), CodecError>
    ensures { Gives result (bit_vec_at limit bytes) }
{
    let (index, bytes) = parse(bytes)?;
    let (count, bytes) = parse(bytes)?;
    if count > limit {
        return Err(CodecError::InvalidLength(count as usize));
    }
    let (bits, bytes) = read_bits(alloc, bytes, count)?;
    Ok((BitVec { index, bits }, bytes))
}
