//! Bit vectors.
ghost use Rattle.std.specs.Prelude.{◌≡◌, ◌++◌, ◌<◌, ◌≤◌, ◌^◌, length, OnOk};
ghost use Rattle.p2p_discovery.specs.Spelling.{packed_byte as number_of, packed, spelled_bit_vec};

use crate::BitVec;
use crate::bit_vec::first_byte;
use crate::writing::fields::put_number;
use std::alloc::AllocError;

// The number whose digits to base 2 the bits are, lowest first.
#[tactic(auto, unfolding(crate::specs::Spelling::packed_byte))]
fn packed_byte(bits: &[bool]) -> u8
    requires { length bits.now ≤ 8 }
    ensures value { result ≡ number_of bits.now }
    ensures below { result < 2 ^ length bits.now }
{
    match bits {
        [] => 0,
        [bit, rest @ ..] => u8::from(*bit) + 2 * packed_byte(rest),
    }
}

fn put_bits(out: &mut Vec<u8>, bits: &[bool]) -> Result<(), AllocError>
    ensures { OnOk result (out.new.items ≡ out.old.items ++ packed bits.now) }
{
    let mut rest = bits;
    while !rest.is_empty() {
        let here = first_byte(rest.len() as u64) as usize;
        let (front, after) = rest.split_at(here);
        out.push(packed_byte(front))?;
        rest = after;
    }
    Ok(())
}

pub(crate) fn put_bit_vec(out: &mut Vec<u8>, bit_vec: &BitVec) -> Result<(), AllocError>
    ensures { OnOk result (out.new.items ≡ out.old.items ++ spelled_bit_vec bit_vec.now) }
{
    put_number(out, bit_vec.index)?;
    put_number(out, bit_vec.bits.len() as u64)?;
    put_bits(out, bit_vec.bits.as_slice())
}
