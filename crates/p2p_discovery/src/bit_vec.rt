//! `BitVec`, of which peers of a set is known where they are dialed.
ghost use Rattle.std.specs.Prelude.{◌≡◌, min, IfOk};
ghost use Rattle.p2p_discovery.specs.Spelling.{byte_count as count_of_bytes};

use p2p_base::List;
use std::alloc::{AllocError, Global};

/// Of which peers of a set is known where they are dialed.
///
/// Ports `BitVec` of commonware-p2p.
#[derive(Drop, PartialEq, Eq, Debug)]
pub struct BitVec {
    /// The index of the set.
    pub index: u64,
    /// A bit for each peer of the set, in the order of their keys.
    pub bits: List<bool>,
}

impl BitVec {
    /// An equal bit vector. `Err` only where memory runs out.
    pub fn try_clone(&self, alloc: Global) -> Result<BitVec, AllocError>
        ensures { IfOk result (λ bits. bits ≡ self.now) }
    {
        let bits = self.bits.try_clone(alloc)?;
        Ok(BitVec {
            index: self.index,
            bits,
        })
    }
}

/// How many bytes so many bits take, eight a byte.
pub(crate) fn byte_count(bits: u64) -> u64
    ensures { result ≡ count_of_bytes bits }
{
    bits / 8 + if bits % 8 == 0 { 0 } else { 1 }
}

/// How many of so many bits the first byte has.
pub(crate) fn first_byte(bits: u64) -> u64
    ensures { result ≡ min bits 8 }
{
    if bits < 8 { bits } else { 8 }
}
