//! The prefix of a payload that names the subchannel that it is for.

ghost use Rattle.std.specs.Prelude.{◌≡◌, ◌↔◌, ◌⊎◌, ℕ, ◌+◌, ◌^◌, ◌<◌, ◌≤◌, List, [], ◌++◌, length, IfOk, IfErr};
ghost use Rattle.p2p_wire.specs.Varint.{spelling, EndsWithin, IsMalformed, u64_at};

use crate::error::CodecError;
use crate::varint::{push, read_u64};
use bytes::Bytes;
use std::alloc::{AllocError, Global};

/// How many bytes a prefix has at most.
const MAX_PREFIX: usize = 10;

/// What stands before a payload for this subchannel: its spelling, in at most 10 bytes.
///
/// Ports the prefix of `SubSender` of commonware-p2p.
pub fn prefix(alloc: Global, subchannel: u64) -> Result<Bytes, AllocError>
    ensures exact { IfOk result (λ bytes. bytes ≡ spelling subchannel) }
    ensures short { IfOk result (λ bytes. length bytes ≤ MAX_PREFIX) }
    // No other subchannel's prefix begins with this one.
    ensures apart { IfOk result (λ bytes. (other : ℕ) (tail : List ℕ) →
        spelling other ≡ bytes ++ tail → (other ≡ subchannel) × (tail ≡ [])) }
{
    let mut out = Vec::with_capacity(alloc, MAX_PREFIX)?;
    push(&mut out, subchannel)?;
    Ok(Bytes::from_vec(out)?)
}

/// The subchannel whose prefix the bytes begin with, and the payload after it.
///
/// Ports `parse` of commonware-p2p.
///
/// # Errors
///
/// - `EndOfBuffer`: the bytes end within a prefix.
/// - `InvalidVarint`: they begin with no prefix, and don't end within one.
pub fn parse(bytes: Bytes) -> Result<(u64, Bytes), CodecError>
    ensures exact { result ≡ u64_at bytes }
    ensures found { (subchannel : ℕ) (payload : List ℕ) → (result ≡ Ok (subchannel, payload))
        ↔ ((subchannel < 2 ^ 64) × (bytes ≡ spelling subchannel ++ payload)) }

    ensures end { (result ≡ Err CodecError.EndOfBuffer) ↔ EndsWithin (2 ^ 64) bytes }
    ensures malformed { (result ≡ Err (CodecError.InvalidVarint 8)) ↔ IsMalformed (2 ^ 64) bytes }
    ensures faults { IfErr result (λ e. (e ≡ CodecError.EndOfBuffer) ⊎ (e ≡ CodecError.InvalidVarint 8)) }
{
    read_u64(bytes)
}

/// How many bytes a payload of this length has at most once a prefix stands before it.
pub fn prefixed(payload: usize) -> usize
    requires { payload + 10 < 2 ^ 64 }
    ensures { result ≡ payload + 10 }
{
    payload + MAX_PREFIX
}
