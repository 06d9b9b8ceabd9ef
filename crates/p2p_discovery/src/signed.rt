//! The bytes that a peer signs.
ghost use Rattle.std.specs.Prelude.{◌≡◌, IfOk};
ghost use Rattle.p2p_discovery.specs.Spelling.{signed_bytes as bytes_signed};

use crate::writing::info::put_ingress;
use p2p_address::Ingress;
use std::alloc::{AllocError, Global};

/// The bytes that a peer signs to say where it is dialed: the ingress as in a payload, and 8 bytes of timestamp. `Err` only
/// where memory runs out.
pub fn signed_bytes(alloc: Global, ingress: &Ingress, timestamp: u64) -> Result<Vec<u8>, AllocError>
    ensures { IfOk result (λ bytes. bytes.items ≡ bytes_signed ingress.now timestamp) }
{
    let mut out = Vec::new(alloc);
    put_ingress(&mut out, ingress)?;
    out.extend_from_slice(&timestamp.to_be_bytes())?;
    Ok(out)
}
