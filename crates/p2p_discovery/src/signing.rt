//! `sign_info`, with which a peer says where it is dialed.
ghost use Rattle.std.specs.Prelude.{◌≡◌, ◌≤◌, length, IfOk};
ghost use Rattle.p2p_discovery.specs.Spelling.{signed_bytes as bytes_signed};
ghost use Rattle.p2p_discovery.specs.Verifying.{namespace_of};

use crate::{Info, MAX_SIGNATURE, Signer, signed_bytes};
use p2p_address::Ingress;
use p2p_base::List;
use std::alloc::{AllocError, Global};

/// What stands after the namespace under which an info is signed.
const SUFFIX: &[u8] = b"_TRACKER_IP";

/// The namespace under which infos are signed, of that of a network. `Err` only where memory runs out.
pub(crate) fn info_namespace(alloc: Global, namespace: &[u8]) -> Result<Vec<u8>, AllocError>
    ensures { IfOk result (λ v. v.items ≡ namespace_of namespace.now) }
{
    let mut whole = Vec::from_slice(alloc, namespace)?;
    whole.extend_from_slice(SUFFIX)?;
    Ok(whole)
}

/// What the signer's peer says of where it is dialed, at a moment in milliseconds, signed for the network of this namespace.
/// `Err` only where memory runs out.
///
/// Ports `Info::sign` of commonware-p2p.
pub fn sign_info<S: Signer>(
    alloc: Global,
    signer: &S,
    namespace: &[u8],
    ingress: Ingress,
    timestamp: u64,
) -> Result<Info<S::PublicKey>, AllocError>
    ensures signed { IfOk result (λ info. info ≡ record {
      ingress = ingress;
      timestamp = timestamp;
      public_key = S.key signer.now;
      signature = S.signature signer.now (namespace_of namespace.now) (bytes_signed ingress timestamp);
    }) }
    ensures short { IfOk result (λ info. length info.signature ≤ MAX_SIGNATURE) }
{
    let message = signed_bytes(alloc, &ingress, timestamp)?;
    let whole = info_namespace(alloc, namespace)?;
    let signature = signer.sign(alloc, whole.as_slice(), message.as_slice())?;
    Ok(Info {
        ingress,
        timestamp,
        public_key: signer.public_key(),
        signature: List::new(signature),
    })
}
