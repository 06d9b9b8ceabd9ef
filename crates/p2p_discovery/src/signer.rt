//! `Signer`, which signs as one peer.
ghost use Rattle.std.specs.Prelude.{◌≡◌, ◌≤◌, ℕ, List as Seq, length, IfOk};
ghost use Rattle.p2p_discovery.specs.Fits.{max_signature};

use p2p_base::PublicKey;
use std::alloc::{AllocError, Global};

/// What signs as one peer. It has one signature for each namespace and message.
///
/// It stands for what the `Signer` of commonware-p2p's `commonware-cryptography` does here.
pub trait Signer {
    /// The names of peers.
    type PublicKey: PublicKey;

    // The peer.
    ghost key: { Self → Self.PublicKey };

    // The signature of a message under a namespace.
    ghost signature: { Self → Seq ℕ → Seq ℕ → Seq ℕ };

    /// The peer as which it signs.
    fn public_key(&self) -> Self::PublicKey
        ensures { result ≡ key self.now };

    /// The signature of a message under a namespace. `Err` only where memory runs out.
    fn sign(&self, alloc: Global, namespace: &[u8], message: &[u8]) -> Result<Vec<u8>, AllocError>
        ensures { IfOk result (λ v. v.items ≡ signature self.now namespace.now message.now) };

    // A signature has at most 128 bytes.
    ghost short: { (signer : Self) (namespace message : Seq ℕ) → length (signature signer namespace message) ≤ max_signature };
}
