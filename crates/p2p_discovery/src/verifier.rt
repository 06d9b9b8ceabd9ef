//! `Verifier`, which tells whether a peer signed a message.
ghost use Rattle.std.specs.Prelude.{◌≡◌, ℕ, Bool, List as Seq};

/// What tells whether a peer signed a message.
///
/// It stands for what the `Verifier` of commonware-p2p's `commonware-cryptography` does here.
pub trait Verifier<P> {
    // Whether a signature is one of a peer, for a message under a namespace.
    ghost accepts: { Self → P → Seq ℕ → Seq ℕ → Seq ℕ → Bool };

    /// Whether this is a signature of the peer `key`, for a message under a namespace.
    fn verify(&self, key: &P, namespace: &[u8], message: &[u8], signature: &[u8]) -> bool
        ensures { result ≡ accepts self.now key.now namespace.now message.now signature.now };
}
