//! The keys that name peers.
ghost use Rattle.std.specs.Prelude.{◌≡◌, ℕ, Bool, List, length, Option, Some, IsTrue, IfOk, IfSome, ◌↔◌, ◌<◌, ◌^◌, slice_index};

use std::alloc::{AllocError, Global};
use std::fmt::{self, Display, Formatter, Write};
use std::hash::Hash;

/// The name of a peer.
///
/// Ports `PublicKey` of commonware-p2p's `commonware-cryptography`.
pub trait PublicKey: Copy + Eq + Ord + Hash + Display {
    /// How many bytes a key is long.
    const SIZE: usize;

    ghost SIZE: { ℕ };

    // The bytes that stand for a key.
    ghost bytes_of: { Self → List ℕ };

    // The key that bytes stand for, if there is one.
    ghost key_of: { List ℕ → Option Self };

    // Whether this is a value of the type.
    ghost is_value: { Self → Bool };

    /// The bytes that stand for this key.
    fn to_bytes(&self, alloc: Global) -> Result<Vec<u8>, AllocError>
        ensures bytes { IfOk result (λ v. v.items ≡ bytes_of self.now) }
        ensures value { IsTrue (is_value self.now) };

    /// The key that `bytes` stand for. `None` exactly for bytes that are no key's.
    fn from_bytes(bytes: &[u8]) -> Option<Self>
        ensures key { result ≡ key_of bytes.now }
        ensures value { IfSome result (λ k. IsTrue (is_value k)) };

    // Each key is `SIZE` bytes long.
    ghost bytes_have_size: { (k : Self) → IsTrue (is_value k) → length (bytes_of k) ≡ SIZE };

    // The bytes of a key give that key.
    ghost bytes_give_key: { (k : Self) → IsTrue (is_value k) → key_of (bytes_of k) ≡ Some k };

    // Only the bytes of a key give it.
    ghost key_has_bytes: { (bytes : List ℕ) (k : Self) → ((i : ℕ) → slice_index bytes i < 2 ^ 8) → key_of bytes ≡ Some k → IsTrue (is_value k) × (bytes_of k ≡ bytes) };

    // Equal keys have equal bytes, and no others have.
    ghost equal_keys: { (j k : Self) → IsTrue (is_value j) → IsTrue (is_value k) → IsTrue (Self.eq j k) ↔ (bytes_of j ≡ bytes_of k) };
}

/// A number that names a peer. It prints in decimal.
#[derive(Clone, Copy, PartialEq, Eq, PartialOrd, Ord, Hash, Debug)]
pub struct Key(pub u64);

impl Display for Key {
    ghost use Rattle.std.specs.Prelude.{Some};
    ghost use Rattle.std.specs.Fmt.{decimal};

    ghost output = { λ k. Some (decimal k.0) };

    fn fmt<W: Write>(&self, f: &mut Formatter<W>) -> fmt::Result {
        self.0.fmt(f)
    }
}

impl PublicKey for Key {
    ghost use Rattle.std.specs.Prelude.{refl};
    ghost use Rattle.p2p_base.specs.KeyBytes.{is_key, key_bytes, key_of_bytes};
    ghost use Rattle.p2p_base.specs.KeyLaws;

    const SIZE: usize = 8;

    ghost SIZE = { 8 };

    ghost bytes_of = { key_bytes };

    ghost key_of = { key_of_bytes };

    ghost is_value = { is_key };

    fn to_bytes(&self, alloc: Global) -> Result<Vec<u8>, AllocError> {
        Vec::from_slice(alloc, &self.0.to_be_bytes())
    }

    fn from_bytes(bytes: &[u8]) -> Option<Key> {
        if bytes.len() != 8 {
            return None;
        }
        let mut number = [0u8; 8];
        number.copy_from_slice(bytes);
        Some(Key(u64::from_be_bytes(number)))
    }

    ghost bytes_have_size = { λ k h. refl };

    ghost bytes_give_key = { KeyLaws.bytes_give_key };

    ghost key_has_bytes = { KeyLaws.key_has_bytes };

    ghost equal_keys = { KeyLaws.equal_keys };
}
