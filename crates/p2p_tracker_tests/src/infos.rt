//! Infos that are signed, and which of them are believed.
ghost use Rattle.std.specs.Prelude.{not, ◌==◌, length};

use p2p_address::{Ingress, IpAddr, SocketAddr};
use p2p_base::{Key, List, PublicKey};
use p2p_discovery::types::{Error, Info, InfoVerifier};
use p2p_discovery::{Signer, Verifier, sign_info};
use std::alloc::{AllocError, Global};
use std::test::Fail;

// Signs everything with the bytes of its key.
#[derive(Clone, Copy)]
struct KeySigner(Key);

impl Signer for KeySigner {
    type PublicKey = Key;

    ghost use Rattle.std.proofs.Common.{lit≤};
    ghost use Rattle.p2p_base.specs.KeyBytes.{key_bytes};

    ghost key = { λ signer. signer.0 };

    ghost signature = { λ signer namespace message. key_bytes signer.0 };

    fn public_key(&self) -> Key {
        self.0
    }

    fn sign(
        &self,
        alloc: Global,
        _namespace: &[u8],
        _message: &[u8],
    ) -> Result<Vec<u8>, AllocError> {
        self.0.to_bytes(alloc)
    }

    ghost short = { λ signer namespace message. lit≤ tt };
}

// Takes every signature but an empty one.
#[derive(Clone, Copy)]
pub struct AnySignature;

impl Verifier<Key> for AnySignature {
    ghost accepts = { λ verifier key namespace message signature. not (length signature == 0) };

    fn verify(&self, _key: &Key, _namespace: &[u8], _message: &[u8], signature: &[u8]) -> bool {
        !signature.is_empty()
    }
}

// What a peer signs at a moment in milliseconds.
pub fn signed(alloc: Global, key: u64, timestamp: u64) -> Result<Info<Key>, AllocError> {
    let ip = IpAddr::V4([10, 0, 0, 1]);
    let ingress = Ingress::Socket(SocketAddr { ip, port: 3000 });
    sign_info(alloc, &KeySigner(Key(key)), b"network", ingress, timestamp)
}

// Of peer 1: at most two infos, of moments at most 5 milliseconds ahead.
pub fn of_peer_one(alloc: Global) -> Result<InfoVerifier<Key>, AllocError> {
    let namespace = Vec::from_slice(alloc, b"network")?;
    Ok(InfoVerifier::new(Key(1), 2, 5_000_000, namespace))
}

#[test]
fn an_info_is_signed_as_its_peer(rt: HostRuntime) -> Result<(), Fail> {
    let info = signed(rt.alloc(), 2, 7)?;
    assert!(rt; info.public_key == Key(2) && info.timestamp == 7);
    assert!(rt; info.signature.as_slice() == [0, 0, 0, 0, 0, 0, 0, 2].as_slice());
    Ok(())
}

#[test]
fn infos_are_refused_for_the_first_reason(rt: HostRuntime) -> Result<(), Fail> {
    let verifier = of_peer_one(rt.alloc())?;
    let mut info = signed(rt.alloc(), 2, 15)?;
    assert!(rt; verifier.validate_info(&AnySignature, &info, 10_000_000) == Ok(()));
    assert!(rt;
        verifier.validate_info(&AnySignature, &info, 9_999_999) == Err(Error::SynchronyBound)
    );
    info.signature = List::empty(rt.alloc());
    assert!(rt;
        verifier.validate_info(&AnySignature, &info, 10_000_000) == Err(Error::InvalidSignature)
    );
    assert!(rt; verifier.validate_info(&AnySignature, &info, 0) == Err(Error::SynchronyBound));
    info.public_key = Key(1);
    assert!(rt; verifier.validate_info(&AnySignature, &info, 0) == Err(Error::ReceivedSelf));
    Ok(())
}

#[test]
fn a_list_is_refused_for_its_first_info(rt: HostRuntime) -> Result<(), Fail> {
    let verifier = of_peer_one(rt.alloc())?;
    let mut infos = Vec::new(rt.alloc());
    infos.push(signed(rt.alloc(), 2, 0)?)?;
    assert!(rt; verifier.validate(&AnySignature, infos.as_slice(), 0) == Ok(()));
    infos.push(signed(rt.alloc(), 1, 0)?)?;
    assert!(rt; verifier.validate(&AnySignature, infos.as_slice(), 0) == Err(Error::ReceivedSelf));
    infos.push(signed(rt.alloc(), 3, 0)?)?;
    assert!(rt;
        verifier.validate(&AnySignature, infos.as_slice(), 0) == Err(Error::TooManyPeers(3))
    );
    Ok(())
}
