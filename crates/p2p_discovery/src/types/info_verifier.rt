//! `InfoVerifier`, which tells what is believed of where peers are dialed.
ghost use Rattle.std.specs.Prelude.{◌≡◌};
ghost use Rattle.p2p_discovery.specs.Verifying.{Answers, info_fault, infos_fault, first_fault};

use crate::signing::info_namespace;
use crate::types::Error;
use crate::{Info, Verifier, signed_bytes};
use p2p_base::PublicKey;
use std::marker::Model;

/// What tells which infos are believed: those of other peers, signed by them, of no moment too far ahead.
///
/// Ports `InfoVerifier` of commonware-p2p's discovery.
pub struct InfoVerifier<P: PublicKey> {
    me: P,
    max_count: usize,
    bound: u64,
    namespace: Vec<u8>,
}

impl<P: PublicKey> Drop for InfoVerifier<P> {
    fn drop(self) {
        let InfoVerifier {
            me: _me,
            max_count: _max_count,
            bound: _bound,
            namespace: _namespace,
        } = self;
    }
}

impl<P: PublicKey> Model for InfoVerifier<P> {
    ghost use Rattle.p2p_discovery.specs.Verifying.{Believed};

    ghost Value = { Believed P };

    ghost view = { λ v. record { me = v.me; max_count = v.max_count; bound = v.bound; namespace = v.namespace.items } };
}

impl<P: PublicKey> InfoVerifier<P> {
    /// For the peer `me`, of the network of this namespace: at most `max_count` infos at once, each of a moment at most `bound`
    /// nanoseconds ahead.
    ///
    /// Ports `InfoVerifier::new` of commonware-p2p.
    pub fn new(me: P, max_count: usize, bound: u64, namespace: Vec<u8>) -> InfoVerifier<P>
        ensures { result ≡ record { me = me; max_count = max_count; bound = bound; namespace = namespace.items } }
    {
        InfoVerifier {
            me,
            max_count,
            bound,
            namespace,
        }
    }

    /// Whether an info is believed at the moment `now`, in nanoseconds.
    ///
    /// Ports `InfoVerifier::validate_info` of commonware-p2p.
    ///
    /// # Errors
    ///
    /// The first that fits:
    ///
    /// - `ReceivedSelf`: the info is of the own peer.
    /// - `SynchronyBound`: its moment comes after `now` and the bound.
    /// - `InvalidSignature`: the verifier doesn't take its signature for the peer's.
    /// - `Memory`: memory ran out, in place of one of the others.
    pub fn validate_info<V: Verifier<P>>(
        &self,
        verifier: &V,
        info: &Info<P>,
        now: u64,
    ) -> Result<(), Error>
        ensures { Answers result (info_fault P.eq self.now (V.accepts verifier.now) now info.now) }
    {
        if info.public_key == self.me {
            return Err(Error::ReceivedSelf);
        }
        let said = u128::from(info.timestamp) * 1_000_000;
        if said > u128::from(now) + u128::from(self.bound) {
            return Err(Error::SynchronyBound);
        }
        let alloc = *self.namespace.allocator();
        let message = signed_bytes(alloc, &info.ingress, info.timestamp)?;
        let namespace = info_namespace(alloc, self.namespace.as_slice())?;
        let signature = info.signature.as_slice();
        if !verifier.verify(
            &info.public_key,
            namespace.as_slice(),
            message.as_slice(),
            signature,
        ) {
            return Err(Error::InvalidSignature);
        }
        Ok(())
    }

    /// Whether all of these infos are believed at the moment `now`, in nanoseconds.
    ///
    /// Ports `InfoVerifier::validate` of commonware-p2p.
    ///
    /// # Errors
    ///
    /// - `TooManyPeers`: there are so many infos, which is above the limit.
    /// - What `validate_info` answers to the first that isn't believed.
    pub fn validate<V: Verifier<P>>(
        &self,
        verifier: &V,
        infos: &[Info<P>],
        now: u64,
    ) -> Result<(), Error>
        ensures { Answers result (infos_fault P.eq self.now (V.accepts verifier.now) now infos.now) }
    {
        if infos.len() > self.max_count {
            return Err(Error::TooManyPeers(infos.len()));
        }
        self.validate_each(verifier, infos, now)
    }

    fn validate_each<V: Verifier<P>>(
        &self,
        verifier: &V,
        infos: &[Info<P>],
        now: u64,
    ) -> Result<(), Error>
        ensures { Answers result (first_fault P.eq self.now (V.accepts verifier.now) now infos.now) }
    {
        for info in infos {
            self.validate_info(verifier, info, now)?;
        }
        Ok(())
    }
}
