//! What a frame says, and why what it tells isn't believed.
ghost use Rattle.std.specs.Prelude.{◌≡◌, IfOk};
ghost use Rattle.p2p_discovery.specs.Verifying.{info_fault as fault_of_info, infos_fault as fault_of_infos};
ghost use Rattle.p2p_discovery.specs.Reading.{payload_of};

use bytes::Bytes;
use p2p_base::PublicKey;
use p2p_discovery::types::{self, InfoVerifier};
use p2p_discovery::{Info, Payload, PayloadConfig, Verifier};
use p2p_wire::CodecError;
use std::alloc::{AllocError, Global};

// What a frame says, or why it isn't of the grammar. `Err` only where memory runs out.
pub(crate) fn read_frame<P: PublicKey>(
    alloc: Global,
    frame: Bytes,
    cfg: &PayloadConfig,
) -> Result<Result<Payload<P>, CodecError>, AllocError>
    ensures { IfOk result (λ r. r ≡ payload_of P.key_of P.SIZE cfg.now frame) }
{
    match Payload::decode(alloc, frame, cfg) {
        Ok(payload) => Ok(Ok(payload)),
        Err(CodecError::Memory) => Err(AllocError),
        Err(error) => Ok(Err(error)),
    }
}

// Why an info isn't believed, if it isn't. `Err` only where memory runs out.
pub(crate) fn info_fault<P: PublicKey, V: Verifier<P>>(
    infos: &InfoVerifier<P>,
    verifier: &V,
    info: &Info<P>,
    now: u64,
) -> Result<Option<types::Error>, AllocError>
    ensures { IfOk result (λ f. f ≡ fault_of_info P.eq infos.now (V.accepts verifier.now) now info.now) }
{
    match infos.validate_info(verifier, info, now) {
        Ok(()) => Ok(None),
        Err(types::Error::Memory) => Err(AllocError),
        Err(error) => Ok(Some(error)),
    }
}

// Why one of these infos isn't believed, or why there are too many, if so. `Err` only where memory runs out.
pub(crate) fn infos_fault<P: PublicKey, V: Verifier<P>>(
    infos: &InfoVerifier<P>,
    verifier: &V,
    told: &[Info<P>],
    now: u64,
) -> Result<Option<types::Error>, AllocError>
    ensures { IfOk result (λ f. f ≡ fault_of_infos P.eq infos.now (V.accepts verifier.now) now told.now) }
{
    match infos.validate(verifier, told, now) {
        Ok(()) => Ok(None),
        Err(types::Error::Memory) => Err(AllocError),
        Err(error) => Ok(Some(error)),
    }
}
