//! What peers say of where they are dialed.
ghost use Rattle.std.specs.Prelude.{◌≡◌, [], ◌∷◌, ◌++◌, OnOk, IfErr};
ghost use Rattle.p2p_discovery.specs.Reading.{Gives, key_at, info_at, infos_at, peers_at};

use crate::Info;
use crate::info::MAX_SIGNATURE;
use crate::reading::fields::{read_sized, read_u32};
use crate::reading::ingress::read_ingress;
use bytes::{Buf, Bytes};
use p2p_base::{List, PublicKey};
use p2p_wire::{CodecError, parse};
use std::alloc::Global;

#[tactic(auto, unfolding(crate::specs::Reading::key_at))]
fn read_key<P: PublicKey>(bytes: Bytes) -> Result<(P, Bytes), CodecError>
    ensures { result ≡ key_at P.key_of P.SIZE bytes }
{
    if bytes.len() < P::SIZE {
        return Err(CodecError::EndOfBuffer);
    }
    let mut bytes = bytes;
    match P::from_bytes(&bytes.as_slice()[..P::SIZE]) {
        Some(key) => {
            bytes.advance(P::SIZE);
            Ok((key, bytes))
        }
        None => Err(CodecError::InvalidEnum(1)),
    }
}

#[tactic(auto, unfolding(crate::specs::Reading::info_at))]
pub(crate) fn read_info<P: PublicKey>(
    alloc: Global,
    bytes: Bytes,
) -> Result<(Info<P>, Bytes), CodecError>
    ensures { Gives result (info_at P.key_of P.SIZE bytes) }
{
    let (ingress, bytes) = read_ingress(alloc, bytes)?;
    let (timestamp, bytes) = parse(bytes)?;
    let (public_key, bytes) = read_key(bytes)?;
    let (signature, bytes) = read_sized(alloc, bytes, MAX_SIGNATURE)?;
    let info = Info {
        ingress,
        timestamp,
        public_key,
        signature,
    };
    Ok((info, bytes))
}

fn add<P: PublicKey>(infos: &mut List<Info<P>>, info: Info<P>) -> Result<(), CodecError>
    ensures added { OnOk result (infos.new ≡ infos.old ++ info ∷ []) }
    ensures memory { IfErr result (λ e. e ≡ CodecError.Memory) }
{
    match infos.push(info) {
        Ok(()) => Ok(()),
        Err(_) => Err(CodecError::Memory),
    }
}

fn read_infos<P: PublicKey>(
    alloc: Global,
    bytes: Bytes,
    count: u32,
) -> Result<(List<Info<P>>, Bytes), CodecError>
    ensures { Gives result (infos_at P.key_of P.SIZE count bytes) }
{
    let mut infos = List::empty(alloc);
    let mut rest = bytes;
    for _ in 0..count {
        let (info, after) = read_info(alloc, rest)?;
        rest = after;
        add(&mut infos, info)?;
    }
    Ok((infos, rest))
}

#[tactic(auto, unfolding(crate::specs::Reading::peers_at))]
pub(crate) fn read_peers<P: PublicKey>(
    alloc: Global,
    bytes: Bytes,
    limit: usize,
) -> Result<(List<Info<P>>, Bytes), CodecError>
    ensures { Gives result (peers_at P.key_of P.SIZE limit bytes) }
{
    let (count, bytes) = read_u32(bytes)?;
    if count as usize > limit {
        return Err(CodecError::InvalidLength(count as usize));
    }
    read_infos(alloc, bytes, count)
}
