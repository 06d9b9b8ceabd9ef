//! `Payload`, what one frame of a discovered network says.
ghost use Rattle.std.specs.Prelude.{◌≡◌, ◌≤◌, ℕ, List as Seq, [], ◌++◌, length, Ok, Err, IfOk};
ghost use Rattle.p2p_discovery.specs.declared.config.PayloadConfig.{PayloadConfig};
ghost use Rattle.p2p_discovery.specs.declared.payload.Payload.{Payload};
ghost use Rattle.p2p_discovery.specs.Spelling.{spelled};
ghost use Rattle.p2p_discovery.specs.Fits.{Fits};
ghost use Rattle.p2p_discovery.specs.Reading.{Gives, payload_of};
ghost use Rattle.p2p_discovery.specs.GossipSize.{IsGossip, gossip_size};

use crate::info::clone_infos;
use crate::reading::fields::are_bytes;
use crate::reading::payload::read_payload;
use crate::writing::payload::put_payload;
use crate::{BitVec, Info, PayloadConfig};
use bytes::Bytes;
use p2p_base::{List, PublicKey};
use p2p_wire::{CodecError, Data};
use std::alloc::{AllocError, Global};

/// The first byte of a greeting.
///
/// Ports `GREETING_PREFIX` of commonware-p2p.
pub const GREETING_PREFIX: u8 = 1;

/// The first byte of a bit vector.
///
/// Ports `BIT_VEC_PREFIX` of commonware-p2p.
pub const BIT_VEC_PREFIX: u8 = 2;

/// The first byte of a list of peers.
///
/// Ports `PEERS_PREFIX` of commonware-p2p.
pub const PEERS_PREFIX: u8 = 3;

/// What one frame of a discovered network says.
///
/// Ports `Payload` of commonware-p2p.
#[derive(Drop, PartialEq, Eq, Debug)]
pub enum Payload<P> {
    /// A message on a channel.
    Data(Data),
    /// Where the peer itself is dialed, which it says first.
    Greeting(Info<P>),
    /// Of which peers the peer knows where they are dialed.
    BitVec(BitVec),
    /// Where other peers are dialed.
    Peers(List<Info<P>>),
}

impl<P: Copy> Payload<P> {
    /// An equal payload. `Err` only where memory runs out.
    pub fn try_clone(&self, alloc: Global) -> Result<Payload<P>, AllocError>
        ensures { IfOk result (λ payload. payload ≡ self.now) }
    {
        match self {
            Payload::Data(data) => {
                let message = data.message.clone()?;
                let channel = data.channel;
                Ok(Payload::Data(Data { channel, message }))
            }
            Payload::Greeting(info) => Ok(Payload::Greeting(info.try_clone(alloc)?)),
            Payload::BitVec(bits) => Ok(Payload::BitVec(bits.try_clone(alloc)?)),
            Payload::Peers(infos) => Ok(Payload::Peers(clone_infos(alloc, infos.as_slice())?)),
        }
    }
}

impl<P: PublicKey> Payload<P> {
    /// The payload's one spelling. A length or a count of any size is written as its number. `Err` only where memory runs out.
    ///
    /// Ports the `encode` of `Payload` of commonware-p2p.
    pub fn encode(&self, alloc: Global) -> Result<Bytes, AllocError>
        ensures exact { IfOk result (λ bytes. bytes ≡ spelled P.bytes_of self.now) }

        // No other payload's bytes begin with these, whatever the limits.
        ensures apart { IfOk result (λ bytes. (cfg : PayloadConfig) (other : Payload P) (tail : Seq ℕ) →
            Fits P.is_value cfg self.now → Fits P.is_value cfg other → spelled P.bytes_of other ≡ bytes ++ tail
            → (other ≡ self.now) × (tail ≡ [])) }

        // What tells of peers is no longer than `max_gossip_size` says.
        ensures short { IfOk result (λ bytes. (cfg : PayloadConfig) → Fits P.is_value cfg self.now → IsGossip self.now
            → length bytes ≤ gossip_size P.SIZE cfg.max_bit_vec cfg.max_peers) }
    {
        let mut out = Vec::new(alloc);
        put_payload(&mut out, self)?;
        Ok(Bytes::from_vec(out)?)
    }

    /// The payload whose spelling the bytes are, within the limits of `cfg`.
    ///
    /// Ports the `decode` of `Payload` of commonware-p2p.
    ///
    /// # Errors
    ///
    /// The first fault from the left, or `Memory` where memory runs out:
    ///
    /// - `EndOfBuffer`: the bytes end before the payload does.
    /// - `InvalidEnum`: a byte that says what kind of payload, of ingress or of address follows stands for none; the last byte of a
    ///   bit vector has a bit set that is none of its bits; or, with 1, a host isn't UTF-8, or bytes stand for no key.
    /// - `InvalidVarint`: a number isn't spelled as one in its range. Channels, timestamps, indices and counts of bits have 8
    ///   bytes, other lengths and counts 4.
    /// - `InvalidLength`: a length or a count is above its limit, however many bytes follow it: those of `cfg`, `MAX_HOST` and
    ///   `MAX_SIGNATURE`.
    /// - `ExtraData`: so many bytes stand after the payload.
    pub fn decode(
        alloc: Global,
        bytes: Bytes,
        cfg: &PayloadConfig,
    ) -> Result<Payload<P>, CodecError>
        // The answer as a function of the bytes.
        ensures exact { Gives result (payload_of P.key_of P.SIZE cfg.now bytes) }

        // A payload is decoded from its own spelling, and from nothing else.
        ensures found { IfOk result (λ payload. Fits P.is_value cfg.now payload × (bytes ≡ spelled P.bytes_of payload)) }
        ensures only { (payload : Payload P) → Fits P.is_value cfg.now payload → bytes ≡ spelled P.bytes_of payload
            → Gives result (Ok payload) }
    {
        are_bytes(bytes.as_slice());
        read_payload(alloc, bytes, cfg)
    }
}
