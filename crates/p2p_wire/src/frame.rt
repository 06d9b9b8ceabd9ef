//! The frames of a connection.

ghost use Rattle.std.specs.Prelude.{◌≡◌, ◌↔◌, ◌≢◌, ℕ, ◌^◌, ◌<◌, List, ◌∷◌, length, IfOk};
ghost use Rattle.p2p_wire.specs.Varint.{u64_at, u32_at, Reads};
ghost use Rattle.p2p_wire.specs.declared.frame.Message.{Message};
ghost use Rattle.p2p_wire.specs.Frame.{frame, data_of, decode_frame, IsEncodable, IsWithin, EndsEarly, IsOfKind, HasMalformed, IsTooLong, HasExtra};

use crate::encoded::MAX_PAYLOAD_OVERHEAD;
use crate::error::CodecError;
use crate::varint::{push, read_u32, read_u64, take_u8};
use bytes::Bytes;
use std::alloc::{AllocError, Global};

/// The first byte of a frame that holds data.
///
/// Ports `DATA_PREFIX` of commonware-p2p.
pub const DATA_PREFIX: u8 = 0;

/// The only byte of a ping.
///
/// Ports `PING_PREFIX` of commonware-p2p.
pub const PING_PREFIX: u8 = 1;

/// A message on a channel.
///
/// Ports `Data` of commonware-p2p.
#[derive(Clone, Debug, Drop, PartialEq, Eq)]
pub struct Data {
    /// The channel.
    pub channel: u64,
    /// The message's bytes.
    pub message: Bytes,
}

/// What one frame says.
///
/// Ports `Message` of commonware-p2p.
#[derive(Clone, Debug, Drop, PartialEq, Eq)]
pub enum Message {
    /// A message on a channel.
    Data(Data),
    /// A sign of life.
    Ping,
}

impl From<Data> for Message {
    ghost from_gives = { λ d m. m ≡ Message.Data d };

    fn from(data: Data) -> Message {
        Message::Data(data)
    }
}

impl Message {
    /// The message's one frame. `Err` only where memory runs out.
    ///
    /// Ports the `encode` of `Message` of commonware-p2p.
    pub fn encode(&self, alloc: Global) -> Result<Bytes, AllocError>
        requires { IsEncodable self.now }
        ensures { IfOk result (λ bytes. bytes ≡ frame self.now) }
    {
        match self {
            Message::Data(data) => data.encode(alloc),
            Message::Ping => Bytes::copy_from_slice(alloc, &[PING_PREFIX]),
        }
    }

    /// The message whose frame the bytes are, with at most `limit` bytes of data. It takes no memory.
    ///
    /// Ports the `decode` of `Message` of commonware-p2p.
    ///
    /// # Errors
    ///
    /// The first fault from the left:
    ///
    /// - `EndOfBuffer`: the bytes end before the frame does.
    /// - `InvalidEnum`: the first byte is neither `DATA_PREFIX` nor `PING_PREFIX`.
    /// - `InvalidVarint`: the channel (8) or the length (4) is not spelled as a number in its range.
    /// - `InvalidLength`: the length is above the limit, however many bytes follow it.
    /// - `ExtraData`: so many bytes stand after the frame.
    pub fn decode(bytes: Bytes, limit: usize) -> Result<Message, CodecError>
        // The answer as a function of the bytes.
        ensures exact { result ≡ decode_frame bytes limit }

        // A message is decoded from its own frame, and from nothing else.
        ensures message { (m : Message) → (result ≡ Ok m) ↔ (IsWithin limit m × (bytes ≡ frame m)) }

        // Each refusal, exactly where it comes.
        ensures end { (result ≡ Err CodecError.EndOfBuffer) ↔ EndsEarly limit bytes }
        ensures kind { (kind : ℕ) → (result ≡ Err (CodecError.InvalidEnum kind)) ↔ IsOfKind kind bytes }
        ensures varint { (width : ℕ) → (result ≡ Err (CodecError.InvalidVarint width)) ↔ HasMalformed width bytes }
        ensures too_long { (size : ℕ) → (result ≡ Err (CodecError.InvalidLength size)) ↔ IsTooLong limit size bytes }
        ensures extra { (count : ℕ) → (result ≡ Err (CodecError.ExtraData count)) ↔ HasExtra limit count bytes }
        ensures memory { result ≢ Err CodecError.Memory }
    {
        Message::read(bytes, limit)
    }

    // `decode`, with what was found at the places of the channel and the length.
    fn read(bytes: Bytes, limit: usize) -> Result<Message, CodecError>
        ensures exact { result ≡ decode_frame bytes limit }
        ensures channel { (rest : List ℕ) → bytes ≡ 0 ∷ rest → Reads 8 (2 ^ 64) rest (u64_at rest) }
        ensures size { (rest more : List ℕ) (channel : ℕ) → bytes ≡ 0 ∷ rest → u64_at rest ≡ Ok (channel, more) → Reads 4 (2 ^ 32) more (u32_at more) }
    {
        let mut bytes = bytes;
        match take_u8(&mut bytes)? {
            DATA_PREFIX => read_data(bytes, limit),
            PING_PREFIX if bytes.is_empty() => Ok(Message::Ping),
            PING_PREFIX => Err(CodecError::ExtraData(bytes.len())),
            kind => Err(CodecError::InvalidEnum(kind)),
        }
    }
}

impl Data {
    fn encode(&self, alloc: Global) -> Result<Bytes, AllocError>
        requires { length self.now.message < 2 ^ 32 }
        ensures { IfOk result (λ bytes. bytes ≡ frame (Message.Data self.now)) }
    {
        let size = self.message.len();
        let mut out = Vec::with_capacity(alloc, size + MAX_PAYLOAD_OVERHEAD)?;
        out.push(DATA_PREFIX)?;
        push(&mut out, self.channel)?;
        push(&mut out, size as u64)?;
        out.extend_from_slice(self.message.as_slice())?;
        Ok(Bytes::from_vec(out)?)
    }
}

// The message after the first byte of its frame.
fn read_data(bytes: Bytes, limit: usize) -> Result<Message, CodecError>
    ensures exact { result ≡ data_of bytes limit }
    ensures channel { Reads 8 (2 ^ 64) bytes (u64_at bytes) }
    ensures size { (rest : List ℕ) (channel : ℕ) → u64_at bytes ≡ Ok (channel, rest) → Reads 4 (2 ^ 32) rest (u32_at rest) }
{
    let (channel, bytes) = read_u64(bytes)?;
    let (size, message) = read_u32(bytes)?;
    let size = size as usize;
    if size > limit {
        return Err(CodecError::InvalidLength(size));
    }
    if message.len() < size {
        return Err(CodecError::EndOfBuffer);
    }
    if message.len() > size {
        return Err(CodecError::ExtraData(message.len() - size));
    }
    Ok(Message::Data(Data { channel, message }))
}
