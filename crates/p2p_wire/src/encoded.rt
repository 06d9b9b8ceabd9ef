//! Frames that are encoded before they are sent, and how long they may be.

ghost use Rattle.std.specs.Prelude.{◌≡◌, ◌+◌, ◌-◌, ◌^◌, ◌<◌, ◌≤◌, ◌≢◌, ◌↔◌, [], length, IfOk, IfSome, IsSome, SomeIff};
ghost use Rattle.std.specs.List.{All, Contains};
ghost use Rattle.p2p_wire.specs.Frame.{frame};

use crate::frame::{Data, Message};
use bytes::Bytes;
use std::alloc::{AllocError, Global};

/// How many bytes a frame has at most beside its message.
///
/// Ports `MAX_PAYLOAD_OVERHEAD` of commonware-p2p.
pub const MAX_PAYLOAD_OVERHEAD: usize = 16;

/// A frame that is ready to be sent, and its channel.
///
/// Ports `EncodedData` of commonware-p2p.
#[derive(Clone, Debug, Drop, PartialEq, Eq)]
pub struct EncodedData {
    /// The channel.
    pub channel: u64,
    /// The frame's bytes.
    pub payload: Bytes,
}

impl EncodedData {
    /// The frame of a message on a channel. `Err` only where memory runs out.
    ///
    /// Ports `EncodedData::new` of commonware-p2p.
    pub fn new(alloc: Global, channel: u64, message: Bytes) -> Result<EncodedData, AllocError>
        requires { length message < 2 ^ 32 }
        ensures channel { IfOk result (λ encoded. encoded.channel ≡ channel) }
        ensures payload { IfOk result (λ encoded. encoded.payload ≡ frame (Message.Data (record { channel = channel; message = message }))) }
        ensures short { IfOk result (λ encoded. length encoded.payload ≤ length message + MAX_PAYLOAD_OVERHEAD) }
    {
        let data = Message::Data(Data { channel, message });
        let payload = data.encode(alloc)?;
        Ok(EncodedData { channel, payload })
    }
}

/// The longest message that fits a link whose frames have at most `link_limit` bytes. `None` where
/// not even the empty message is sure to fit.
///
/// Ports `max_size` of commonware-p2p.
pub fn max_size(link_limit: u32) -> Option<u32>
    ensures { SomeIff result (MAX_PAYLOAD_OVERHEAD ≤ link_limit) (link_limit - MAX_PAYLOAD_OVERHEAD) }
{
    link_limit.checked_sub(MAX_PAYLOAD_OVERHEAD as u32)
}

/// The greatest of these sizes, in bytes, and 0 where there is none. `None` where a size is above
/// `u32::MAX`.
pub fn max_message_size(sizes: &[usize]) -> Option<u32>
    ensures fits { IsSome result ↔ All (λ size. size < 2 ^ 32) sizes.now }
    ensures greatest { IfSome result (λ most. All (λ size. size ≤ most) sizes.now) }
    ensures among { IfSome result (λ most. sizes.now ≢ [] → Contains sizes.now most) }
    ensures empty { sizes.now ≡ [] → result ≡ Some 0 }
{
    let most = sizes.iter().copied().max().unwrap_or(0);
    u32::try_from(most).ok()
}
