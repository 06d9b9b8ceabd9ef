//! What arrives in a frame, and how it waits for its quota.
ghost use Rattle.std.specs.Prelude.{◌≡◌, ℕ, Ok, Some, None, cond, IfOk};
ghost use Rattle.std.specs.Option.{option_map};
ghost use Rattle.p2p_log_rules.specs.Frames.{data_in, is_ping as ping_test};
ghost use Rattle.p2p_net_channels.specs.Arrivals.{arrival_of, arrival_in, held_arrival, held_item};

use bytes::Bytes;
use p2p_log::Item;
use p2p_wire::{CodecError, Data, Message};
use std::alloc::AllocError;

/// A message that arrived: the name of its copy, its channel and its bytes.
#[derive(Drop)]
pub struct Arrived {
    pub copy: (u64, u64),
    pub channel: u64,
    pub bytes: Bytes,
}

/// What came over a connection.
#[derive(Drop)]
pub enum Arriving {
    /// A message for one of the node's channels.
    Message(Arrived),
    /// A ping.
    Ping,
}

/// The channel and the bytes of a message, where it is none of the connection's own.
fn data_of(message: Message) -> Option<(u64, Bytes)>
    ensures { result ≡ data_in (Ok message) }
{
    match message {
        Message::Data(data) => {
            let Data { channel, message } = data;
            Some((channel, message))
        }
        _ping => None,
    }
}

/// The channel and the bytes of a frame, as it was decoded.
fn message_of(decoded: Result<Message, CodecError>) -> Option<(u64, Bytes)>
    ensures { result ≡ data_in decoded }
{
    match decoded {
        Ok(message) => data_of(message),
        Err(_error) => None,
    }
}

/// The message of a copy.
fn arrive(copy: (u64, u64), message: Option<(u64, Bytes)>) -> Option<Arrived>
    ensures { result ≡ arrival_of copy message }
{
    let (channel, bytes) = message?;
    Some(Arrived {
        copy,
        channel,
        bytes,
    })
}

/// What came in the frame of a copy, as it was decoded.
fn message_arriving(copy: (u64, u64), decoded: Result<Message, CodecError>) -> Option<Arriving>
    ensures { result ≡ option_map Arriving.Message (arrival_of copy (data_in decoded)) }
{
    match arrive(copy, message_of(decoded)) {
        Some(arrived) => Some(Arriving::Message(arrived)),
        None => None,
    }
}

/// Whether a message is a ping.
fn is_ping(message: &Message) -> bool
    ensures { result ≡ ping_test (Ok message.now) }
{
    match message {
        Message::Ping => true,
        Message::Data(_) => false,
    }
}

/// Whether a frame is a ping, as it was decoded.
fn decodes_ping(decoded: Result<Message, CodecError>) -> bool
    ensures { result ≡ ping_test decoded }
{
    match decoded {
        Ok(message) => is_ping(&message),
        Err(_error) => false,
    }
}

/// What came in a frame that is no copy's, as it was decoded.
fn ping_arriving(decoded: Result<Message, CodecError>) -> Option<Arriving>
    ensures { result ≡ cond (ping_test decoded) (Some Arriving.Ping) None }
{
    if decodes_ping(decoded) {
        return Some(Arriving::Ping);
    }
    None
}

/// What came over a connection in an item, where that is a frame with at most `limit` bytes of data: a copy's message, or a ping.
pub fn open(item: &Item, limit: usize) -> Result<Option<Arriving>, AllocError>
    ensures { IfOk result (λ arriving. arriving ≡ arrival_in limit item.now) }
{
    match item {
        Item::Frame { copy, frame } => {
            let decoded = Message::decode(frame.clone()?, limit);
            match copy {
                Some(copy) => Ok(message_arriving(*copy, decoded)),
                None => Ok(ping_arriving(decoded)),
            }
        }
        _ => Ok(None),
    }
}

/// What came over a connection and is held in an item until its quota admits it.
pub fn reopen(item: &Item) -> Result<Option<Arriving>, AllocError>
    ensures { IfOk result (λ arriving. arriving ≡ held_arrival item.now) }
{
    match item {
        Item::Held {
            channel,
            bytes,
            copy,
        } => {
            let bytes = bytes.clone()?;
            Ok(Some(Arriving::Message(Arrived {
                copy: *copy,
                channel: *channel,
                bytes,
            })))
        }
        Item::Ping => Ok(Some(Arriving::Ping)),
        _ => Ok(None),
    }
}

/// What came over a connection, as it is held until its quota admits it.
pub fn hold(arriving: Arriving) -> Item
    ensures { result ≡ held_item arriving }
{
    match arriving {
        Arriving::Message(arrived) => {
            let Arrived {
                copy,
                channel,
                bytes,
            } = arrived;
            Item::Held {
                channel,
                bytes,
                copy,
            }
        }
        Arriving::Ping => Item::Ping,
    }
}
