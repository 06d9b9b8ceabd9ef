//! The frames that two peers of a network exchange, and the prefix that tells the subchannels of one
//! channel apart.
#![tactic(auto)]

mod encoded;
mod error;
mod frame;
mod subchannel;
mod varint;

pub use encoded::{EncodedData, MAX_PAYLOAD_OVERHEAD, max_message_size, max_size};
pub use error::CodecError;
pub use frame::{DATA_PREFIX, Data, Message, PING_PREFIX};
pub use subchannel::{parse, prefix, prefixed};
