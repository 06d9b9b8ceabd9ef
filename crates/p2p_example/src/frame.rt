//! `p2p_wire`: the frame of a message, and what it is decoded to.
use anyhow::Result;
use bytes::Bytes;
use p2p_wire::{Data, Message};
use std::alloc::Global;

/// A frame of data is the byte 0, the channel, the length and the message. Both numbers are spelled with seven bits a byte, so each of these
/// two is one byte: 7 and 4. The message follows as it is.
pub fn show(rt: &impl Print, alloc: Global) -> Result<()> {
    println!(rt; "frame")?;
    let message = Message::Data(Data {
        channel: 7,
        message: Bytes::from_static(b"ping"),
    });
    // `encode` asks for a message of fewer than 2 ^ 32 bytes, and this one is seen to have four.
    let frame = message.encode(alloc)?;
    println!(rt; "  bytes: {:?}", frame.as_slice())?;
    decode(rt, frame.clone()?, 4)?;
    decode(rt, frame, 3)?;
    decode(rt, Bytes::from_static(&[1]), 4)?;
    decode(rt, Bytes::from_static(&[2]), 4)
}

/// Decodes a frame with at most so many bytes of message, and prints that message, or the first fault from the left.
fn decode(rt: &impl Print, frame: Bytes, limit: usize) -> Result<()> {
    match Message::decode(frame, limit) {
        Ok(Message::Data(data)) => println!(rt;
            "  within {limit}: channel {}, message {:?}",
            data.channel,
            data.message.as_slice()
        )?,
        Ok(Message::Ping) => println!(rt; "  within {limit}: a ping")?,
        Err(fault) => println!(rt; "  within {limit}: {fault}")?,
    }
    Ok(())
}
