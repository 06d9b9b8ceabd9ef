//! Frames, prefixes and sizes, and the answers to bytes that are none.
ghost use Rattle.p2p_wire.specs.Frame.{IsEncodable};

use bytes::Bytes;
use p2p_wire::{
    CodecError, Data, EncodedData, Message, max_message_size, max_size, parse, prefix, prefixed,
};
use std::alloc::{AllocError, Global};

// Whether a message is written as these bytes, and whether these are read as it, where a message has at most four bytes.
fn is_carried(
    alloc: Global,
    message: &Message,
    bytes: &'static [u8],
) -> Result<(bool, bool), AllocError>
    requires { IsEncodable message.now }
{
    let written = message.encode(alloc)?.as_slice() == bytes;
    match Message::decode(Bytes::from_static(bytes), 4) {
        Ok(found) => Ok((written, found == *message)),
        Err(_) => Ok((written, false)),
    }
}

#[test]
fn messages_and_pings_have_their_frames(rt: HostRuntime) {
    let data = Message::from(Data {
        channel: 7,
        message: Bytes::from_static(b"ping"),
    });
    assert!(rt; is_carried(rt.alloc(), &data, b"\x00\x07\x04ping") == Ok((true, true)));
    assert!(rt; is_carried(rt.alloc(), &Message::Ping, b"\x01") == Ok((true, true)));
}

// Bytes that are no frame of at most four bytes, and why.
const REFUSED: [(&[u8], CodecError); 6] = [
    (b"\x00\x09\x05hello", CodecError::InvalidLength(5)),
    (b"\x00\x80\x00", CodecError::InvalidVarint(8)),
    (b"\x01\x00", CodecError::ExtraData(1)),
    (b"\x02", CodecError::InvalidEnum(2)),
    (b"", CodecError::EndOfBuffer),
    (b"\x00\x07\x04p", CodecError::EndOfBuffer),
];

// The place of the first of them that is refused for another reason, or not. `None` where each is for its own.
fn first_other() -> Option<usize> {
    for (i, row) in REFUSED.iter().enumerate() {
        if Message::decode(Bytes::from_static(row.0), 4).err() != Some(row.1) {
            return Some(i);
        }
    }
    None
}

#[test]
fn bytes_are_refused_for_their_reason(rt: HostRuntime) {
    assert!(rt; first_other().is_none());
}

// Whether these bytes are the prefix 300 before `hi`.
fn is_parsed(bytes: &'static [u8]) -> bool {
    match parse(Bytes::from_static(bytes)) {
        Ok((number, message)) => number == 300 && message.as_slice() == b"hi".as_slice(),
        Err(_) => false,
    }
}

// Whether 300 is written as its prefix, it is read before a message, and bytes that end early or spell no number are none.
fn prefixes(alloc: Global) -> Result<[bool; 5], AllocError> {
    let written = prefix(alloc, 300)?.as_slice() == b"\xAC\x02".as_slice();
    let early = parse(Bytes::new()).err() == Some(CodecError::EndOfBuffer);
    let odd = parse(Bytes::from_static(b"\x80\x00")).err() == Some(CodecError::InvalidVarint(8));
    Ok([
        written,
        is_parsed(b"\xAC\x02hi"),
        early,
        odd,
        prefixed(2) == 12,
    ])
}

// The channel of a message that is encoded once, and whether its bytes are those of its frame.
fn encoded(alloc: Global) -> Result<(u64, bool), AllocError> {
    let encoded = EncodedData::new(alloc, 7, Bytes::from_static(b"hello"))?;
    let is_frame = encoded.payload.as_slice() == b"\x00\x07\x05hello".as_slice();
    Ok((encoded.channel, is_frame))
}

#[test]
fn a_message_has_its_prefix_its_frame_and_its_size(rt: HostRuntime) {
    assert!(rt; prefixes(rt.alloc()) == Ok([true; 5]));
    assert!(rt; encoded(rt.alloc()) == Ok((7, true)));
    assert!(rt; [max_size(15), max_size(16)] == [None, Some(0)]);
    assert!(rt; [max_message_size(&[]), max_message_size(&[4, 9])] == [Some(0), Some(9)]);
}
