//! Payloads of a discovered network: spellings that were made by hand, and the answers to bytes that are none.

use bytes::Bytes;
use p2p_address::{Ingress, IpAddr, SocketAddr};
use p2p_base::{Key, List, Text};
use p2p_discovery::{BitVec, Info, Payload, PayloadConfig, max_gossip_size, signed_bytes};
use p2p_wire::{CodecError, Data};
use std::alloc::{AllocError, Global};
use std::test::Fail;

// At most 10 bits, 2 infos, and 4 bytes of a message.
const LIMITS: PayloadConfig = PayloadConfig {
    max_bit_vec: 10,
    max_peers: 2,
    max_data_length: 4,
};

// Whether a payload is written as these bytes, and whether these are read as it.
fn is_carried(
    alloc: Global,
    payload: &Payload<Key>,
    bytes: &'static [u8],
) -> Result<(bool, bool), AllocError> {
    let written = payload.encode(alloc)?.as_slice() == bytes;
    match Payload::decode(alloc, Bytes::from_static(bytes), &LIMITS) {
        Ok(found) => Ok((written, found == *payload)),
        Err(_) => Ok((written, false)),
    }
}

fn message() -> Payload<Key> {
    Payload::Data(Data {
        channel: 7,
        message: Bytes::from_static(b"ping"),
    })
}

#[test]
fn data_have_their_frame(rt: HostRuntime) {
    assert!(rt; is_carried(rt.alloc(), &message(), b"\x00\x07\x04ping") == Ok((true, true)));
}

fn socket_info(alloc: Global) -> Result<Info<Key>, AllocError> {
    Ok(Info {
        ingress: Ingress::Socket(SocketAddr {
            ip: IpAddr::V4([10, 0, 0, 1]),
            port: 3000,
        }),
        timestamp: 300,
        public_key: Key(2),
        signature: List::from_slice(alloc, b"hi")?,
    })
}

fn name_info(alloc: Global) -> Result<Info<Key>, AllocError> {
    Ok(Info {
        ingress: Ingress::Dns {
            host: Text::from_str(alloc, "a.b")?,
            port: 80,
        },
        timestamp: 0,
        public_key: Key(258),
        signature: List::empty(alloc),
    })
}

const GREETING: &[u8] =
    b"\x01\x00\x04\x0a\x00\x00\x01\x0b\xb8\xac\x02\x00\x00\x00\x00\x00\x00\x00\x02\x02hi";

#[test]
fn a_greeting_has_its_spelling(rt: HostRuntime) -> Result<(), Fail> {
    let greeting = Payload::Greeting(socket_info(rt.alloc())?);
    assert!(rt; is_carried(rt.alloc(), &greeting, GREETING) == Ok((true, true)));
    Ok(())
}

const PEERS: &[u8] = b"\x03\x02\
    \x00\x04\x0a\x00\x00\x01\x0b\xb8\xac\x02\x00\x00\x00\x00\x00\x00\x00\x02\x02hi\
    \x01\x03a.b\x00\x50\x00\x00\x00\x00\x00\x00\x00\x01\x02\x00";

#[test]
fn peers_have_their_spelling(rt: HostRuntime) -> Result<(), Fail> {
    let mut infos = List::empty(rt.alloc());
    infos.push(socket_info(rt.alloc())?)?;
    infos.push(name_info(rt.alloc())?)?;
    assert!(rt; is_carried(rt.alloc(), &Payload::Peers(infos), PEERS) == Ok((true, true)));
    Ok(())
}

#[test]
fn a_bit_vector_has_its_spelling(rt: HostRuntime) -> Result<(), Fail> {
    let bits = [
        true, false, false, true, false, false, false, false, true, false,
    ];
    let bits = List::from_slice(rt.alloc(), &bits)?;
    let bit_vec = Payload::BitVec(BitVec { index: 5, bits });
    assert!(rt; is_carried(rt.alloc(), &bit_vec, b"\x02\x05\x0a\x09\x01") == Ok((true, true)));
    Ok(())
}

// Bytes that are no payload within the limits, and why.
const REFUSED: [(&[u8], CodecError); 21] = [
    (b"", CodecError::EndOfBuffer),
    (b"\x04", CodecError::InvalidEnum(4)),
    (b"\x00\x09\x05hello", CodecError::InvalidLength(5)),
    (b"\x01", CodecError::EndOfBuffer),
    (b"\x01\x02", CodecError::InvalidEnum(2)),
    (b"\x01\x00\x05", CodecError::InvalidEnum(5)),
    (b"\x01\x00\x04\x0a", CodecError::EndOfBuffer),
    (b"\x01\x01\xfe\x01", CodecError::InvalidLength(254)),
    (b"\x01\x01\x01\xff", CodecError::InvalidEnum(1)),
    (b"\x01\x01\x80\x00", CodecError::InvalidVarint(4)),
    (
        b"\x01\x01\x80\x80\x80\x80\x10",
        CodecError::InvalidVarint(4),
    ),
    (b"\x01\x01\x80\x80\x80\x80", CodecError::EndOfBuffer),
    (
        b"\x01\x01\x80\x80\x80\x80\x80",
        CodecError::InvalidVarint(4),
    ),
    (
        b"\x01\x01\x01a\x00\x50\x80\x00",
        CodecError::InvalidVarint(8),
    ),
    (b"\x02\x80\x00", CodecError::InvalidVarint(8)),
    (b"\x02\x05\x0b", CodecError::InvalidLength(11)),
    (b"\x02\x05\x0a\x09", CodecError::EndOfBuffer),
    (b"\x02\x05\x0a\x09\x04", CodecError::InvalidEnum(4)),
    (b"\x02\x05\x0a\x09\x01\x00", CodecError::ExtraData(1)),
    (b"\x03\x03", CodecError::InvalidLength(3)),
    (
        b"\x01\x01\x01a\x00\x50\x00\x00\x00\x00\x00\x00\x00\x00\x01\x81\x01",
        CodecError::InvalidLength(129),
    ),
];

// The place of the first of them that is refused for another reason, or not. `None` where each is for its own.
fn first_other(alloc: Global) -> Option<usize> {
    for (i, row) in REFUSED.iter().enumerate() {
        let read: Result<Payload<Key>, CodecError> = Payload::decode(
            alloc,
            Bytes::from_static(row.0),
            &LIMITS,
        );
        if read.err() != Some(row.1) {
            return Some(i);
        }
    }
    None
}

#[test]
fn bytes_are_refused_for_their_reason(rt: HostRuntime) {
    assert!(rt; first_other(rt.alloc()).is_none());
}

#[test]
fn gossip_has_its_greatest_size(rt: HostRuntime) {
    assert!(rt; max_gossip_size::<Key>(2, 32) == Some(12_998));
    assert!(rt; max_gossip_size::<Key>(4_000, 1) == Some(521));
    assert!(rt; max_gossip_size::<Key>(0, 0) == Some(407));
    assert!(rt; max_gossip_size::<Key>(0, usize::MAX).is_none());
}

#[test]
fn a_peer_signs_its_ingress_and_the_moment(rt: HostRuntime) -> Result<(), Fail> {
    let info = socket_info(rt.alloc())?;
    let bytes = signed_bytes(rt.alloc(), &info.ingress, info.timestamp)?;
    let wanted = b"\x00\x04\x0a\x00\x00\x01\x0b\xb8\x00\x00\x00\x00\x00\x00\x01\x2c".as_slice();
    assert!(rt; bytes.as_slice() == wanted);
    Ok(())
}

#[test]
fn a_payload_is_cloned_part_by_part(rt: HostRuntime) -> Result<(), Fail> {
    let info = name_info(rt.alloc())?;
    assert!(rt; info.try_clone(rt.alloc())? == info);
    let bits = BitVec {
        index: 1,
        bits: List::from_slice(rt.alloc(), &[true])?,
    };
    assert!(rt; bits.try_clone(rt.alloc())? == bits);
    Ok(())
}
