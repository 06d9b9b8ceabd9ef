//! How errors and values print.
use p2p_address::{Address, Ingress, IpAddr, SocketAddr};
use p2p_base::{Key, List, SetError, Text};
use p2p_flow::{Ended, TrackError};
use p2p_runtime::{Failed, LinkFault};
use p2p_wire::CodecError;
use std::alloc::{AllocError, Global};
use std::fmt::{Debug, Display};

// Whether a value prints as this text.
fn prints<T: Display>(alloc: Global, value: &T, text: &str) -> Result<bool, AllocError> {
    Ok(value.to_string(alloc)?.as_str() == text)
}

const ERRORS: [(CodecError, &str); 6] = [
    (CodecError::EndOfBuffer, "the bytes end early"),
    (CodecError::InvalidEnum(2), "2 is no known kind"),
    (
        CodecError::InvalidLength(5),
        "a length of 5 is above the limit",
    ),
    (CodecError::InvalidVarint(8), "no varint of 8 bytes"),
    (CodecError::ExtraData(1), "1 bytes too many"),
    (CodecError::Memory, "out of memory"),
];

// The place of the first of them that prints as another text than the one beside it. `None` where each prints as it should.
fn first_other(alloc: Global) -> Result<Option<usize>, AllocError> {
    for (i, row) in ERRORS.iter().enumerate() {
        if !prints(alloc, &row.0, row.1)? {
            return Ok(Some(i));
        }
    }
    Ok(None)
}

#[test]
fn errors_tell_their_cause(rt: HostRuntime) {
    let alloc = rt.alloc();
    assert!(rt; first_other(alloc) == Ok(None));
    let large = TrackError::PeerSetTooLarge { count: 3, limit: 2 };
    assert!(rt; prints(alloc, &large, "peer set too large: 3 > 2") == Ok(true));
    assert!(rt; prints(alloc, &SetError::Duplicate, "duplicate key") == Ok(true));
    assert!(rt; prints(alloc, &LinkFault::Failed, "link failed") == Ok(true));
    assert!(rt; prints(alloc, &Failed, "stream failed") == Ok(true));
    assert!(rt; prints(alloc, &Ended, "stream ended") == Ok(true));
    assert!(rt; prints(alloc, &Key(300), "300") == Ok(true));
}

// Whether a value is shown as this text.
fn is_shown<T: Debug>(alloc: Global, value: &T, text: &str) -> Result<bool, AllocError> {
    Ok(format!(in alloc; "{value:?}")?.as_str() == text)
}

const ASYMMETRIC: &str =
    r#"Asymmetric { ingress: Dns { host: "peer.example", port: 1 }, egress: SocketAddr { ip: V4([11, 0, 0, 1]), port: 80 } }"#;

// Whether an address is shown by its parts, its name in quotes.
fn is_address_shown(alloc: Global) -> Result<bool, AllocError> {
    let host = Text::from_str(alloc, "peer.example")?;
    let ip = IpAddr::V4([11, 0, 0, 1]);
    let both = Address::Asymmetric {
        ingress: Ingress::Dns { host, port: 1 },
        egress: SocketAddr { ip, port: 80 },
    };
    is_shown(alloc, &both, ASYMMETRIC)
}

// Whether a list is shown as a slice.
fn is_list_shown(alloc: Global) -> Result<bool, AllocError> {
    let list = List::from_slice(alloc, &[Key(1), Key(2)])?;
    is_shown(alloc, &list, "[Key(1), Key(2)]")
}

#[test]
fn an_address_is_shown_by_its_parts_and_a_list_as_a_slice(rt: HostRuntime) {
    assert!(rt; is_address_shown(rt.alloc()) == Ok(true));
    assert!(rt; is_list_shown(rt.alloc()) == Ok(true));
}
