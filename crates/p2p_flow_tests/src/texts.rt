//! How errors and labels print.
use p2p_base::Key;
use p2p_flow_connection::Error as Ended;
use p2p_flow_senders::channels::Error::NetworkClosed;
use p2p_flow_senders::{RegisterError, SendError};
use p2p_lookup::peer::Error;
use p2p_mux::Error as Muxed;
use p2p_mux::labels::{Message, MessageType, Peer};
use p2p_wire::CodecError;
use std::alloc::{AllocError, Global};
use std::fmt::Display;

// Whether a value prints as this text.
fn prints<T: Display>(alloc: Global, value: &T, text: &str) -> Result<bool, AllocError> {
    Ok(value.to_string(alloc)?.as_str() == text)
}

#[test]
fn errors_of_senders_and_muxers_tell_their_cause(rt: HostRuntime) {
    let alloc = rt.alloc();
    assert!(rt; prints(alloc, &NetworkClosed, "network closed") == Ok(true));
    let large = SendError::MessageTooLarge { size: 5, limit: 4 };
    assert!(rt; prints(alloc, &large, "message too large: 5 > 4") == Ok(true));
    assert!(rt; prints(alloc, &SendError::NoSubchannel, "no subchannel") == Ok(true));
    let twice = RegisterError::DuplicateChannel(9);
    assert!(rt; prints(alloc, &twice, "duplicate channel: 9") == Ok(true));
    let many = RegisterError::CapacityOverflow { bound: 3, burst: 2 };
    assert!(rt; prints(alloc, &many, "capacity overflow: 3 * 2") == Ok(true));
    let again = Muxed::AlreadyRegistered(5);
    assert!(rt; prints(alloc, &again, "subchannel already registered: 5") == Ok(true));
    assert!(rt; prints(alloc, &Muxed::Closed, "muxer is closed") == Ok(true));
    assert!(rt; prints(alloc, &Muxed::RecvFailed, "recv failed") == Ok(true));
}

// The place of the first end that prints as another text. `None` where each prints as it should.
fn first_other_end(
    alloc: Global,
    ends: &[(Error<Key>, &str)],
) -> Result<Option<usize>, AllocError> {
    for (i, end) in ends.iter().enumerate() {
        if !prints(alloc, &end.0, end.1)? {
            return Ok(Some(i));
        }
    }
    Ok(None)
}

#[test]
fn each_end_of_a_connection_has_its_text(rt: HostRuntime) {
    let ends: [(Error<Key>, &str); 6] = [
        (Error::Connection(Ended::Killed(Key(7))), "peer killed: 7"),
        (Error::Connection(Ended::Disconnected), "peer disconnected"),
        (Error::Connection(Ended::InvalidChannel), "invalid channel"),
        (Error::SendFailed, "send failed"),
        (Error::ReceiveFailed, "receive failed"),
        (
            Error::DecodeFailed(CodecError::EndOfBuffer),
            "decode failed",
        ),
    ];
    assert!(rt; first_other_end(rt.alloc(), &ends) == Ok(None));
    assert!(rt; prints(rt.alloc(), &Ended::Killed(Key(3)), "peer killed: 3") == Ok(true));
}

// The place of the first label that isn't of key 2, or prints as another text.
fn first_other_label(
    alloc: Global,
    labels: &[(Message<Key>, &str)],
) -> Result<Option<usize>, AllocError> {
    for (i, label) in labels.iter().enumerate() {
        if label.0.peer != Key(2) || !prints(alloc, &label.0.message, label.1)? {
            return Ok(Some(i));
        }
    }
    Ok(None)
}

#[test]
fn kinds_of_messages_print_their_labels(rt: HostRuntime) {
    let peer = Key(2);
    let labels = [
        (Message::new_data(&peer, 7), "data_7"),
        (Message::new_ping(&peer), "ping"),
        (Message::new_greeting(&peer), "greeting"),
        (Message::new_bit_vec(&peer), "bit_vec"),
        (Message::new_peers(&peer), "peers"),
        (Message::new_invalid(&peer), "invalid"),
    ];
    assert!(rt; first_other_label(rt.alloc(), &labels) == Ok(None));
    assert!(rt; Peer { peer } == Peer { peer: Key(2) });
    assert!(rt; MessageType::Data(7) != MessageType::Data(8));
}
