//! The text of replies.
ghost use Rattle.std.specs.Prelude.{◌≡◌, OnOk};
ghost use Rattle.std.specs.String.{string_bytes};
ghost use Rattle.p2p_sim_report.specs.ReplyText.{capacity_onto, sent_onto, checked_onto, retry_onto, outcome_onto, received_onto, feedback_onto, too_large_onto, answered_onto, updated_onto, blocked_onto, limited_onto, gates_onto, ended_onto};

use crate::peers::{put_peer_set, put_update};
use crate::text::{ToText, put, put_flag, put_hex, put_list, put_number};
use crate::tracker_item::put_digits;
use p2p_base::{Feedback, Key, Unreliable};
use p2p_flow::{PeerSetUpdate, TrackedPeers};
use p2p_log::{Ended, Reply};
use p2p_tracker_calls::gates::Reply as GatesReply;
use std::alloc::AllocError;

fn put_capacity(out: &mut String, capacity: u64) -> Result<(), AllocError>
    ensures { OnOk result (string_bytes out.new ≡ capacity_onto (string_bytes out.old) capacity) }
{
    put(out, "{\"capacity\":")?;
    put_number(out, capacity)?;
    put(out, "}")
}

fn put_sent(out: &mut String, keys: &[Key]) -> Result<(), AllocError>
    ensures { OnOk result (string_bytes out.new ≡ sent_onto (string_bytes out.old) keys.now) }
{
    put(out, "{\"sent\":")?;
    put_list(out, keys)?;
    put(out, "}")
}

fn put_checked(out: &mut String, keys: &[Key]) -> Result<(), AllocError>
    ensures { OnOk result (string_bytes out.new ≡ checked_onto (string_bytes out.old) keys.now) }
{
    put(out, "{\"checked\":")?;
    put_list(out, keys)?;
    put(out, "}")
}

fn put_retry(out: &mut String, moment: u128) -> Result<(), AllocError>
    ensures { OnOk result (string_bytes out.new ≡ retry_onto (string_bytes out.old) moment) }
{
    put(out, "{\"retry\":")?;
    put_digits(out, moment)?;
    put(out, "}")
}

fn put_outcome(out: &mut String, outcome: Unreliable) -> Result<(), AllocError>
    ensures { OnOk result (string_bytes out.new ≡ outcome_onto (string_bytes out.old) outcome) }
{
    match outcome {
        Unreliable::Outcome(Feedback::Ok) => put(out, "{\"outcome\":\"ok\"}"),
        Unreliable::Outcome(Feedback::Backoff) => put(out, "{\"outcome\":\"backoff\"}"),
        Unreliable::Outcome(Feedback::Closed) => put(out, "{\"outcome\":\"closed\"}"),
        Unreliable::Rejected => put(out, "{\"outcome\":\"rejected\"}"),
    }
}

fn put_received(out: &mut String, bytes: &[u8], from: Key) -> Result<(), AllocError>
    ensures { OnOk result (string_bytes out.new ≡ received_onto (string_bytes out.old) bytes.now from) }
{
    put(out, "{\"message\":{\"bytes\":")?;
    put_hex(out, bytes)?;
    put(out, ",\"from\":")?;
    from.write_onto(out)?;
    put(out, "}}")
}

fn put_feedback(out: &mut String, feedback: Feedback) -> Result<(), AllocError>
    ensures { OnOk result (string_bytes out.new ≡ feedback_onto (string_bytes out.old) feedback) }
{
    match feedback {
        Feedback::Ok => put(out, "{\"feedback\":\"ok\"}"),
        Feedback::Backoff => put(out, "{\"feedback\":\"backoff\"}"),
        Feedback::Closed => put(out, "{\"feedback\":\"closed\"}"),
    }
}

// How much there is, and how much there may be, after the words.
fn put_too_large(out: &mut String, words: &str, count: u64, limit: u64) -> Result<(), AllocError>
    ensures { OnOk result (string_bytes out.new ≡ too_large_onto (string_bytes out.old) words.now count limit) }
{
    put(out, words)?;
    put_number(out, count)?;
    put(out, ",")?;
    put_number(out, limit)?;
    put(out, "]}")
}

fn put_answered(out: &mut String, peers: &Option<TrackedPeers<Key>>) -> Result<(), AllocError>
    ensures { OnOk result (string_bytes out.new ≡ answered_onto (string_bytes out.old) peers.now) }
{
    put(out, "{\"peer_set\":")?;
    put_peer_set(out, peers)?;
    put(out, "}")
}

fn put_updated(out: &mut String, update: &PeerSetUpdate<Key>) -> Result<(), AllocError>
    ensures { OnOk result (string_bytes out.new ≡ updated_onto (string_bytes out.old) update.now) }
{
    put(out, "{\"update\":")?;
    put_update(out, update)?;
    put(out, "}")
}

fn put_blocked(out: &mut String, keys: &[Key]) -> Result<(), AllocError>
    ensures { OnOk result (string_bytes out.new ≡ blocked_onto (string_bytes out.old) keys.now) }
{
    put(out, "{\"blocked\":")?;
    put_list(out, keys)?;
    put(out, "}")
}

fn put_limited(out: &mut String, ip: bool, subnet: bool) -> Result<(), AllocError>
    ensures { OnOk result (string_bytes out.new ≡ limited_onto (string_bytes out.old) ip subnet) }
{
    put(out, "{\"limited\":[")?;
    put_flag(out, ip)?;
    put(out, ",")?;
    put_flag(out, subnet)?;
    put(out, "]}")
}

fn put_gates(out: &mut String, told: GatesReply) -> Result<(), AllocError>
    ensures { OnOk result (string_bytes out.new ≡ gates_onto (string_bytes out.old) told) }
{
    match told {
        GatesReply::Private => put(out, "\"private\""),
        GatesReply::Unregistered => put(out, "\"unregistered\""),
        GatesReply::Limited { ip, subnet } => put_limited(out, ip, subnet),
        GatesReply::TooMany => put(out, "\"too_many\""),
        GatesReply::Admitted => put(out, "\"admitted\""),
    }
}

fn put_ended(out: &mut String, why: Ended) -> Result<(), AllocError>
    ensures { OnOk result (string_bytes out.new ≡ ended_onto (string_bytes out.old) why) }
{
    match why {
        Ended::Killed => put(out, "{\"ended\":\"killed\"}"),
        Ended::SendFailed => put(out, "{\"ended\":\"send_failed\"}"),
        Ended::ReceiveFailed => put(out, "{\"ended\":\"receive_failed\"}"),
        Ended::DecodeFailed => put(out, "{\"ended\":\"decode_failed\"}"),
        Ended::InvalidChannel => put(out, "{\"ended\":\"invalid_channel\"}"),
    }
}

impl ToText for Reply {
    ghost use Rattle.p2p_sim_report.specs.ReplyText.{reply_onto};

    ghost onto = { reply_onto };

    fn write_onto(&self, out: &mut String) -> Result<(), AllocError> {
        match self {
            Reply::Ok => put(out, "\"ok\""),
            Reply::Idle => put(out, "\"idle\""),
            Reply::Pending => put(out, "\"pending\""),
            Reply::Gone => put(out, "\"gone\""),
            Reply::Capacity(capacity) => put_capacity(out, *capacity as u64),
            Reply::Sent(keys) => put_sent(out, keys.as_slice()),
            Reply::Checked(keys) => put_checked(out, keys.as_slice()),
            Reply::Retry(moment) => put_retry(out, *moment),
            Reply::Outcome { outcome, .. } => put_outcome(out, *outcome),
            Reply::Message { bytes, from } => put_received(out, bytes.as_slice(), *from),
            Reply::MessageTooLarge { size, limit } => {
                put_too_large(out, "{\"message_too_large\":[", *size as u64, *limit as u64)
            }
            Reply::Feedback(feedback) => put_feedback(out, *feedback),
            Reply::PeerSetTooLarge { count, limit } => {
                put_too_large(
                    out,
                    "{\"peer_set_too_large\":[",
                    *count as u64,
                    *limit as u64,
                )
            }
            Reply::PeerSet(peers) => put_answered(out, peers),
            Reply::Update(update) => put_updated(out, update),
            Reply::Blocked(keys) => put_blocked(out, keys.as_slice()),
            Reply::Gates(told) => put_gates(out, *told),
            Reply::Ended(why) => put_ended(out, *why),
            Reply::NetworkClosed => put(out, "\"network_closed\""),
            Reply::StreamEnded => put(out, "\"stream_ended\""),
        }
    }
}
