//! The text of items and puts.
ghost use Rattle.std.specs.Prelude.{◌≡◌, OnOk};
ghost use Rattle.std.specs.String.{string_bytes};
ghost use Rattle.p2p_sim_report.specs.ItemText.{subscribe_onto, ready_onto, content_start_onto, content_onto, copy_onto, frame_onto, held_onto, message_onto};

use crate::peers::{put_peer_set, put_update};
use crate::text::{ToText, put, put_flag, put_hex, put_list, put_number};
use crate::tracker_item::{
    put_acceptable, put_arrival, put_ask_acceptable, put_ask_dial, put_ask_listen, put_call,
    put_connect, put_dial, put_dialable, put_finished, put_listen, put_release, put_resolved,
    put_spawn,
};
use p2p_base::Key;
use p2p_log::{Item, Queue};
use std::alloc::AllocError;

fn put_subscribe(out: &mut String, channel: u64) -> Result<(), AllocError>
    ensures { OnOk result (string_bytes out.new ≡ subscribe_onto (string_bytes out.old) channel) }
{
    put(out, "{\"subscribe\":")?;
    put_number(out, channel)?;
    put(out, "}")
}

fn put_ready(out: &mut String, conn: u64, key: Key) -> Result<(), AllocError>
    ensures { OnOk result (string_bytes out.new ≡ ready_onto (string_bytes out.old) conn key) }
{
    put(out, "{\"ready\":{\"conn\":")?;
    put_number(out, conn)?;
    put(out, ",\"key\":")?;
    key.write_onto(out)?;
    put(out, "}}")
}

fn put_content_start(
    out: &mut String,
    channel: u64,
    frame: &[u8],
    priority: bool,
) -> Result<(), AllocError>
    ensures { OnOk result (string_bytes out.new ≡ content_start_onto (string_bytes out.old) channel frame.now priority) }
{
    put(out, "{\"content\":{\"channel\":")?;
    put_number(out, channel)?;
    put(out, ",\"frame\":")?;
    put_hex(out, frame)?;
    put(out, ",\"priority\":")?;
    put_flag(out, priority)?;
    put(out, ",\"send\":")
}

fn put_content(
    out: &mut String,
    channel: u64,
    frame: &[u8],
    priority: bool,
    send: u64,
    to: &[Key],
) -> Result<(), AllocError>
    ensures { OnOk result (string_bytes out.new ≡ content_onto (string_bytes out.old) channel frame.now priority send to.now) }
{
    put_content_start(out, channel, frame, priority)?;
    put_number(out, send)?;
    put(out, ",\"to\":")?;
    put_list(out, to)?;
    put(out, "}}")
}

fn put_copy(out: &mut String, copy: Option<(u64, u64)>) -> Result<(), AllocError>
    ensures { OnOk result (string_bytes out.new ≡ copy_onto (string_bytes out.old) copy) }
{
    match copy {
        Some(name) => name.write_onto(out),
        None => put(out, "null"),
    }
}

fn put_frame(out: &mut String, copy: Option<(u64, u64)>, frame: &[u8]) -> Result<(), AllocError>
    ensures { OnOk result (string_bytes out.new ≡ frame_onto (string_bytes out.old) copy frame.now) }
{
    put(out, "{\"copy\":")?;
    put_copy(out, copy)?;
    put(out, ",\"frame\":")?;
    put_hex(out, frame)?;
    put(out, "}")
}

// A message that is held until its channel's quota admits it.
fn put_held(
    out: &mut String,
    channel: u64,
    bytes: &[u8],
    copy: (u64, u64),
) -> Result<(), AllocError>
    ensures { OnOk result (string_bytes out.new ≡ held_onto (string_bytes out.old) channel bytes.now copy) }
{
    put(out, "{\"bytes\":")?;
    put_hex(out, bytes)?;
    put(out, ",\"channel\":")?;
    put_number(out, channel)?;
    put(out, ",\"copy\":")?;
    copy.write_onto(out)?;
    put(out, "}")
}

fn put_message(
    out: &mut String,
    bytes: &[u8],
    copy: (u64, u64),
    from: Key,
) -> Result<(), AllocError>
    ensures { OnOk result (string_bytes out.new ≡ message_onto (string_bytes out.old) bytes.now copy from) }
{
    put(out, "{\"bytes\":")?;
    put_hex(out, bytes)?;
    put(out, ",\"copy\":")?;
    copy.write_onto(out)?;
    put(out, ",\"from\":")?;
    from.write_onto(out)?;
    put(out, "}")
}

impl ToText for Item {
    ghost use Rattle.p2p_sim_report.specs.ItemText.{item_onto};

    ghost onto = { item_onto };

    fn write_onto(&self, out: &mut String) -> Result<(), AllocError> {
        match self {
            Item::Subscribe(channel) => put_subscribe(out, *channel),
            Item::Ready { conn, key } => put_ready(out, *conn, *key),
            Item::Content {
                channel,
                frame,
                priority,
                send,
                to,
            } => put_content(
                out,
                *channel,
                frame.as_slice(),
                *priority,
                *send,
                to.as_slice(),
            ),
            Item::Peers(keys) => put_list(out, keys.as_slice()),
            Item::RouterAnswer => put(out, "true"),
            Item::Frame { copy, frame } => put_frame(out, *copy, frame.as_slice()),
            Item::Held {
                channel,
                bytes,
                copy,
            } => put_held(out, *channel, bytes.as_slice(), *copy),
            Item::Ping => put(out, "\"ping\""),
            Item::Message { bytes, copy, from } => put_message(out, bytes.as_slice(), *copy, *from),
            Item::Call(event) => put_call(out, *event),
            Item::Connect { conn, key } => put_connect(out, *conn, *key),
            Item::AskDialable => put(out, "{\"dialable\":true}"),
            Item::AskDial(key) => put_ask_dial(out, *key),
            Item::AskAcceptable { handshake, key } => put_ask_acceptable(out, *handshake, *key),
            Item::AskListen { handshake, key } => put_ask_listen(out, *handshake, *key),
            Item::Release(key) => put_release(out, *key),
            Item::Addresses(addresses) => put_list(out, addresses.as_slice()),
            Item::Dialable { next, peers } => put_dialable(out, *next, peers.as_slice()),
            Item::Dial(grant) => put_dial(out, grant),
            Item::Resolved(addresses) => put_resolved(out, addresses.as_slice()),
            Item::Linked => put(out, "\"linked\""),
            Item::Refused => put(out, "\"refused\""),
            Item::Finished(ok) => put_finished(out, *ok),
            Item::Arrival { from, key, link } => put_arrival(out, *from, *key, *link),
            Item::Acceptable(accepts) => put_acceptable(out, *accepts),
            Item::Listen(grant) => put_listen(out, *grant),
            Item::Spawn { key, link } => put_spawn(out, *key, *link),
            Item::Kill => put(out, "\"kill\""),
            Item::PeerSet(peers) => put_peer_set(out, peers),
            Item::PeerSetUpdate(update) => put_update(out, update),
            Item::Blocked(keys) => put_list(out, keys.as_slice()),
        }
    }
}

impl ToText for (Queue, Item) {
    ghost use Rattle.p2p_sim_report.specs.ItemText.{put_onto};

    ghost onto = { put_onto };

    fn write_onto(&self, out: &mut String) -> Result<(), AllocError> {
        put(out, "[")?;
        self.0.write_onto(out)?;
        put(out, ",")?;
        self.1.write_onto(out)?;
        put(out, "]")
    }
}
