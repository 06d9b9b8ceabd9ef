//! The text of what a node's tracker is asked, of what it answers, of what attempts and handshakes are told, of what
//! listeners take, and of what spawners are to make.
ghost use Rattle.std.specs.Prelude.{◌≡◌, OnOk};
ghost use Rattle.std.specs.String.{string_bytes};
ghost use Rattle.p2p_sim_report.specs.TrackerItemText.{call_onto, connect_onto, ask_dial_onto, ask_acceptable_onto, ask_listen_onto, release_onto, digits_onto, next_onto, dialable_onto, granted_onto, dial_onto, acceptable_onto, listen_onto, resolved_onto, finished_onto, arrival_onto, spawn_onto};

use crate::address::put_ingress;
use crate::text::{ToText, put, put_count, put_flag, put_list, put_number};
use p2p_address::{Ingress, SocketAddr};
use p2p_base::Key;
use std::alloc::AllocError;

pub fn put_call(out: &mut String, event: u64) -> Result<(), AllocError>
    ensures { OnOk result (string_bytes out.new ≡ call_onto (string_bytes out.old) event) }
{
    put(out, "{\"call\":")?;
    put_number(out, event)?;
    put(out, "}")
}

pub fn put_connect(out: &mut String, conn: u64, key: Key) -> Result<(), AllocError>
    ensures { OnOk result (string_bytes out.new ≡ connect_onto (string_bytes out.old) conn key) }
{
    put(out, "{\"connect\":{\"conn\":")?;
    put_number(out, conn)?;
    put(out, ",\"key\":")?;
    key.write_onto(out)?;
    put(out, "}}")
}

pub fn put_ask_dial(out: &mut String, key: Key) -> Result<(), AllocError>
    ensures { OnOk result (string_bytes out.new ≡ ask_dial_onto (string_bytes out.old) key) }
{
    put(out, "{\"dial\":")?;
    key.write_onto(out)?;
    put(out, "}")
}

pub fn put_ask_acceptable(out: &mut String, handshake: u64, key: Key) -> Result<(), AllocError>
    ensures { OnOk result (string_bytes out.new ≡ ask_acceptable_onto (string_bytes out.old) handshake key) }
{
    put(out, "{\"acceptable\":{\"handshake\":")?;
    put_number(out, handshake)?;
    put(out, ",\"key\":")?;
    key.write_onto(out)?;
    put(out, "}}")
}

pub fn put_ask_listen(out: &mut String, handshake: u64, key: Key) -> Result<(), AllocError>
    ensures { OnOk result (string_bytes out.new ≡ ask_listen_onto (string_bytes out.old) handshake key) }
{
    put(out, "{\"listen\":{\"handshake\":")?;
    put_number(out, handshake)?;
    put(out, ",\"key\":")?;
    key.write_onto(out)?;
    put(out, "}}")
}

pub fn put_release(out: &mut String, key: Key) -> Result<(), AllocError>
    ensures { OnOk result (string_bytes out.new ≡ release_onto (string_bytes out.old) key) }
{
    put(out, "{\"release\":")?;
    key.write_onto(out)?;
    put(out, "}")
}

pub fn put_digits(out: &mut String, number: u128) -> Result<(), AllocError>
    ensures { OnOk result (string_bytes out.new ≡ digits_onto (string_bytes out.old) number) }
{
    put(out, "\"")?;
    put_count(out, number)?;
    put(out, "\"")
}

fn put_next(out: &mut String, next: Option<u128>) -> Result<(), AllocError>
    ensures { OnOk result (string_bytes out.new ≡ next_onto (string_bytes out.old) next) }
{
    match next {
        Some(moment) => put_digits(out, moment),
        None => put(out, "null"),
    }
}

pub fn put_dialable(out: &mut String, next: Option<u128>, peers: &[Key]) -> Result<(), AllocError>
    ensures { OnOk result (string_bytes out.new ≡ dialable_onto (string_bytes out.old) next peers.now) }
{
    put(out, "{\"dialable\":{\"next\":")?;
    put_next(out, next)?;
    put(out, ",\"peers\":")?;
    put_list(out, peers)?;
    put(out, "}}")
}

fn put_granted(out: &mut String, key: Key, ingress: &Ingress) -> Result<(), AllocError>
    ensures { OnOk result (string_bytes out.new ≡ granted_onto (string_bytes out.old) key ingress.now) }
{
    put(out, "{\"dial\":{\"ingress\":")?;
    put_ingress(out, ingress)?;
    put(out, ",\"key\":")?;
    key.write_onto(out)?;
    put(out, "}}")
}

pub fn put_dial(out: &mut String, grant: &Option<(Key, Ingress)>) -> Result<(), AllocError>
    ensures { OnOk result (string_bytes out.new ≡ dial_onto (string_bytes out.old) grant.now) }
{
    match grant {
        Some((key, ingress)) => put_granted(out, *key, ingress),
        None => put(out, "{\"dial\":null}"),
    }
}

pub fn put_acceptable(out: &mut String, accepts: bool) -> Result<(), AllocError>
    ensures { OnOk result (string_bytes out.new ≡ acceptable_onto (string_bytes out.old) accepts) }
{
    put(out, "{\"acceptable\":")?;
    put_flag(out, accepts)?;
    put(out, "}")
}

pub fn put_listen(out: &mut String, grant: Option<Key>) -> Result<(), AllocError>
    ensures { OnOk result (string_bytes out.new ≡ listen_onto (string_bytes out.old) grant) }
{
    put(out, "{\"listen\":")?;
    put_flag(out, grant.is_some())?;
    put(out, "}")
}

pub fn put_resolved(out: &mut String, addresses: &[SocketAddr]) -> Result<(), AllocError>
    ensures { OnOk result (string_bytes out.new ≡ resolved_onto (string_bytes out.old) addresses.now) }
{
    put(out, "{\"addresses\":")?;
    put_list(out, addresses)?;
    put(out, "}")
}

pub fn put_finished(out: &mut String, ok: bool) -> Result<(), AllocError>
    ensures { OnOk result (string_bytes out.new ≡ finished_onto (string_bytes out.old) ok) }
{
    put(out, "{\"finished\":")?;
    put_flag(out, ok)?;
    put(out, "}")
}

pub fn put_arrival(
    out: &mut String,
    from: SocketAddr,
    key: Key,
    link: u64,
) -> Result<(), AllocError>
    ensures { OnOk result (string_bytes out.new ≡ arrival_onto (string_bytes out.old) from key link) }
{
    put(out, "{\"from\":")?;
    from.write_onto(out)?;
    put(out, ",\"key\":")?;
    key.write_onto(out)?;
    put(out, ",\"link\":")?;
    put_number(out, link)?;
    put(out, "}")
}

pub fn put_spawn(out: &mut String, key: Key, link: u64) -> Result<(), AllocError>
    ensures { OnOk result (string_bytes out.new ≡ spawn_onto (string_bytes out.old) key link) }
{
    put(out, "{\"spawn\":{\"key\":")?;
    key.write_onto(out)?;
    put(out, ",\"link\":")?;
    put_number(out, link)?;
    put(out, "}}")
}
