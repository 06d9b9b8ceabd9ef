//! The text of peer sets.
ghost use Rattle.std.specs.Prelude.{◌≡◌, OnOk};
ghost use Rattle.std.specs.String.{string_bytes};
ghost use Rattle.p2p_sim_report.specs.PeersText.{tracked_onto, peer_set_onto, update_onto};

use crate::text::{put, put_list, put_number};
use p2p_base::Key;
use p2p_flow::{PeerSetUpdate, TrackedPeers};
use std::alloc::AllocError;

fn put_tracked(out: &mut String, peers: &TrackedPeers<Key>) -> Result<(), AllocError>
    ensures { OnOk result (string_bytes out.new ≡ tracked_onto (string_bytes out.old) peers.now) }
{
    put(out, "{\"primary\":")?;
    put_list(out, peers.primary.as_slice())?;
    put(out, ",\"secondary\":")?;
    put_list(out, peers.secondary.as_slice())?;
    put(out, "}")
}

pub fn put_peer_set(out: &mut String, peers: &Option<TrackedPeers<Key>>) -> Result<(), AllocError>
    ensures { OnOk result (string_bytes out.new ≡ peer_set_onto (string_bytes out.old) peers.now) }
{
    match peers {
        Some(peers) => put_tracked(out, peers),
        None => put(out, "null"),
    }
}

pub fn put_update(out: &mut String, update: &PeerSetUpdate<Key>) -> Result<(), AllocError>
    ensures { OnOk result (string_bytes out.new ≡ update_onto (string_bytes out.old) update.now) }
{
    put(out, "{\"all\":")?;
    put_tracked(out, &update.all)?;
    put(out, ",\"index\":")?;
    put_number(out, update.index)?;
    put(out, ",\"latest\":")?;
    put_tracked(out, &update.latest)?;
    put(out, "}")
}
