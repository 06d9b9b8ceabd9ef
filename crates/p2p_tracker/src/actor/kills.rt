//! Connections that have to end.
ghost use Rattle.std.specs.Prelude.{◌≡◌, ◌++◌, cond, Some, None, OnOk};
ghost use Rattle.p2p_tracker_calls.specs.Sets.{is_among};
ghost use Rattle.std.specs.Map.{lookup, remove_entry};
ghost use Rattle.std.specs.BTreeMap.{is_at};
ghost use Rattle.p2p_tracker.specs.Telling.{kill_put, kills_put, without_keys};

use crate::Put;
use p2p_base::PublicKey;
use std::alloc::AllocError;
use std::collections::BTreeMap;

// Kills the connection of a peer, if one is kept, and forgets it.
pub(super) fn kill<C: PublicKey>(
    controls: &mut BTreeMap<C, u64>,
    peer: &C,
    put: &mut Vec<Put<C>>,
) -> Result<(), AllocError>
    ensures put { OnOk result (put.new.items ≡ put.old.items ++ kill_put peer.now (lookup (is_at (C.cmp peer.now)) controls.old.entries)) }
    ensures controls { controls.new.entries ≡ remove_entry (is_at (C.cmp peer.now)) controls.old.entries }
    ensures each { (q : C) → lookup (is_at (C.cmp q)) controls.new.entries ≡ cond (is_at (C.cmp peer.now) q) None (lookup (is_at (C.cmp q)) controls.old.entries) }
{
    if let Some(conn) = controls.remove(peer) {
        put.push(Put::Kill { peer: *peer, conn })?;
    }
    Ok(())
}

// Forgets the connection of a peer.
pub(super) fn forget<C: PublicKey>(controls: &mut BTreeMap<C, u64>, peer: &C)
    ensures controls { controls.new.entries ≡ remove_entry (is_at (C.cmp peer.now)) controls.old.entries }
    ensures each { (q : C) → lookup (is_at (C.cmp q)) controls.new.entries ≡ cond (is_at (C.cmp peer.now) q) None (lookup (is_at (C.cmp q)) controls.old.entries) }
{
    controls.remove(peer);
}

// Keeps the connection of a peer, in place of any that was kept.
pub(super) fn keep<C: PublicKey>(
    controls: &mut BTreeMap<C, u64>,
    peer: C,
    conn: u64,
) -> Result<(), AllocError>
    ensures { OnOk result ((q : C) → lookup (is_at (C.cmp q)) controls.new.entries
        ≡ cond (is_at (C.cmp peer) q) (Some conn) (lookup (is_at (C.cmp q)) controls.old.entries)) }
{
    controls.insert(peer, conn)?;
    Ok(())
}

// Kills the connections of these peers, as far as they are kept, in their order, and forgets them.
pub(super) fn kill_all<C: PublicKey>(
    controls: &mut BTreeMap<C, u64>,
    peers: &[C],
    put: &mut Vec<Put<C>>,
) -> Result<(), AllocError>
    ensures put { OnOk result (put.new.items ≡ put.old.items ++ kills_put C.cmp controls.old.entries peers.now) }
    ensures controls { OnOk result (controls.new.entries ≡ without_keys C.cmp controls.old.entries peers.now) }
    ensures each { OnOk result ((q : C) → lookup (is_at (C.cmp q)) controls.new.entries
        ≡ cond (is_among C.cmp peers.now q) None (lookup (is_at (C.cmp q)) controls.old.entries)) }
{
    for peer in peers {
        kill(controls, peer, put)?;
    }
    Ok(())
}
