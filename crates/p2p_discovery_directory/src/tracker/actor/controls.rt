//! The connections that are kept, and which of them have to end.
ghost use Rattle.std.specs.Prelude.{◌≡◌, ◌++◌, OnOk};
ghost use Rattle.std.specs.Map.{lookup, remove_entry};
ghost use Rattle.std.specs.BTreeMap.{is_at, insert_entry};
ghost use Rattle.p2p_discovery_directory.specs.Putting.{standing_of, kill_put, kills_put, without_keys};

use super::Put;
use crate::tracker::standing::Standing;
use p2p_base::PublicKey;
use std::alloc::AllocError;
use std::collections::BTreeMap;

// What is made of what the connection of a peer tells or asks, by whether the peer is eligible.
pub(super) fn standing<P: PublicKey>(
    controls: &BTreeMap<P, u64>,
    peer: &P,
    is_eligible: bool,
) -> Standing
    ensures { result ≡ standing_of (lookup (is_at (P.cmp peer.now)) controls.now.entries) is_eligible }
{
    match controls.get(peer) {
        Some(conn) if is_eligible => Standing::Kept(*conn),
        Some(conn) => Standing::Barred(*conn),
        None => Standing::Unknown,
    }
}

// Kills the connection of a peer, if one is kept, and forgets it.
pub(super) fn kill<P: PublicKey>(
    controls: &mut BTreeMap<P, u64>,
    peer: &P,
    put: &mut Vec<Put<P>>,
) -> Result<(), AllocError>
    ensures put { OnOk result (put.new.items ≡ put.old.items ++ kill_put peer.now (lookup (is_at (P.cmp peer.now)) controls.old.entries)) }
    ensures controls { controls.new.entries ≡ remove_entry (is_at (P.cmp peer.now)) controls.old.entries }
{
    if let Some(conn) = controls.remove(peer) {
        put.push(Put::Kill { peer: *peer, conn })?;
    }
    Ok(())
}

// Kills the connections of these peers, as far as they are kept, in their order, and forgets them.
pub(super) fn kill_all<P: PublicKey>(
    controls: &mut BTreeMap<P, u64>,
    peers: &[P],
    put: &mut Vec<Put<P>>,
) -> Result<(), AllocError>
    ensures put { OnOk result (put.new.items ≡ put.old.items ++ kills_put P.cmp controls.old.entries peers.now) }
    ensures controls { OnOk result (controls.new.entries ≡ without_keys P.cmp controls.old.entries peers.now) }
{
    for peer in peers {
        kill(controls, peer, put)?;
    }
    Ok(())
}
