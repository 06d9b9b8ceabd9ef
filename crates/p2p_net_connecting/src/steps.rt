//! The steps of the router, of the tracker and of the spawner.
ghost use Rattle.std.specs.Prelude.{◌≡◌, ℕ, true, IfOk, OnOk, IfSome};
ghost use Rattle.p2p_log_rules.specs.Tracking.{key_cmp};
ghost use Rattle.p2p_tracker_mailbox.specs.Desk.{next_message};
ghost use Rattle.p2p_tracker.specs.Serving.{MayTake};
ghost use Rattle.p2p_net_node.specs.Ready.{is_node_up};
ghost use Rattle.p2p_net_connecting.specs.Steps.{TrackerStepsBy, Routes, SpawnerStepsBy};

use p2p_log::Reply;
use p2p_log_rules::Row;
use p2p_net_connections::Taken;
use p2p_net_node::Node;
use p2p_net_queues::{Turn, only, taking};
use std::alloc::AllocError;

/// One step of the router. Its answers to connections wait for these.
pub fn route(node: &mut Node, turn: Turn) -> Result<Row, AllocError>
    ensures does { IfOk result (λ r. Routes turn.entry turn.node node.old node.new r) }
    ensures failed { OnOk result (node.new.failed ≡ node.old.failed) }
{
    if !node.is_up() {
        return Ok(only(turn.alloc, Reply::Gone));
    }
    let row = node.router.step(turn)?;
    node.connections.answer(turn, row.puts.as_slice())?;
    Ok(row)
}

/// One step of the tracker, at a moment and with a seed.
pub fn track_step(node: &mut Node, turn: Turn, at: u64, seed: u64) -> Result<Row, AllocError>
    requires { is_node_up node.old ≡ true → (now : ℕ) → IfSome (next_message node.old.tracker.mailbox.desk) (λ m. MayTake key_cmp node.old.tracker.actor.directory m now) }
    ensures does { IfOk result (λ r. TrackerStepsBy (is_node_up node.old) turn.entry turn.node at seed node.old node.new r) }
    ensures failed { OnOk result (node.new.failed ≡ node.old.failed) }
{
    if !node.is_up() {
        return Ok(only(turn.alloc, Reply::Gone));
    }
    Ok(node.tracker.step(turn, at, seed)?)
}

/// One step of the spawner: the oldest message of its mailbox makes a connection.
pub fn spawn_step(node: &mut Node, turn: Turn) -> Result<Row, AllocError>
    ensures does { IfOk result (λ r. SpawnerStepsBy (is_node_up node.old) turn.entry node.old node.new r) }
    ensures failed { OnOk result (node.new.failed ≡ node.old.failed) }
{
    if !node.is_up() {
        return Ok(only(turn.alloc, Reply::Gone));
    }
    let Some(
        Taken {
            name,
            link,
            reservation,
        },
    ) = node.spawning.take()
    else {
        return Ok(only(turn.alloc, Reply::Idle));
    };
    let often = node.config.ping_frequency;
    node.connections.spawn(turn, link, reservation, often)?;
    let row = taking(turn.alloc, name)?;
    Ok(row)
}
