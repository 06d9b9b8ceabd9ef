//! One step of the dialer.
ghost use Rattle.std.specs.Prelude.{◌≡◌, IfOk, OnOk};
ghost use Rattle.p2p_net_node.specs.Ready.{is_node_up};
ghost use Rattle.p2p_net_dialing.specs.Dialing.{DialerStepsBy};

use p2p_log::Reply;
use p2p_log_rules::Row;
use p2p_net_gates::Dialed;
use p2p_net_node::Node;
use p2p_net_queues::{Turn, only};
use std::alloc::AllocError;

/// One step of the dialer, at a moment and with a seed.
pub fn dial_step(node: &mut Node, turn: Turn, at: u64, seed: u64) -> Result<Row, AllocError>
    ensures does { IfOk result (λ r. DialerStepsBy (is_node_up node.old) turn.entry turn.node at seed node.old node.new r) }
    ensures failed { OnOk result (node.new.failed ≡ node.old.failed) }
{
    if !node.is_up() {
        return Ok(only(turn.alloc, Reply::Gone));
    }
    let way = &mut node.tracker.mailbox;
    let done = node.dialing.step(turn.alloc, turn.entry, way, at, seed)?;
    match done {
        None => Ok(only(turn.alloc, Reply::Idle)),
        Some(Dialed { took, asked }) => Ok(node.tracker.dialed(turn, took, asked)?),
    }
}
