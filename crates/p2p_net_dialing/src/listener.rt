//! One step of the listener.
ghost use Rattle.std.specs.Prelude.{◌≡◌, IfOk, OnOk};
ghost use Rattle.p2p_net_node.specs.Ready.{is_node_up};
ghost use Rattle.p2p_net_dialing.specs.Dialing.{Listens, ListenerStepsBy};

use crate::handing::drop_unless;
use p2p_log::{Reply, Side};
use p2p_log_rules::Row;
use p2p_net_gates::Took;
use p2p_net_links::Links;
use p2p_net_node::Node;
use p2p_net_queues::{Turn, only, taking};
use std::alloc::AllocError;

/// One step of the listener, at a moment, but for the end of the link whose arrival a gate refused, which is given beside the row.
fn listen(node: &mut Node, turn: Turn, at: u64) -> Result<(Row, Option<u64>), AllocError>
    ensures does { IfOk result (λ p. Listens turn.entry turn.node at node.old node.new p.0 p.1) }
    ensures failed { OnOk result (node.new.failed ≡ node.old.failed) }
{
    let way = &mut node.tracker.mailbox;
    match node.listening.step(turn.entry, way, at)? {
        None => Ok((only(turn.alloc, Reply::Idle), None)),
        Some(Took::Update) => Ok((node.tracker.take_update(turn)?, None)),
        Some(
            Took::Arrival {
                name,
                told,
                refused,
                asked,
            },
        ) => {
            let mut row = taking(turn.alloc, name)?;
            row.reply = Reply::Gates(told);
            node.tracker.put_message(turn, asked, &mut row)?;
            Ok((row, refused))
        }
    }
}

/// One step of the listener, at a moment. The end of an arrival that a gate refuses is dropped.
pub fn listen_step(
    node: &mut Node,
    turn: Turn,
    links: &mut Links,
    at: u64,
) -> Result<Row, AllocError>
    ensures does { IfOk result (λ r. ListenerStepsBy (is_node_up node.old) turn.entry turn.node at node.old node.new links.old links.new r) }
    ensures failed { OnOk result (node.new.failed ≡ node.old.failed) }
{
    if !node.is_up() {
        return Ok(only(turn.alloc, Reply::Gone));
    }
    let (mut row, refused) = listen(node, turn, at)?;
    drop_unless(turn.alloc, links, false, refused, Side::In, &mut row)?;
    Ok(row)
}
