//! One step of an attempt of the dialer.
ghost use Rattle.std.specs.Prelude.{◌≡◌, IfOk, OnOk};
ghost use Rattle.p2p_log_rules.specs.Puts.{gave_up};
ghost use Rattle.p2p_net_dialing.specs.Dialing.{TriesAttempt, AttemptSteps};

use crate::handing::{drop_unless, hand_on, release_of};
use p2p_log::{Item, Queue, Side};
use p2p_log_rules::Row;
use p2p_net_gates::Tried;
use p2p_net_links::Links;
use p2p_net_node::Node;
use p2p_net_queues::Turn;
use std::alloc::AllocError;

/// Whether a reservation is given back among these.
fn gives_up(puts: &[(Queue, Item)]) -> bool
    ensures { result ≡ gave_up puts.now }
{
    for put in puts {
        if let Item::Release(_) = &put.1 {
            return true;
        }
    }
    false
}

/// One step of an attempt of the dialer, at a moment and with a seed, but for the end of its link.
fn try_attempt(
    node: &mut Node,
    turn: Turn,
    attempt: u64,
    at: u64,
    seed: u64,
) -> Result<Row, AllocError>
    ensures does { IfOk result (λ r. TriesAttempt turn.entry turn.node attempt at seed node.old node.new r) }
    ensures failed { OnOk result (node.new.failed ≡ node.old.failed) }
{
    let way = &mut node.tracker.mailbox;
    let tried = node.dialing.attempt(turn.alloc, attempt, way, at, seed)?;
    let Tried {
        mut row,
        released,
        ready,
    } = tried;
    hand_on(node, turn, release_of(released), ready, &mut row)?;
    Ok(row)
}

/// One step of an attempt of the dialer, at a moment and with a seed. Where it gives its reservation back, the end of its link
/// is dropped.
pub fn attempt_step(
    node: &mut Node,
    turn: Turn,
    links: &mut Links,
    attempt: u64,
    at: u64,
    seed: u64,
) -> Result<Row, AllocError>
    ensures does { IfOk result (λ r. AttemptSteps turn.entry turn.node attempt at seed node.old node.new links.old links.new r) }
    ensures failed { OnOk result (node.new.failed ≡ node.old.failed) }
{
    let link = node.dialing.link(attempt);
    let mut row = try_attempt(node, turn, attempt, at, seed)?;
    let kept = !gives_up(row.puts.as_slice());
    drop_unless(turn.alloc, links, kept, link, Side::Out, &mut row)?;
    Ok(row)
}
