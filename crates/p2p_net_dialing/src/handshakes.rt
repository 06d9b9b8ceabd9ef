//! One step of a handshake of the listener.
ghost use Rattle.std.specs.Prelude.{◌≡◌, ◌<◌, true, is_some, IfOk, OnOk};
ghost use Rattle.p2p_net_queues.specs.Tables as table;
ghost use Rattle.std.specs.List.{list_any};
ghost use Rattle.p2p_log_rules.specs.Puts.{is_spawn};
ghost use Rattle.p2p_net_dialing.specs.Dialing.{Shakes, HandshakeSteps};

use crate::handing::{drop_unless, hand_on};
use p2p_log::{Item, Queue, Reply, Side};
use p2p_log_rules::Row;
use p2p_net_gates::HandshakeStep;
use p2p_net_links::Links;
use p2p_net_node::Node;
use p2p_net_queues::{Turn, only};
use std::alloc::AllocError;

/// Whether a connection is to be made among these.
fn makes_connection(puts: &[(Queue, Item)]) -> bool
    ensures { result ≡ list_any is_spawn puts.now }
{
    for put in puts {
        if let Item::Spawn { .. } = &put.1 {
            return true;
        }
    }
    false
}

/// One step of a handshake of the listener, at a moment, but for the end of its link.
fn shake(node: &mut Node, turn: Turn, handshake: u64, at: u64) -> Result<Row, AllocError>
    requires places { is_some (table.at node.old.listening.handshakes handshake) ≡ true
        → 0 < node.old.listening.actor.places.held }
    ensures does { IfOk result (λ r. Shakes turn.entry turn.node handshake at node.old node.new r) }
    ensures failed { OnOk result (node.new.failed ≡ node.old.failed) }
{
    let way = &mut node.tracker.mailbox;
    match node.listening.handshake(handshake, way, at)? {
        HandshakeStep::Gone => Ok(only(turn.alloc, Reply::Gone)),
        HandshakeStep::Idle => Ok(only(turn.alloc, Reply::Idle)),
        HandshakeStep::Served {
            took,
            ended,
            asked,
            ready,
        } => {
            let mut row = node.tracker.handshake_step(turn, handshake, took, ended)?;
            hand_on(node, turn, asked, ready, &mut row)?;
            Ok(row)
        }
    }
}

/// One step of a handshake of the listener, at a moment. Where it ends without a connection, the end of its link is dropped.
pub fn handshake_step(
    node: &mut Node,
    turn: Turn,
    links: &mut Links,
    handshake: u64,
    at: u64,
) -> Result<Row, AllocError>
    requires places { is_some (table.at node.old.listening.handshakes handshake) ≡ true
        → 0 < node.old.listening.actor.places.held }
    ensures does { IfOk result (λ r. HandshakeSteps turn.entry turn.node handshake at node.old node.new links.old links.new r) }
    ensures failed { OnOk result (node.new.failed ≡ node.old.failed) }
{
    let link = node.listening.link_of(handshake);
    let mut row = shake(node, turn, handshake, at)?;
    let stands = node.listening.stands(handshake);
    let kept = stands || makes_connection(row.puts.as_slice());
    drop_unless(turn.alloc, links, kept, link, Side::In, &mut row)?;
    Ok(row)
}
