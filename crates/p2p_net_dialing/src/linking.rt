//! Linking an attempt of a node to the listener of a node.
ghost use Rattle.std.specs.Prelude.{◌≡◌, IfOk};
ghost use Rattle.p2p_net_dialing.specs.Linking.{arrives as arrives_test, IsLinked};
ghost use Rattle.p2p_net_node.specs.Meetings.{EndsThere};

use p2p_address::SocketAddr;
use p2p_log::Reply;
use p2p_log_rules::{Opening, Row};
use p2p_net_links::Links;
use p2p_net_node::{Ends, Node};
use p2p_net_queues::Turn;
use std::alloc::{AllocError, Global};

/// Whether a peer arrives, where an attempt is told this: of a link alone.
fn arrives(links: bool, reply: &Reply) -> bool
    ensures { result ≡ arrives_test links reply.now }
{
    match reply {
        Reply::Ok => links,
        _ => false,
    }
}

/// Links an attempt to the listener of a node, at which it arrives from this address, where that node is up.
pub fn link(
    alloc: Global,
    nodes: &mut Vec<Node>,
    links: &mut Links,
    entry: u64,
    attempt: u64,
    from: SocketAddr,
    ends: Ends,
) -> Result<Row, AllocError>
    requires in_range { EndsThere ends nodes.old.items }
    ensures { IfOk result (λ r. IsLinked entry attempt ends.dials ends.listens from nodes.old.items nodes.new.items links.old links.new r) }
{
    let runs = nodes[ends.listens as usize].is_up();
    let first = &mut nodes[ends.dials as usize];
    let key = first.config.public_key;
    let turn = Turn {
        alloc,
        entry,
        node: ends.dials,
    };
    let mut row = first.dialing.answer_dial(turn, attempt, runs)?;
    if !arrives(runs, &row.reply) {
        return Ok(row);
    }
    let turn = Turn {
        alloc,
        entry,
        node: ends.listens,
    };
    let second = &mut nodes[ends.listens as usize];
    second.listening.arrive(turn, &mut row, from, key)?;
    let opening = Opening {
        node: ends.dials,
        attempt,
        to: ends.listens,
    };
    links.open(entry, opening)?;
    Ok(row)
}
