//! Ending the exchange of keys over a link between two nodes.
ghost use Rattle.std.specs.Prelude.{◌≡◌, ◌<◌, length, Some, IfOk, OnOk};
ghost use Rattle.p2p_log_rules.specs.Links.{exchanged, is_dialed as is_dialed_test};
ghost use Rattle.p2p_log_rules.specs.declared.row.Opening.{Opening as Opened};
ghost use Rattle.p2p_net_queues.specs.Tables as table;
ghost use Rattle.p2p_net_dialing.specs.Finishing.{accepts_end, said, TellsEnd, TellsBoth, FinishesOver, IsFinished};

use p2p_base::Key;
use p2p_log::Reply;
use p2p_log_rules::{ListeningEnd, Opening, Row};
use p2p_net_links::Links;
use p2p_net_node::Node;
use p2p_net_queues::{Turn, only};
use std::alloc::{AllocError, Global};

/// Whether a key is the one that was dialed.
fn was_dialed(key: Key, dialed: Option<Key>) -> bool
    ensures { result ≡ is_dialed_test key dialed }
{
    match dialed {
        Some(dialed) => dialed == key,
        None => false,
    }
}

/// Whether keys were exchanged, by whether both ends stand, whether it is said so and the key is the one that was dialed, and
/// whether the listening side has accepted. `None` where that is waited for.
fn verdict(stand: bool, agree: bool, accepted: bool) -> Option<bool>
    ensures { result ≡ exchanged stand agree accepted }
{
    if !stand || !agree {
        return Some(false);
    }
    if accepted { Some(true) } else { None }
}

/// Whether the handshake that has the listening end of a link took that its peer may connect.
fn accepts(node: &Node, end: Option<ListeningEnd>) -> bool
    ensures { result ≡ accepts_end end node.now }
{
    match end {
        Some(ListeningEnd::Handshake(handshake)) => node.listening.accepts(handshake),
        _ => false,
    }
}

/// What an attempt that dialed this key and the listening end at this node come to, by whether their link was cut.
fn verdict_at(
    node: &Node,
    ok: bool,
    cut: bool,
    dialed: Option<Key>,
    end: Option<ListeningEnd>,
) -> Option<bool>
    ensures { result ≡ said ok cut dialed end node.now }
{
    let stand = dialed.is_some() && end.is_some() && !cut;
    let agree = ok && was_dialed(node.config.public_key, dialed);
    verdict(stand, agree, accepts(node, end))
}

/// Tells the handshake that has the listening end of a link whether keys were exchanged, as the row's next put.
fn tell_end(
    node: &mut Node,
    turn: Turn,
    end: Option<ListeningEnd>,
    ok: bool,
    row: &mut Row,
) -> Result<(), AllocError>
    ensures { OnOk result (TellsEnd end turn.entry turn.node ok node.old node.new row.old row.new) }
{
    match end {
        Some(ListeningEnd::Handshake(handshake)) => {
            node.listening
                .finish(handshake, ok, &mut node.tracker.mailbox)?;
            node.tracker.tell_finished(turn, handshake, ok, row)?;
            Ok(())
        }
        _ => Ok(()),
    }
}

/// Tells the attempt of a link, and what has its listening end, whether keys were exchanged.
fn tell_both(
    alloc: Global,
    nodes: &mut Vec<Node>,
    entry: u64,
    opening: Opening,
    ok: bool,
    end: Option<ListeningEnd>,
) -> Result<Row, AllocError>
    requires first_in_range { opening.node < length nodes.old.items }
    requires second_in_range { opening.to < length nodes.old.items }
    ensures { IfOk result (λ r. TellsBoth entry opening ok end nodes.old.items nodes.new.items r) }
{
    let mut row = only(alloc, Reply::Ok);
    let turn = Turn {
        alloc,
        entry,
        node: opening.node,
    };
    let first = &mut nodes[opening.node as usize];
    first.dialing.finish(turn, opening.attempt, ok, &mut row)?;
    let turn = Turn {
        alloc,
        entry,
        node: opening.to,
    };
    let second = &mut nodes[opening.to as usize];
    tell_end(second, turn, end, ok, &mut row)?;
    Ok(row)
}

/// Ends the exchange of keys over a link that is open.
fn finish_over(
    alloc: Global,
    nodes: &mut Vec<Node>,
    links: &mut Links,
    entry: u64,
    link: u64,
    opening: Opening,
    ok: bool,
) -> Result<Row, AllocError>
    requires first_in_range { opening.node < length nodes.old.items }
    requires second_in_range { opening.to < length nodes.old.items }
    ensures { IfOk result (λ r. FinishesOver entry link ok opening nodes.old.items nodes.new.items links.old links.new r) }
{
    let dialed = nodes[opening.node as usize]
        .dialing
        .dialed_key(opening.attempt);
    let second = &nodes[opening.to as usize];
    let end = second.listening.end_of(link);
    match verdict_at(second, ok, links.is_cut(link), dialed, end) {
        None => Ok(only(alloc, Reply::Pending)),
        Some(agree) => {
            links.finish(link);
            Ok(tell_both(alloc, nodes, entry, opening, agree, end)?)
        }
    }
}

/// Ends the exchange of keys over the link of this event, where that is open.
pub fn finish(
    alloc: Global,
    nodes: &mut Vec<Node>,
    links: &mut Links,
    entry: u64,
    link: u64,
    ok: bool,
) -> Result<Row, AllocError>
    requires in_range { (o : Opened) → table.at links.old.openings link ≡ Some o → (o.node < length nodes.old.items) × (o.to < length nodes.old.items) }
    ensures { IfOk result (λ r. IsFinished entry link ok nodes.old.items nodes.new.items links.old links.new r) }
{
    let Some(opening) = links.opening(link) else {
        return Ok(only(alloc, Reply::Gone));
    };
    Ok(finish_over(alloc, nodes, links, entry, link, opening, ok)?)
}
