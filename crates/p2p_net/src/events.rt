//! What each act does in a world: at the node that it names, or at the two that it brings together.
ghost use Rattle.std.specs.Prelude.{◌≡◌, ℕ, ◌<◌, ◌≤◌, length, slice_get, IfOk, Some};
ghost use Rattle.p2p_net_node.specs.Ready.{IsReady, MayPerform};
ghost use Rattle.p2p_net.specs.Events.{OneRecords, Meets, MeetingRecords, WorldRecords};
ghost use Rattle.p2p_net_node.specs.Meetings.{MeetsThere};
ghost use Rattle.p2p_net_node.specs.declared.node.Node.{Node};

use crate::applying::{apply_to, entry_of};
use p2p_log::{Entry, Event};
use p2p_log_rules::Row;
use p2p_net_dialing::{finish, link};
use p2p_net_links::Links;
use p2p_net_node::{Meeting, Node, meeting_of};
use std::alloc::{AllocError, Global};

/// Does an event at this node, the one that it names.
fn apply_at(
    alloc: Global,
    nodes: &mut Vec<Node>,
    links: &mut Links,
    entry: u64,
    node: u64,
    event: &Event,
) -> Result<Entry, AllocError>
    requires in_range { node < length nodes.old.items }
    requires ready { (x : Node) → slice_get nodes.old.items node ≡ Some x → IsReady event.now.act x }
    requires numbers { (n : ℕ) (x : Node) → slice_get nodes.old.items n ≡ Some x → x.router.number ≡ n }
    ensures { IfOk result (λ e. OneRecords entry node event.now nodes.old.items nodes.new.items links.old links.new e) }
{
    match apply_to(&mut nodes[node as usize], alloc, entry, event, links) {
        Ok(made) => Ok(made),
        Err(_) => Err(AllocError),
    }
}

/// Brings two nodes together.
fn meet(
    alloc: Global,
    nodes: &mut Vec<Node>,
    links: &mut Links,
    entry: u64,
    meeting: Meeting,
) -> Result<Row, AllocError>
    requires in_range { MeetsThere meeting nodes.old.items links.old }
    requires sizes { (n : ℕ) (x : Node) → slice_get nodes.old.items n ≡ Some x → 1 ≤ x.config.mailbox_size }
    ensures { IfOk result (λ r. Meets meeting entry nodes.old.items nodes.new.items links.old links.new r) }
{
    match meeting {
        Meeting::Link {
            attempt,
            from,
            ends,
        } => Ok(link(alloc, nodes, links, entry, attempt, from, ends)?),
        Meeting::Finish { link, ok } => Ok(finish(alloc, nodes, links, entry, link, ok)?),
        Meeting::Cut { link } => Ok(links.cut(alloc, link)?),
    }
}

/// Brings two nodes together for an event.
fn meet_at(
    alloc: Global,
    nodes: &mut Vec<Node>,
    links: &mut Links,
    entry: u64,
    event: &Event,
    meeting: Meeting,
) -> Result<Entry, AllocError>
    requires in_range { MeetsThere meeting nodes.old.items links.old }
    requires sizes { (n : ℕ) (x : Node) → slice_get nodes.old.items n ≡ Some x → 1 ≤ x.config.mailbox_size }
    ensures { IfOk result (λ e. MeetingRecords entry event.now meeting nodes.old.items nodes.new.items links.old links.new e) }
{
    let row = meet(alloc, nodes, links, entry, meeting)?;
    Ok(entry_of(alloc, event, row)?)
}

/// Does an event, and gives the entry that comes of it: at this node, which it names, or at the two that it brings together, the
/// dialing one first.
pub(crate) fn perform(
    alloc: Global,
    nodes: &mut Vec<Node>,
    links: &mut Links,
    entry: u64,
    node: u64,
    event: &Event,
) -> Result<Entry, AllocError>
    requires { MayPerform nodes.old.items links.old node event.now.act }
    ensures { IfOk result (λ e. WorldRecords entry node event.now nodes.old.items nodes.new.items links.old links.new e) }
{
    match meeting_of(&event.act) {
        Some(meeting) => Ok(meet_at(alloc, nodes, links, entry, event, meeting)?),
        None => Ok(apply_at(alloc, nodes, links, entry, node, event)?),
    }
}
