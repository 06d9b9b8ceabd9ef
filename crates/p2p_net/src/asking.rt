//! What was requested of the nodes so far, which valid input goes by.
ghost use Rattle.std.specs.Prelude.{◌≡◌, [], length, IfOk, OnOk};
ghost use Rattle.p2p_log.specs.declared.config.Config.{Config};
ghost use Rattle.p2p_net_node.specs.Places.{node_of as node_of_act};
ghost use Rattle.p2p_net_node.specs.Requested.{AreRequested};
ghost use Rattle.p2p_net.specs.Requesting.{MayNoteAt, NotesAt};

use crate::naming::node_of;
use p2p_log::{Config, Entry, Event};
use p2p_net_node::{Node, Requested};
use std::alloc::{AllocError, Global};

/// Of as many nodes as there are configurations nothing was requested.
pub(crate) fn new_requests(alloc: Global, configs: &[Config]) -> Result<Vec<Requested>, AllocError>
    ensures { IfOk result (λ rs. AreRequested configs.now [] rs.items) }
{
    let mut requested = Vec::new(alloc);
    for _index in 0..configs.len() {
        requested.push(Requested::new(alloc))?;
    }
    Ok(requested)
}

/// Notes what an event that may be asked for requests of the node that it names, after these entries.
pub(crate) fn note(
    nodes: &[Node],
    requested: &mut Vec<Requested>,
    log: &[Entry],
    event: &Event,
) -> Result<(), AllocError>
    requires { MayNoteAt (node_of_act log.now event.now.act) nodes.now requested.old.items event.now.act }
    ensures { OnOk result (NotesAt (node_of_act log.now event.now.act) nodes.now event.now.act requested.old.items requested.new.items) }
{
    let number = node_of(log, &event.act) as usize;
    requested[number].note(&nodes[number], &event.act)?;
    Ok(())
}
