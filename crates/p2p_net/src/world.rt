//! The world: all nodes and links, with the log of what was asked of them and what came of it.
ghost use Rattle.std.specs.Prelude.{◌≡◌, ◌≤◌, ◌++◌, ◌∷◌, [], List, length, slice_get, IfOk, OnOk, OnErr, IfErr, Err, true, false, None};
ghost use Rattle.std.specs.Option.{option_copied};
ghost use Rattle.p2p_log.specs.declared.config.Config.{Config};
ghost use Rattle.p2p_log.specs.declared.entry.Entry.{Entry};
ghost use Rattle.p2p_log_rules.specs.Facts.{events_of, latest_moment};
ghost use Rattle.p2p_log_rules.specs.Effect.{effect};
ghost use Rattle.p2p_log_rules.specs.Lawful.{IsLawful};
ghost use Rattle.p2p_log_rules.specs.Valid.{config_fault as config_fault_of, event_fault, is_valid_event};
ghost use Rattle.p2p_log_laws.specs.Accounted.{IsAccounted};
ghost use Rattle.p2p_net_links.specs.Links.{no_links};
ghost use Rattle.p2p_net_node.specs.Places.{node_of as node_of_act};
ghost use Rattle.p2p_net_node.specs.Ready.{may_apply, MayPerform};
ghost use Rattle.p2p_net_node.specs.Stands.{WorldStands};
ghost use Rattle.p2p_net.specs.World.{IsRecorded, Stands};
ghost use Rattle.p2p_net.specs.Refusals.{StartRefused, ApplyRefused, RunRefused};
ghost use Rattle.p2p_net.specs.declared.error.RunError.TheVariants as error;

use crate::asking::{new_requests, note};
use crate::error::RunError;
use crate::events::perform;
use crate::naming::node_of;
use crate::valid::is_valid;
use p2p_base::List;
use p2p_log::{Config, Entry, Event, Report};
use p2p_net_links::Links;
use p2p_net_node::{Node, Requested, config_fault};
use std::alloc::{AllocError, Global};
use std::marker::Model;

/// All nodes of a network and the links between them, with the log of what was asked of them and what came of it.
///
/// A caller sees its configurations, its nodes and links, its log, and whether it found no memory.
pub struct World {
    alloc: Global,
    configs: List<Config>,
    nodes: Vec<Node>,
    requested: Vec<Requested>,
    links: Links,
    report: Report,
    last: u64,
    failed: bool,
}

impl Drop for World {
    fn drop(self) {
        let World {
            alloc: _alloc,
            configs: _configs,
            nodes: _nodes,
            requested: _requested,
            links: _links,
            report: _report,
            last: _last,
            failed: _failed,
        } = self;
    }
}

impl Model for World {
    ghost use Rattle.std.specs.Prelude.{◌≡◌, false};
    ghost use Rattle.std.specs.Coded.{codes};
    ghost use Rattle.p2p_net_node.specs.contracts.node.Node as node_type;
    ghost use Rattle.p2p_net.specs.World.{WorldView, KeptStands};

    ghost Value = { WorldView };

    ghost coded = { Prim.hlevel (codes, node_type.the_row.coded) };

    ghost view = { λ w. record { configs = w.configs; nodes = w.nodes.items; links = w.links; log = w.report.log; failed = w.failed } };

    ghost invariant = { λ w. w.failed ≡ false → KeptStands w.configs w.report.log w.nodes.items w.requested.items w.links w.last };
}

/// Asks for one event that may be asked for, and records what came of it.
fn record(
    alloc: Global,
    nodes: &mut Vec<Node>,
    links: &mut Links,
    report: &mut Report,
    event: &Event,
) -> Result<(), AllocError>
    requires { MayPerform nodes.old.items links.old (node_of_act report.old.log event.now.act) event.now.act }
    ensures ok { OnOk result ((configs : List Config) → WorldStands configs report.old.log nodes.old.items links.old
        → IsLawful configs (events_of report.old.log) report.old.log → is_valid_event configs (events_of report.old.log) event.now ≡ true
        → latest_moment (events_of report.old.log) ≤ event.now.at → IsRecorded configs report.old.log event.now report.new.log nodes.new.items links.new) }
    ensures err { OnErr result (report.new.log ≡ report.old.log) }
{
    let entry = report.log.len() as u64;
    let node = node_of(report.log.as_slice(), &event.act);
    report
        .log
        .push(perform(alloc, nodes, links, entry, node, event)?)?;
    Ok(())
}

/// Whether an event may be asked for, and else its place.
fn allow(
    nodes: &[Node],
    requested: &[Requested],
    report: &Report,
    last: u64,
    event: &Event,
) -> Result<(), RunError>
    ensures ok { OnOk result (may_apply nodes.now requested.now report.now.log last event.now ≡ true) }
    ensures err { IfErr result (λ e. (e ≡ RunError.Event (length report.now.log)) × (may_apply nodes.now requested.now report.now.log last event.now ≡ false)) }
{
    if !is_valid(nodes, requested, report.log.as_slice(), last, event) {
        return Err(RunError::Event(report.log.len()));
    }
    Ok(())
}

/// The nodes of valid configurations, none of which was asked for anything.
fn new_nodes(alloc: Global, configs: &[Config]) -> Result<Vec<Node>, AllocError>
    requires { config_fault_of configs.now ≡ None }
    ensures { IfOk result (λ nodes. WorldStands configs.now [] nodes.items no_links) }
{
    let mut nodes = Vec::new(alloc);
    for number in 0..configs.len() {
        nodes.push(Node::new(alloc, number as u64, configs[number])?)?;
    }
    Ok(nodes)
}

impl World {
    /// A world of these configurations in which nothing was asked.
    ///
    /// Where a configuration is not valid, `RunError::Config` has the place of the first one. Where there is no
    /// memory, the answer is `RunError::Memory`.
    pub fn new(alloc: Global, configs: &[Config]) -> Result<World, RunError>
        ensures configs { IfOk result (λ w. w.configs ≡ configs.now) }
        ensures log { IfOk result (λ w. w.log ≡ []) }
        ensures works { IfOk result (λ w. w.failed ≡ false) }
        ensures stands { IfOk result (λ w. WorldStands w.configs w.log w.nodes w.links) }
        ensures valid { OnOk result (config_fault_of configs.now ≡ None) }
        ensures err { IfErr result (λ e. StartRefused configs.now e) }
    {
        if let Some(place) = config_fault(alloc, configs)? {
            return Err(RunError::Config(place));
        }
        let nodes = new_nodes(alloc, configs)?;
        let requested = new_requests(alloc, configs)?;
        let kept = List::from_slice(alloc, configs)?;
        Ok(World {
            alloc,
            configs: kept,
            nodes,
            requested,
            links: Links::new(alloc),
            report: Report {
                log: List::empty(alloc),
            },
            last: 0,
            failed: false,
        })
    }

    /// Asks for an event, and records what came of it.
    ///
    /// Where the event may not be asked for, `RunError::Event` has its place, and the world is as before. Where there
    /// is no memory, the log is as before, and the answer is `RunError::Memory` then and at each later event, whether or
    /// not that may be asked for.
    pub fn apply(&mut self, event: &Event) -> Result<(), RunError>
        ensures configs { self.new.configs ≡ self.old.configs }
        ensures ok { OnOk result (self.new.log ≡ self.old.log ++ effect self.old.configs self.old.log event.now ∷ []) }
        ensures works { OnOk result (self.new.failed ≡ false) }
        ensures stands { Stands self.new }
        ensures valid { OnOk result (is_valid_event self.old.configs (events_of self.old.log) event.now ≡ true) }
        ensures err { IfErr result (λ e. ApplyRefused self.old event.now e self.new) }
        ensures failed { self.old.failed ≡ true → (result ≡ Err error.Memory) × (self.new ≡ self.old) }
    {
        if self.failed {
            return Err(RunError::Memory);
        }
        allow(
            self.nodes.as_slice(),
            self.requested.as_slice(),
            &self.report,
            self.last,
            event,
        )?;
        self.failed = true;
        note(
            self.nodes.as_slice(),
            &mut self.requested,
            self.report.log.as_slice(),
            event,
        )?;
        record(
            self.alloc,
            &mut self.nodes,
            &mut self.links,
            &mut self.report,
            event,
        )?;
        self.last = event.at;
        self.failed = false;
        Ok(())
    }

    /// Asks for all events of a script, in order.
    ///
    /// The log of the world that comes back is the one log that is lawful for the configurations and the script, and its
    /// nodes and links stand for it: every queue holds its line. Each law of lawful logs holds of it, as `IsAccounted` names
    /// them: of who is sent what, of the one end of each copy, of order, of reservations, and of how connections begin, are
    /// killed and end.
    ///
    /// Where a configuration is not valid, `RunError::Config` has the place of the first one; where each is, and an event may not
    /// be asked for, `RunError::Event` has the place of the first one. Where there is no memory, the answer is
    /// `RunError::Memory`.
    pub fn run(alloc: Global, configs: &[Config], script: &[Event]) -> Result<World, RunError>
        ensures configs { IfOk result (λ w. w.configs ≡ configs.now) }
        ensures lawful { IfOk result (λ w. IsLawful configs.now script.now w.log) }
        ensures only { IfOk result (λ w. (log : List Entry) → IsLawful configs.now script.now log → log ≡ w.log) }
        ensures stands { IfOk result (λ w. WorldStands configs.now w.log w.nodes w.links) }
        ensures accounted { IfOk result (λ w. IsAccounted configs.now w.log) }
        ensures works { IfOk result (λ w. w.failed ≡ false) }
        ensures valid { OnOk result (config_fault_of configs.now ≡ None) }
        ensures allowed { OnOk result (event_fault configs.now script.now ≡ None) }
        ensures err { IfErr result (λ e. RunRefused configs.now script.now e) }
    {
        let mut world = World::new(alloc, configs)?;
        for event in script {
            world.apply(event)?;
        }
        Ok(world)
    }

    /// What was asked of the world, and what came of it, the oldest first.
    pub fn entries(&self) -> &[Entry]
        ensures { result.now ≡ self.now.log }
    {
        self.report.log.as_slice()
    }

    /// What was asked of the world, and what came of it.
    pub fn report(&self) -> &Report
        ensures { result.now.log ≡ self.now.log }
    {
        &self.report
    }

    /// The node of this number, where it is there.
    pub fn node(&self, number: usize) -> Option<&Node>
        ensures { option_copied result ≡ slice_get self.now.nodes number }
    {
        self.nodes.get(number)
    }
}
