//! Two nodes of a network of lookup, which are run by hand: there is no world and no log, and the runtime is this program.
//!
//! A node that has started is a handful of actors, and what waits for them. None of them reads a clock, opens a socket or starts a task:
//! whoever runs the node steps one actor after another, tells it the moment, makes the links, and carries frames from one end of a link to
//! the other. What it prints is compared with the crate's `stdout`. Each line there was worked out by hand from the rule that stands beside
//! its call here, and not taken from a run.
#![tactic(auto)]

mod connection;
mod gates;
mod node;
mod talk;
mod tracker;
mod unbound;
mod wire;

use anyhow::Result;

/// One second, in nanoseconds: the unit of all moments and periods.
const SECOND: u64 = 1_000_000_000;

/// The channel on which the nodes talk.
const CHANNEL: u64 = 7;

/// The name of the link between the nodes, of the attempt and the handshake that lead to it, and of the connections over it. A runtime of
/// its own counts these up: no two things of one kind at one node have the same name.
const NAME: u64 = 1;

fn main(rt: HostRuntime) -> Result<()> {
    let alloc = rt.alloc();
    unbound::show(&rt, alloc)?;
    talk::show(&rt, alloc)
}
