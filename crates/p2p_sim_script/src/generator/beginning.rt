//! The beginning of the script, by which the nodes get their connections.
ghost use Rattle.std.specs.Prelude.{◌≡◌, ◌≤◌, ◌++◌, length, IfOk, OnOk};
ghost use Rattle.p2p_sim_script.specs.GeneratedActs.{starting as acts_of_start, listening as acts_of_listening, connecting as acts_of_connecting, beginning as acts_of_beginning};
ghost use Rattle.p2p_sim_script.specs.Generated.{events_from, event_at};

use crate::generator::peers::{socket, tracked};
use p2p_log::{Act, Asked, Event, Rate};
use std::alloc::{AllocError, Global};

// From one event to the next, in nanoseconds.
const STEP: u64 = 1_000_000;

/// The event of this number.
pub fn event(n: u64, act: Act) -> Event
    requires { n ≤ 100000 }
    ensures { result ≡ event_at n act }
{
    Event {
        at: n * STEP,
        seed: 0,
        act,
    }
}

// Adds the events of these acts, of which the first has the number `first`.
fn put_acts(script: &mut Vec<Event>, first: u64, acts: Vec<Act>) -> Result<(), AllocError>
    requires first { first ≤ 96 }
    requires acts { length acts.items ≤ 26 }
    ensures { OnOk result (script.new.items ≡ script.old.items ++ events_from first acts.items) }
{
    let mut n = first;
    for act in acts {
        script.push(event(n, act))?;
        n += 1;
    }
    Ok(())
}

// A node gets a channel, starts and tracks its peers.
fn starting(alloc: Global, node: u64) -> Result<Vec<Act>, AllocError>
    requires { node ≤ 3 }
    ensures { IfOk result (λ acts. acts.items ≡ acts_of_start node) }
{
    let asked = Asked::Track {
        index: 0,
        peers: tracked(alloc, node)?,
    };
    let quota = Rate {
        burst: 64,
        period: 15_625_000,
    };
    let acts = vec![in alloc;
        Act::Register {
            channel: 0,
            node,
            quota,
        },
        Act::Start { node },
        Act::Ask { asked, node },
        Act::Tracker { node },
    ]?;
    Ok(acts)
}

// Node 0 listens, and its router takes its first step.
fn listening(alloc: Global) -> Result<Vec<Act>, AllocError>
    ensures { IfOk result (λ acts. acts.items ≡ acts_of_listening) }
{
    let acts = vec![in alloc; Act::Listener { node: 0 }, Act::Router { node: 0 }]?;
    Ok(acts)
}

// A node dials node 0, they exchange keys, and each has a connection with the other.
fn connecting(alloc: Global, node: u64, first: u64) -> Result<Vec<Act>, AllocError>
    requires node { node ≤ 3 }
    requires first { first ≤ 96 }
    ensures { IfOk result (λ acts. acts.items ≡ acts_of_connecting node first) }
{
    let attempt = first + 4;
    let link = first + 5;
    let handshake = first + 7;
    let ours = first + 15;
    let theirs = first + 16;
    let from = socket(node, 40_000);
    let acts = vec![in alloc;
        Act::Dialer { node },
        Act::Tracker { node },
        Act::Dialer { node },
        Act::Tracker { node },
        Act::Dialer { node },
        Act::Connect {
            attempt,
            from,
            node,
            to: 0
        },
        Act::Attempt { attempt, node },
        Act::Listener { node: 0 },
        Act::Tracker { node: 0 },
        Act::Handshake { handshake, node: 0 },
        Act::Finish { link, ok: true },
        Act::Attempt { attempt, node },
        Act::Handshake { handshake, node: 0 },
        Act::Tracker { node: 0 },
        Act::Handshake { handshake, node: 0 },
        Act::Spawner { node },
        Act::Spawner { node: 0 },
        Act::SendStep { conn: ours, node },
        Act::SendStep {
            conn: theirs,
            node: 0
        },
        Act::Router { node },
        Act::Router { node },
        Act::Router { node: 0 },
        Act::SendStep { conn: ours, node },
        Act::SendStep {
            conn: theirs,
            node: 0
        },
        Act::Tracker { node },
        Act::Tracker { node: 0 },
    ]?;
    Ok(acts)
}

/// The events of the beginning.
pub fn beginning(alloc: Global) -> Result<Vec<Event>, AllocError>
    ensures { IfOk result (λ script. script.items ≡ events_from 0 acts_of_beginning) }
{
    let mut script = Vec::with_capacity(alloc, 96)?;
    put_acts(&mut script, 0, starting(alloc, 0)?)?;
    put_acts(&mut script, 4, starting(alloc, 1)?)?;
    put_acts(&mut script, 8, starting(alloc, 2)?)?;
    put_acts(&mut script, 12, starting(alloc, 3)?)?;
    put_acts(&mut script, 16, listening(alloc)?)?;
    put_acts(&mut script, 18, connecting(alloc, 1, 18)?)?;
    put_acts(&mut script, 44, connecting(alloc, 2, 44)?)?;
    put_acts(&mut script, 70, connecting(alloc, 3, 70)?)?;
    Ok(script)
}
