//! The part of the script that is drawn.
ghost use Rattle.std.specs.Prelude.{◌≡◌, ◌≤◌, ◌-◌, ◌++◌, IfOk, OnOk};
ghost use Rattle.p2p_runtime.specs.Draws.{seeded};
ghost use Rattle.p2p_sim_script.specs.GeneratedActs.{half_at, number_sent, drawn_act as act_drawn};
ghost use Rattle.p2p_sim_script.specs.Generated.{drawn_from};

use crate::generator::beginning::event;
use bytes::Bytes;
use p2p_log::{Act, Event, Recipients};
use p2p_runtime::Draws;
use std::alloc::{AllocError, Global};

// The number of the first event that is drawn.
const FIRST: u64 = 96;

// A half of one of the three connections: its node, and the event that made it.
fn half(c: u64) -> (u64, u64)
    ensures { result ≡ half_at c }
{
    match c {
        0 => (1, 33),
        1 => (0, 34),
        2 => (2, 59),
        3 => (0, 60),
        4 => (3, 85),
        _ => (0, 86),
    }
}

// A send of the number of its event to all.
fn sending(alloc: Global, n: u64, node: u64, priority: bool) -> Result<Act, AllocError>
    requires { n ≤ 100000 }
    ensures { IfOk result (λ act. act ≡ number_sent n node priority) }
{
    let number = (n as u32).to_be_bytes();
    let bytes = Bytes::from_vec(Vec::from_slice(alloc, &number)?)?;
    Ok(Act::Send {
        bytes,
        channel: 0,
        node,
        priority,
        to: Recipients::All,
    })
}

// What the event `n` does: `a` says what, and `c` where.
fn act(alloc: Global, n: u64, a: u64, c: u64) -> Result<Act, AllocError>
    requires { n ≤ 100000 }
    ensures { IfOk result (λ act. act ≡ act_drawn n a c) }
{
    let node = c % 4;
    let (holder, conn) = half(c);
    match a {
        0 => Ok(sending(alloc, n, node, false)?),
        1 => Ok(sending(alloc, n, node, true)?),
        2 | 3 => Ok(Act::Router { node }),
        4 => Ok(Act::SendStep { conn, node: holder }),
        5 => Ok(Act::RecvStep { conn, node: holder }),
        6 => Ok(Act::Recv { channel: 0, node }),
        _ => Ok(Act::Tracker { node }),
    }
}

/// Adds the events that are drawn from the seed, up to `count` events in all.
pub fn put_drawn(
    alloc: Global,
    script: &mut Vec<Event>,
    count: u64,
    seed: u64,
) -> Result<(), AllocError>
    requires { count ≤ 100000 }
    ensures { OnOk result (script.new.items ≡ script.old.items ++ drawn_from 96 (count - 96) (seeded seed)) }
{
    let mut draws = Draws::new(seed);
    for n in FIRST..count {
        let a = draws.random_range(7);
        let c = draws.random_range(5);
        let act = act(alloc, n, a, c)?;
        script.push(event(n, act))?;
    }
    Ok(())
}
