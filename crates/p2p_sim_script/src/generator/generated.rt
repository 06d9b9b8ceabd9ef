//! The whole script.
ghost use Rattle.std.specs.Prelude.{◌≡◌, ◌≤◌, IfOk};
ghost use Rattle.p2p_sim_script.specs.Generated.{config_at, generated_configs, generated_events};

use crate::generator::beginning::beginning;
use crate::generator::drawn::put_drawn;
use crate::generator::peers::key;
use p2p_base::List;
use p2p_log::{Config, Event};
use std::alloc::{AllocError, Global};

// The configuration of a node.
fn config(node: u64) -> Config
    requires { node ≤ 3 }
    ensures { result ≡ config_at node }
{
    Config::local(key(node), 4, 1024, 64)
}

/// The configurations and the first `count` events of the script of this seed.
///
/// Four nodes start and track each other: node 0 the others as secondary peers, and each of these node 0. Nodes 1, 2 and 3 get a
/// connection with node 0. From event 96 on each event sends the number of the event to all, takes a step of a router, of a
/// tracker or of a half of a connection, or reads, as the seed has it. Event `n` is at `n` milliseconds.
///
/// `count` is at most 100,000, which is for the caller to know: no call tells, comparing the number does. `Err` only where memory runs
/// out. It takes time and memory in proportion to `count`.
pub fn generated_script(
    alloc: Global,
    count: u64,
    seed: u64,
) -> Result<(List<Config>, List<Event>), AllocError>
    requires { count ≤ 100000 }
    ensures configs { IfOk result (λ s. s.0 ≡ generated_configs) }
    ensures script { IfOk result (λ s. s.1 ≡ generated_events count seed) }
{
    let mut script = beginning(alloc)?;
    script.truncate(count as usize);
    put_drawn(alloc, &mut script, count, seed)?;
    let configs = List::from_slice(alloc, &[config(0), config(1), config(2), config(3)])?;
    Ok((configs, List::new(script)))
}
