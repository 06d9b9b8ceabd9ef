//! The run of the command.
ghost use Rattle.std.specs.Prelude.{◌≡◌, ◌≤◌, None, IfOk};
ghost use Rattle.std.specs.String.{string_bytes};
ghost use Rattle.p2p_sim.specs.Network.{fault_of};
ghost use Rattle.p2p_sim.specs.Summed.{RunsGenerated};
ghost use Rattle.p2p_sim_script.specs.Generated.{generated_configs, generated_events};

use crate::network::run_script;
use p2p_net::World;
use p2p_sim_report::write_summary;
use p2p_sim_script::generated_script;
use std::alloc::{AllocError, Global};

/// Runs the first `count` events of the script of this seed, and gives the world that ran them and its summary.
///
/// `Err` only where memory runs out: no configuration and no event of the script is refused.
#[tactic(auto, using(crate::proofs::GeneratedValid::never_refused))]
pub fn run(alloc: Global, count: u64, seed: u64) -> Result<(World, String), AllocError>
    requires { count ≤ 100000 }
    ensures ran { IfOk result (λ r. RunsGenerated count seed r.0 (string_bytes r.1)) }
    ensures valid { fault_of generated_configs (generated_events count seed) ≡ None }
{
    let (configs, script) = generated_script(alloc, count, seed)?;
    let Ok(world) = run_script(alloc, configs.as_slice(), script.as_slice()) else {
        return Err(AllocError);
    };
    let text = write_summary(alloc, world.report())?;
    Ok((world, text))
}
