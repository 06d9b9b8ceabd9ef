//! The network, as the program that the top call runs.
ghost use Rattle.std.specs.Prelude.{◌≡◌, true, false, Some, None, Ok, Err, IfOk, OnOk};
ghost use Rattle.std.specs.String.{string_bytes};
ghost use Rattle.serde_json.specs.Data.{Data};
ghost use Rattle.p2p_log_laws.specs.Accounted.{IsAccounted};
ghost use Rattle.p2p_sim_script.specs.Form.{script_of};
ghost use Rattle.p2p_sim_script.specs.Input.{json_of};
ghost use Rattle.p2p_sim.specs.Judged.{judged};
ghost use Rattle.p2p_sim.specs.Network.{fault_of, refusal_of as refusal_of_tree, HasRunScript};
ghost use Rattle.p2p_sim.specs.declared.program.RunError.TheVariants as run_error;

use crate::fault::Fault;
use crate::program::{Program, RunError};
use p2p_base::List;
use p2p_log::{Config, Event};
use p2p_net::{RunError as WorldError, World};
use p2p_sim_report::write_report;
use p2p_sim_script::{InputError, read_script_bytes};
use std::alloc::Global;

/// The program that runs a script on a network.
pub struct Network;

impl Program for Network {
    ghost use Rattle.p2p_sim.specs.Network.{refusal_of as refusal_of_tree, RunsTree};

    type World = World;

    ghost refusal_of = { refusal_of_tree };

    ghost Runs = { RunsTree };

    fn run(alloc: Global, input: &[u8]) -> Result<(World, String), RunError> {
        let (configs, script) = read(alloc, input)?;
        let world = run_script(alloc, configs.as_slice(), script.as_slice())?;
        // The report is of the world alone, and has the memory of the events.
        drop(script);
        match write_report(alloc, world.report()) {
            Ok(text) => Ok((world, text)),
            Err(_) => Err(RunError::Memory),
        }
    }
}

// Reads the script that an input says.
fn read(alloc: Global, input: &[u8]) -> Result<(List<Config>, List<Event>), RunError>
    ensures says { IfOk result (λ s. (tree : Data) × (json_of input.now ≡ Some tree) × (script_of tree ≡ Some s)) }
    ensures fault { (f : Fault) → result ≡ Err (run_error.Fault f) → judged refusal_of_tree input.now ≡ Err f }
{
    match read_script_bytes(alloc, input) {
        Ok(script) => Ok(script),
        Err(InputError::NotJson) => Err(RunError::Fault(Fault::NotJson)),
        Err(InputError::NotScript) => Err(RunError::Fault(Fault::NotScript)),
        Err(InputError::Memory) => Err(RunError::Memory),
    }
}

/// Runs a script.
///
/// `Fault` has the first configuration that isn't valid, or else the first event, and `Memory` comes of want of memory.
pub fn run_script(alloc: Global, configs: &[Config], script: &[Event]) -> Result<World, RunError>
    ensures ran { IfOk result (λ w. HasRunScript configs.now script.now w) }
    ensures accounted { IfOk result (λ w. IsAccounted configs.now w.log) }
    ensures valid { OnOk result (fault_of configs.now script.now ≡ None) }
    ensures fault { (f : Fault) → result ≡ Err (run_error.Fault f) → fault_of configs.now script.now ≡ Some f }
{
    match World::run(alloc, configs, script) {
        Ok(world) => Ok(world),
        Err(WorldError::Config(place)) => Err(RunError::Fault(Fault::Config(place))),
        Err(WorldError::Event(place)) => Err(RunError::Fault(Fault::Event(place))),
        Err(WorldError::Memory) => Err(RunError::Memory),
    }
}
