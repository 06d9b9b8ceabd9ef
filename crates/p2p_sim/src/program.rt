//! What the top call runs.
ghost use Rattle.std.specs.Prelude.{◌≡◌, Some, None, Err, IfOk};
ghost use Rattle.std.specs.String.{string_bytes};
ghost use Rattle.serde_json.specs.Data.{Data};
ghost use Rattle.p2p_sim_script.specs.Input.{json_of};
ghost use Rattle.p2p_sim.specs.Judged.{judged};

use crate::fault::Fault;
use std::alloc::Global;

/// Why a run gave no world.
#[derive(Clone, Copy, PartialEq, Eq, Debug)]
pub enum RunError {
    /// The input isn't run, for this cause.
    Fault(Fault),
    /// There was no memory.
    Memory,
}

/// What runs an input, by the tree that it is as JSON.
pub trait Program {
    ghost use Rattle.std.specs.Prelude.{List, ℕ, Option};
    ghost use Rattle.serde_json.specs.Data.{Data};
    ghost use Rattle.p2p_sim.specs.declared.fault.Fault.{Fault};
    ghost use Rattle.p2p_sim.specs.declared.program.RunError.TheVariants as run_error;

    /// What a run leaves.
    type World: Drop;

    // Why a tree isn't run. `None` where it is.
    ghost refusal_of: { Data → Option Fault };

    // The world ran the tree, and the text is its report.
    ghost Runs: { Data → Self.World → List ℕ → Type 0 };

    /// Runs an input, and gives the world and the text of its report.
    ///
    /// `Fault` comes of the input alone: `NotJson` first, and then why its tree isn't run. `Memory` comes of want of memory. The input
    /// is given as its bytes, so that no tree of it need stand whole.
    fn run(alloc: Global, input: &[u8]) -> Result<(Self::World, String), RunError>
        ensures ok { IfOk result (λ ran. (tree : Data) × (json_of input.now ≡ Some tree)
            × (refusal_of tree ≡ None) × Runs tree ran.0 (string_bytes ran.1)) }
        ensures fault { (f : Fault) → result ≡ Err (run_error.Fault f) → judged refusal_of input.now ≡ Err f };
}
