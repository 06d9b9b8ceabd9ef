//! What the command writes.
ghost use Rattle.std.specs.Prelude.{◌≡◌, ◌≤◌};
ghost use Rattle.p2p_sim.specs.Streams.{HasCounted};
ghost use Rattle.p2p_sim.specs.Summed.{HasGenerated};
ghost use Rattle.p2p_sim.specs.declared.status.Status.TheVariants as status;

use crate::generator::running::run;
use crate::status::Status;
use crate::writing::write_world;
use p2p_net::World;
use p2p_runtime::Sink;
use std::alloc::Global;

/// Runs the first `count` events of the script of this seed, writes the summary and leaves the world in `end`.
///
/// The status is `Ok`, `WriteFault` or `Memory`. The text is whole before the first write, so want of memory has written
/// nothing. `end` is as it was but after `Ok`.
pub fn summarize<K: Sink>(
    alloc: Global,
    count: u64,
    seed: u64,
    sink: &mut K,
    end: &mut Option<World>,
) -> Status
    requires { count ≤ 100000 }
    ensures generated { HasGenerated count seed result (K.bytes_held sink.old) (K.bytes_held sink.new) end.new }
    ensures faults { HasCounted (result ≡ status.WriteFault) (K.faults_of sink.old) (K.faults_of sink.new) }
    ensures unwritten { result ≡ status.Memory → sink.new ≡ sink.old }
    ensures end_kept { ¬ (result ≡ status.Ok) → end.new ≡ end.old }
{
    let Ok((world, text)) = run(alloc, count, seed) else {
        return Status::Memory;
    };
    write_world(sink, text.as_str(), world, end)
}
