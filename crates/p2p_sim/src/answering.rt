//! What is written of an input, and what is left of its run.
ghost use Rattle.std.specs.Prelude.{◌≡◌, ◌⊎◌};
ghost use Rattle.p2p_sim.specs.Streams.{Adds, AddsFront, HasCounted};
ghost use Rattle.p2p_sim.specs.Faults.{status_of, line_of};
ghost use Rattle.p2p_sim.specs.Judged.{judged, status_due};
ghost use Rattle.p2p_sim.specs.Outcomes.{IsRefusal, HasRun, HasRefused, HasStopped};
ghost use Rattle.p2p_sim.specs.declared.status.Status.TheVariants as status;

use crate::fault::Fault;
use crate::program::{Program, RunError};
use crate::status::Status;
use crate::writing::{write_text, write_world};
use p2p_runtime::Sink;
use std::alloc::Global;

/// Runs an input, writes its report and leaves its world in `end`. Of an input that isn't run it writes one line.
///
/// The text is whole before the first write, so want of memory has written nothing. `end` is as it was but after `Ok`.
pub fn answer<P: Program, K: Sink>(
    alloc: Global,
    input: &[u8],
    sink: &mut K,
    end: &mut Option<P::World>,
) -> Status
    ensures ok { result ≡ status.Ok → HasRun P.refusal_of P.Runs input.now (K.bytes_held sink.old) (K.bytes_held sink.new) end.new }
    ensures refused { IsRefusal result → HasRefused P.refusal_of input.now result (K.bytes_held sink.old) (K.bytes_held sink.new) }
    ensures stopped { result ≡ status.WriteFault → HasStopped P.refusal_of P.Runs input.now (K.bytes_held sink.old) (K.bytes_held sink.new) }
    ensures due { (result ≡ status_due (judged P.refusal_of input.now)) ⊎ ((result ≡ status.WriteFault) ⊎ (result ≡ status.Memory)) }
    ensures faults { HasCounted (result ≡ status.WriteFault) (K.faults_of sink.old) (K.faults_of sink.new) }
    ensures unwritten { result ≡ status.Memory → sink.new ≡ sink.old }
    ensures end_kept { ¬ (result ≡ status.Ok) → end.new ≡ end.old }
{
    match P::run(alloc, input) {
        Ok((world, report)) => write_world(sink, report.as_str(), world, end),
        Err(RunError::Fault(cause)) => refuse(alloc, cause, sink),
        Err(RunError::Memory) => Status::Memory,
    }
}

// Writes the line of a cause.
fn refuse<K: Sink>(alloc: Global, cause: Fault, sink: &mut K) -> Status
    ensures said { (result ≡ status_of cause) ⊎ ((result ≡ status.WriteFault) ⊎ (result ≡ status.Memory)) }
    ensures line { result ≡ status_of cause → Adds (K.bytes_held sink.old) (line_of cause) (K.bytes_held sink.new) }
    ensures front { result ≡ status.WriteFault → AddsFront (K.bytes_held sink.old) (line_of cause) (K.bytes_held sink.new) }
    ensures faults { HasCounted (result ≡ status.WriteFault) (K.faults_of sink.old) (K.faults_of sink.new) }
    ensures unwritten { result ≡ status.Memory → sink.new ≡ sink.old }
{
    let Ok(line) = cause.line(alloc) else {
        return Status::Memory;
    };
    write_text(sink, line.as_str(), cause.status())
}
