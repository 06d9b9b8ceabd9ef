//! A text, written to the outside.
ghost use Rattle.std.specs.Prelude.{◌≡◌, ◌⊎◌, Some};
ghost use Rattle.p2p_sim.specs.Outcomes.{HasWritten};
ghost use Rattle.p2p_sim.specs.Streams.{Adds, AddsFront, HasCounted};
ghost use Rattle.p2p_sim.specs.declared.status.Status.TheVariants as status;

use crate::status::Status;
use p2p_runtime::{Sink, write_all};

/// Writes a text, of which `told` is the status. Another status, `WriteFault`, comes of a fault of the sink.
pub fn write_text<K: Sink>(sink: &mut K, text: &str, told: Status) -> Status
    requires { ¬ (told ≡ status.WriteFault) }
    ensures either { (result ≡ told) ⊎ (result ≡ status.WriteFault) }
    ensures whole { result ≡ told → Adds (K.bytes_held sink.old) text.now (K.bytes_held sink.new) }
    ensures front { result ≡ status.WriteFault → AddsFront (K.bytes_held sink.old) text.now (K.bytes_held sink.new) }
    ensures faults { HasCounted (result ≡ status.WriteFault) (K.faults_of sink.old) (K.faults_of sink.new) }
{
    match write_all(sink, text.as_bytes()) {
        Ok(()) => told,
        Err(_) => Status::WriteFault,
    }
}

/// Writes the text of a world, and leaves the world in `end` where all of it was written. The status is `Ok` or `WriteFault`.
pub fn write_world<W: Drop, K: Sink>(
    sink: &mut K,
    text: &str,
    world: W,
    end: &mut Option<W>,
) -> Status
    ensures written { HasWritten text.now result (K.bytes_held sink.old) (K.bytes_held sink.new) }
    ensures told { ¬ (result ≡ status.Memory) }
    ensures left { result ≡ status.Ok → end.new ≡ Some world }
    ensures end_kept { ¬ (result ≡ status.Ok) → end.new ≡ end.old }
    ensures faults { HasCounted (result ≡ status.WriteFault) (K.faults_of sink.old) (K.faults_of sink.new) }
{
    match write_text(sink, text, Status::Ok) {
        Status::Ok => {
            *end = Some(world);
            Status::Ok
        }
        stopped => stopped,
    }
}
