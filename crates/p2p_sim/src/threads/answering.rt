//! What the command writes.
ghost use Rattle.std.specs.Prelude.{◌≡◌, ◌≤◌, IfSome, IfNone};
ghost use Rattle.p2p_sim.specs.Outcomes.{HasWritten};
ghost use Rattle.p2p_sim.specs.Streams.{HasCounted};
ghost use Rattle.p2p_sim.specs.declared.status.Status.TheVariants as status;
ghost use Rattle.p2p_threads.specs.ThreadText.{thread_text};

use crate::status::Status;
pub use crate::threads::words::asked as asks_threads;
use crate::writing::write_text;
use p2p_runtime::Sink;
use p2p_threads::{Gate, run_senders};
use std::alloc::Global;
use std::sync::Wait;
use std::thread::Threads;

/// Runs `n` sender threads of `m` messages each, and writes a line for each sender: how many calls it made, and the
/// numbers that were taken of it.
///
/// The status is `Ok`, `WriteFault` or `Memory`. The text is whole before the first write, so want of memory has written
/// nothing.
pub fn thread_report<R: Threads + Wait + Sync, K: Sink, G: Gate>(
    rt: &R,
    alloc: Global,
    n: u32,
    m: u32,
    sink: &mut K,
    gate: &G,
) -> Status
    requires n { (1 ≤ n) × (n ≤ 64) }
    requires m { (1 ≤ m) × (m ≤ 10000) }
    ensures written { HasWritten (thread_text n m) result (K.bytes_held sink.old) (K.bytes_held sink.new) }
    ensures faults { HasCounted (result ≡ status.WriteFault) (K.faults_of sink.old) (K.faults_of sink.new) }
    ensures unwritten { result ≡ status.Memory → sink.new ≡ sink.old }
{
    let Ok(text) = run_senders(rt, alloc, n, m, gate) else {
        return Status::Memory;
    };
    write_text(sink, text.as_str(), Status::Ok)
}
