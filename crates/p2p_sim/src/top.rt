//! The top call.
ghost use Rattle.std.specs.Prelude.{◌≡◌, ℕ, ◌≤◌, ◌↔◌, List, ◌++◌, length, Some, None};
ghost use Rattle.std.specs.Option.{option_map};
ghost use Rattle.serde_json.specs.Data.{Data};
ghost use Rattle.p2p_net.specs.World.{WorldView};
ghost use Rattle.p2p_sim.specs.Commands.{AsksNoScript};
ghost use Rattle.p2p_sim_script.specs.Input.{json_of};
ghost use Rattle.p2p_sim.specs.Network.{refusal_of, RunsTree};
ghost use Rattle.p2p_sim.specs.Outcomes.{IsRefusal, IsSilent, HasRead, HasRefused, HasStopped, IsDecided};
ghost use Rattle.p2p_sim.specs.ScriptWords.{AsksScript};
ghost use Rattle.p2p_sim.specs.Streams.{IsAllOf, OfAll, HasCounted};
ghost use Rattle.p2p_sim.specs.Summed.{HasGenerated};
ghost use Rattle.p2p_sim.specs.Words.{IsRunCommand};
ghost use Rattle.p2p_sim.specs.declared.status.Status.TheVariants as status;

use crate::answering::answer;
use crate::generator::{asks_script, summarize};
use crate::network::Network;
use crate::reading::{LIMIT, ReadEnd, read_all};
use crate::status::Status;
use crate::words::is_run;
use p2p_net::World;
use p2p_runtime::{Sink, Source};
use std::alloc::Global;

/// Does the command that the words name, and leaves the world that it ran in `end`. `run` reads the source to its end, runs
/// what it read and writes the report. `gen N SEED` runs the first N events of the script of this seed, writes the summary
/// and reads nothing.
///
/// N is 1 to 100,000 and the seed any number of 64 bits; else the words are other words, whose status is `Usage`. The
/// statuses of `run` are tested in this order: a fault of the source or too long an input, as reading meets it; an input
/// that isn't run, of which one line is written; a fault of the sink. The status of `gen` is `Ok`, `WriteFault` or
/// `Memory`. Want of memory may come at any point after the words, and has written nothing. `end` is as it was but after
/// `Ok`.
pub fn sim<S: Source, K: Sink>(
    alloc: Global,
    words: &[String],
    source: &mut S,
    sink: &mut K,
    end: &mut Option<World>,
) -> Status
    ensures usage { (result ≡ status.Usage) ↔ ((¬ IsRunCommand words.now) × AsksNoScript words.now) }
    ensures unread { ¬ IsRunCommand words.now → source.new ≡ source.old }

    // A generated script: what is written is the summary of the world that is left, which ran it.
    ensures generated { (count seed : ℕ) → AsksScript words.now count seed → HasGenerated count seed result (K.bytes_held sink.old) (K.bytes_held sink.new) end.new }

    // Reading.
    ensures read { IsRunCommand words.now → HasRead LIMIT result (S.bytes_left source.old) (S.bytes_left source.new) }
    ensures read_faults { HasCounted (result ≡ status.ReadFault) (S.faults_of source.old) (S.faults_of source.new) }

    // What is written is the report of the world that is left, and the world ran the tree of the input, which is all that the
    // source had left, where it tells.
    ensures report { IsRunCommand words.now → result ≡ status.Ok → (input : List ℕ) × IsAllOf (S.bytes_left source.old) input
        × (tree : Data) × (world : WorldView) × (report : List ℕ) × (json_of input ≡ Some tree) × (refusal_of tree ≡ None)
        × RunsTree tree world report × (end.new ≡ Some world) × (K.bytes_held sink.new ≡ option_map (λ held. held ++ report) (K.bytes_held sink.old)) }

    // Or it is the line of the cause for which the input isn't run, or a front of what is due.
    ensures refused { IsRefusal result → OfAll (S.bytes_left source.old) (λ input. HasRefused refusal_of input result (K.bytes_held sink.old) (K.bytes_held sink.new)) }
    ensures front { IsRunCommand words.now → result ≡ status.WriteFault → OfAll (S.bytes_left source.old) (λ input. HasStopped refusal_of RunsTree input (K.bytes_held sink.old) (K.bytes_held sink.new)) }
    ensures write_faults { HasCounted (result ≡ status.WriteFault) (K.faults_of sink.old) (K.faults_of sink.new) }

    // What stays as it was.
    ensures unwritten { IsSilent result → sink.new ≡ sink.old }
    ensures end_kept { ¬ (result ≡ status.Ok) → end.new ≡ end.old }

    // Where the streams meet no fault, the input alone decides, but for want of memory: it is no JSON, or its tree is refused, or run.
    ensures complete { (input : List ℕ) → IsRunCommand words.now → S.bytes_left source.old ≡ Some input → length input ≤ LIMIT → IsDecided refusal_of input result }
{
    if let Some((count, seed)) = asks_script(words) {
        return summarize(alloc, count, seed, sink, end);
    }
    if !is_run(words) {
        return Status::Usage;
    }
    match read_all(alloc, source) {
        Ok(input) => answer::<Network, K>(alloc, &input, sink, end),
        Err(ReadEnd::Fault) => Status::ReadFault,
        Err(ReadEnd::TooLong) => Status::TooLong,
        Err(ReadEnd::Memory) => Status::Memory,
    }
}
