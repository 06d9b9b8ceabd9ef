//! The program: all of its commands.
ghost use Rattle.std.specs.Prelude.{◌≡◌, ℕ, ◌≤◌, ◌↔◌, List, ◌++◌, length, Some, None};
ghost use Rattle.std.specs.Option.{option_map};
ghost use Rattle.serde_json.specs.Data.{Data};
ghost use Rattle.p2p_net.specs.World.{WorldView};
ghost use Rattle.p2p_sim.specs.Commands.{AsksNoScript, AsksNoThreads};
ghost use Rattle.p2p_sim_script.specs.Input.{json_of};
ghost use Rattle.p2p_sim.specs.Network.{refusal_of, RunsTree};
ghost use Rattle.p2p_sim.specs.Outcomes.{IsRefusal, IsSilent, HasRead, HasWritten, HasRefused, HasStopped, IsDecided};
ghost use Rattle.p2p_sim.specs.ScriptWords.{AsksScript};
ghost use Rattle.p2p_sim.specs.Streams.{IsAllOf, OfAll, HasCounted};
ghost use Rattle.p2p_sim.specs.Summed.{HasGenerated};
ghost use Rattle.p2p_sim.specs.ThreadWords.{AsksThreads};
ghost use Rattle.p2p_sim.specs.Words.{IsRunCommand};
ghost use Rattle.p2p_sim.specs.declared.status.Status.TheVariants as status;
ghost use Rattle.p2p_threads.specs.ThreadText.{thread_text};

use crate::reading::LIMIT;
use crate::status::Status;
use crate::threads::{asks_threads, thread_report};
use crate::top::sim;
use p2p_net::World;
use p2p_runtime::{Sink, Source};
use p2p_threads::Gate;
use std::alloc::Global;
use std::sync::Wait;
use std::thread::Threads;

/// Does the command that the words name. `threads N M` runs N sender threads of M messages each, with `gate` around each
/// call, and writes a line for each; all other words are those of `sim`.
///
/// N is 1 to 64, M 1 to 10,000 and their product at most 65,536; else the words are other words, whose status is `Usage`.
/// The status of `threads` is `Ok`, `WriteFault` or `Memory`. Want of memory has written nothing, and neither `source` nor
/// `end` is touched.
pub fn p2p_sim<R: Threads + Wait + Sync, S: Source, K: Sink, G: Gate>(
    rt: &R,
    alloc: Global,
    words: &[String],
    source: &mut S,
    sink: &mut K,
    end: &mut Option<World>,
    gate: &G,
) -> Status
    ensures usage { (result ≡ status.Usage) ↔ ((¬ IsRunCommand words.now) × (AsksNoScript words.now × AsksNoThreads words.now)) }
    ensures unread { ¬ IsRunCommand words.now → source.new ≡ source.old }

    // The senders: the text is that of the numbers, and the world is not touched.
    ensures threads { (n m : ℕ) → AsksThreads words.now n m → HasWritten (thread_text n m) result (K.bytes_held sink.old) (K.bytes_held sink.new) × (end.new ≡ end.old) }

    // A generated script: what is written is the summary of the world that is left, which ran it.
    ensures generated { (count seed : ℕ) → AsksScript words.now count seed → HasGenerated count seed result (K.bytes_held sink.old) (K.bytes_held sink.new) end.new }

    // Reading.
    ensures read { IsRunCommand words.now → HasRead LIMIT result (S.bytes_left source.old) (S.bytes_left source.new) }
    ensures read_faults { HasCounted (result ≡ status.ReadFault) (S.faults_of source.old) (S.faults_of source.new) }

    // What is written is the report of the world that is left, and the world ran the tree of the input, which is all that the
    // source had left, where it tells.
    ensures report { IsRunCommand words.now → result ≡ status.Ok → (input : List ℕ) × IsAllOf (S.bytes_left source.old) input
        × (tree : Data) × (world : WorldView) × (report : List ℕ) × (json_of input ≡ Some tree) × (refusal_of tree ≡ None)
        × RunsTree tree world report × (end.new ≡ Some world) × (K.bytes_held sink.new ≡ option_map (λ held. held ++ report) (K.bytes_held sink.old)) }

    // Or it is the line of the cause for which the input isn't run, or a front of what is due.
    ensures refused { IsRefusal result → OfAll (S.bytes_left source.old) (λ input. HasRefused refusal_of input result (K.bytes_held sink.old) (K.bytes_held sink.new)) }
    ensures front { IsRunCommand words.now → result ≡ status.WriteFault → OfAll (S.bytes_left source.old) (λ input. HasStopped refusal_of RunsTree input (K.bytes_held sink.old) (K.bytes_held sink.new)) }
    ensures write_faults { HasCounted (result ≡ status.WriteFault) (K.faults_of sink.old) (K.faults_of sink.new) }

    // What stays as it was.
    ensures unwritten { IsSilent result → sink.new ≡ sink.old }
    ensures end_kept { ¬ (result ≡ status.Ok) → end.new ≡ end.old }

    // Where the streams meet no fault, the input alone decides, but for want of memory: it is no JSON, or its tree is refused, or run.
    ensures complete { (input : List ℕ) → IsRunCommand words.now → S.bytes_left source.old ≡ Some input → length input ≤ LIMIT → IsDecided refusal_of input result }
{
    match asks_threads(words) {
        Some((n, m)) => thread_report(rt, alloc, n, m, sink, gate),
        None => sim(alloc, words, source, sink, end),
    }
}
