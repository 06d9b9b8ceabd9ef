//! A whole piece written by as many writes as it takes.
ghost use Rattle.std.specs.Prelude.{◌≡◌, ℕ, ◌≤◌, List, ◌++◌, OnOk, OnErr};
ghost use Rattle.std.specs.Option.{option_map};
ghost use Rattle.p2p_runtime.specs.Streams.{Rose};

use super::{Failed, Sink};

/// Writes all of `piece`.
///
/// `Failed` comes of a fault. The sink then took a front of the piece: what it holds and some rest are what it held and the piece.
pub fn write_all<K: Sink>(sink: &mut K, piece: &[u8]) -> Result<(), Failed>
    ensures count { K.faults_of sink.old ≤ K.faults_of sink.new }
    ensures fault { OnErr result (Rose (K.faults_of sink.old) (K.faults_of sink.new)) }
    ensures no_fault { OnOk result (K.faults_of sink.new ≡ K.faults_of sink.old) }
    ensures written { OnOk result (K.bytes_held sink.new ≡ option_map (λ bytes. bytes ++ piece.now) (K.bytes_held sink.old)) }
    ensures front { OnErr result ((rest : List ℕ)
        × (option_map (λ bytes. bytes ++ rest) (K.bytes_held sink.new) ≡ option_map (λ bytes. bytes ++ piece.now) (K.bytes_held sink.old))) }
{
    let mut rest = piece;
    while !rest.is_empty() {
        let n = sink.write(rest)?;
        rest = &rest[n..];
    }
    Ok(())
}
