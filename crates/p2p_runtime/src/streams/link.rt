//! The link to a peer.
ghost use Rattle.std.specs.Prelude.{◌≡◌, ℕ, Bool, true, ◌≤◌, List, [], ◌∷◌, ◌++◌, drop, slice_get, Option, Some, Err, IfOk, OnOk, OnErr, IfSome, IsTrue, ◌↔◌, is_err};
ghost use Rattle.p2p_runtime.specs.Streams.{Rose};
ghost use Rattle.p2p_runtime.specs.declared.streams.link.LinkFault.TheVariants as fault;

use super::Failed;
use bytes::Bytes;
use std::alloc::Global;
use thiserror::Error;

/// Why a frame wasn't written.
#[derive(Clone, Copy, PartialEq, Eq, Debug, Error)]
pub enum LinkFault {
    /// The link met a fault.
    #[error("link failed")]
    Failed,
    /// There was no memory for the frame. The link stays as it was.
    #[error("out of memory")]
    Memory,
}

/// One end of an ordered link that carries frames both ways.
pub trait Link {
    // How many faults there were, or the greatest u64 where there were more.
    ghost faults_of: { Self → ℕ };

    // The frames that wait to be read here, in order.
    ghost waiting: { Self → List (List ℕ) };

    // The frames that were written here and not read at the other end, in order.
    ghost in_flight: { Self → List (List ℕ) };

    // Whether a write meets a fault, where the link tells.
    ghost write_fails: { Self → Option Bool };

    // Whether a read meets a fault, where the link tells.
    ghost read_fails: { Self → Option Bool };

    // The second state has what reading and writing leave as it is in the first.
    ghost keeps: { Self → Self → Type 0 };

    /// Writes a frame.
    ///
    /// `Failed` comes of a fault, and `Memory` of want of memory. In both cases nothing is written.
    fn write(&mut self, alloc: Global, frame: Bytes) -> Result<(), LinkFault>
        ensures count { faults_of self.old ≤ faults_of self.new }
        ensures fault { result ≡ Err fault.Failed → Rose (faults_of self.old) (faults_of self.new) }
        ensures no_fault { OnOk result (faults_of self.new ≡ faults_of self.old) }
        ensures told { IfSome (write_fails self.old) (λ b. IsTrue b ↔ (result ≡ Err fault.Failed)) }
        ensures ok { OnOk result (in_flight self.new ≡ in_flight self.old ++ frame ∷ []) }
        ensures err { OnErr result (in_flight self.new ≡ in_flight self.old) }
        ensures waiting { waiting self.new ≡ waiting self.old }
        ensures write_fails { write_fails self.new ≡ write_fails self.old }
        ensures keeps { keeps self.old self.new };

    /// Reads the next frame. `None` comes exactly where there is no fault and nothing waits.
    ///
    /// `Failed` comes of a fault, and what waits stays.
    fn read(&mut self) -> Result<Option<Bytes>, Failed>
        ensures count { faults_of self.old ≤ faults_of self.new }
        ensures fault { OnErr result (Rose (faults_of self.old) (faults_of self.new)) }
        ensures no_fault { OnOk result (faults_of self.new ≡ faults_of self.old) }
        ensures told { IfSome (read_fails self.old) (λ b. b ≡ is_err result) }
        ensures frame { IfOk result (λ frame. frame ≡ slice_get (waiting self.old) 0) }
        ensures rest { OnOk result (waiting self.new ≡ drop 1 (waiting self.old)) }
        ensures err { OnErr result (waiting self.new ≡ waiting self.old) }
        ensures in_flight { in_flight self.new ≡ in_flight self.old }
        ensures write_fails { write_fails self.new ≡ write_fails self.old }
        ensures keeps { keeps self.old self.new };

    /// Ends this side, and meets no fault. What waits here is gone, and what is in flight stays. Where the link tells whether its writes
    /// fail, each later write does. Where it told that its next read fails, it tells so still.
    fn close(&mut self)
        ensures count { faults_of self.new ≡ faults_of self.old }
        ensures waiting { waiting self.new ≡ [] }
        ensures in_flight { in_flight self.new ≡ in_flight self.old }
        ensures ended { IfSome (write_fails self.new) (λ b. b ≡ true) }
        ensures mends_nothing { read_fails self.old ≡ Some true → read_fails self.new ≡ Some true };

    // A state has what it has itself.
    ghost keeps_itself: { (l : Self) → keeps l l };

    // Call after call keeps what the first state has.
    ghost keeps_on: { (l m n : Self) → keeps l m → keeps m n → keeps l n };
}
