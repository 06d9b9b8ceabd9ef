//! The outside: where bytes come from and go to, and the links between peers.
//!
//! Each has a count of its faults, which never falls. A call answers a fault only where the count rose in it.
ghost use Rattle.std.specs.Prelude.{◌≡◌, ℕ, ◌<◌, ◌≤◌, List, [], ◌++◌, length, take, drop, Option, IfOk, OnOk, OnErr, IfSome};
ghost use Rattle.std.specs.Option.{option_map};
ghost use Rattle.p2p_runtime.specs.Streams.{Rose};

mod failing;
mod link;
mod memory;
mod memory_link;
mod standard;
mod whole;

pub use failing::{FailingSink, FailingSource};
pub use link::{Link, LinkFault};
pub use memory::{MemorySink, MemorySource};
pub use memory_link::MemoryLink;
pub use standard::{StdSink, StdSource};
use thiserror::Error;
pub use whole::write_all;

/// A read or a write met a fault of the outside.
#[derive(Clone, Copy, PartialEq, Eq, Debug, Error)]
#[error("stream failed")]
pub struct Failed;

/// Where bytes come from.
pub trait Source {
    // How many faults there were, or the greatest u64 where there were more.
    ghost faults_of: { Self → ℕ };

    // The bytes that are left, where the source tells of them.
    ghost bytes_left: { Self → Option (List ℕ) };

    /// Reads bytes into the front of `buf`, and answers how many. Into a buffer that isn't empty it answers 0 exactly at the end.
    ///
    /// `Failed` comes of a fault, and what is left stays.
    fn read(&mut self, buf: &mut [u8]) -> Result<usize, Failed>
        ensures within { IfOk result (λ n. n ≤ length buf.old) }
        ensures count { faults_of self.old ≤ faults_of self.new }
        ensures fault { OnErr result (Rose (faults_of self.old) (faults_of self.new)) }
        ensures no_fault { OnOk result (faults_of self.new ≡ faults_of self.old) }
        ensures rest { IfOk result (λ n. bytes_left self.new ≡ option_map (drop n) (bytes_left self.old)) }
        ensures filled { IfOk result (λ n. IfSome (bytes_left self.old)
            (λ bytes. (n ≤ length bytes) × (buf.new ≡ take n bytes ++ drop n buf.old))) }
        ensures end { IfOk result (λ n. n ≡ 0 → 0 < length buf.old → IfSome (bytes_left self.old) (λ bytes. bytes ≡ [])) }
        ensures kept { OnErr result (bytes_left self.new ≡ bytes_left self.old) };
}

/// Where bytes go.
pub trait Sink {
    // How many faults there were, or the greatest u64 where there were more.
    ghost faults_of: { Self → ℕ };

    // The bytes that it holds, where the sink tells of them.
    ghost bytes_held: { Self → Option (List ℕ) };

    /// Writes bytes from the front of `piece`, and answers how many. Of a piece that isn't empty it takes some.
    ///
    /// `Failed` comes of a fault, and what the sink holds stays.
    fn write(&mut self, piece: &[u8]) -> Result<usize, Failed>
        ensures within { IfOk result (λ n. n ≤ length piece.now) }
        ensures count { faults_of self.old ≤ faults_of self.new }
        ensures fault { OnErr result (Rose (faults_of self.old) (faults_of self.new)) }
        ensures no_fault { OnOk result (faults_of self.new ≡ faults_of self.old) }
        ensures written { IfOk result (λ n. bytes_held self.new ≡ option_map (λ bytes. bytes ++ take n piece.now) (bytes_held self.old)) }
        ensures some { IfOk result (λ n. 0 < length piece.now → 0 < n) }
        ensures kept { OnErr result (bytes_held self.new ≡ bytes_held self.old) };
}
