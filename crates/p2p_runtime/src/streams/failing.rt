//! A source and a sink that fail at stated calls.
ghost use Rattle.std.specs.Prelude.{◌≡◌, ◌⊎◌, ◌+◌, ◌-◌, ◌^◌, ◌<◌, ◌≤◌, ◌++◌, [], length, take, drop, min, IfOk, IsErr, OnOk, OnErr, IfSome, IsTrue};
ghost use Rattle.std.specs.Option.{option_map};
ghost use Rattle.p2p_runtime.specs.Streams.{Rose, is_listed};

use super::{Failed, Sink, Source};
use p2p_base::List;

/// A source that fails at the calls whose numbers are listed, the first call being number 0, and else does what `inner` does.
#[derive(Drop, Debug)]
pub struct FailingSource<S> {
    /// The source below.
    pub inner: S,
    /// The numbers of the calls that fail.
    pub failing: List<u64>,
    /// How many calls there were, or the greatest u64 where there were more.
    pub calls: u64,
    /// How many listed calls failed, or the greatest u64 where there were more.
    pub faults: u64,
}

impl<S: Source> Source for FailingSource<S> {
    ghost use Rattle.std.specs.Prelude.{◌+◌};

    ghost faults_of = { λ s. s.faults + S.faults_of s.inner };

    ghost bytes_left = { λ s. S.bytes_left s.inner };

    fn read(&mut self, buf: &mut [u8]) -> Result<usize, Failed>
        ensures within { IfOk result (λ n. n ≤ length buf.old) }
        ensures count { self.old.faults + S.faults_of self.old.inner ≤ self.new.faults + S.faults_of self.new.inner }
        ensures fault { OnErr result (Rose (self.old.faults + S.faults_of self.old.inner) (self.new.faults + S.faults_of self.new.inner)) }
        ensures no_fault { OnOk result (self.new.faults + S.faults_of self.new.inner ≡ self.old.faults + S.faults_of self.old.inner) }
        ensures rest { IfOk result (λ n. S.bytes_left self.new.inner ≡ option_map (drop n) (S.bytes_left self.old.inner)) }
        ensures filled { IfOk result (λ n. IfSome (S.bytes_left self.old.inner)
            (λ bytes. (n ≤ length bytes) × (buf.new ≡ take n bytes ++ drop n buf.old))) }
        ensures end { IfOk result (λ n. n ≡ 0 → 0 < length buf.old → IfSome (S.bytes_left self.old.inner) (λ bytes. bytes ≡ [])) }
        ensures kept { OnErr result (S.bytes_left self.new.inner ≡ S.bytes_left self.old.inner) }

        // A listed call fails, and another only where the source below does.
        ensures listed { IsTrue (is_listed self.old.failing self.old.calls) → IsErr result }
        ensures only { OnErr result (IsTrue (is_listed self.old.failing self.old.calls) ⊎ Rose (S.faults_of self.old.inner) (S.faults_of self.new.inner)) }
        ensures calls { self.new.calls ≡ min (self.old.calls + 1) (2 ^ 64 - 1) }
        ensures failing { self.new.failing ≡ self.old.failing }
    {
        let call = self.calls;
        self.calls = call.saturating_add(1);
        if is_listed(&self.failing, call) {
            self.faults = self.faults.saturating_add(1);
            return Err(Failed);
        }
        self.inner.read(buf)
    }
}

/// A sink that fails at the calls whose numbers are listed, the first call being number 0, and else does what `inner` does.
#[derive(Drop, Debug)]
pub struct FailingSink<K> {
    /// The sink below.
    pub inner: K,
    /// The numbers of the calls that fail.
    pub failing: List<u64>,
    /// How many calls there were, or the greatest u64 where there were more.
    pub calls: u64,
    /// How many listed calls failed, or the greatest u64 where there were more.
    pub faults: u64,
}

impl<K: Sink> Sink for FailingSink<K> {
    ghost use Rattle.std.specs.Prelude.{◌+◌};

    ghost faults_of = { λ s. s.faults + K.faults_of s.inner };

    ghost bytes_held = { λ s. K.bytes_held s.inner };

    fn write(&mut self, piece: &[u8]) -> Result<usize, Failed>
        ensures within { IfOk result (λ n. n ≤ length piece.now) }
        ensures count { self.old.faults + K.faults_of self.old.inner ≤ self.new.faults + K.faults_of self.new.inner }
        ensures fault { OnErr result (Rose (self.old.faults + K.faults_of self.old.inner) (self.new.faults + K.faults_of self.new.inner)) }
        ensures no_fault { OnOk result (self.new.faults + K.faults_of self.new.inner ≡ self.old.faults + K.faults_of self.old.inner) }
        ensures written { IfOk result (λ n. K.bytes_held self.new.inner ≡ option_map (λ bytes. bytes ++ take n piece.now) (K.bytes_held self.old.inner)) }
        ensures some { IfOk result (λ n. 0 < length piece.now → 0 < n) }
        ensures kept { OnErr result (K.bytes_held self.new.inner ≡ K.bytes_held self.old.inner) }

        // A listed call fails, and another only where the sink below does.
        ensures listed { IsTrue (is_listed self.old.failing self.old.calls) → IsErr result }
        ensures only { OnErr result (IsTrue (is_listed self.old.failing self.old.calls) ⊎ Rose (K.faults_of self.old.inner) (K.faults_of self.new.inner)) }
        ensures calls { self.new.calls ≡ min (self.old.calls + 1) (2 ^ 64 - 1) }
        ensures failing { self.new.failing ≡ self.old.failing }
    {
        let call = self.calls;
        self.calls = call.saturating_add(1);
        if is_listed(&self.failing, call) {
            self.faults = self.faults.saturating_add(1);
            return Err(Failed);
        }
        self.inner.write(piece)
    }
}

// Whether this call is among the listed ones.
fn is_listed(failing: &List<u64>, call: u64) -> bool
    ensures { result ≡ is_listed failing.now call }
{
    failing.as_slice().contains(&call)
}
