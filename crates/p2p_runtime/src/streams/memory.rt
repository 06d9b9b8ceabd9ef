//! A source and a sink in memory.
ghost use Rattle.std.specs.Prelude.{◌≡◌, ◌+◌, ◌<◌, ◌≤◌, ◌++◌, [], length, take, IfOk, IsOk, OnOk, OnErr, IfSome};
ghost use Rattle.p2p_runtime.specs.Streams.{Rose};

use super::{Failed, Sink, Source};
use std::alloc::{AllocError, Global};
use std::marker::Model;

/// A source over bytes in memory. It never fails.
#[derive(Drop, Debug)]
pub struct MemorySource {
    bytes: Vec<u8>,
    start: usize,
}

impl Model for MemorySource {
    ghost use Rattle.std.specs.Prelude.{ℕ, List, ◌≤◌, drop, vec_len};

    ghost Value = { List ℕ };

    ghost view = { λ s. drop s.start s.bytes.items };

    ghost invariant = { λ s. s.start ≤ vec_len s.bytes };
}

impl MemorySource {
    /// A source that has these bytes left.
    pub fn new(bytes: Vec<u8>) -> MemorySource
        ensures { result ≡ bytes.items }
    {
        MemorySource { bytes, start: 0 }
    }

    /// How many bytes are left.
    pub fn len(&self) -> usize
        ensures { result ≡ length self.now }
    {
        self.bytes.len() - self.start
    }
}

impl Source for MemorySource {
    ghost use Rattle.std.specs.Prelude.{Some};

    ghost faults_of = { λ _. 0 };

    ghost bytes_left = { λ s. Some s };

    fn read(&mut self, buf: &mut [u8]) -> Result<usize, Failed> {
        let rest = &self.bytes[self.start..];
        let n = rest.len().min(buf.len());
        buf[..n].copy_from_slice(&rest[..n]);
        self.start += n;
        Ok(n)
    }
}

/// A sink into memory. Want of memory is its only fault, and none comes within the room that was reserved.
#[derive(Drop, Debug)]
pub struct MemorySink {
    bytes: Vec<u8>,
    faults: u64,
}

impl Model for MemorySink {
    ghost use Rattle.std.specs.Prelude.{◌-◌, vec_len, vec_capacity};
    ghost use Rattle.p2p_runtime.specs.MemoryBytes.{Written};

    ghost Value = { Written };

    ghost view = { λ s. record { bytes = s.bytes.items; room = vec_capacity s.bytes - vec_len s.bytes; faults = s.faults } };
}

impl MemorySink {
    /// A sink that holds nothing.
    pub fn new(alloc: Global) -> MemorySink
        ensures bytes { result.bytes ≡ [] }
        ensures faults { result.faults ≡ 0 }
    {
        MemorySink {
            bytes: Vec::new(alloc),
            faults: 0,
        }
    }

    /// Makes room for `count` further bytes.
    pub fn reserve(&mut self, count: usize) -> Result<(), AllocError>
        ensures room { OnOk result (count ≤ self.new.room) }
        ensures bytes { self.new.bytes ≡ self.old.bytes }
        ensures faults { self.new.faults ≡ self.old.faults }
    {
        self.bytes.reserve(count)
    }

    /// The bytes that the sink holds.
    pub fn as_slice(&self) -> &[u8]
        ensures { result.now ≡ self.now.bytes }
    {
        self.bytes.as_slice()
    }

    /// How many faults there were.
    pub fn faults(&self) -> u64
        ensures { result ≡ self.now.faults }
    {
        self.faults
    }
}

impl Sink for MemorySink {
    ghost use Rattle.std.specs.Prelude.{Some};

    ghost faults_of = { λ s. s.faults };

    ghost bytes_held = { λ s. Some s.bytes };

    fn write(&mut self, piece: &[u8]) -> Result<usize, Failed>
        ensures within { IfOk result (λ n. n ≤ length piece.now) }
        ensures count { self.old.faults ≤ self.new.faults }
        ensures fault { OnErr result (Rose self.old.faults self.new.faults) }
        ensures written { IfOk result (λ n. self.new.bytes ≡ self.old.bytes ++ take n piece.now) }
        ensures some { IfOk result (λ n. 0 < length piece.now → 0 < n) }
        ensures kept { OnErr result (self.new.bytes ≡ self.old.bytes) }

        // Within the room that was reserved the whole piece is written.
        ensures whole { IfOk result (λ n. n ≡ length piece.now) }
        ensures reserved { length piece.now ≤ self.old.room → IsOk result }
        ensures room { self.old.room ≤ self.new.room + length piece.now }
        ensures no_fault { OnOk result (self.new.faults ≡ self.old.faults) }
    {
        match self.bytes.extend_from_slice(piece) {
            Ok(()) => Ok(piece.len()),
            Err(_) => {
                self.faults = self.faults.saturating_add(1);
                Err(Failed)
            }
        }
    }
}
