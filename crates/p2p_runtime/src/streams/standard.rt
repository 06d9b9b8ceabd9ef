//! Thin adapters over the standard readers and writers. They tell nothing of bytes.
ghost use Rattle.std.specs.Prelude.{◌≡◌, ◌≤◌, length, IfSome};

use super::{Failed, Sink, Source};
use std::io::{ErrorKind, Read, Write};

/// A source over a reader, as the standard input.
#[derive(Drop)]
pub struct StdSource<R> {
    inner: R,
    faults: u64,
}

impl<R: Read> StdSource<R> {
    /// A source over `inner` with no fault so far.
    pub fn new(inner: R) -> StdSource<R>
        ensures { ⟦<StdSource<R> as Source>⟧.faults_of result ≡ 0 }
    {
        StdSource { inner, faults: 0 }
    }
}

impl<R: Read> Source for StdSource<R> {
    ghost use Rattle.std.specs.Prelude.{None};

    ghost faults_of = { λ s. s.faults };

    ghost bytes_left = { λ _. None };

    fn read(&mut self, buf: &mut [u8]) -> Result<usize, Failed> {
        match read_some(&mut self.inner, buf) {
            Some(n) => Ok(n),
            None => {
                self.faults = self.faults.saturating_add(1);
                Err(Failed)
            }
        }
    }
}

// One read, which is tried again where it was interrupted. `None` is a fault.
fn read_some<R: Read>(inner: &mut R, buf: &mut [u8]) -> Option<usize>
    ensures { IfSome result (λ n. n ≤ length buf.old) }
{
    for _ in 0..u64::MAX {
        match inner.read(buf) {
            Ok(n) => return Some(n),
            Err(e) => {
                if e.kind() != ErrorKind::Interrupted {
                    return None;
                }
            }
        }
    }
    None
}

/// A sink over a writer, as the standard output. Each piece is flushed.
#[derive(Drop)]
pub struct StdSink<W> {
    inner: W,
    faults: u64,
}

impl<W: Write> StdSink<W> {
    /// A sink over `inner` with no fault so far.
    pub fn new(inner: W) -> StdSink<W>
        ensures { ⟦<StdSink<W> as Sink>⟧.faults_of result ≡ 0 }
    {
        StdSink { inner, faults: 0 }
    }
}

impl<W: Write> Sink for StdSink<W> {
    ghost use Rattle.std.specs.Prelude.{None};

    ghost faults_of = { λ s. s.faults };

    ghost bytes_held = { λ _. None };

    fn write(&mut self, piece: &[u8]) -> Result<usize, Failed> {
        if piece.is_empty() {
            return Ok(0);
        }
        match write_some(&mut self.inner, piece) {
            Some(n) => Ok(n),
            None => {
                self.faults = self.faults.saturating_add(1);
                Err(Failed)
            }
        }
    }
}

// One write, which is tried again where it was interrupted, and a flush. `None` is a fault, as is a write of nothing.
fn write_some<W: Write>(inner: &mut W, piece: &[u8]) -> Option<usize>
    ensures within { IfSome result (λ n. n ≤ length piece.now) }
    ensures some { IfSome result (λ n. 1 ≤ n) }
{
    for _ in 0..u64::MAX {
        match inner.write(piece) {
            Ok(0) => return None,
            Ok(n) => {
                if inner.flush().is_err() {
                    return None;
                }
                return Some(n);
            }
            Err(e) => {
                if e.kind() != ErrorKind::Interrupted {
                    return None;
                }
            }
        }
    }
    None
}
