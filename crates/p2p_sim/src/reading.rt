//! The source, read to its end.
ghost use Rattle.std.specs.Prelude.{◌≡◌, ℕ, ◌+◌, ◌<◌, ◌≤◌, ◌↔◌, List, [], length, vec_len, Err, IfOk, OnOk, OnErr, IfSome};
ghost use Rattle.p2p_runtime.specs.Streams.{Rose};
ghost use Rattle.p2p_sim.specs.Streams.{Takes, IsAllOf, HasCounted};
ghost use Rattle.p2p_sim.specs.declared.reading.ReadEnd.TheVariants as read_end;

use p2p_runtime::{Failed, Source};
use std::alloc::{AllocError, Global};
use thiserror::Error;

/// The most bytes that an input may have.
pub const LIMIT: usize = 16_777_216;

// How many bytes one read asks for at most.
const PIECE: usize = 65_536;

/// Why a source wasn't read to its end.
#[derive(Clone, Copy, PartialEq, Eq, Debug, Error)]
pub enum ReadEnd {
    /// A read met a fault.
    #[error("read failed")]
    Fault,
    /// There are more bytes than `LIMIT`.
    #[error("input too long")]
    TooLong,
    /// There was no memory.
    #[error("out of memory")]
    Memory,
}

/// Reads all bytes that a source has left, of which it takes at most one more than `LIMIT`.
///
/// `Fault` comes of a read that failed, and `TooLong` exactly where one more than `LIMIT` was taken.
pub fn read_all<S: Source>(alloc: Global, source: &mut S) -> Result<Vec<u8>, ReadEnd>
    ensures ok { IfOk result (λ bytes. IsAllOf (S.bytes_left source.old) bytes.items) }
    ensures end { OnOk result (IfSome (S.bytes_left source.new) (λ rest. rest ≡ [])) }
    ensures within { IfOk result (λ bytes. vec_len bytes ≤ LIMIT) }
    ensures taken { (taken : List ℕ) × Takes (S.bytes_left source.old) taken (S.bytes_left source.new)
        × (length taken ≤ LIMIT + 1) × ((result ≡ Err read_end.TooLong) ↔ (length taken ≡ LIMIT + 1)) }
    ensures faults { HasCounted (result ≡ Err read_end.Fault) (S.faults_of source.old) (S.faults_of source.new) }
{
    let mut bytes = Vec::new(alloc);
    let Ok(mut piece) = zeros(alloc, PIECE) else {
        return Err(ReadEnd::Memory);
    };
    loop {
        let room = LIMIT + 1 - bytes.len();
        let Ok(front) = read_front(source, &mut piece[..room.min(PIECE)]) else {
            return Err(ReadEnd::Fault);
        };
        if front.is_empty() {
            return Ok(bytes);
        }
        if front.len() == room {
            return Err(ReadEnd::TooLong);
        }
        if bytes.extend_from_slice(front).is_err() {
            return Err(ReadEnd::Memory);
        }
    }
}

// One read into a buffer that isn't empty, and the bytes that it took. There are none exactly at the end.
fn read_front<'a, S: Source>(source: &mut S, buf: &'a mut [u8]) -> Result<&'a [u8], Failed>
    requires { 0 < length buf.now }
    ensures took { IfOk result (λ front. Takes (S.bytes_left source.old) front.now (S.bytes_left source.new)) }
    ensures within { IfOk result (λ front. length front.now ≤ length buf.entry.now) }
    ensures end { IfOk result (λ front. length front.now ≡ 0 → IfSome (S.bytes_left source.new) (λ rest. rest ≡ [])) }
    ensures fault { OnErr result (Rose (S.faults_of source.old) (S.faults_of source.new)) }
    ensures no_fault { OnOk result (S.faults_of source.new ≡ S.faults_of source.old) }
    ensures kept { OnErr result (S.bytes_left source.new ≡ S.bytes_left source.old) }
{
    let n = source.read(buf)?;
    Ok(&buf[..n])
}

// So many zeros.
fn zeros(alloc: Global, count: usize) -> Result<Vec<u8>, AllocError>
    ensures { IfOk result (λ bytes. vec_len bytes ≡ count) }
{
    vec![in alloc; 0u8; count]
}
