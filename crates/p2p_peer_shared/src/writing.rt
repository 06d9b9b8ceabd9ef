//! `write_frames`, with which a connection writes to its link.
ghost use Rattle.std.specs.Prelude.{◌≡◌, ◌≤◌, ◌<◌, ◌++◌, cond, length, take as first_of, IfOk, IfSome};
ghost use Rattle.p2p_runtime.specs.Streams.{Rose};

use bytes::Bytes;
use p2p_runtime::{Link, LinkFault};
use std::alloc::{AllocError, Global};

/// Writes frames to a link, in order, up to the first fault. Gives how many were written. `Err` only where memory runs out.
pub fn write_frames<L: Link>(
    alloc: Global,
    link: &mut L,
    frames: &[Bytes],
) -> Result<usize, AllocError>
    ensures within { IfOk result (λ n. n ≤ length frames.now) }
    ensures written { IfOk result (λ n. L.in_flight link.new ≡ L.in_flight link.old ++ first_of n frames.now) }
    ensures fault { IfOk result (λ n. n < length frames.now → Rose (L.faults_of link.old) (L.faults_of link.new)) }
    ensures no_fault { IfOk result (λ n. n ≡ length frames.now → L.faults_of link.new ≡ L.faults_of link.old) }
    ensures count { L.faults_of link.old ≤ L.faults_of link.new }
    ensures told { IfOk result (λ n. IfSome (L.write_fails link.old) (λ b. n ≡ cond b 0 (length frames.now))) }
    ensures waiting { L.waiting link.new ≡ L.waiting link.old }
{
    let mut written = 0;
    for frame in frames {
        match link.write(alloc, frame.clone()?) {
            Ok(()) => {}
            Err(LinkFault::Failed) => return Ok(written),
            Err(LinkFault::Memory) => return Err(AllocError),
        }
        written += 1;
    }
    Ok(written)
}
