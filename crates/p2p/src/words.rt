//! The words of the command line.
ghost use Rattle.std.specs.Prelude.{◌≡◌, ◌↔◌, ◌⊎◌, drop, IfOk, IfErr};
ghost use Rattle.std.specs.declared.io.ErrorKind.TheVariants.{OutOfMemory};
ghost use Rattle.p2p_sim.specs.declared.status.Status.TheVariants as status;

use p2p_sim::Status;
use std::alloc::{AllocError, Global};
use std::env;
use std::io::ErrorKind;
use std::rt::Env;

/// The words without the first, which is the name of the program.
fn without_name(alloc: Global, words: Vec<String>) -> Result<Vec<String>, AllocError>
    ensures { IfOk result (λ kept. kept.items ≡ drop 1 words.items) }
{
    words.into_iter().skip(1).collect(alloc)
}

/// How a command ends whose words could not be had for this cause.
fn status_of(cause: ErrorKind) -> Status
    ensures memory { (result ≡ status.Memory) ↔ (cause ≡ OutOfMemory) }
    ensures either { (result ≡ status.Memory) ⊎ (result ≡ status.Usage) }
{
    match cause {
        ErrorKind::OutOfMemory => Status::Memory,
        _ => Status::Usage,
    }
}

/// The words after the name of the program.
///
/// `Usage` comes of a word that isn't text, and `Memory` of want of memory.
pub fn words_of<R: Env + Alloc<A = Global>>(rt: &R) -> Result<Vec<String>, Status>
    ensures refusal { IfErr result (λ s. (s ≡ status.Memory) ⊎ (s ≡ status.Usage)) }
{
    match env::args(rt) {
        Ok(words) => words
            .collect(rt.alloc())
            .and_then(|all| without_name(rt.alloc(), all))
            .map_err(|_| Status::Memory),
        Err(e) => Err(status_of(e.kind())),
    }
}
