//! Senders over a mailbox of their own, from its making to what is taken of it, as text.
ghost use Rattle.std.specs.Prelude.{◌≡◌, ◌≤◌, ◌*◌, IfOk};
ghost use Rattle.std.specs.String.{string_bytes};
ghost use Rattle.p2p_threads.specs.TakenOf.{HaveAll};
ghost use Rattle.p2p_threads.specs.ThreadText.{thread_text};

use crate::draining::drained;
use crate::gate::Gate;
use crate::mailbox::MailboxObject;
use crate::numbered::Numbered;
use crate::sending::senders;
use crate::shared::Shared;
use crate::text::text_of;
use p2p_base::Mailbox;
use std::alloc::{AllocError, Global};
use std::sync::Wait;
use std::thread::Threads;

// What `n` senders of `m` messages each leave in a shared mailbox that has room for all of them.
fn sent<R: Threads + Wait + Sync, G: Gate>(
    rt: &R,
    alloc: Global,
    n: u32,
    m: u32,
    gate: &G,
) -> Result<Mailbox<Numbered>, AllocError>
    requires n { (1 ≤ n) × (n ≤ 64) }
    requires m { (1 ≤ m) × (m ≤ 10000) }
    ensures { IfOk result (λ mailbox. HaveAll n m mailbox.items) }
{
    let mailbox = Mailbox::new(alloc, n as usize * m as usize)?;
    let (shared, mut pass) = Shared::new(alloc, MailboxObject::new(mailbox))?;
    senders(rt, &shared, &mut pass, n, m, gate)?;
    match shared.close(rt, pass) {
        Ok((object, _)) => Ok(object.into_inner()),
        // Each pass was joined into this one, so that this doesn't come.
        Err(_) => Err(AllocError),
    }
}

/// Runs `n` sender threads of `m` messages each over a shared mailbox, closes it, and gives the text of what is taken then:
/// a line for each sender, with how many calls it made and the numbers that were taken of it. `n` is 1 to 64, and `m` 1 to
/// 10,000.
///
/// `Err` comes of want of memory.
pub fn run_senders<R: Threads + Wait + Sync, G: Gate>(
    rt: &R,
    alloc: Global,
    n: u32,
    m: u32,
    gate: &G,
) -> Result<String, AllocError>
    requires n { (1 ≤ n) × (n ≤ 64) }
    requires m { (1 ≤ m) × (m ≤ 10000) }
    ensures { IfOk result (λ text. string_bytes text ≡ thread_text n m) }
{
    let mailbox = sent(rt, alloc, n, m, gate)?;
    let messages = drained(alloc, mailbox)?;
    text_of(alloc, messages.as_slice(), n, m)
}
