//! Threads that send into a shared mailbox.
ghost use Rattle.std.specs.Prelude.{◌≡◌, ◌+◌, ◌-◌, ◌≤◌, [], ◌∷◌, replicate, OnOk};
ghost use Rattle.std.specs.Thread.{IsSync};
ghost use mathlib.Core.List.{IsPrefix};
ghost use Rattle.p2p_threads.specs.Account.{IsMadeBy, IsAlike};
ghost use Rattle.p2p_threads.specs.History.{IsEachOnce};
ghost use Rattle.p2p_threads.specs.Sending.{HaveSent, HaveBegun};

use crate::gate::Gate;
use crate::mailbox::{MailboxCall, MailboxObject, SharedMailbox};
use crate::numbered::Numbered;
use crate::shared::Pass;
use std::alloc::AllocError;
use std::sync::Wait;
use std::thread::{Threads, join};

type SenderPass = Pass<MailboxObject<Numbered>>;

// One sender's calls, in order. After want of memory the first of them were made.
fn send<R: Wait, G: Gate>(
    rt: &R,
    shared: &SharedMailbox<Numbered>,
    pass: &mut SenderPass,
    sender: u32,
    m: u32,
    gate: &G,
) -> Result<(), AllocError>
    requires own { IsMadeBy shared.now pass.old }
    ensures own { IsAlike pass.old pass.new }
    ensures seen { IsPrefix pass.old.seen pass.new.seen }
    ensures sent { OnOk result (HaveSent sender (m ∷ []) pass.old pass.new) }
    ensures begun { HaveBegun sender 1 m pass.old pass.new }
{
    for number in 0..m {
        gate.pass(sender, number);
        let message = Numbered { sender, number };
        shared.call(rt, pass, MailboxCall::Enqueue(message))?;
        gate.answered(sender, number);
    }
    Ok(())
}

// So many senders at once, from `first` on. The pass comes back with the calls of all.
fn send_from<R: Threads + Wait + Sync, G: Gate>(
    rt: &R,
    shared: &SharedMailbox<Numbered>,
    mut pass: SenderPass,
    first: u32,
    count: u32,
    m: u32,
    gate: &G,
) -> (SenderPass, Result<(), AllocError>)
    requires own { IsMadeBy shared.now pass }
    requires some { 1 ≤ count }
    requires room { first + count ≤ 64 }
    ensures own { IsAlike pass result.0 }
    ensures seen { IsPrefix pass.seen result.0.seen }
    ensures sent { OnOk result.1 (HaveSent first (replicate count m) pass result.0) }
    ensures begun { HaveBegun first count m pass result.0 }
{
    if count == 1 {
        let told = send(rt, shared, &mut pass, first, m, gate);
        return (pass, told);
    }
    let half = count / 2;
    let Ok(other) = shared.split(&mut pass) else {
        unreachable!()
    };
    let (one, two) = join(
        rt,
        move || -> (SenderPass, Result<(), AllocError>)
            requires { IsSync R.row × IsSync G.row × IsMadeBy shared.now pass × (1 ≤ half) × (first + half ≤ 64) }
            ensures own { IsAlike pass result.0 }
            ensures seen { IsPrefix pass.seen result.0.seen }
            ensures sent { OnOk result.1 (HaveSent first (replicate half m) pass result.0) }
            ensures begun { HaveBegun first half m pass result.0 }
        { send_from(rt, shared, pass, first, half, m, gate) },
        move || -> (SenderPass, Result<(), AllocError>)
            requires { IsSync R.row × IsSync G.row × IsMadeBy shared.now other × (half + 1 ≤ count) × (first + count ≤ 64) }
            ensures own { IsAlike other result.0 }
            ensures seen { IsPrefix other.seen result.0.seen }
            ensures sent { OnOk result.1 (HaveSent (first + half) (replicate (count - half) m) other result.0) }
            ensures begun { HaveBegun (first + half) (count - half) m other result.0 }
        { send_from(rt, shared, other, first + half, count - half, m, gate) },
    );
    let (mut pass, told) = one;
    let (other, other_told) = two;
    shared.join(&mut pass, other);
    (pass, told.and(other_told))
}

/// Sends from `n` threads at once: sender i below `n` enqueues its numbers from 0 to `m` - 1, in order. It passes the gate
/// before a call, and tells it after the answer. `n` is 1 to 64, and `m` 1 to 10,000.
///
/// `n` passes are split off `pass`, and joined into it when all senders have ended. The threads are those of joins, which
/// are never refused. `Err` comes of want of memory: the passes are joined then too, and of each sender's calls the first
/// ones were made.
pub fn senders<R: Threads + Wait + Sync, G: Gate>(
    rt: &R,
    shared: &SharedMailbox<Numbered>,
    pass: &mut SenderPass,
    n: u32,
    m: u32,
    gate: &G,
) -> Result<(), AllocError>
    requires own { IsMadeBy shared.now pass.old }
    requires n { (1 ≤ n) × (n ≤ 64) }
    requires m { (1 ≤ m) × (m ≤ 10000) }
    ensures own { IsAlike pass.old pass.new }
    ensures seen { IsPrefix pass.old.seen pass.new.seen }
    ensures sent { OnOk result (HaveSent 0 (replicate n m) pass.old pass.new) }
    ensures begun { HaveBegun 0 n m pass.old pass.new }
    ensures once { IsEachOnce pass.new.made }
{
    let Ok(own) = shared.split(pass) else {
        unreachable!()
    };
    let (own, told) = send_from(rt, shared, own, 0, n, m, gate);
    shared.join(pass, own);
    told
}
