//! The words of the command.
ghost use Rattle.std.specs.Prelude.{ℕ, ◌↔◌, IfSome, IfNone, IsTrue};
ghost use Rattle.p2p_sim.specs.ThreadWords.{AsksThreads, AreWithin};

use crate::words::numbers_after;

// The most sender threads.
const SENDERS: u64 = 64;

// The most messages of one sender.
const NUMBERS: u64 = 10_000;

// The most messages of all senders.
const MESSAGES: u64 = 65_536;

// Whether so many senders may send so many messages each.
fn is_within(n: u64, m: u64) -> bool
    ensures { IsTrue result ↔ AreWithin n m }
{
    n >= 1 && n <= SENDERS && m >= 1 && m <= NUMBERS && n * m <= MESSAGES
}

/// How many senders, and how many messages of each, the words `threads N M` ask for. `None` of any other words.
pub fn asked(words: &[String]) -> Option<(u32, u32)>
    ensures some { IfSome result (λ a. AsksThreads words.now a.0 a.1) }
    ensures none { IfNone result ((n m : ℕ) → ¬ AsksThreads words.now n m) }
{
    let Some((n, m)) = numbers_after("threads", words) else {
        return None;
    };
    if !is_within(n, m) {
        return None;
    }
    Some((n as u32, m as u32))
}
