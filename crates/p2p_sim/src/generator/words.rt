//! The words of the command.
ghost use Rattle.std.specs.Prelude.{ℕ, ◌↔◌, IsTrue, IfSome, IfNone};
ghost use Rattle.p2p_sim.specs.ScriptWords.{AsksScript, IsLength};

use crate::words::numbers_after;

// The most events of a script.
const EVENTS: u64 = 100_000;

// Whether a script may have so many events.
fn is_length(count: u64) -> bool
    ensures { IsTrue result ↔ IsLength count }
{
    count >= 1 && count <= EVENTS
}

/// How many events, and of which seed, the words `gen N SEED` ask for. `None` of any other words.
pub fn asks_script(words: &[String]) -> Option<(u64, u64)>
    ensures some { IfSome result (λ a. AsksScript words.now a.0 a.1) }
    ensures none { IfNone result ((count seed : ℕ) → ¬ AsksScript words.now count seed) }
{
    let Some((count, seed)) = numbers_after("gen", words) else {
        return None;
    };
    if !is_length(count) {
        return None;
    }
    Some((count, seed))
}
