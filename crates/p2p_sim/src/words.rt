//! The words that name a command.
ghost use Rattle.std.specs.Prelude.{◌≡◌, ◌<◌, ◌^◌, ℕ, decimal, ◌↔◌, IsTrue, IfSome, IfNone};
ghost use Rattle.p2p_sim.specs.Words.{IsRunCommand, Spells};

use itoa::Buffer;

/// Whether the words are the command `run`, which is that one word.
pub fn is_run(words: &[String]) -> bool
    ensures { IsTrue result ↔ IsRunCommand words.now }
{
    match words {
        [word] => word.as_str() == "run",
        _ => false,
    }
}

/// The two numbers that stand after this command in words that are nothing else. `None` of any other words.
pub fn numbers_after(command: &str, words: &[String]) -> Option<(u64, u64)>
    ensures some { IfSome result (λ a. Spells words.now command.now a.0 a.1) }
    ensures fits { IfSome result (λ a. (a.0 < 2 ^ 64) × (a.1 < 2 ^ 64)) }
    ensures none { IfNone result ((n m : ℕ) → n < 2 ^ 64 → m < 2 ^ 64 → ¬ Spells words.now command.now n m) }
{
    let [name, first, second] = words else {
        return None;
    };
    if name.as_str() != command {
        return None;
    }
    let Some(n) = number_of(first.as_str()) else {
        return None;
    };
    let Some(m) = number_of(second.as_str()) else {
        return None;
    };
    Some((n, m))
}

// The number that a word spells in decimal digits, without a sign or a leading zero.
fn number_of(word: &str) -> Option<u64>
    ensures some { IfSome result (λ n. word.now ≡ decimal n) }
    ensures none { IfNone result ((n : ℕ) → n < 2 ^ 64 → ¬ (word.now ≡ decimal n)) }
{
    let Ok(number) = word.parse::<u64>() else {
        return None;
    };
    let mut buffer = Buffer::new();
    if buffer.format(number) != word {
        return None;
    }
    Some(number)
}
