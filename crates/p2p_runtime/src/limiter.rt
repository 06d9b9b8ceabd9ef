// A count of the places that are held, such as those of handshakes that have not ended.
ghost use Rattle.std.specs.Prelude.{◌≡◌, ◌+◌, ◌<◌, ◌==◌, nat_lt, if◌then◌else◌};
ghost use Rattle.p2p_runtime.specs.QuotaPlaces.{Places};

use std::marker::Model;

/// A bound on how many places are held at a time.
///
/// Ports `Limiter` of commonware-utils; a place is given back by `release`.
#[derive(Debug, Drop)]
pub struct Limiter {
    held: u32,
    max: u32,
}

impl Model for Limiter {
    ghost use Rattle.std.specs.Prelude.{◌≤◌};
    ghost use Rattle.p2p_runtime.specs.QuotaPlaces.{Places};

    ghost Value = { Places };

    ghost view = { λ a. record { held = a.held; max = a.max } };

    ghost invariant = { λ a. a.held ≤ a.max };
}

impl Limiter {
    /// Holds none of its `max` places.
    pub fn new(max: u32) -> Limiter
        ensures none_held { result.held ≡ 0 }
        ensures max { result.max ≡ max }
    {
        Limiter { held: 0, max }
    }

    /// Takes one place. False exactly where all `max` are held, and then nothing changes.
    pub fn try_acquire(&mut self) -> bool
        ensures found { result ≡ nat_lt self.old.held self.old.max }
        ensures held { self.new.held ≡ self.old.held + (if result then 1 else 0) }
        ensures max { self.new.max ≡ self.old.max }
    {
        if self.held == self.max {
            return false;
        }
        self.held += 1;
        true
    }

    /// Gives one place back, which must be held.
    pub fn release(&mut self)
        requires { 0 < self.old.held }
        ensures held { self.new.held + 1 ≡ self.old.held }
        ensures max { self.new.max ≡ self.old.max }
    {
        self.held -= 1;
    }
}
