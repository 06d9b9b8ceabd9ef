//! `Draws`, which draws numbers and orders from a seed.
ghost use Rattle.std.specs.Prelude.{◌≡◌, ◌-◌, ◌<◌, ◌≤◌};
ghost use Rattle.std.specs.List.Sorted.{IsPermutation};
ghost use Rattle.p2p_runtime.specs.Draws.{seeded, two_words, drawn, shuffled};

use rand_core::SeedableRng;
use rand_core::utils::next_u64_via_u32;
use rand_pcg::Pcg32;
use std::marker::Model;

/// Numbers and orders, drawn from the words of a generator.
///
/// None of its calls takes memory.
#[derive(Drop, Debug)]
pub struct Draws {
    generator: Pcg32,
}

impl Model for Draws {
    ghost use Rattle.rand_pcg.specs.Lcg.{Lcg};

    ghost Value = { Lcg };

    ghost view = { λ d. d.generator };
}

impl Draws {
    /// What is drawn from `seed`.
    pub fn new(seed: u64) -> Draws
        ensures { result ≡ seeded seed }
    {
        Draws {
            generator: Pcg32::seed_from_u64(seed),
        }
    }

    // The next two words of 32 bits as one number, the first one low.
    fn two_words(&mut self) -> u64
        ensures value { result ≡ (two_words self.old).0 }
        ensures after { self.new ≡ (two_words self.old).1 }
    {
        next_u64_via_u32(&mut self.generator)
    }

    /// A number up to `most`: the rest of the next two words by `most + 1`.
    pub fn random_range(&mut self, most: u64) -> u64
        ensures value { result ≡ (drawn most self.old).0 }
        ensures after { self.new ≡ (drawn most self.old).1 }
        ensures within { result ≤ most }
    {
        let words = self.two_words();
        match most.checked_add(1) {
            Some(count) => words % count,
            None => words,
        }
    }

    /// The place of one of `count` items.
    pub fn choice(&mut self, count: usize) -> usize
        requires { 0 < count }
        ensures value { result ≡ (drawn (count - 1) self.old).0 }
        ensures after { self.new ≡ (drawn (count - 1) self.old).1 }
        ensures within { result < count }
    {
        self.random_range(count as u64 - 1) as usize
    }

    /// Puts the items of `list` into a drawn order.
    ///
    /// From the last place down to place 1, the item there changes places with one at a place drawn up to that one.
    pub fn shuffle<T>(&mut self, list: &mut [T])
        ensures list { list.new ≡ (shuffled list.old self.old).0 }
        ensures after { self.new ≡ (shuffled list.old self.old).1 }
        ensures permutation { IsPermutation list.old list.new }
    {
        let mut left = list.len();
        while left > 1 {
            left -= 1;
            let other = self.random_range(left as u64) as usize;
            list.swap(left, other);
        }
    }
}
