//! The messages of the sender threads.
use p2p_base::{Keep, UnreliablePolicy};

/// The message of this number of a sender. A full mailbox refuses it.
#[derive(Clone, Copy, PartialEq, Eq, Debug)]
pub struct Numbered {
    pub sender: u32,
    pub number: u32,
}

impl UnreliablePolicy for Numbered {
    ghost use Rattle.p2p_base.specs.declared.policy.Keep.TheVariants as how;

    ghost keep_of = { λ _. how.Refuse };

    fn keep(&self) -> Keep {
        Keep::Refuse
    }
}
