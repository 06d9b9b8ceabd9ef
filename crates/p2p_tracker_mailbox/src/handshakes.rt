//! `Handshakes`, what waits for each handshake.
ghost use Rattle.std.specs.Prelude.{◌≡◌, ℕ, [], drop, is_some, cond, Some, None, IfOk, OnOk, OnErr};
ghost use Rattle.std.specs.BTreeMap.{is_at};
ghost use Rattle.std.specs.Ordering.{nat_cmp};
ghost use Rattle.p2p_tracker_mailbox.specs.Lines.{line_of, first_of, with_line, with_item, begun, ended};

use crate::{HandshakeItem, Waiting};
use p2p_base::PublicKey;
use std::alloc::{AllocError, Global};
use std::collections::BTreeMap;
use std::marker::Model;

/// The handshakes that run, by their numbers, and what waits for each, the oldest first.
#[derive(Drop)]
pub struct Handshakes<P: PublicKey> {
    alloc: Global,
    lines: BTreeMap<u64, Waiting<HandshakeItem<P>>>,
}

impl<P: PublicKey> Model for Handshakes<P> {
    ghost use Rattle.p2p_tracker_mailbox.specs.Lines.{Lines};
    ghost use Rattle.p2p_tracker_mailbox.specs.declared.answer.HandshakeItem.{HandshakeItem as Item};

    ghost Value = { Lines (Item P) };

    ghost view = { λ h. h.lines.entries };
}

impl<P: PublicKey> Handshakes<P> {
    // No handshake runs. It takes no memory.
    pub(crate) fn none(alloc: Global) -> Handshakes<P>
        ensures { result ≡ [] }
    {
        Handshakes {
            alloc,
            lines: BTreeMap::new(alloc),
        }
    }

    // Ends all handshakes, and drops what waits for them.
    pub(crate) fn clear(&mut self)
        ensures { self.new ≡ [] }
    {
        self.lines.clear();
    }

    /// Whether a handshake of this number runs.
    pub fn contains(&self, handshake: u64) -> bool
        ensures { result ≡ is_some (line_of self.now handshake) }
    {
        self.lines.contains_key(&handshake)
    }

    /// Begins a handshake, for which nothing waits. Where one of this number runs already, it stays as it is.
    ///
    /// `Err` only where memory runs out, and nothing changes then.
    pub fn begin(&mut self, handshake: u64) -> Result<(), AllocError>
        ensures after { OnOk result (self.new ≡ begun self.old handshake) }
        ensures each { OnOk result (line_of self.old handshake ≡ None
            → (q : ℕ) → line_of self.new q ≡ cond (is_at (nat_cmp handshake) q) (Some []) (line_of self.old q)) }
        ensures memory { OnErr result (self.new ≡ self.old) }
    {
        if self.lines.contains_key(&handshake) {
            return Ok(());
        }
        self.lines.insert(handshake, Waiting::none(self.alloc))?;
        Ok(())
    }

    /// Ends a handshake, and hands out what waits for it. `None` exactly where none of this number runs. It takes no memory.
    pub fn end(&mut self, handshake: u64) -> Option<Waiting<HandshakeItem<P>>>
        ensures value { result ≡ line_of self.old handshake }
        ensures after { self.new ≡ ended self.old handshake }
        ensures each { (q : ℕ) → line_of self.new q ≡ cond (is_at (nat_cmp handshake) q) None (line_of self.old q) }
    {
        self.lines.remove(&handshake)
    }

    /// Removes the oldest item that waits for a handshake. `None` exactly where none waits for it.
    pub fn take(&mut self, handshake: u64) -> Option<HandshakeItem<P>>
        ensures value { result ≡ first_of (line_of self.old handshake) }
        ensures after { self.new ≡ with_line self.old handshake (drop 1) }
    {
        match self.lines.get_mut(&handshake) {
            Some(line) => line.take(),
            None => None,
        }
    }

    // Puts an item last for a handshake. False exactly where none of this number runs: the item is dropped then.
    pub(crate) fn put(&mut self, handshake: u64, item: HandshakeItem<P>) -> Result<bool, AllocError>
        ensures runs { IfOk result (λ b. b ≡ is_some (line_of self.old handshake)) }
        ensures after { OnOk result (self.new ≡ with_item self.old handshake item) }
        ensures memory { OnErr result (self.new ≡ self.old) }
    {
        match self.lines.get_mut(&handshake) {
            Some(line) => {
                line.put(item)?;
                Ok(true)
            }
            None => Ok(false),
        }
    }
}
