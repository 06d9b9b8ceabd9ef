//! The control messages of a connection, and what its sending half takes next.
ghost use Rattle.std.specs.Prelude.{◌≡◌, List, Bool, Option, ℕ, drop, slice_get, IfOk};

use bytes::Bytes;
use std::alloc::{AllocError, Global};

/// What the sending half of a connection takes next.
///
/// Ports `Prioritized` of commonware-p2p.
#[derive(Drop, PartialEq, Eq, Debug)]
pub enum Prioritized<C, D> {
    /// A control message.
    Control(C),
    /// A message of a lane.
    Data(D),
    /// No more comes: the control or the relay has ended.
    Closed,
}

/// The control messages that wait for a connection.
///
/// Ports `Control` of commonware-p2p; a message that is no frame, as a kill, has none.
pub trait Control {
    /// What is told.
    type Message: Drop;

    // The messages that wait, the oldest first.
    ghost waiting: { Self → List Self.Message };

    // Whether no more messages come.
    ghost ended: { Self → Bool };

    // The frame of a message, if it has one.
    ghost frame_of: { Self.Message → Option (List ℕ) };

    // The second state has what the taking of messages leaves as it is in the first.
    ghost keeps: { Self → Self → Type 0 };

    /// Takes the oldest message. `None` exactly where none waits.
    fn try_recv(&mut self) -> Option<Self::Message>
        ensures value { result ≡ slice_get (waiting self.old) 0 }
        ensures after { waiting self.new ≡ drop 1 (waiting self.old) }
        ensures ended { ended self.new ≡ ended self.old }
        ensures keeps { keeps self.old self.new };

    /// The frame of a message. `None` where it is a kill, which has none. `Err` only where memory runs out.
    fn encode(alloc: Global, message: Self::Message) -> Result<Option<Bytes>, AllocError>
        ensures { IfOk result (λ frame. frame ≡ frame_of message) };

    /// Whether no more messages come.
    fn closed(&self) -> bool
        ensures { result ≡ ended self.now };

    // A state has what it has itself.
    ghost keeps_itself: { (c : Self) → keeps c c };

    // Call after call keeps what the first state has.
    ghost keeps_on: { (a b c : Self) → keeps a b → keeps b c → keeps a c };
}
