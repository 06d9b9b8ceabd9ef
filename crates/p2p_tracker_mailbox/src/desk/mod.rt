//! `DeskOf`, where an oracle asks the tracker, and finds what it was answered.
ghost use Rattle.std.specs.Prelude.{◌≡◌, ◌≤◌, IfOk, OnOk, OnErr};
ghost use Rattle.std.specs.Option.{option_copied};
ghost use Rattle.p2p_tracker_mailbox.specs.Desk.{new_desk, told_of, with_message, next_message, without_message, ended};

mod answering;
mod asking;
mod messages;

use crate::OracleMessage;
use crate::question::Question;
use crate::waiting::Waiting;
use messages::Messages;
use p2p_base::{Feedback, PublicKey, Set};
use p2p_flow::PeerSetUpdate;
use std::alloc::{AllocError, Global};
use std::marker::Model;

/// The messages that wait for a tracker, of whatever kind `M` its messages are, and the answers, updates and sets that wait for those
/// who asked by an oracle.
///
/// An oracle puts its own kinds alone, and the mailbox of the tracker all others: its calls show that they have access. The oldest
/// messages stand in the ready places, and the others in the overflow: while the tracker runs, none is refused. For each question and
/// each subscription it keeps a small entry for good.
#[derive(Drop)]
pub struct DeskOf<P: PublicKey, M> {
    messages: Messages<M>,
    questions: Vec<Question<P>>,
    updates: Vec<Waiting<PeerSetUpdate<P>>>,
    sets: Vec<Option<Set<P>>>,
}

impl<P: PublicKey, M> Model for DeskOf<P, M> {
    ghost use Rattle.p2p_tracker_mailbox.specs.Desk.{DeskOf as Kept};

    ghost Value = { Kept P M };

    ghost view = { λ m. record { messages = m.messages; questions = m.questions.items; updates = m.updates.items; sets = m.sets.items } };
}

impl<P: PublicKey, M: OracleMessage<PublicKey = P>> DeskOf<P, M> {
    /// An empty desk with `size` ready places, at which nobody has asked.
    ///
    /// `Err` only where memory runs out.
    pub fn new(alloc: Global, size: usize) -> Result<DeskOf<P, M>, AllocError>
        requires { 1 ≤ size }
        ensures { IfOk result (λ m. m ≡ new_desk size) }
    {
        Ok(DeskOf {
            messages: Messages::new(alloc, size)?,
            questions: Vec::new(alloc),
            updates: Vec::new(alloc),
            sets: Vec::new(alloc),
        })
    }

    /// Tells that the tracker has ended. The messages are dropped, and each later one is told `Closed`. The answers, updates and sets
    /// that wait for those who asked stay.
    pub fn close(&mut self, access: &M::Access)
        ensures { self.new ≡ ended self.old }
    {
        let _ = access;
        self.messages.close();
    }

    /// The oldest message, which stays where it is. `None` exactly where none waits.
    pub fn oldest(&self, access: &M::Access) -> Option<&M>
        ensures { option_copied result ≡ next_message self.now }
    {
        let _ = access;
        self.messages.oldest()
    }

    /// Removes the oldest message. `None` exactly where none waits.
    pub fn take(&mut self, access: &M::Access) -> Option<M>
        ensures value { result ≡ next_message self.old }
        ensures after { self.new ≡ without_message self.old }
    {
        let _ = access;
        self.messages.take()
    }

    /// Whether the tracker has ended.
    pub fn is_closed(&self) -> bool
        ensures { result ≡ self.now.messages.closed }
    {
        self.messages.is_closed()
    }

    /// Puts a message last, and tells what became of it. Where the tracker has ended the message is dropped.
    ///
    /// `Err` only where memory runs out. The message is dropped then, and the desk stays as it was.
    pub fn put(&mut self, access: &M::Access, message: M) -> Result<Feedback, AllocError>
        ensures told { IfOk result (λ f. f ≡ told_of self.old) }
        ensures after { OnOk result (self.new ≡ with_message self.old message) }
        ensures memory { OnErr result (self.new ≡ self.old) }
    {
        let _ = access;
        self.tell(message)
    }

    // Puts a message of an oracle last, likewise.
    pub(crate) fn tell(&mut self, message: M) -> Result<Feedback, AllocError>
        ensures told { IfOk result (λ f. f ≡ told_of self.old) }
        ensures after { OnOk result (self.new ≡ with_message self.old message) }
        ensures memory { OnErr result (self.new ≡ self.old) }
    {
        self.messages.put(message)
    }
}
