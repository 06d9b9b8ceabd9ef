//! `Mailbox`, what a connection is told.
ghost use Rattle.std.specs.Prelude.{◌≡◌, ◌≤◌, IfOk};
ghost use Rattle.p2p_base.specs.Queue.{empty_queue, push_answer, pushed_on, closed_queue};
ghost use Rattle.p2p_lookup.specs.declared.peer.mailbox.Message.TheVariants as message;

use bytes::Bytes;
use p2p_base::{Pushed, Ring};
use p2p_flow_connection::Control;
use std::alloc::{AllocError, Global};
use std::marker::Model;

/// What a connection is told.
///
/// Ports `Message` of commonware-p2p's peer.
#[derive(Clone, Copy, PartialEq, Eq, Debug)]
pub enum Message {
    /// It is to end.
    Kill,
}

/// What a connection is told, and hasn't taken yet: a ring, whose oldest message makes way for a new one where it is full.
///
/// Ports `Mailbox` of commonware-p2p's peer, with one value for both of its halves.
#[derive(Drop, Debug)]
pub struct Mailbox {
    messages: Ring<Message>,
}

impl Model for Mailbox {
    ghost use Rattle.p2p_base.specs.Queue.{Queue};
    ghost use Rattle.p2p_lookup.specs.declared.peer.mailbox.Message.{Message};

    ghost Value = { Queue Message };

    ghost view = { λ m. m.messages };
}

impl Mailbox {
    /// An empty mailbox of `size` places.
    pub fn new(alloc: Global, size: usize) -> Result<Mailbox, AllocError>
        requires { 1 ≤ size }
        ensures { IfOk result (λ m. m ≡ empty_queue size) }
    {
        let messages = Ring::new(alloc, size)?;
        Ok(Mailbox { messages })
    }

    /// Tells the connection to end. It takes no memory.
    pub fn kill(&mut self) -> Pushed<Message>
        ensures answer { result ≡ push_answer self.old message.Kill }
        ensures after { self.new ≡ pushed_on self.old message.Kill }
    {
        self.messages.send_lossy(Message::Kill)
    }

    /// Closes the mailbox and drops what waits.
    pub fn close(&mut self)
        ensures { self.new ≡ closed_queue self.old }
    {
        self.messages.close();
    }
}

impl Control for Mailbox {
    ghost use Rattle.std.specs.Prelude.{◌≡◌, None, refl};
    ghost use Rattle.std.proofs.Common.{◌∙◌};

    type Message = Message;

    ghost waiting = { λ m. m.items };

    ghost ended = { λ m. m.closed };

    ghost frame_of = { λ _. None };

    ghost keeps = { λ old new. new.capacity ≡ old.capacity };

    ghost keeps_itself = { λ _. refl };

    ghost keeps_on = { λ _ _ _ h k. k ∙ h };

    fn try_recv(&mut self) -> Option<Message> {
        self.messages.try_recv()
    }

    fn encode(_alloc: Global, message: Message) -> Result<Option<Bytes>, AllocError> {
        match message {
            Message::Kill => Ok(None),
        }
    }

    fn closed(&self) -> bool {
        self.messages.is_closed()
    }
}
