//! `Mailbox`, what a connection is told and hasn't taken.
ghost use Rattle.std.specs.Prelude.{◌≡◌, ◌≤◌, IfOk, IfErr, OnOk};
ghost use Rattle.p2p_base.specs.Queue.{empty_queue, closed_queue};
ghost use Rattle.p2p_discovery_directory.specs.Telling.{told_answer, with_told};
ghost use Rattle.p2p_discovery_directory.specs.declared.peer.message.Message.TheVariants as message;

use super::Message;
use bytes::Bytes;
use p2p_base::{List, NoRoom, PublicKey, Sent};
use p2p_discovery::{BitVec, Info, Payload};
use p2p_flow_connection::Control;
use std::alloc::{AllocError, Global};
use std::marker::Model;

/// What a connection is told, and hasn't taken yet.
///
/// Ports `Mailbox` of commonware-p2p's discovery peer, with one value for both of its halves.
#[derive(Drop)]
pub struct Mailbox<P> {
    messages: p2p_base::Mailbox<Message<P>>,
}

impl<P> Model for Mailbox<P> {
    ghost use Rattle.p2p_base.specs.Queue.{Queue};
    ghost use Rattle.p2p_discovery_directory.specs.declared.peer.message.Message.{Message};

    ghost Value = { Queue (Message P) };

    ghost view = { λ m. m.messages };
}

impl<P: PublicKey> Mailbox<P> {
    /// An empty mailbox of `size` ready places.
    pub fn new(alloc: Global, size: usize) -> Result<Mailbox<P>, AllocError>
        requires { 1 ≤ size }
        ensures { IfOk result (λ m. m ≡ empty_queue size) }
    {
        let messages = p2p_base::Mailbox::new(alloc, size)?;
        Ok(Mailbox { messages })
    }

    /// Tells the connection to send a bit vector. A full mailbox refuses it, and a closed one hands it back.
    ///
    /// `NoRoom` hands it back where there is no memory, and the mailbox stays as it was.
    ///
    /// Ports `Mailbox::bit_vec` of commonware-p2p.
    pub fn bit_vec(&mut self, bit_vec: BitVec) -> Result<Sent<Message<P>>, NoRoom<Message<P>>>
        ensures answer { IfOk result (λ s. s ≡ told_answer self.old (message.BitVec bit_vec)) }
        ensures after { OnOk result (self.new ≡ with_told self.old (message.BitVec bit_vec)) }
        ensures no_room { IfErr result (λ e. (e.0 ≡ message.BitVec bit_vec) × (self.new ≡ self.old)) }
    {
        self.messages.enqueue(Message::BitVec(bit_vec))
    }

    /// Tells the connection to send infos. A full mailbox refuses them, and a closed one hands them back.
    ///
    /// `NoRoom` hands them back where there is no memory, and the mailbox stays as it was.
    ///
    /// Ports `Mailbox::peers` of commonware-p2p.
    pub fn peers(&mut self, peers: List<Info<P>>) -> Result<Sent<Message<P>>, NoRoom<Message<P>>>
        ensures answer { IfOk result (λ s. s ≡ told_answer self.old (message.Peers peers)) }
        ensures after { OnOk result (self.new ≡ with_told self.old (message.Peers peers)) }
        ensures no_room { IfErr result (λ e. (e.0 ≡ message.Peers peers) × (self.new ≡ self.old)) }
    {
        self.messages.enqueue(Message::Peers(peers))
    }

    /// Tells the connection to end. No full mailbox refuses it; what stood in the overflow makes way for it. A closed one, whose
    /// connection has ended, hands it back.
    ///
    /// `NoRoom` where there is no memory, and the mailbox stays as it was.
    ///
    /// Ports `Mailbox::kill` of commonware-p2p.
    pub fn kill(&mut self) -> Result<Sent<Message<P>>, NoRoom<Message<P>>>
        ensures answer { IfOk result (λ s. s ≡ told_answer self.old message.Kill) }
        ensures after { OnOk result (self.new ≡ with_told self.old message.Kill) }
        ensures no_room { IfErr result (λ e. (e.0 ≡ message.Kill) × (self.new ≡ self.old)) }
    {
        self.messages.enqueue(Message::Kill)
    }

    /// Closes the mailbox and drops what waits.
    pub fn close(&mut self)
        ensures { self.new ≡ closed_queue self.old }
    {
        self.messages.close();
    }
}

impl<P: PublicKey> Control for Mailbox<P> {
    ghost use Rattle.std.specs.Prelude.{◌≡◌, refl};
    ghost use Rattle.std.proofs.Common.{◌∙◌};
    ghost use Rattle.p2p_discovery_directory.specs.Telling.{frame_of_told};

    type Message = Message<P>;

    ghost waiting = { λ m. m.items };

    ghost ended = { λ m. m.closed };

    ghost frame_of = { frame_of_told P.bytes_of };

    ghost keeps = { λ old new. new.capacity ≡ old.capacity };

    ghost keeps_itself = { λ _. refl };

    ghost keeps_on = { λ _ _ _ h k. k ∙ h };

    fn try_recv(&mut self) -> Option<Message<P>> {
        self.messages.take()
    }

    fn encode(alloc: Global, message: Message<P>) -> Result<Option<Bytes>, AllocError> {
        let payload: Payload<P> = match message {
            Message::BitVec(bit_vec) => Payload::BitVec(bit_vec),
            Message::Peers(peers) => Payload::Peers(peers),
            Message::Kill => return Ok(None),
        };
        Ok(Some(payload.encode(alloc)?))
    }

    fn closed(&self) -> bool {
        self.messages.is_closed()
    }
}
