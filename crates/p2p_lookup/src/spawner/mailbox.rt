//! `Mailbox`, what the spawner is asked.
ghost use Rattle.std.specs.Prelude.{◌≡◌, ◌≤◌, IfOk, IfErr, OnOk};
ghost use Rattle.p2p_base.specs.Queue.{empty_queue, oldest, without_oldest, closed_queue};
ghost use Rattle.p2p_lookup.specs.Spawning.{spawn_answer, with_spawn};

use super::Message;
use p2p_base::{NoRoom, PublicKey, Sent};
use p2p_tracker_directory::Reservation;
use std::alloc::{AllocError, Global};
use std::marker::Model;

/// The messages that wait for the spawner.
///
/// Ports `Mailbox` of commonware-p2p's spawner, with one value for both of its halves.
#[derive(Drop)]
pub struct Mailbox<P> {
    messages: p2p_base::Mailbox<Message<P>>,
}

impl<P> Model for Mailbox<P> {
    ghost use Rattle.p2p_base.specs.Queue.{Queue};
    ghost use Rattle.p2p_lookup.specs.declared.spawner.message.Message.{Message};

    ghost Value = { Queue (Message P) };

    ghost view = { λ m. m.messages };
}

impl<P: PublicKey> Mailbox<P> {
    /// An empty mailbox of `size` places.
    pub fn new(alloc: Global, size: usize) -> Result<Mailbox<P>, AllocError>
        requires { 1 ≤ size }
        ensures { IfOk result (λ m. m ≡ empty_queue size) }
    {
        let messages = p2p_base::Mailbox::new(alloc, size)?;
        Ok(Mailbox { messages })
    }

    /// Asks for a connection over the link `connection`. A full mailbox refuses it and a closed one hands it back: the reservation is
    /// then the caller's to give back.
    ///
    /// `NoRoom` hands the reservation back where there is no memory, and the mailbox stays as it was.
    pub fn spawn(
        &mut self,
        connection: u64,
        reservation: Reservation<P>,
    ) -> Result<Sent<Reservation<P>>, NoRoom<Reservation<P>>>
        ensures answer { IfOk result (λ s. s ≡ spawn_answer self.old connection reservation) }
        ensures after { OnOk result (self.new ≡ with_spawn self.old connection reservation) }
        ensures no_room { IfErr result (λ e. (e.0 ≡ reservation) × (self.new ≡ self.old)) }
    {
        let peer = *reservation.metadata().public_key();
        let message = Message::Spawn {
            peer,
            connection,
            reservation,
        };
        match self.messages.enqueue(message) {
            Ok(Sent::Ok) => Ok(Sent::Ok),
            Ok(Sent::Backoff) => Ok(Sent::Backoff),
            Ok(Sent::Rejected(Message::Spawn { reservation, .. })) => {
                Ok(Sent::Rejected(reservation))
            }
            Ok(Sent::Closed(Message::Spawn { reservation, .. })) => Ok(Sent::Closed(reservation)),
            Err(NoRoom(Message::Spawn { reservation, .. })) => Err(NoRoom(reservation)),
        }
    }

    /// Removes the oldest message. `None` exactly where none waits.
    pub fn take(&mut self) -> Option<Message<P>>
        ensures value { result ≡ oldest self.old }
        ensures after { self.new ≡ without_oldest self.old }
    {
        self.messages.take()
    }

    /// Closes the mailbox and drops what waits.
    pub fn close(&mut self)
        ensures { self.new ≡ closed_queue self.old }
    {
        self.messages.close();
    }
}
