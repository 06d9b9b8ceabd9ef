//! `Mailbox`, all that waits for the tracker, and what it answered connections and those who asked by an oracle.
ghost use Rattle.std.specs.Prelude.{◌≡◌, ◌≤◌, IfOk, OnOk, OnErr};
ghost use Rattle.p2p_discovery_directory.specs.Asking.{new_way, closed_way, with_desk, without_message, with_message, answer_of, with_answer, without_answer};
ghost use Rattle.p2p_tracker_mailbox.specs.Desk.{told_of, next_message, answered_at, with_update, set_of, with_set};
ghost use Rattle.p2p_discovery_directory.specs.declared.tracker.message.Message.TheVariants as message;

use super::{Access, Answer, Desk, Message};
use crate::Reservation;
use p2p_base::{Feedback, List, PublicKey, Set};
use p2p_discovery::{BitVec, Info};
use p2p_flow::{PeerSetUpdate, TrackedPeers};
use std::alloc::{AllocError, Global};
use std::collections::BTreeMap;
use std::marker::Model;

/// All that waits for the tracker, and its answers to connections that began.
///
/// Ports `Mailbox` of commonware-p2p's discovery tracker, together with the channels on which the tracker answers.
pub struct Mailbox<P: PublicKey> {
    /// What an oracle is lent: the messages, and what waits for those who asked by one.
    pub desk: Desk<P>,
    answers: BTreeMap<u64, Answer<P>>,
}

impl<P: PublicKey> Drop for Mailbox<P> {
    fn drop(self) {
        let Mailbox {
            desk: _desk,
            answers: _answers,
        } = self;
    }
}

impl<P: PublicKey> Model for Mailbox<P> {
    ghost use Rattle.p2p_discovery_directory.specs.Asking.{Way};

    ghost Value = { Way P };

    ghost view = { λ m. record { desk = m.desk; answers = m.answers.entries } };
}

impl<P: PublicKey> Mailbox<P> {
    /// An empty mailbox with `size` ready places, in which nobody has asked.
    ///
    /// `Err` only where memory runs out.
    pub fn new(alloc: Global, size: usize) -> Result<Mailbox<P>, AllocError>
        requires { 1 ≤ size }
        ensures { IfOk result (λ m. m ≡ new_way size) }
    {
        let desk = Desk::new(alloc, size)?;
        Ok(Mailbox {
            desk,
            answers: BTreeMap::new(alloc),
        })
    }

    /// Tells that the tracker has ended. The messages and the answers to connections are dropped, each later message is told `Closed`,
    /// and a connection that waits for an answer is told that its peer may not connect. The answers, updates and sets that wait for
    /// those who asked by an oracle stay.
    pub fn close(&mut self)
        ensures { self.new ≡ closed_way self.old }
    {
        self.desk.close(&Access(()));
        self.answers.clear();
    }

    /// Whether the tracker has ended.
    pub fn is_closed(&self) -> bool
        ensures { result ≡ self.now.desk.messages.closed }
    {
        self.desk.is_closed()
    }

    /// Removes the oldest message. `None` exactly where none waits.
    pub fn take(&mut self) -> Option<Message<P>>
        ensures value { result ≡ next_message self.old.desk }
        ensures after { self.new ≡ without_message self.old }
    {
        self.desk.take(&Access(()))
    }

    /// Tells the tracker that connection `conn` of a peer has begun, which waits for an answer; `dialer` tells whether this node
    /// dialed. Tells what became of the message.
    ///
    /// `Err` only where memory runs out, and the mailbox stays as it was then.
    ///
    /// Ports `Mailbox::connect` of commonware-p2p, which also waits for the answer.
    pub fn connect(
        &mut self,
        public_key: P,
        dialer: bool,
        conn: u64,
    ) -> Result<Feedback, AllocError>
        ensures told { IfOk result (λ f. f ≡ told_of self.old.desk) }
        ensures after { OnOk result (self.new ≡ with_message self.old (message.Connect public_key dialer conn)) }
        ensures memory { OnErr result (self.new ≡ self.old) }
    {
        self.desk.put(
            &Access(()),
            Message::Connect {
                public_key,
                dialer,
                conn,
            },
        )
    }

    /// Asks for a bit vector that the connection of a peer is to send. Tells what became of the message.
    ///
    /// `Err` only where memory runs out, and the mailbox stays as it was then.
    ///
    /// Ports `Mailbox::construct` of commonware-p2p.
    pub fn construct(&mut self, public_key: P) -> Result<Feedback, AllocError>
        ensures told { IfOk result (λ f. f ≡ told_of self.old.desk) }
        ensures after { OnOk result (self.new ≡ with_message self.old (message.Construct public_key)) }
        ensures memory { OnErr result (self.new ≡ self.old) }
    {
        self.desk
            .put(&Access(()), Message::Construct { public_key })
    }

    /// Tells the tracker of a bit vector that a peer sent. Tells what became of the message.
    ///
    /// `Err` only where memory runs out, and the mailbox stays as it was then.
    ///
    /// Ports `Mailbox::bit_vec` of commonware-p2p.
    pub fn bit_vec(&mut self, public_key: P, bit_vec: BitVec) -> Result<Feedback, AllocError>
        ensures told { IfOk result (λ f. f ≡ told_of self.old.desk) }
        ensures after { OnOk result (self.new ≡ with_message self.old (message.BitVec public_key bit_vec)) }
        ensures memory { OnErr result (self.new ≡ self.old) }
    {
        self.desk.put(
            &Access(()),
            Message::BitVec {
                public_key,
                bit_vec,
            },
        )
    }

    /// Tells the tracker of infos that came and are believed. Tells what became of the message.
    ///
    /// `Err` only where memory runs out, and the mailbox stays as it was then.
    ///
    /// Ports `Mailbox::peers` of commonware-p2p.
    pub fn peers(&mut self, peers: List<Info<P>>) -> Result<Feedback, AllocError>
        ensures told { IfOk result (λ f. f ≡ told_of self.old.desk) }
        ensures after { OnOk result (self.new ≡ with_message self.old (message.Peers peers)) }
        ensures memory { OnErr result (self.new ≡ self.old) }
    {
        self.desk.put(&Access(()), Message::Peers { peers })
    }

    /// Asks which peers may be dialed. Tells what became of the message.
    ///
    /// `Err` only where memory runs out, and the mailbox stays as it was then.
    ///
    /// Ports `Mailbox::dialable` of commonware-p2p, which also waits for the answer.
    pub fn dialable(&mut self) -> Result<Feedback, AllocError>
        ensures told { IfOk result (λ f. f ≡ told_of self.old.desk) }
        ensures after { OnOk result (self.new ≡ with_message self.old (message.Dialable)) }
        ensures memory { OnErr result (self.new ≡ self.old) }
    {
        self.desk.put(&Access(()), Message::Dialable)
    }

    /// Asks the tracker to reserve a peer that is to be dialed. Tells what became of the message.
    ///
    /// `Err` only where memory runs out, and the mailbox stays as it was then.
    ///
    /// Ports `Mailbox::dial` of commonware-p2p, which also waits for the answer.
    pub fn dial(&mut self, public_key: P) -> Result<Feedback, AllocError>
        ensures told { IfOk result (λ f. f ≡ told_of self.old.desk) }
        ensures after { OnOk result (self.new ≡ with_message self.old (message.Dial public_key)) }
        ensures memory { OnErr result (self.new ≡ self.old) }
    {
        self.desk.put(&Access(()), Message::Dial { public_key })
    }

    /// Asks whether a peer may connect, for a handshake. Tells what became of the message.
    ///
    /// `Err` only where memory runs out, and the mailbox stays as it was then.
    ///
    /// Ports `Mailbox::acceptable` of commonware-p2p, which also waits for the answer.
    pub fn acceptable(&mut self, public_key: P, handshake: u64) -> Result<Feedback, AllocError>
        ensures told { IfOk result (λ f. f ≡ told_of self.old.desk) }
        ensures after { OnOk result (self.new ≡ with_message self.old (message.Acceptable public_key handshake)) }
        ensures memory { OnErr result (self.new ≡ self.old) }
    {
        self.desk.put(
            &Access(()),
            Message::Acceptable {
                public_key,
                handshake,
            },
        )
    }

    /// Asks the tracker to reserve a peer that has connected, for a handshake. Tells what became of the message.
    ///
    /// `Err` only where memory runs out, and the mailbox stays as it was then.
    ///
    /// Ports `Mailbox::listen` of commonware-p2p, which also waits for the answer.
    pub fn listen(&mut self, public_key: P, handshake: u64) -> Result<Feedback, AllocError>
        ensures told { IfOk result (λ f. f ≡ told_of self.old.desk) }
        ensures after { OnOk result (self.new ≡ with_message self.old (message.Listen public_key handshake)) }
        ensures memory { OnErr result (self.new ≡ self.old) }
    {
        self.desk.put(
            &Access(()),
            Message::Listen {
                public_key,
                handshake,
            },
        )
    }

    /// Gives a reservation back to the tracker. Tells what became of the message.
    ///
    /// `Err` only where memory runs out, and the mailbox stays as it was then.
    ///
    /// Ports `Releaser::release` of commonware-p2p.
    pub fn release(&mut self, reservation: Reservation<P>) -> Result<Feedback, AllocError>
        ensures told { IfOk result (λ f. f ≡ told_of self.old.desk) }
        ensures after { OnOk result (self.new ≡ with_message self.old (message.Release reservation)) }
        ensures memory { OnErr result (self.new ≡ self.old) }
    {
        let metadata = reservation.into_metadata();
        self.desk.put(&Access(()), Message::Release { metadata })
    }

    /// Answers a question for a peer set: by the peers of the set, or by `None` where no set has the index that was asked for.
    ///
    /// A question has one answer: where it was answered or given up before, or was never asked, this answer is dropped.
    pub fn answer_peer_set(&mut self, ticket: u64, peers: Option<TrackedPeers<P>>)
        ensures { self.new ≡ with_desk self.old (answered_at self.old.desk ticket peers) }
    {
        self.desk.answer_peer_set(&Access(()), ticket, peers);
    }

    /// Puts an update for a subscription, behind those that wait for it. Where there is no such subscription it is dropped.
    ///
    /// `Err` only where memory runs out. The update is dropped then, and the mailbox stays as it was.
    pub fn put_update(&mut self, ticket: u64, update: PeerSetUpdate<P>) -> Result<(), AllocError>
        ensures after { OnOk result (self.new ≡ with_desk self.old (with_update self.old.desk ticket update)) }
        ensures memory { OnErr result (self.new ≡ self.old) }
    {
        self.desk.put_update(&Access(()), ticket, update)
    }

    /// Puts a set of blocked keys for a subscription, and hands out the one that makes way for it. Where there is no such
    /// subscription the set is dropped. It takes no memory.
    pub fn put_blocked(&mut self, ticket: u64, set: Set<P>) -> Option<Set<P>>
        ensures value { result ≡ set_of self.old.desk ticket }
        ensures after { self.new ≡ with_desk self.old (with_set self.old.desk ticket set) }
    {
        self.desk.put_blocked(&Access(()), ticket, set)
    }

    /// Answers a connection. An answer that it was given before and hasn't taken makes way.
    ///
    /// `Err` only where memory runs out. The answer is dropped then, and the mailbox stays as it was.
    pub fn answer(&mut self, conn: u64, answer: Answer<P>) -> Result<(), AllocError>
        ensures after { OnOk result (self.new ≡ with_answer self.old conn answer) }
        ensures memory { OnErr result (self.new ≡ self.old) }
    {
        self.answers.insert(conn, answer)?;
        Ok(())
    }

    /// Removes the answer to a connection. `None` exactly where none is there and the tracker runs.
    pub fn take_answer(&mut self, conn: u64) -> Option<Answer<P>>
        ensures value { result ≡ answer_of self.old conn }
        ensures after { self.new ≡ without_answer self.old conn }
    {
        match self.answers.remove(&conn) {
            Some(answer) => Some(answer),
            None if self.desk.is_closed() => Some(Answer::NotEligible),
            None => None,
        }
    }
}
