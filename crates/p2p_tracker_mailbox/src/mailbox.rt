//! `Mailbox`, all that waits for the tracker and all that it answered.
ghost use Rattle.std.specs.Prelude.{◌≡◌, ◌≤◌, ◌∷◌, ◌++◌, [], IfOk, OnOk, IfErr, OnErr};
ghost use Rattle.std.specs.Option.{option_copied};
ghost use Rattle.p2p_tracker_mailbox.specs.Desk.{told_of, next_message, without_message, answered_at, with_update, set_of, with_set};
ghost use Rattle.p2p_tracker_mailbox.specs.Mailboxes.{new_mailbox, closed_mailbox, with_desk, with_message_in, runs_in, with_item_in};
ghost use Rattle.p2p_tracker_mailbox.specs.declared.answer.HandshakeItem.TheVariants as shake;
ghost use Rattle.p2p_tracker_mailbox.specs.declared.message.Message.TheVariants as message;

use crate::waiting::Waiting;
use crate::{Access, Desk, DialerAnswer, HandshakeItem, Handshakes, Message};
use p2p_address::IpAddr;
use p2p_base::{Feedback, List, NoRoom, PublicKey, Set};
use p2p_flow::{PeerSetUpdate, TrackedPeers};
use p2p_tracker_directory::Reservation;
use std::alloc::{AllocError, Global};

/// All that waits for the tracker, and all that it answered.
///
/// Ports `Mailbox` of commonware-p2p's lookup tracker, together with the channels on which the tracker answers.
pub struct Mailbox<P: PublicKey> {
    /// What an oracle is lent: the messages, and what waits for those who asked by one.
    pub desk: Desk<P>,
    /// The answers that wait for the dialer, the oldest first.
    pub dialer: Waiting<DialerAnswer<P>>,
    /// The handshakes that run, and what waits for each.
    pub handshakes: Handshakes<P>,
    /// The addresses that peers may come from, where the listener was told of them and has not taken them.
    pub heard: Option<List<IpAddr>>,
}

impl<P: PublicKey> Drop for Mailbox<P> {
    fn drop(self) {
        let Mailbox {
            desk: _desk,
            dialer: _dialer,
            handshakes: _handshakes,
            heard: _heard,
        } = self;
    }
}

impl<P: PublicKey> Mailbox<P> {
    /// An empty mailbox with `size` ready places, in which nobody has asked.
    ///
    /// `Err` only where memory runs out.
    pub fn new(alloc: Global, size: usize) -> Result<Mailbox<P>, AllocError>
        requires { 1 ≤ size }
        ensures { IfOk result (λ m. m ≡ new_mailbox size) }
    {
        let desk = Desk::new(alloc, size)?;
        Ok(Mailbox {
            desk,
            dialer: Waiting::none(alloc),
            handshakes: Handshakes::none(alloc),
            heard: None,
        })
    }

    /// Tells that the tracker has ended. The messages are dropped, and each later one is told `Closed`. What waits for the dialer, for
    /// handshakes and for the listener is dropped too. The answers, updates and sets that wait for those who asked by an oracle stay.
    pub fn close(&mut self)
        ensures { self.new ≡ closed_mailbox self.old }
    {
        self.desk.close(&Access(()));
        self.dialer.clear();
        self.handshakes.clear();
        self.heard = None;
    }

    /// The oldest message, which stays where it is: nothing is taken. `None` exactly where none waits.
    pub fn oldest(&self) -> Option<&Message<P>>
        ensures value { option_copied result ≡ next_message self.now.desk }
    {
        self.desk.oldest(&Access(()))
    }

    /// Removes the oldest message. `None` exactly where none waits.
    pub fn take(&mut self) -> Option<Message<P>>
        ensures value { result ≡ next_message self.old.desk }
        ensures after { self.new ≡ with_desk self.old (without_message self.old.desk) }
    {
        self.desk.take(&Access(()))
    }

    /// Whether the tracker has ended.
    pub fn is_closed(&self) -> bool
        ensures { result ≡ self.now.desk.messages.closed }
    {
        self.desk.is_closed()
    }

    /// Tells the tracker that connection `conn` of a peer has begun. Tells what became of the message.
    ///
    /// `Err` only where memory runs out, and the mailbox stays as it was then.
    ///
    /// Ports `Mailbox::connect` of commonware-p2p.
    pub fn connect(&mut self, public_key: P, conn: u64) -> Result<Feedback, AllocError>
        ensures told { IfOk result (λ f. f ≡ told_of self.old.desk) }
        ensures after { OnOk result (self.new ≡ with_message_in self.old (message.Connect public_key conn)) }
        ensures memory { OnErr result (self.new ≡ self.old) }
    {
        self.desk
            .put(&Access(()), Message::Connect { public_key, conn })
    }

    /// Asks the tracker which peers may be dialed. Tells what became of the message.
    ///
    /// `Err` only where memory runs out, and the mailbox stays as it was then.
    ///
    /// Ports `Mailbox::dialable` of commonware-p2p, which also waits for the answer.
    pub fn dialable(&mut self) -> Result<Feedback, AllocError>
        ensures told { IfOk result (λ f. f ≡ told_of self.old.desk) }
        ensures after { OnOk result (self.new ≡ with_message_in self.old message.Dialable) }
        ensures memory { OnErr result (self.new ≡ self.old) }
    {
        self.desk.put(&Access(()), Message::Dialable)
    }

    /// Asks the tracker to reserve a peer that is to be dialed. Tells what became of the message.
    ///
    /// `Err` only where memory runs out, and the mailbox stays as it was then.
    ///
    /// Ports `Mailbox::dial` of commonware-p2p, which also waits for the answer.
    pub fn dial(&mut self, public_key: P) -> Result<Feedback, AllocError>
        ensures told { IfOk result (λ f. f ≡ told_of self.old.desk) }
        ensures after { OnOk result (self.new ≡ with_message_in self.old (message.Dial public_key)) }
        ensures memory { OnErr result (self.new ≡ self.old) }
    {
        self.desk.put(&Access(()), Message::Dial { public_key })
    }

    /// Asks the tracker whether a peer may connect from `source_ip`, for a handshake. Tells what became of the message.
    ///
    /// `Err` only where memory runs out, and the mailbox stays as it was then.
    ///
    /// Ports `Mailbox::acceptable` of commonware-p2p, which also waits for the answer.
    pub fn acceptable(
        &mut self,
        public_key: P,
        source_ip: IpAddr,
        handshake: u64,
    ) -> Result<Feedback, AllocError>
        ensures told { IfOk result (λ f. f ≡ told_of self.old.desk) }
        ensures after { OnOk result (self.new ≡ with_message_in self.old (message.Acceptable public_key source_ip handshake)) }
        ensures memory { OnErr result (self.new ≡ self.old) }
    {
        self.desk.put(
            &Access(()),
            Message::Acceptable {
                public_key,
                source_ip,
                handshake,
            },
        )
    }

    /// Asks the tracker to reserve a peer that has connected from `source_ip`, for a handshake. Tells what became of the message.
    ///
    /// `Err` only where memory runs out, and the mailbox stays as it was then.
    ///
    /// Ports `Mailbox::listen` of commonware-p2p, which also waits for the answer.
    pub fn listen(
        &mut self,
        public_key: P,
        source_ip: IpAddr,
        handshake: u64,
    ) -> Result<Feedback, AllocError>
        ensures told { IfOk result (λ f. f ≡ told_of self.old.desk) }
        ensures after { OnOk result (self.new ≡ with_message_in self.old (message.Listen public_key source_ip handshake)) }
        ensures memory { OnErr result (self.new ≡ self.old) }
    {
        self.desk.put(
            &Access(()),
            Message::Listen {
                public_key,
                source_ip,
                handshake,
            },
        )
    }

    /// Gives a reservation back to the tracker. Tells what became of the message.
    ///
    /// `NoRoom` hands it back where there is no memory for the message, and the mailbox stays as it was.
    ///
    /// Ports `Releaser::release` of commonware-p2p.
    pub fn release(
        &mut self,
        reservation: Reservation<P>,
    ) -> Result<Feedback, NoRoom<Reservation<P>>>
        ensures told { IfOk result (λ f. f ≡ told_of self.old.desk) }
        ensures after { OnOk result (self.new ≡ with_message_in self.old (message.Release reservation)) }
        ensures handed_back { IfErr result (λ e. e.0 ≡ reservation) }
        ensures memory { OnErr result (self.new ≡ self.old) }
    {
        let metadata = *reservation.metadata();
        match self.desk.put(&Access(()), Message::Release { metadata }) {
            Ok(told) => Ok(told),
            Err(_) => Err(NoRoom(reservation)),
        }
    }

    /// Answers a question for a peer set: by the peers of the set, or by `None` where no set has the index that was asked for.
    ///
    /// A question has one answer: where it was answered or given up before, or was never asked, this answer is dropped.
    pub fn answer_peer_set(&mut self, ticket: u64, peers: Option<TrackedPeers<P>>)
        ensures { self.new ≡ with_desk self.old (answered_at self.old.desk ticket peers) }
    {
        self.desk.answer_peer_set(&Access(()), ticket, peers);
    }

    /// Puts an update for a subscription, behind those that wait for it. Where there is no such subscription it is dropped.
    ///
    /// `Err` only where memory runs out. The update is dropped then, and the mailbox stays as it was.
    pub fn put_update(&mut self, ticket: u64, update: PeerSetUpdate<P>) -> Result<(), AllocError>
        ensures after { OnOk result (self.new ≡ with_desk self.old (with_update self.old.desk ticket update)) }
        ensures memory { OnErr result (self.new ≡ self.old) }
    {
        self.desk.put_update(&Access(()), ticket, update)
    }

    /// Puts a set of blocked keys for a subscription, and hands out the one that makes way for it. Where there is no such
    /// subscription the set is dropped. It takes no memory.
    pub fn put_blocked(&mut self, ticket: u64, set: Set<P>) -> Option<Set<P>>
        ensures value { result ≡ set_of self.old.desk ticket }
        ensures after { self.new ≡ with_desk self.old (with_set self.old.desk ticket set) }
    {
        self.desk.put_blocked(&Access(()), ticket, set)
    }

    /// Answers the dialer.
    ///
    /// `Err` only where memory runs out. The answer is dropped then, and the mailbox stays as it was.
    pub fn answer_dialer(&mut self, answer: DialerAnswer<P>) -> Result<(), AllocError>
        ensures after { OnOk result (self.new ≡ record self.old { dialer = self.old.dialer ++ answer ∷ [] }) }
        ensures memory { OnErr result (self.new ≡ self.old) }
    {
        self.dialer.put(answer)
    }

    /// Answers a handshake, behind what waits for it. False exactly where none of this number runs: the answer is dropped then.
    ///
    /// `Err` only where memory runs out. The answer is dropped then, and the mailbox stays as it was.
    pub fn answer_handshake(
        &mut self,
        handshake: u64,
        answer: HandshakeItem<P>,
    ) -> Result<bool, AllocError>
        ensures runs { IfOk result (λ b. b ≡ runs_in self.old handshake) }
        ensures after { OnOk result (self.new ≡ with_item_in self.old handshake answer) }
        ensures memory { OnErr result (self.new ≡ self.old) }
    {
        self.handshakes.put(handshake, answer)
    }

    /// Tells a handshake whether its keys were exchanged, behind what waits for it. Where none of this number runs, nothing changes.
    ///
    /// `Err` only where memory runs out, and the mailbox stays as it was then.
    pub fn finish_handshake(&mut self, handshake: u64, ok: bool) -> Result<(), AllocError>
        ensures after { OnOk result (self.new ≡ with_item_in self.old handshake (shake.Finished ok)) }
        ensures memory { OnErr result (self.new ≡ self.old) }
    {
        self.handshakes.put(handshake, HandshakeItem::Finished(ok))?;
        Ok(())
    }
}
