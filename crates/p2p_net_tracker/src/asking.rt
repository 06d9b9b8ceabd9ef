//! What a tracker is asked.
ghost use Rattle.std.specs.Prelude.{◌≡◌, [], ◌∷◌, ◌++◌, length, IfOk, OnOk};
ghost use Rattle.p2p_tracker_mailbox.specs.Desk.{told_of, with_message, asked, subscribed, blocked_subscribed};
ghost use Rattle.p2p_tracker_mailbox.specs.declared.message.Message.TheVariants as message;
ghost use Rattle.p2p_net_tracker.specs.Asking.{asking_row, names_told, track_answer, tracked_by, asks_for, with_question, with_updates, with_blocked, ask_answer, after_asking};

use crate::question::{Question, Ticket};
use crate::tracker::Tracker;
use p2p_address::Address;
use p2p_base::{Feedback, Key, Map};
use p2p_flow::{AddressableManager, AddressableTrackedPeers, Blocker, Provider, TrackError};
use p2p_log::{Asked, Item, Queue, Reply};
use p2p_log_rules::Row;
use p2p_net_queues::{Turn, only};
use std::alloc::AllocError;

impl Tracker {
    /// Asks what an event asks: the message waits in the tracker's mailbox under the number of the event, unless that has closed. A
    /// set that is too large is not asked for.
    ///
    /// `Err` only where there is no memory.
    pub fn ask(&mut self, turn: Turn, asked: &Asked) -> Result<Row, AllocError>
        ensures row { IfOk result (λ r. r ≡ ask_answer self.old turn.node turn.entry asked.now) }
        ensures after { OnOk result (self.new ≡ after_asking self.old turn.entry asked.now) }
    {
        match asked {
            Asked::Track { index, peers } => Ok(self.track(turn, *index, peers)?),
            Asked::Overwrite { peers } => Ok(self.overwrite(turn, peers)?),
            Asked::Block { key } => Ok(self.block(turn, *key)?),
            Asked::PeerSet { index } => Ok(self.peer_set(turn, *index)?),
            Asked::Subscribe => Ok(self.subscribe(turn)?),
            Asked::Blocked => Ok(self.blocked(turn)?),
        }
    }

    // Asks that the peers of one more set be tracked. A set that is too large is not asked for.
    fn track(
        &mut self,
        turn: Turn,
        index: u64,
        peers: &AddressableTrackedPeers<Key>,
    ) -> Result<Row, AllocError>
        ensures row { IfOk result (λ r. r ≡ track_answer self.old turn.node turn.entry peers.now) }
        ensures after { OnOk result (self.new ≡ tracked_by self.old turn.entry index peers.now) }
    {
        let peers = peers.try_clone()?;
        match self
            .oracle
            .track(turn.alloc, &mut self.mailbox.desk, index, peers)
        {
            Ok(told) => Ok(self.asked(turn, told)?),
            Err(TrackError::PeerSetTooLarge { count, limit }) => {
                Ok(only(turn.alloc, Reply::PeerSetTooLarge { count, limit }))
            }
            Err(TrackError::Memory) => Err(AllocError),
        }
    }

    // Asks that peers get these addresses.
    fn overwrite(&mut self, turn: Turn, peers: &Map<Key, Address>) -> Result<Row, AllocError>
        ensures row { IfOk result (λ r. r ≡ asking_row (told_of self.old.mailbox.desk) turn.node turn.entry) }
        ensures after { OnOk result (self.new ≡ asks_for self.old turn.entry (with_message self.old.mailbox.desk (message.Overwrite peers.now))) }
    {
        let peers = peers.clone()?;
        let told = self
            .oracle
            .overwrite(turn.alloc, &mut self.mailbox.desk, peers)?;
        Ok(self.asked(turn, told)?)
    }

    // Asks that a peer be disconnected and kept away.
    fn block(&mut self, turn: Turn, key: Key) -> Result<Row, AllocError>
        ensures row { IfOk result (λ r. r ≡ asking_row (told_of self.old.mailbox.desk) turn.node turn.entry) }
        ensures after { OnOk result (self.new ≡ asks_for self.old turn.entry (with_message self.old.mailbox.desk (message.Block key))) }
    {
        let told = self.oracle.block(turn.alloc, &mut self.mailbox.desk, key)?;
        Ok(self.asked(turn, told)?)
    }

    // Asks who is in a set.
    fn peer_set(&mut self, turn: Turn, index: u64) -> Result<Row, AllocError>
        ensures row { IfOk result (λ r. r ≡ asking_row (told_of self.old.mailbox.desk) turn.node turn.entry) }
        ensures after { OnOk result (self.new ≡ with_question (asks_for self.old turn.entry (asked self.old.mailbox.desk index)) turn.entry (length self.old.mailbox.desk.questions)) }
    {
        let (number, told) = self
            .oracle
            .peer_set(turn.alloc, &mut self.mailbox.desk, index)?;
        self.tickets.questions.push(turn.entry)?;
        let question = Question::PeerSet;
        self.questions
            .insert(turn.entry, Ticket { question, number })?;
        Ok(self.asked(turn, told)?)
    }

    // Asks for the peer sets that are tracked from now on, and the latest one.
    fn subscribe(&mut self, turn: Turn) -> Result<Row, AllocError>
        ensures row { IfOk result (λ r. r ≡ asking_row (told_of self.old.mailbox.desk) turn.node turn.entry) }
        ensures after { OnOk result (self.new ≡ with_updates (asks_for self.old turn.entry (subscribed self.old.mailbox.desk)) turn.entry (length self.old.mailbox.desk.updates)) }
    {
        let (number, told) = self.oracle.subscribe(turn.alloc, &mut self.mailbox.desk)?;
        self.tickets.updates.push(turn.entry)?;
        let question = Question::Updates;
        self.questions
            .insert(turn.entry, Ticket { question, number })?;
        Ok(self.asked(turn, told)?)
    }

    // Asks for the keys that are blocked, now and whenever that changes.
    fn blocked(&mut self, turn: Turn) -> Result<Row, AllocError>
        ensures row { IfOk result (λ r. r ≡ asking_row (told_of self.old.mailbox.desk) turn.node turn.entry) }
        ensures after { OnOk result (self.new ≡ with_blocked (asks_for self.old turn.entry (blocked_subscribed self.old.mailbox.desk)) turn.entry (length self.old.mailbox.desk.sets)) }
    {
        let (number, told) = self.oracle.blocked(turn.alloc, &mut self.mailbox.desk)?;
        self.tickets.blocked.push(turn.entry)?;
        let question = Question::Blocked;
        self.questions
            .insert(turn.entry, Ticket { question, number })?;
        Ok(self.asked(turn, told)?)
    }

    // The message that was put last has this entry's name, and its mailbox told this of it. A mailbox that has closed took none.
    fn asked(&mut self, turn: Turn, told: Feedback) -> Result<Row, AllocError>
        ensures row { IfOk result (λ r. r ≡ asking_row told turn.node turn.entry) }
        ensures after { OnOk result (self.new ≡ record self.old { names = self.old.names ++ names_told told turn.entry }) }
    {
        let mut row = only(turn.alloc, Reply::Feedback(told));
        if told == Feedback::Closed {
            return Ok(row);
        }
        self.names.push((turn.entry, 0))?;
        row.puts
            .push((Queue::Tracker(turn.node), Item::Call(turn.entry)))?;
        Ok(row)
    }
}
