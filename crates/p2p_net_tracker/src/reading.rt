//! What those who asked a tracker take: what the oracle answers them, and the name of it in its queue.
ghost use Rattle.std.specs.Prelude.{◌≡◌, ◌<◌, drop, length, slice_get, is_some, IfOk, OnOk, IsTrue, if◌then◌else◌};
ghost use Rattle.p2p_flow.specs.Provided.{is_open};
ghost use Rattle.p2p_log.specs.declared.queue.Queue.{Queue as Name};
ghost use Rattle.p2p_log.specs.QueueCode.{same_queue};
ghost use Rattle.p2p_log_rules.specs.Puts.{is_peer_set as is_answer_test};
ghost use Rattle.p2p_net_queues.specs.Board.{held};
ghost use Rattle.p2p_net_queues.specs.Tables as table;
ghost use Rattle.p2p_tracker_mailbox.specs.Desk.{question_at};
ghost use Rattle.p2p_net_tracker.specs.Reading.{answer_said, update_said, set_said, polled_row, MayAnswer, MayRead, ReadsAnswer, ReadsUpdate, ReadsSet, Answers, Continues};

use crate::question::{Question, Ticket};
use crate::telling::pop_name;
use crate::tracker::Tracker;
use p2p_base::{Key, Set};
use p2p_flow::{Blocker, Ended, PeerSetUpdate, Polled, Provider, TrackedPeers};
use p2p_log::{Queue, Reply};
use p2p_log_rules::Row;
use p2p_net_queues::{Turn, only};
use std::alloc::{AllocError, Global};

/// What one who asked for a peer set is told of the answer.
fn answer_said(polled: Polled<Option<TrackedPeers<Key>>>) -> Reply
    ensures { result ≡ answer_said polled }
{
    match polled {
        Polled::Ready(peers) => Reply::PeerSet(peers),
        Polled::Pending => Reply::Pending,
    }
}

/// Whether a reply is the answer to a question for a peer set.
fn is_answer(reply: &Reply) -> bool
    ensures { result ≡ is_answer_test reply.now }
{
    match reply {
        Reply::PeerSet(_) => true,
        _ => false,
    }
}

/// What one who subscribed to peer sets is told.
fn update_said(polled: Result<Polled<PeerSetUpdate<Key>>, Ended>) -> Reply
    ensures { result ≡ update_said polled }
{
    match polled {
        Ok(Polled::Ready(update)) => Reply::Update(update),
        Ok(Polled::Pending) => Reply::Pending,
        Err(_) => Reply::StreamEnded,
    }
}

/// What one who subscribed to the blocked keys is told.
fn set_said(polled: Result<Polled<Set<Key>>, Ended>) -> Reply
    ensures { result ≡ set_said polled }
{
    match polled {
        Ok(Polled::Ready(keys)) => Reply::Blocked(keys),
        Ok(Polled::Pending) => Reply::Pending,
        Err(_) => Reply::StreamEnded,
    }
}

impl Tracker {
    // What the oracle answered, with the name of the oldest item of a queue, where one waits there: it is what was answered.
    fn taken(&mut self, alloc: Global, queue: Queue, said: Reply) -> Result<Row, AllocError>
        ensures row { IfOk result (λ r. r ≡ polled_row said (slice_get (held self.old.told queue) 0)) }
        ensures told { OnOk result ((q : Name) → held self.new.told q ≡ (if same_queue queue q then drop 1 (held self.old.told q) else held self.old.told q)) }
        ensures rest { OnOk result (self.new ≡ record self.old { told = self.new.told }) }
    {
        let mut row = only(alloc, said);
        if let Some(name) = pop_name(&mut self.told, queue) {
            row.takes.push(name)?;
        }
        Ok(row)
    }

    // The answer to a question for a peer set, which is given once.
    fn read_answer(&mut self, turn: Turn, question: u64, number: u64) -> Result<Row, AllocError>
        requires { IsTrue (is_open (question_at self.old.mailbox.desk number)) }
        ensures { IfOk result (λ r. ReadsAnswer turn.node question number self.old self.new r) }
    {
        let polled = self.oracle.poll_peer_set(&mut self.mailbox.desk, number);
        let said = answer_said(polled);
        if is_answer(&said) {
            self.answered.insert(question, true)?;
        }
        let node = turn.node;
        Ok(self.taken(turn.alloc, Queue::PeerSet { node, question }, said)?)
    }

    // The next update of a subscription to peer sets.
    fn read_update(&mut self, turn: Turn, question: u64, number: u64) -> Result<Row, AllocError>
        requires { number < length self.old.mailbox.desk.updates }
        ensures { IfOk result (λ r. ReadsUpdate turn.node question number self.old self.new r) }
    {
        let said = update_said(self.oracle.poll_update(&mut self.mailbox.desk, number));
        let node = turn.node;
        Ok(self.taken(turn.alloc, Queue::PeerSetUpdates { node, question }, said)?)
    }

    // The newest set of a subscription to the blocked keys.
    fn read_set(&mut self, turn: Turn, question: u64, number: u64) -> Result<Row, AllocError>
        requires { number < length self.old.mailbox.desk.sets }
        ensures { IfOk result (λ r. ReadsSet turn.node question number self.old self.new r) }
    {
        let said = set_said(self.oracle.poll_blocked(&mut self.mailbox.desk, number));
        let node = turn.node;
        Ok(self.taken(turn.alloc, Queue::Blocked { node, question }, said)?)
    }

    /// Takes the answer to the question for a peer set that an event asked: once, where it is there. Where its node has stopped and
    /// it is not there, none is to come, and that is the answer.
    ///
    /// `Err` only where there is no memory. The answer may then be taken and told to nobody, and its node goes no further.
    pub fn answer(&mut self, turn: Turn, question: u64) -> Result<Row, AllocError>
        requires { MayAnswer (is_some (table.at self.old.answered question)) (table.at self.old.questions question) self.old.mailbox.desk }
        ensures { IfOk result (λ r. Answers turn.node question self.old self.new r) }
    {
        if self.answered.has(question) {
            return Ok(only(turn.alloc, Reply::Gone));
        }
        let Some(ticket) = self.questions.get(question) else {
            return Ok(only(turn.alloc, Reply::Gone));
        };
        match ticket.question {
            Question::PeerSet => Ok(self.read_answer(turn, question, ticket.number)?),
            _ => Ok(only(turn.alloc, Reply::Gone)),
        }
    }

    /// Takes what comes next for the subscription that an event made. Where its node has stopped and nothing waits, nothing more comes.
    ///
    /// `Err` only where there is no memory. The item may then be taken and told to nobody, and its node goes no further.
    pub fn next(&mut self, turn: Turn, question: u64) -> Result<Row, AllocError>
        requires { MayRead (table.at self.old.questions question) self.old.mailbox.desk }
        ensures { IfOk result (λ r. Continues turn.node question self.old self.new r) }
    {
        let Some(ticket) = self.questions.get(question) else {
            return Ok(only(turn.alloc, Reply::Gone));
        };
        match ticket.question {
            Question::PeerSet => Ok(only(turn.alloc, Reply::Gone)),
            Question::Updates => Ok(self.read_update(turn, question, ticket.number)?),
            Question::Blocked => Ok(self.read_set(turn, question, ticket.number)?),
        }
    }
}
