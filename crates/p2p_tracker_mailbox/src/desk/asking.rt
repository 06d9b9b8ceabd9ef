//! What the oracle calls: questions and subscriptions, and the answers to them.
ghost use Rattle.std.specs.Prelude.{◌≡◌, ◌<◌, length, slice_get, IfOk, OnOk, OnErr};
ghost use Rattle.p2p_flow.specs.Provided.{answer_of};
ghost use Rattle.p2p_tracker_mailbox.specs.Desk.{told_of, asked_by, question_at, answer_taken, subscribed_by, updates_at, update_taken, blocked_subscribed_by, set_of, set_taken};

use super::DeskOf;
use crate::OracleMessage;
use crate::question::Question;
use crate::waiting::Waiting;
use p2p_base::{Feedback, PublicKey, Set};
use p2p_flow::{PeerSetUpdate, Polled, TrackedPeers};
use std::alloc::AllocError;

impl<P: PublicKey, M: OracleMessage<PublicKey = P>> DeskOf<P, M> {
    // Asks for the peers of the set with this index. Gives the number of the question.
    pub(crate) fn ask(&mut self, index: u64) -> Result<(u64, Feedback), AllocError>
        ensures number { IfOk result (λ r. r.0 ≡ length self.old.questions) }
        ensures told { IfOk result (λ r. r.1 ≡ told_of self.old) }
        ensures after { OnOk result (self.new ≡ asked_by M.asks self.old index) }
        ensures memory { OnErr result (self.new ≡ self.old) }
    {
        let ticket = self.questions.len() as u64;
        self.questions.reserve(1)?;
        let told = self.messages.put(M::peer_set(index, ticket))?;
        self.questions.push_reserved(Question::new());
        Ok((ticket, told))
    }

    // Gives out the answer to a question. One that was never asked has none.
    pub(crate) fn take_answer(&mut self, ticket: u64) -> Polled<Option<TrackedPeers<P>>>
        ensures value { result ≡ answer_of self.old.messages.closed (question_at self.old ticket) }
        ensures after { self.new ≡ answer_taken self.old ticket }
    {
        let has_ended = self.messages.is_closed();
        let place = ticket as usize;
        if place < self.questions.len() {
            self.questions[place].take(has_ended)
        } else {
            Polled::Pending
        }
    }

    // Subscribes to peer sets. Gives the number of the subscription.
    pub(crate) fn subscribe(&mut self) -> Result<(u64, Feedback), AllocError>
        ensures number { IfOk result (λ r. r.0 ≡ length self.old.updates) }
        ensures told { IfOk result (λ r. r.1 ≡ told_of self.old) }
        ensures after { OnOk result (self.new ≡ subscribed_by M.subscribes self.old) }
        ensures memory { OnErr result (self.new ≡ self.old) }
    {
        let ticket = self.updates.len() as u64;
        let alloc = *self.updates.allocator();
        self.updates.reserve(1)?;
        let told = self.messages.put(M::subscribe(ticket))?;
        self.updates.push_reserved(Waiting::none(alloc));
        Ok((ticket, told))
    }

    // Gives out the oldest update of a subscription.
    pub(crate) fn take_update(&mut self, ticket: u64) -> Option<PeerSetUpdate<P>>
        requires { ticket < length self.old.updates }
        ensures value { result ≡ slice_get (updates_at self.old ticket) 0 }
        ensures after { self.new ≡ update_taken self.old ticket }
    {
        self.updates[ticket as usize].take()
    }

    // Subscribes to the blocked keys. Gives the number of the subscription.
    pub(crate) fn subscribe_blocked(&mut self) -> Result<(u64, Feedback), AllocError>
        ensures number { IfOk result (λ r. r.0 ≡ length self.old.sets) }
        ensures told { IfOk result (λ r. r.1 ≡ told_of self.old) }
        ensures after { OnOk result (self.new ≡ blocked_subscribed_by M.subscribes_blocked self.old) }
        ensures memory { OnErr result (self.new ≡ self.old) }
    {
        let ticket = self.sets.len() as u64;
        self.sets.reserve(1)?;
        let told = self.messages.put(M::subscribe_blocked(ticket))?;
        self.sets.push_reserved(None);
        Ok((ticket, told))
    }

    // Gives out the set of a subscription.
    pub(crate) fn take_set(&mut self, ticket: u64) -> Option<Set<P>>
        requires { ticket < length self.old.sets }
        ensures value { result ≡ set_of self.old ticket }
        ensures after { self.new ≡ set_taken self.old ticket }
    {
        self.sets[ticket as usize].take()
    }
}
