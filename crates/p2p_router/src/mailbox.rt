//! `Mailbox`, where the router's messages wait.
ghost use Rattle.std.specs.Prelude.{◌≡◌, ◌==◌, ◌≤◌, ◌+◌, ◌++◌, false, length, map, IfOk, IfErr, OnOk, OnErr};
ghost use Rattle.std.specs.VecDeque.{deque_len, deque_capacity};
ghost use Rattle.p2p_base.specs.Queue.{empty_queue, has_room, oldest, without_oldest};
ghost use Rattle.p2p_base.specs.declared.policy.Keep.TheVariants.{Append};
ghost use Rattle.p2p_router.specs.Mailbox.{keep_of_message, appended, feedback_of, content_told, with_content, with_subscriptions};
ghost use Rattle.p2p_router.specs.declared.message.Message.TheVariants as message;

use crate::Message;
use p2p_base::{Feedback, NoRoom, Unreliable};
use p2p_flow::{Recipients, Relay};
use p2p_wire::EncodedData;
use std::alloc::{AllocError, Global};
use std::collections::VecDeque;
use std::marker::Model;

/// The messages that wait for the router. The oldest `size` of them stand in the ready places, and the others in the overflow.
///
/// Content enters only where a ready place is free; the other messages are never refused.
///
/// Ports `Mailbox` of commonware-p2p's router.
#[derive(Drop)]
pub struct Mailbox<P> {
    messages: p2p_base::Mailbox<Message<P>>,
}

impl<P> Model for Mailbox<P> {
    ghost use Rattle.std.specs.Prelude.{◌≡◌, false};
    ghost use Rattle.p2p_base.specs.Queue.{Queue};
    ghost use Rattle.p2p_router.specs.declared.message.Message.{Message};

    ghost Value = { Queue (Message P) };

    ghost view = { λ m. m.messages };

    ghost invariant = { λ m. m.messages.closed ≡ false };
}

impl<P> Mailbox<P> {
    /// An empty mailbox with `size` ready places.
    pub fn new(alloc: Global, size: usize) -> Result<Mailbox<P>, AllocError>
        requires { 1 ≤ size }
        ensures { IfOk result (λ m. m ≡ empty_queue size) }
    {
        let messages = p2p_base::Mailbox::new(alloc, size)?;
        Ok(Mailbox { messages })
    }

    /// How many messages wait.
    pub fn len(&self) -> usize
        ensures { result ≡ length self.now.items }
    {
        self.messages.len()
    }

    /// Whether no message waits.
    pub fn is_empty(&self) -> bool
        ensures { result ≡ (length self.now.items == 0) }
    {
        self.messages.is_empty()
    }

    /// How many ready places there are.
    pub fn capacity(&self) -> usize
        ensures capacity { result ≡ self.now.capacity }
        ensures at_least_one { 1 ≤ result }
        ensures open { self.now.closed ≡ false }
    {
        self.messages.capacity()
    }

    // Whether a ready place is free.
    fn has_room(&self) -> bool
        ensures { result ≡ has_room self.now }
    {
        self.messages.len() < self.messages.capacity()
    }

    // What a message that is never refused is told.
    fn feedback(&self) -> Feedback
        ensures { result ≡ feedback_of self.now }
    {
        if self.has_room() {
            Feedback::Ok
        } else {
            Feedback::Backoff
        }
    }

    // Removes the oldest message.
    pub(crate) fn take(&mut self) -> Option<Message<P>>
        ensures value { result ≡ oldest self.old }
        ensures after { self.new ≡ without_oldest self.old }
    {
        self.messages.take()
    }
}

impl<P: Drop> Mailbox<P> {
    // Puts a message last that is never refused.
    fn put(&mut self, message: Message<P>) -> Result<Feedback, NoRoom<Message<P>>>
        requires { keep_of_message message ≡ Append }
        ensures answer { IfOk result (λ f. f ≡ feedback_of self.old) }
        ensures after { OnOk result (self.new ≡ appended self.old message) }
        ensures no_room { IfErr result (λ e. (e.0 ≡ message) × (self.new ≡ self.old)) }
    {
        let feedback = self.feedback();
        match self.messages.enqueue(message) {
            Ok(_) => Ok(feedback),
            Err(failed) => Err(failed),
        }
    }

    /// Tells the router that connection `conn` of a peer is ready, and takes messages through `relay`. It is never refused.
    ///
    /// `NoRoom` hands the relay back where there is no memory for the message, and the mailbox stays as it was.
    ///
    /// Ports `Mailbox::ready` of commonware-p2p, which also waits for the answer.
    pub fn ready(
        &mut self,
        peer: P,
        relay: Relay<EncodedData>,
        conn: u64,
    ) -> Result<Feedback, NoRoom<Relay<EncodedData>>>
        ensures answer { IfOk result (λ f. f ≡ feedback_of self.old) }
        ensures after { OnOk result (self.new ≡ appended self.old (message.Ready peer relay conn)) }
        ensures no_room { IfErr result (λ e. (e.0 ≡ relay) × (self.new ≡ self.old)) }
    {
        match self.put(Message::Ready { peer, relay, conn }) {
            Ok(feedback) => Ok(feedback),
            Err(NoRoom(message)) => {
                let Message::Ready { relay, .. } = message else {
                    unreachable!()
                };
                Err(NoRoom(relay))
            }
        }
    }

    /// Tells the router that the connection of a peer is gone. It is never refused.
    ///
    /// `Err` only where memory runs out, and the mailbox stays as it was then.
    ///
    /// Ports `Mailbox::release` of commonware-p2p.
    pub fn release(&mut self, peer: P) -> Result<Feedback, AllocError>
        ensures answer { IfOk result (λ f. f ≡ feedback_of self.old) }
        ensures after { OnOk result (self.new ≡ appended self.old (message.Release peer)) }
        ensures memory { OnErr result (self.new ≡ self.old) }
    {
        match self.put(Message::Release { peer }) {
            Ok(feedback) => Ok(feedback),
            Err(_) => Err(AllocError),
        }
    }

    /// Hands in a frame for peers. It is refused where no ready place is free.
    ///
    /// `Err` only where memory runs out, and the mailbox stays as it was then.
    pub fn content(
        &mut self,
        recipients: Recipients<P>,
        encoded: EncodedData,
        priority: bool,
    ) -> Result<Unreliable, AllocError>
        ensures answer { IfOk result (λ u. u ≡ content_told self.old) }
        ensures after { OnOk result (self.new ≡ with_content self.old (message.Content recipients encoded priority)) }
        ensures memory { OnErr result (self.new ≡ self.old) }
    {
        let message = Message::Content {
            recipients,
            encoded,
            priority,
        };
        match self.messages.enqueue(message) {
            Ok(sent) => Ok(sent.outcome()),
            Err(_) => Err(AllocError),
        }
    }

    // Asks for the lists of a subscription. It is never refused.
    pub(crate) fn subscribe(&mut self, subscription: u64) -> Result<(), AllocError>
        ensures after { OnOk result (self.new ≡ appended self.old (message.SubscribePeers subscription)) }
        ensures memory { OnErr result (self.new ≡ self.old) }
    {
        match self.put(Message::SubscribePeers { subscription }) {
            Ok(_) => Ok(()),
            Err(_) => Err(AllocError),
        }
    }

    // Asks for the lists of all these subscriptions, or of none where memory runs out.
    pub(crate) fn subscribe_all(
        &mut self,
        alloc: Global,
        subscriptions: &[u64],
    ) -> Result<(), AllocError>
        ensures after { OnOk result (self.new ≡ with_subscriptions self.old subscriptions.now) }
        ensures memory { OnErr result (self.new ≡ self.old) }
    {
        let mut messages = VecDeque::with_capacity(alloc, subscriptions.len())?;
        put_all(&mut messages, subscriptions);
        self.messages.append(&mut messages)
    }
}

// Puts one message for each subscription last.
fn put_all<P>(messages: &mut VecDeque<Message<P>>, subscriptions: &[u64])
    requires { deque_len messages.old + length subscriptions.now ≤ deque_capacity messages.old }
    ensures { messages.new.items ≡ messages.old.items ++ map message.SubscribePeers subscriptions.now }
{
    for subscription in subscriptions {
        messages.push_back_reserved(Message::SubscribePeers {
            subscription: *subscription,
        });
    }
}
