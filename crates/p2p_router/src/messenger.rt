//! `Messenger`, through which senders reach the router.
ghost use Rattle.std.specs.Prelude.{◌≡◌, filter, length, IfOk, IfErr, IfNone, OnOk, OnErr, IsTrue};
ghost use Rattle.std.specs.Borrow.{sem};
ghost use Rattle.std.specs.Option.{option_copied_mut};
ghost use Rattle.p2p_router.specs.Messenger.{new_desk, is_unbound, is_bound, is_closed, mailbox_of, bound_to, shut, message_waiting, message_taken, is_heard, told_one, told_all, list_waiting, list_taken};

use crate::{Mailbox, Message};
use bytes::Bytes;
use p2p_base::{Feedback, List, NoRoom, Ring, Unreliable};
use p2p_flow::{Carrier, Channel, Connected, Recipients};
use p2p_wire::EncodedData;
use std::alloc::{AllocError, Global};
use std::marker::Model;

/// Senders hand it content and subscribe to the list of connected peers before the router's mailbox is there, and after.
///
/// While it is unbound, content is dropped and subscriptions wait. Once it is closed, content is told so and no new list comes.
/// For each subscription it keeps a ring of one list for good: the router puts the newest list there, and the subscriber takes it.
///
/// Ports `Messenger` of commonware-p2p, as one value that senders are lent.
pub struct Messenger<P> {
    binding: Binding<P>,
    waiting: Vec<u64>,
    lists: Vec<Ring<List<P>>>,
}

impl<P: Drop> Drop for Messenger<P> {
    fn drop(self) {
        let Messenger {
            binding: _binding,
            waiting: _waiting,
            lists: _lists,
        } = self;
    }
}

impl<P> Model for Messenger<P> {
    ghost use Rattle.p2p_router.specs.Messenger.{Desk};

    ghost Value = { Desk P };

    ghost view = { λ m. record { binding = m.binding; waiting = m.waiting.items; lists = m.lists.items } };
}

// What a messenger is bound to.
#[derive(Drop)]
enum Binding<P> {
    // Nothing yet.
    Unbound,
    // The router's mailbox.
    Bound(Mailbox<P>),
    // Nothing ever again.
    Closed,
}

impl<P> Binding<P> {
    ghost use Rattle.p2p_router.specs.Lends.{lends_bound};

    // The mailbox, where it is bound to one.
    fn mailbox(&mut self) -> Option<&mut Mailbox<P>>
        ensures* writes_back { sem 𝓛 (lends_bound P.row self.entry result) }
        ensures value { option_copied_mut result ≡ mailbox_of self.old }
    {
        match self {
            Binding::Bound(mailbox) => Some(mailbox),
            _ => None,
        }
    }
}

impl<P> Messenger<P> {
    ghost use Rattle.p2p_router.specs.Lends.{lends_mailbox};

    /// A messenger that is neither bound nor closed, without subscriptions.
    ///
    /// Ports `Messenger::unbound` of commonware-p2p.
    pub fn unbound(alloc: Global) -> Messenger<P>
        ensures { result ≡ new_desk }
    {
        Messenger {
            binding: Binding::Unbound,
            waiting: Vec::new(alloc),
            lists: Vec::new(alloc),
        }
    }

    /// Whether it has a mailbox.
    pub fn bound(&self) -> bool
        ensures { result ≡ is_bound self.now.binding }
    {
        matches!(self.binding, Binding::Bound(_))
    }

    /// Whether it was closed.
    pub fn closed(&self) -> bool
        ensures { result ≡ is_closed self.now.binding }
    {
        matches!(self.binding, Binding::Closed)
    }

    /// The router's mailbox. `None` exactly where it is unbound or closed.
    pub fn mailbox(&mut self) -> Option<&mut Mailbox<P>>
        ensures* writes_back { sem 𝓛 (lends_mailbox P.row self.entry result) }
        ensures value { option_copied_mut result ≡ mailbox_of self.old.binding }
    {
        self.binding.mailbox()
    }
}

impl<P: Drop> Messenger<P> {
    /// Gives it the router's mailbox, and puts there each subscription that waits, once and in order.
    ///
    /// `NoRoom` hands the mailbox back where there is no memory for all of them, and nothing has changed then.
    ///
    /// Ports `OwnedMessenger::bind` of commonware-p2p.
    pub fn bind(&mut self, mailbox: Mailbox<P>) -> Result<(), NoRoom<Mailbox<P>>>
        requires { IsTrue (is_unbound self.old.binding) }
        ensures after { OnOk result (self.new ≡ bound_to self.old mailbox) }
        ensures no_room { IfErr result (λ e. (e.0 ≡ mailbox) × (self.new ≡ self.old)) }
    {
        let alloc = *self.waiting.allocator();
        let mut mailbox = mailbox;
        if mailbox.subscribe_all(alloc, &self.waiting).is_err() {
            return Err(NoRoom(mailbox));
        }
        self.waiting.clear();
        self.binding = Binding::Bound(mailbox);
        Ok(())
    }

    /// Closes it for good. The mailbox goes with all that waits in it; lists that wait for subscriptions stay.
    ///
    /// Ports the drop of `OwnedMessenger` of commonware-p2p.
    pub fn close(&mut self)
        ensures { self.new ≡ shut self.old }
    {
        self.binding = Binding::Closed;
        self.waiting.clear();
    }

    /// Takes the list that waits for a subscription. `None` exactly where none waits, also where there is no such subscription.
    pub fn take_list(&mut self, subscription: u64) -> Option<List<P>>
        ensures value { result ≡ list_waiting self.old subscription }
        ensures after { self.new ≡ list_taken self.old subscription }
    {
        let list = self.lists.get_mut(subscription as usize)?;
        list.try_recv()
    }

    /// Takes the oldest message of the mailbox. `None` exactly where none waits, also where there is no mailbox.
    pub fn take(&mut self) -> Option<Message<P>>
        ensures value { result ≡ message_waiting self.old }
        ensures after { self.new ≡ message_taken self.old }
        ensures unchanged { IfNone result (self.new ≡ self.old) }
    {
        self.binding.mailbox()?.take()
    }

    // Whether the receiver of a subscription is there.
    fn is_heard(&self, subscription: u64) -> bool
        ensures { result ≡ is_heard self.now.lists subscription }
    {
        match self.lists.get(subscription as usize) {
            Some(list) => !list.is_closed(),
            None => false,
        }
    }

    // Those of these subscriptions whose receivers are there, in order.
    pub(crate) fn heard(&self, alloc: Global, subscriptions: &[u64]) -> Result<Vec<u64>, AllocError>
        ensures { IfOk result (λ v. v.items ≡ filter (is_heard self.now.lists) subscriptions.now) }
    {
        let mut heard = Vec::new(alloc);
        for subscription in subscriptions {
            if self.is_heard(*subscription) {
                heard.push(*subscription)?;
            }
        }
        Ok(heard)
    }

    // Puts a list for a subscription.
    fn tell(&mut self, peers: List<P>, subscription: u64)
        ensures { self.new ≡ told_one self.old peers subscription }
    {
        let place = subscription as usize;
        if place < self.lists.len() {
            let _ = self.lists[place].send_lossy(peers);
        }
    }
}

impl<P: Copy> Messenger<P> {
    // Puts a list for each of these subscriptions, in order.
    #[tactic(auto, unfolding(crate::specs::Messenger::told_all))]
    pub(crate) fn tell_all(
        &mut self,
        alloc: Global,
        peers: &[P],
        subscriptions: &[u64],
    ) -> Result<(), AllocError>
        ensures after { OnOk result (self.new ≡ told_all self.old peers.now subscriptions.now) }
        ensures subscriptions { length self.new.lists ≡ length self.old.lists }
    {
        for subscription in subscriptions {
            self.tell(List::from_slice(alloc, peers)?, *subscription);
        }
        Ok(())
    }
}

impl<P: Drop> Connected for Messenger<P> {
    ghost use Rattle.std.specs.Prelude.{[], length};
    ghost use Rattle.p2p_router.specs.Messenger.{subscribed, list_waiting, list_taken, receiver_dropped};
    ghost use Rattle.p2p_router.specs.MessengerLaws;

    type PublicKey = P;

    ghost known = { λ _. [] };

    ghost subscriptions = { λ d. length d.lists };

    ghost after_subscribe = { subscribed };

    ghost waiting = { list_waiting };

    ghost after_try_peers = { list_taken };

    ghost after_close_peers = { receiver_dropped };

    fn peers(&self, alloc: Global) -> Result<List<P>, AllocError> {
        Ok(List::empty(alloc))
    }

    fn subscribe(&mut self, alloc: Global) -> Result<u64, AllocError> {
        let subscription = self.lists.len() as u64;
        let list = Ring::new(alloc, 1)?;
        self.lists.reserve(1)?;
        match &mut self.binding {
            Binding::Unbound => self.waiting.push(subscription)?,
            Binding::Bound(mailbox) => mailbox.subscribe(subscription)?,
            Binding::Closed => {}
        }
        self.lists.push_reserved(list);
        Ok(subscription)
    }

    fn try_peers(&mut self, subscription: u64) -> Option<List<P>> {
        self.lists[subscription as usize].try_recv()
    }

    fn close_peers(&mut self, subscription: u64) {
        self.lists[subscription as usize].close();
    }

    ghost subscribe_counts = { MessengerLaws.subscribe_counts };

    ghost try_peers_keeps = { MessengerLaws.list_taken_keeps };

    ghost close_peers_keeps = { MessengerLaws.receiver_dropped_keeps };
}

impl<P: Drop> Carrier<P> for Messenger<P> {
    ghost use Rattle.p2p_router.specs.Messenger.{content_answered, content_taken};
    ghost use Rattle.std.specs.Prelude.{◌<◌, ◌^◌, length, refl};

    ghost content_answer = { λ d _ _ _ _. content_answered d.binding };

    ghost after_content = { content_taken };

    fn content(
        &mut self,
        alloc: Global,
        recipients: Recipients<P>,
        channel: Channel,
        message: Bytes,
        priority: bool,
    ) -> Result<Unreliable, AllocError>
        requires { length message < 2 ^ 32 }
        ensures answer { IfOk result (λ u. u ≡ content_answered self.old.binding) }
        ensures after { OnOk result (self.new ≡ content_taken self.old recipients channel message priority) }
        ensures memory { OnErr result (self.new ≡ self.old) }
    {
        match &mut self.binding {
            Binding::Unbound => Ok(Unreliable::Outcome(Feedback::Ok)),
            Binding::Bound(mailbox) => {
                let encoded = EncodedData::new(alloc, channel, message)?;
                mailbox.content(recipients, encoded, priority)
            }
            Binding::Closed => Ok(Unreliable::Outcome(Feedback::Closed)),
        }
    }

    ghost content_keeps = { λ _ _ _ _ _. refl };
}
