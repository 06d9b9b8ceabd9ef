//! Questions that change nothing, and subscriptions to peer sets.
ghost use Rattle.std.specs.Prelude.{◌≡◌, cond, [], ◌∷◌, ◌++◌, IfOk, OnOk};
ghost use Rattle.p2p_tracker_directory.specs.Told.{dial_list_in, peer_set_in, update_in};
ghost use Rattle.p2p_tracker_mailbox.specs.Mailboxes.{runs_in};
ghost use Rattle.p2p_tracker_mailbox.specs.declared.message.Message.TheVariants as message;
ghost use Rattle.p2p_tracker.specs.Putting.{IsPut};
ghost use Rattle.p2p_tracker.specs.Telling.{after_puts, told_of_sets};
ghost use Rattle.p2p_tracker.specs.declared.stepped.Put.TheVariants as puts;

use super::Actor;
use crate::{DialerAnswer, HandshakeItem, Mailbox, Put};
use p2p_address::IpAddr;
use p2p_base::{List, PublicKey};
use std::alloc::AllocError;

impl<C: PublicKey> Actor<C> {
    // Answers who is in a set.
    pub(super) fn peer_set(
        &self,
        way: &mut Mailbox<C>,
        index: u64,
        ticket: u64,
    ) -> Result<List<Put<C>>, AllocError>
        ensures desk { IfOk result (λ p. way.new ≡ after_puts p way.old) }
        ensures put { IfOk result (λ p. p ≡ puts.PeerSet ticket (peer_set_in C.cmp self.now.directory index) ∷ []) }
    {
        let told = self.directory.get_peer_set(index)?;
        let peers = self.directory.get_peer_set(index)?;
        way.answer_peer_set(ticket, told);
        Ok(self.only(Put::PeerSet { ticket, peers })?)
    }

    // Tells a new subscription the latest set, if there is one, and keeps it.
    pub(super) fn subscribe(
        &mut self,
        way: &mut Mailbox<C>,
        ticket: u64,
    ) -> Result<List<Put<C>>, AllocError>
        ensures rest { self.new ≡ record self.old { updates = self.new.updates } }
        ensures kept { OnOk result (self.new.updates ≡ self.old.updates ++ ticket ∷ []) }
        ensures desk { IfOk result (λ p. way.new ≡ after_puts p way.old) }
        ensures put { IfOk result (λ p. p ≡ told_of_sets (ticket ∷ []) (update_in C.cmp self.old.directory)) }
    {
        let mut put = Vec::new(self.alloc);
        self.tell_latest(way, &[ticket], &mut put)?;
        self.updates.push(ticket)?;
        Ok(List::new(put))
    }

    // Answers whom to dial.
    pub(super) fn dialable(
        &self,
        way: &mut Mailbox<C>,
        now: u64,
    ) -> Result<List<Put<C>>, AllocError>
        ensures desk { IfOk result (λ p. way.new ≡ after_puts p way.old) }
        ensures put { IfOk result (λ p. p ≡ puts.Dialable (dial_list_in C.cmp self.now.directory now) ∷ []) }
    {
        let dialable = self.directory.dialable(now)?;
        let told = dialable.try_clone(self.alloc)?;
        way.answer_dialer(DialerAnswer::Dialable(dialable))?;
        Ok(self.only(Put::Dialable(told))?)
    }

    // Answers whether a peer may connect from there.
    pub(super) fn acceptable(
        &self,
        way: &mut Mailbox<C>,
        now: u64,
        public_key: C,
        source_ip: IpAddr,
        handshake: u64,
    ) -> Result<List<Put<C>>, AllocError>
        ensures desk { IfOk result (λ p. way.new ≡ after_puts p way.old) }
        ensures put { IfOk result (λ p. IsPut C.cmp self.now self.now way.old.desk.sets way.old.heard (runs_in way.old) now (message.Acceptable public_key source_ip handshake) p) }
    {
        let acceptable = self.directory.acceptable(&public_key, source_ip, now);
        let runs = way.answer_handshake(handshake, HandshakeItem::Acceptable(acceptable))?;
        let told = Put::Acceptable {
            handshake,
            acceptable,
        };
        Ok(self.only_where(runs, told)?)
    }

    // The list of this alone.
    pub(super) fn only(&self, put: Put<C>) -> Result<List<Put<C>>, AllocError>
        ensures { IfOk result (λ l. l ≡ put ∷ []) }
    {
        let mut list = Vec::new(self.alloc);
        list.push(put)?;
        Ok(List::new(list))
    }

    // The list of this alone, where it was put, and else the empty one.
    pub(super) fn only_where(&self, is_put: bool, put: Put<C>) -> Result<List<Put<C>>, AllocError>
        ensures { IfOk result (λ l. l ≡ cond is_put (put ∷ []) []) }
    {
        if !is_put {
            return Ok(List::empty(self.alloc));
        }
        Ok(self.only(put)?)
    }
}
