//! Blocks: one more, those that have ended, and who is told of them.
ghost use Rattle.std.specs.Prelude.{◌≡◌, List, [], ◌∷◌, ◌++◌, cond, true, false, Some, IfOk, OnOk};
ghost use Rattle.p2p_tracker_calls.specs.declared.call.Call.{Call};
ghost use Rattle.p2p_tracker_calls.specs.declared.call.Call.TheVariants as call;
ghost use Rattle.p2p_tracker_directory.specs.Stands.{StandsFor};
ghost use Rattle.p2p_tracker_directory.specs.Told.{addresses_in, blocked_in};
ghost use Rattle.p2p_tracker_mailbox.specs.Desk.{set_of};
ghost use Rattle.p2p_tracker.specs.Following.{Follows};
ghost use Rattle.p2p_tracker_mailbox.specs.Mailboxes.{runs_in};
ghost use Rattle.p2p_tracker_mailbox.specs.declared.message.Message.TheVariants as message;
ghost use Rattle.p2p_tracker.specs.Putting.{IsPut};
ghost use Rattle.p2p_tracker.specs.Telling.{after_puts, sets_put};
ghost use Rattle.p2p_tracker.specs.declared.stepped.Put.TheVariants as puts;

use super::Actor;
use super::kills::kill;
use super::telling::{tell_blocked, tell_blocked_all};
use crate::{Mailbox, Put};
use p2p_base::{List, PublicKey};
use std::alloc::AllocError;

impl<C: PublicKey> Actor<C> {
    // Tells that blocks have ended: the listener first, and then each subscription to the blocked keys.
    pub(super) fn ended_blocks(
        &self,
        way: &mut Mailbox<C>,
        now: u64,
    ) -> Result<List<Put<C>>, AllocError>
        ensures desk { IfOk result (λ p. way.new ≡ after_puts p way.old) }
        ensures put { IfOk result (λ p. p ≡ puts.Listenable (addresses_in C.cmp self.now.directory now) way.old.heard ∷ sets_put way.old.desk.sets self.now.sets (blocked_in C.cmp self.now.directory now)) }
    {
        let mut put = Vec::new(self.alloc);
        self.tell_listener(way, now, true, &mut put)?;
        let blocked = self.directory.blocked_peers(now)?;
        tell_blocked_all(way, self.sets.as_slice(), &blocked, &mut put)?;
        Ok(List::new(put))
    }

    // Blocks a peer, tells of it where it wasn't blocked, and kills it.
    pub(super) fn block(
        &mut self,
        way: &mut Mailbox<C>,
        now: u64,
        public_key: C,
    ) -> Result<List<Put<C>>, AllocError>
        ensures stands { IfOk result (λ p. (calls : List (Call C)) → StandsFor C.cmp self.old.directory calls → StandsFor C.cmp self.new.directory (call.Block public_key now ∷ calls)) }
        ensures follows { IfOk result (λ p. (calls : List (Call C)) → Follows C.cmp self.old.directory self.old.controls calls
            → Follows C.cmp self.new.directory self.new.controls (call.Block public_key now ∷ calls)) }
        ensures rules { OnOk result (self.new.directory.rules ≡ self.old.directory.rules) }
        ensures rest { self.new ≡ record self.old { directory = self.new.directory; controls = self.new.controls } }
        ensures desk { IfOk result (λ p. way.new ≡ after_puts p way.old) }
        ensures put { IfOk result (λ p. IsPut C.cmp self.old self.new way.old.desk.sets way.old.heard (runs_in way.old) now (message.Block public_key) p) }
    {
        let mut put = Vec::new(self.alloc);
        let is_new = self.directory.block(&public_key, now)?;
        self.tell_of_block(way, now, is_new, &mut put)?;
        kill(&mut self.controls, &public_key, &mut put)?;
        Ok(List::new(put))
    }

    // Tells of one more block, if there is one: each subscription to the blocked keys first, and then the listener.
    fn tell_of_block(
        &self,
        way: &mut Mailbox<C>,
        now: u64,
        is_new: bool,
        put: &mut Vec<Put<C>>,
    ) -> Result<(), AllocError>
        ensures desk { OnOk result (way.new ≡ cond is_new
            (record (after_puts (sets_put way.old.desk.sets self.now.sets (blocked_in C.cmp self.now.directory now)) way.old) { heard = Some (addresses_in C.cmp self.now.directory now) }) way.old) }
        ensures put { OnOk result (put.new.items ≡ cond is_new
            ((put.old.items ++ sets_put way.old.desk.sets self.now.sets (blocked_in C.cmp self.now.directory now)) ++ puts.Listenable (addresses_in C.cmp self.now.directory now) way.old.heard ∷ []) put.old.items) }
    {
        if !is_new {
            return Ok(());
        }
        let blocked = self.directory.blocked_peers(now)?;
        tell_blocked_all(way, self.sets.as_slice(), &blocked, put)?;
        self.tell_listener(way, now, true, put)?;
        Ok(())
    }

    // Tells a new subscription who is blocked, and keeps it.
    pub(super) fn subscribe_blocked(
        &mut self,
        way: &mut Mailbox<C>,
        now: u64,
        ticket: u64,
    ) -> Result<List<Put<C>>, AllocError>
        ensures rest { self.new ≡ record self.old { sets = self.new.sets } }
        ensures kept { OnOk result (self.new.sets ≡ self.old.sets ++ ticket ∷ []) }
        ensures desk { IfOk result (λ p. way.new ≡ after_puts p way.old) }
        ensures put { IfOk result (λ p. p ≡ puts.Blocked ticket (blocked_in C.cmp self.old.directory now) (set_of way.old.desk ticket) ∷ []) }
    {
        let mut put = Vec::new(self.alloc);
        let blocked = self.directory.blocked_peers(now)?;
        tell_blocked(way, ticket, &blocked, &mut put)?;
        self.sets.push(ticket)?;
        Ok(List::new(put))
    }
}
