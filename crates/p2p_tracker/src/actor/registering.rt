//! Peer sets and addresses that are handed in.
ghost use Rattle.std.specs.Prelude.{◌≡◌, List, [], ◌∷◌, ◌++◌, cond, true, false, Some, IfOk, OnOk};
ghost use Rattle.std.specs.Map.{lookup, remove_entry};
ghost use Rattle.std.specs.BTreeMap.{is_at};
ghost use Rattle.p2p_tracker_calls.specs.Lives.{is_overwritten};
ghost use Rattle.p2p_tracker_calls.specs.Overwrites.{overwritten, overwritten_keys};
ghost use Rattle.p2p_tracker_calls.specs.declared.call.Call.{Call};
ghost use Rattle.p2p_tracker_calls.specs.declared.call.Call.TheVariants as call;
ghost use Rattle.p2p_tracker_directory.specs.Stands.{StandsFor};
ghost use Rattle.p2p_tracker_directory.specs.Told.{addresses_in, update_in};
ghost use Rattle.p2p_tracker_mailbox.specs.Mailboxes.{runs_in};
ghost use Rattle.p2p_tracker_mailbox.specs.declared.mailbox.Mailbox.{Mailbox as Mailboxed};
ghost use Rattle.p2p_tracker_mailbox.specs.declared.message.Message.TheVariants as message;
ghost use Rattle.p2p_tracker.specs.Following.{Follows};
ghost use Rattle.p2p_tracker.specs.Putting.{IsPut, overwrite_kills};
ghost use Rattle.p2p_tracker.specs.Telling.{has_any, kill_put, after_puts, told_of_sets};
ghost use Rattle.p2p_tracker.specs.declared.stepped.Put.TheVariants as puts;

use super::Actor;
use super::kills::{kill, kill_all};
use super::telling::tell_all;
use crate::{Mailbox, Put};
use p2p_address::Address;
use p2p_base::{List, Map, PublicKey};
use p2p_flow::AddressableTrackedPeers;
use p2p_tracker_directory::Directory;
use std::alloc::AllocError;
use std::collections::BTreeMap;

impl<C: PublicKey> Actor<C> {
    // Tracks the peers of one more set, and tells of it. A set that is refused is told to nobody.
    pub(super) fn register(
        &mut self,
        way: &mut Mailbox<C>,
        now: u64,
        index: u64,
        peers: AddressableTrackedPeers<C>,
    ) -> Result<List<Put<C>>, AllocError>
        ensures stands { IfOk result (λ p. (calls : List (Call C)) → StandsFor C.cmp self.old.directory calls → StandsFor C.cmp self.new.directory (call.Track index peers.primary peers.secondary ∷ calls)) }
        ensures follows { IfOk result (λ p. (calls : List (Call C)) → Follows C.cmp self.old.directory self.old.controls calls
            → Follows C.cmp self.new.directory self.new.controls (call.Track index peers.primary peers.secondary ∷ calls)) }
        ensures rules { OnOk result (self.new.directory.rules ≡ self.old.directory.rules) }
        ensures rest { self.new ≡ record self.old { directory = self.new.directory; controls = self.new.controls } }
        ensures desk { IfOk result (λ p. way.new ≡ after_puts p way.old) }
        ensures put { IfOk result (λ p. IsPut C.cmp self.old self.new way.old.desk.sets way.old.heard (runs_in way.old) now (message.Register index peers) p) }
    {
        let mut put = Vec::new(self.alloc);
        let Some(killed) = self.directory.track(index, peers)? else {
            return Ok(List::new(put));
        };
        kill_all(&mut self.controls, killed.as_slice(), &mut put)?;
        self.tell_of_sets(way, now, &mut put)?;
        Ok(List::new(put))
    }

    // Tells the listener, and then each subscription to peer sets.
    fn tell_of_sets(
        &self,
        way: &mut Mailbox<C>,
        now: u64,
        put: &mut Vec<Put<C>>,
    ) -> Result<(), AllocError>
        ensures put { OnOk result (put.new.items ≡ (put.old.items ++ puts.Listenable (addresses_in C.cmp self.now.directory now) way.old.heard ∷ [])
            ++ told_of_sets self.now.updates (update_in C.cmp self.now.directory)) }
        ensures desk { OnOk result (way.new ≡ after_puts (told_of_sets self.now.updates (update_in C.cmp self.now.directory)) (record way.old { heard = Some (addresses_in C.cmp self.now.directory now) })) }
    {
        self.tell_listener(way, now, true, put)?;
        self.tell_latest(way, self.updates.as_slice(), put)
    }

    // Puts the latest update for each of these subscriptions, if there is one.
    pub(super) fn tell_latest(
        &self,
        way: &mut Mailbox<C>,
        tickets: &[u64],
        put: &mut Vec<Put<C>>,
    ) -> Result<(), AllocError>
        ensures put { OnOk result (put.new.items ≡ put.old.items ++ told_of_sets tickets.now (update_in C.cmp self.now.directory)) }
        ensures desk { OnOk result (way.new ≡ after_puts (told_of_sets tickets.now (update_in C.cmp self.now.directory)) way.old) }
    {
        let Some(update) = self.directory.latest_update()? else {
            return Ok(());
        };
        tell_all(way, tickets, &update, put)?;
        Ok(())
    }

    // Puts the addresses that peers may come from now, where something has changed.
    pub(super) fn tell_listener(
        &self,
        way: &mut Mailbox<C>,
        now: u64,
        has_changed: bool,
        put: &mut Vec<Put<C>>,
    ) -> Result<(), AllocError>
        ensures put { OnOk result (put.new.items ≡ cond has_changed (put.old.items ++ puts.Listenable (addresses_in C.cmp self.now.directory now) way.old.heard ∷ []) put.old.items) }
        ensures desk { OnOk result (way.new ≡ cond has_changed (record way.old { heard = Some (addresses_in C.cmp self.now.directory now) }) way.old) }
    {
        if !has_changed {
            return Ok(());
        }
        let heard = List::new(self.directory.listenable(now)?);
        let addresses = heard.try_clone(self.alloc)?;
        let dropped = way.heard.replace(heard);
        put.push(Put::Listenable { addresses, dropped })?;
        Ok(())
    }

    // Gives peers other addresses, and tells of it where that changes one.
    pub(super) fn overwrite(
        &mut self,
        way: &mut Mailbox<C>,
        now: u64,
        peers: Map<C, Address>,
    ) -> Result<List<Put<C>>, AllocError>
        ensures stands { IfOk result (λ p. (calls : List (Call C)) → StandsFor C.cmp self.old.directory calls → StandsFor C.cmp self.new.directory (overwritten peers calls)) }
        ensures follows { IfOk result (λ p. (calls : List (Call C)) → Follows C.cmp self.old.directory self.old.controls calls
            → Follows C.cmp self.new.directory self.new.controls (overwritten peers calls)) }
        ensures rules { OnOk result (self.new.directory.rules ≡ self.old.directory.rules) }
        ensures rest { self.new ≡ record self.old { directory = self.new.directory; controls = self.new.controls } }
        ensures put { IfOk result (λ p. (calls : List (Call C)) → Follows C.cmp self.old.directory self.old.controls calls
            → p ≡ overwrite_kills C.cmp self.old.directory.rules peers calls
            ++ cond (has_any (overwritten_keys C.cmp self.old.directory.rules peers calls)) (puts.Listenable (addresses_in C.cmp self.new.directory now) way.old.heard ∷ []) []) }
        ensures desk { IfOk result (λ p. way.new ≡ after_puts p way.old) }
    {
        let mut put = Vec::new(self.alloc);
        let has_changed = readdress_all(&mut self.directory, &mut self.controls, &peers, &mut put)?;
        self.tell_listener(way, now, has_changed, &mut put)?;
        Ok(List::new(put))
    }
}

// Gives each peer its address, in the order of their keys, and kills those whose address changes. True exactly where one did.
fn readdress_all<C: PublicKey>(
    directory: &mut Directory<C>,
    controls: &mut BTreeMap<C, u64>,
    peers: &Map<C, Address>,
    put: &mut Vec<Put<C>>,
) -> Result<bool, AllocError>
    ensures stands { OnOk result ((calls : List (Call C)) → StandsFor C.cmp directory.old calls → StandsFor C.cmp directory.new (overwritten peers.now calls)) }
    ensures follows { OnOk result ((calls : List (Call C)) → Follows C.cmp directory.old controls.old.entries calls
        → Follows C.cmp directory.new controls.new.entries (overwritten peers.now calls)) }
    ensures rules { OnOk result (directory.new.rules ≡ directory.old.rules) }
    ensures answer { IfOk result (λ b. (calls : List (Call C)) → StandsFor C.cmp directory.old calls → b ≡ has_any (overwritten_keys C.cmp directory.old.rules peers.now calls)) }
    ensures put { OnOk result ((calls : List (Call C)) → Follows C.cmp directory.old controls.old.entries calls
        → put.new.items ≡ put.old.items ++ overwrite_kills C.cmp directory.old.rules peers.now calls) }
    ensures desk { OnOk result ((m : Mailboxed C) → after_puts put.new.items m ≡ after_puts put.old.items m) }
{
    let mut has_changed = false;
    for place in 0..peers.len() {
        let peer = peers.keys()[place];
        let address = peers.values()[place].clone()?;
        let changes = readdress(directory, controls, &peer, address, put)?;
        has_changed |= changes;
    }
    Ok(has_changed)
}

// Gives a peer another address, and kills it where that changed it. True exactly there.
fn readdress<C: PublicKey>(
    directory: &mut Directory<C>,
    controls: &mut BTreeMap<C, u64>,
    peer: &C,
    address: Address,
    put: &mut Vec<Put<C>>,
) -> Result<bool, AllocError>
    ensures stands { OnOk result ((calls : List (Call C)) → StandsFor C.cmp directory.old calls → StandsFor C.cmp directory.new (call.Overwrite peer.now address ∷ calls)) }
    ensures follows { OnOk result ((calls : List (Call C)) → Follows C.cmp directory.old controls.old.entries calls
        → Follows C.cmp directory.new controls.new.entries (call.Overwrite peer.now address ∷ calls)) }
    ensures rules { OnOk result (directory.new.rules ≡ directory.old.rules) }
    ensures answer { IfOk result (λ b. (calls : List (Call C)) → StandsFor C.cmp directory.old calls → b ≡ is_overwritten C.cmp directory.old.rules calls peer.now address) }
    ensures put { IfOk result (λ b. put.new.items ≡ cond b (put.old.items ++ kill_put peer.now (lookup (is_at (C.cmp peer.now)) controls.old.entries)) put.old.items) }
    ensures controls { IfOk result (λ b. controls.new.entries ≡ cond b (remove_entry (is_at (C.cmp peer.now)) controls.old.entries) controls.old.entries) }
{
    let has_changed = directory.overwrite(peer, address)?;
    if !has_changed {
        return Ok(false);
    }
    kill(controls, peer, put)?;
    Ok(true)
}
