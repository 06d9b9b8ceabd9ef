//! Peer sets that are handed in, blocks, and the questions and subscriptions about both.
ghost use Rattle.std.specs.Prelude.{◌≡◌, ◌∷◌, ◌++◌, [], List as Seq, is_some, IfOk, IfSome, OnOk};
ghost use Rattle.std.specs.Map.{lookup, remove_entry};
ghost use Rattle.std.specs.BTreeMap.{is_at};
ghost use Rattle.p2p_discovery_directory.specs.Putting.{kill_put, kills_put, without_keys, told_of_sets, told_of_blocks, sets_put};
ghost use Rattle.p2p_discovery_directory.specs.Served.{IsServed};
ghost use Rattle.p2p_discovery_directory.specs.declared.call.Call.TheVariants as call;
ghost use Rattle.p2p_discovery_directory.specs.declared.tracker.message.Message.TheVariants as message;

use super::Put;
use super::controls::{kill, kill_all};
use super::telling::{only, tell_all, tell_blocked_all};
use super::tracking::Tracking;
use crate::DirectoryOf;
use p2p_base::{List, PublicKey, Set};
use p2p_flow::{PeerSetUpdate, TrackedPeers};
use std::alloc::{AllocError, Global};
use std::collections::BTreeMap;

impl<P: PublicKey, D: DirectoryOf<P> + Drop> Tracking<P, D> {
    // Tracks the peers of one more set, and tells of it. A set that is refused is told to nobody.
    pub(super) fn register(
        &mut self,
        now: u64,
        seed: u64,
        index: u64,
        peers: TrackedPeers<P>,
    ) -> Result<List<Put<P>>, AllocError>
        ensures { IfOk result (λ p. IsServed D.answering D.is_eligible P.cmp now seed self.old self.new (message.Register index peers) p) }
    {
        let taken = self.directory.track(index, peers)?;
        let Some(killed) = taken else {
            return Ok(List::empty(self.alloc));
        };
        let update = self.directory.latest_update()?;
        let (alloc, tickets) = (self.alloc, self.updates.as_slice());
        Ok(tell_of_set(alloc, &mut self.controls, tickets, &killed, &update)?)
    }

    // Answers who is in a set.
    pub(super) fn peer_set(
        &self,
        now: u64,
        seed: u64,
        index: u64,
        ticket: u64,
    ) -> Result<List<Put<P>>, AllocError>
        ensures { IfOk result (λ p. IsServed D.answering D.is_eligible P.cmp now seed self.now self.now (message.PeerSet index ticket) p) }
    {
        let peers = self.directory.get_peer_set(index)?;
        Ok(only(self.alloc, Put::PeerSet { ticket, peers })?)
    }

    // Tells a new subscription the latest set, if there is one, and keeps it.
    pub(super) fn subscribe(
        &mut self,
        now: u64,
        seed: u64,
        ticket: u64,
    ) -> Result<List<Put<P>>, AllocError>
        ensures { IfOk result (λ p. IsServed D.answering D.is_eligible P.cmp now seed self.old self.new (message.Subscribe ticket) p) }
    {
        let update = self.directory.latest_update()?;
        let put = tell_one(self.alloc, ticket, &update)?;
        self.updates.push(ticket)?;
        Ok(put)
    }

    // Blocks a peer, tells of it where it wasn't blocked, and kills it.
    pub(super) fn block(
        &mut self,
        now: u64,
        seed: u64,
        public_key: P,
    ) -> Result<List<Put<P>>, AllocError>
        ensures { IfOk result (λ p. IsServed D.answering D.is_eligible P.cmp now seed self.old self.new (message.Block public_key) p) }
    {
        let blocked = block_anew(&mut self.directory, &public_key, now)?;
        let (alloc, tickets) = (self.alloc, self.sets.as_slice());
        Ok(tell_of_block(alloc, &mut self.controls, tickets, &public_key, &blocked)?)
    }

    // Tells a new subscription who is blocked, and keeps it.
    pub(super) fn subscribe_blocked(
        &mut self,
        now: u64,
        seed: u64,
        ticket: u64,
    ) -> Result<List<Put<P>>, AllocError>
        ensures { IfOk result (λ p. IsServed D.answering D.is_eligible P.cmp now seed self.old self.new (message.SubscribeBlocked ticket) p) }
    {
        let blocked = self.directory.blocked_peers(now)?;
        let put = only(self.alloc, Put::Blocked { ticket, blocked })?;
        self.sets.push(ticket)?;
        Ok(put)
    }

    // Tells each subscription to the blocked keys that blocks have ended.
    pub(super) fn ended_blocks(&self, now: u64) -> Result<List<Put<P>>, AllocError>
        ensures { IfOk result (λ p. (blocked : Seq P) × D.answering.blocked self.now.directory now blocked × (p ≡ sets_put self.now.sets blocked)) }
    {
        let blocked = self.directory.blocked_peers(now)?;
        Ok(tell_of_blocks(self.alloc, self.sets.as_slice(), &blocked)?)
    }
}

// Puts the latest update for each of these subscriptions, if there is one.
fn tell_latest<P: PublicKey>(
    tickets: &[u64],
    update: &Option<PeerSetUpdate<P>>,
    put: &mut Vec<Put<P>>,
) -> Result<(), AllocError>
    ensures { OnOk result (put.new.items ≡ put.old.items ++ told_of_sets tickets.now update.now) }
{
    match update {
        Some(update) => tell_all(tickets, update, put),
        None => Ok(()),
    }
}

// What is put for one subscription of the latest update.
fn tell_one<P: PublicKey>(
    alloc: Global,
    ticket: u64,
    update: &Option<PeerSetUpdate<P>>,
) -> Result<List<Put<P>>, AllocError>
    ensures { IfOk result (λ p. p ≡ told_of_sets (ticket ∷ []) update.now) }
{
    let mut put = Vec::new(alloc);
    tell_latest(&[ticket], update, &mut put)?;
    Ok(List::new(put))
}

// Kills these peers, as far as their connections are kept, and tells each of these subscriptions of the latest update.
fn tell_of_set<P: PublicKey>(
    alloc: Global,
    controls: &mut BTreeMap<P, u64>,
    tickets: &[u64],
    killed: &Set<P>,
    update: &Option<PeerSetUpdate<P>>,
) -> Result<List<Put<P>>, AllocError>
    ensures put { IfOk result (λ p. p ≡ kills_put P.cmp controls.old.entries killed.now ++ told_of_sets tickets.now update.now) }
    ensures controls { OnOk result (controls.new.entries ≡ without_keys P.cmp controls.old.entries killed.now) }
{
    let mut put = Vec::new(alloc);
    kill_all(controls, killed.as_slice(), &mut put)?;
    tell_latest(tickets, update, &mut put)?;
    Ok(List::new(put))
}

// Blocks a peer, and lists who is blocked then, where that took effect.
fn block_anew<P: PublicKey, D: DirectoryOf<P>>(
    directory: &mut D,
    peer: &P,
    now: u64,
) -> Result<Option<Set<P>>, AllocError>
    ensures answer { IfOk result (λ o. D.answering.blocks directory.old peer.now now (is_some o)) }
    ensures blocked { IfOk result (λ o. IfSome o (λ s. D.answering.blocked directory.new now s)) }
    ensures stands { IfOk result (λ o. D.answering.becomes directory.old (call.Block peer.now now) directory.new) }
{
    let is_new = directory.block(peer, now)?;
    if !is_new {
        return Ok(None);
    }
    let blocked = directory.blocked_peers(now)?;
    Ok(Some(blocked))
}

// Tells each of these subscriptions who is blocked, where that has changed, and kills a peer, if its connection is kept.
fn tell_of_block<P: PublicKey>(
    alloc: Global,
    controls: &mut BTreeMap<P, u64>,
    tickets: &[u64],
    peer: &P,
    blocked: &Option<Set<P>>,
) -> Result<List<Put<P>>, AllocError>
    ensures put { IfOk result (λ p. p ≡ told_of_blocks tickets.now blocked.now ++ kill_put peer.now (lookup (is_at (P.cmp peer.now)) controls.old.entries)) }
    ensures controls { OnOk result (controls.new.entries ≡ remove_entry (is_at (P.cmp peer.now)) controls.old.entries) }
{
    let mut put = Vec::new(alloc);
    tell_changed(tickets, blocked, &mut put)?;
    kill(controls, peer, &mut put)?;
    Ok(List::new(put))
}

// Puts a set of blocked keys for each of these subscriptions, if there is one.
fn tell_changed<P: PublicKey>(
    tickets: &[u64],
    blocked: &Option<Set<P>>,
    put: &mut Vec<Put<P>>,
) -> Result<(), AllocError>
    ensures { OnOk result (put.new.items ≡ put.old.items ++ told_of_blocks tickets.now blocked.now) }
{
    match blocked {
        Some(blocked) => tell_blocked_all(tickets, blocked, put),
        None => Ok(()),
    }
}

// The sets of blocked keys that are put for these subscriptions.
fn tell_of_blocks<P: PublicKey>(
    alloc: Global,
    tickets: &[u64],
    blocked: &Set<P>,
) -> Result<List<Put<P>>, AllocError>
    ensures { IfOk result (λ p. p ≡ sets_put tickets.now blocked.now) }
{
    let mut put = Vec::new(alloc);
    tell_blocked_all(tickets, blocked, &mut put)?;
    Ok(List::new(put))
}
