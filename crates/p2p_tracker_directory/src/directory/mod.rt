//! `Directory`, which peers are known, tracked, held and blocked.
ghost use Rattle.std.specs.Prelude.{◌≡◌, ℕ, ◌+◌, ◌&&◌, [], ◌∷◌, List, Some, None, true, false, not, is_some, IsOk, IfOk, OnErr, IfSome};
ghost use Rattle.std.specs.Map.{lookup, keys_of};
ghost use Rattle.std.specs.BTreeMap.{is_at};
ghost use Rattle.p2p_tracker_calls.specs.Allows.{is_acceptable, allows_dial, allows_listen};
ghost use Rattle.p2p_tracker_calls.specs.Blocks.{is_blockable, is_blocked, lasts_at, is_over, block_of};
ghost use Rattle.p2p_tracker_calls.specs.Lives.{address_of, is_eligible, is_stale, is_overwritten};
ghost use Rattle.p2p_tracker_calls.specs.Kills.{is_killed, killed_keys};
ghost use Rattle.p2p_tracker_calls.specs.Named.{EqualKeysAreOne};
ghost use Rattle.p2p_tracker_calls.specs.BlockedKeys.{blocked_keys};
ghost use Rattle.p2p_tracker_calls.specs.DialList.{dialable_keys, query_again_at};
ghost use Rattle.p2p_tracker_calls.specs.Heard.{heard_addresses};
ghost use Rattle.p2p_tracker_calls.specs.Rules.{rules_of};
ghost use Rattle.p2p_tracker_directory.specs.Told.{blocked_in, dial_list_in, addresses_in, peer_set_in, all_in, update_in};
ghost use Rattle.p2p_tracker_calls.specs.Lists.{is_dialable, next_query, is_listenable};
ghost use Rattle.p2p_tracker_directory.specs.Listed.{is_heard};
ghost use Rattle.p2p_tracker_calls.specs.Peers.{peers_of, newest_of, all_peers, latest_update};
ghost use Rattle.p2p_tracker_calls.specs.DialList.{comes_by};
ghost use Rattle.p2p_address.specs.declared.ip.IpAddr.{IpAddr};
ghost use Rattle.std.specs.List.Sorted.{IsStrictlySortedBy};
ghost use Rattle.p2p_tracker_calls.specs.Sets.{is_above, is_among, accepted_sets, kept_sets, latest_index, set_at, is_tracked, is_primary};
ghost use Rattle.p2p_tracker_calls.specs.declared.call.Call.{Call};
ghost use Rattle.p2p_tracker_calls.specs.declared.call.Call.TheVariants as call;
ghost use Rattle.p2p_tracker_directory.specs.Recorded.{is_reserved_in, is_held_or_unknown, found_ingress};
ghost use Rattle.p2p_tracker_directory.specs.Stands.{StandsFor};
ghost use Rattle.p2p_tracker_directory.specs.Reserved.{peer_of};
ghost use Rattle.p2p_tracker_directory.specs.declared.metadata.Metadata.TheVariants as side;
ghost use Rattle.p2p_address.specs.Addresses.{ingress_of};
ghost use Rattle.std.specs.Option.{option_map};

mod acceptance;
mod blocks;
mod conditions;
mod counted;
mod dials;
mod due;
mod enrolment;
mod entries;
mod grants;
mod index;
mod kills;
mod known;
mod listens;
mod lists;
mod newcomers;
mod records;
mod sets;
mod tallies;
mod told;

use crate::{Metadata, Reservation};
use blocks::{lasts, take_ended};
pub use dials::Dialable;
use dials::{dialable_peers, next_query};
use listens::addresses;
use lists::{blocked, peers_with_role};
use p2p_address::{Address, Ingress, IpAddr};
use p2p_base::{List, PrioritySet, PublicKey, Set};
use p2p_flow::{AddressableTrackedPeers, PeerSetUpdate, TrackedPeers};
pub use p2p_tracker_calls::Config;
use records::Records;
use sets::{TrackedSet, find_set, newest, peers_of};
use std::alloc::{AllocError, Global};
use std::collections::VecDeque;
use std::marker::Model;

/// Which peers are known, tracked, held and blocked. It is answerable to the list of the calls so far.
///
/// Ports `Directory` of commonware-p2p's lookup tracker.
pub struct Directory<C: PublicKey> {
    local: C,
    cfg: Config,
    sets: VecDeque<TrackedSet<C>>,
    latest: Option<u64>,
    records: Records<C>,
    blocks: PrioritySet<C>,
    alloc: Global,
}

impl<C: PublicKey> Drop for Directory<C> {
    fn drop(self) {
        let Directory {
            local: _local,
            cfg: _cfg,
            sets: _sets,
            latest: _latest,
            records: _records,
            blocks: _blocks,
            alloc: _alloc,
        } = self;
    }
}

impl<C: PublicKey> Model for Directory<C> {
    ghost use Rattle.std.specs.List.Sorted.{IsStrictlySortedBy};
    ghost use Rattle.std.specs.Map.{keys_of};
    ghost use Rattle.p2p_tracker_calls.specs.Rules.{Rules};
    ghost use Rattle.p2p_tracker_directory.specs.Indexed.{HasRules};
    ghost use Rattle.p2p_tracker_directory.specs.Stands.{Kept};

    ghost Value = { Kept C };

    ghost view = { λ d. record {
      rules = record {
        local = d.local;
        max_sets = d.cfg.max_sets;
        cooldown = d.cfg.peer_connection_cooldown;
        block_duration = d.cfg.block_duration;
        private = d.cfg.allow_private_ips;
        dns = d.cfg.allow_dns;
        bypass = d.cfg.bypass_ip_check;
      };
      sets = d.sets.items;
      latest = d.latest;
      records = d.records.entries;
      blocks = d.blocks;
    } };

    ghost invariant = { λ d. IsStrictlySortedBy C.cmp (keys_of d.blocks) × HasRules d.cfg.allow_private_ips d.cfg.allow_dns d.records };
}

impl<C: PublicKey> Directory<C> {
    /// A directory that knows of no peer but the `local` one.
    ///
    /// `Err` only where memory runs out.
    pub fn init(alloc: Global, local: C, cfg: Config) -> Result<Directory<C>, AllocError>
        ensures rules { IfOk result (λ d. d.rules ≡ rules_of local cfg) }
        ensures stands { IfOk result (λ d. StandsFor C.cmp d []) }
    {
        let records = Records::of_local(alloc, local, &cfg)?;
        Ok(Directory {
            local,
            cfg,
            sets: VecDeque::new(alloc),
            latest: None,
            records,
            blocks: PrioritySet::new(alloc),
            alloc,
        })
    }

    /// The index of the last peer set that was accepted. `None` exactly where none was.
    pub fn latest_set_index(&self) -> Option<u64>
        ensures { (calls : List (Call C)) → StandsFor C.cmp self.now calls → result ≡ latest_index (accepted_sets C.cmp calls) }
    {
        self.latest
    }

    /// The peers of the set of an index. `None` exactly where no set of that index is kept.
    ///
    /// `Err` only where memory runs out.
    pub fn get_peer_set(&self, index: u64) -> Result<Option<TrackedPeers<C>>, AllocError>
        ensures peers { IfOk result (λ r. (calls : List (Call C)) → StandsFor C.cmp self.now calls
            → r ≡ option_map peers_of (set_at index (kept_sets C.cmp self.now.rules calls))) }
        ensures value { IfOk result (λ r. r ≡ peer_set_in C.cmp self.now index) }
    {
        let Some(set) = find_set(&self.sets, index) else {
            return Ok(None);
        };
        let peers = peers_of(set)?;
        Ok(Some(peers))
    }

    /// The peers of all sets that are kept. Who is primary in one isn't secondary here.
    ///
    /// `Err` only where memory runs out.
    pub fn all(&self) -> Result<TrackedPeers<C>, AllocError>
        ensures primary { IfOk result (λ r. (calls : List (Call C)) → StandsFor C.cmp self.now calls
            → (q : C) → is_among C.cmp r.primary q ≡ is_primary C.cmp self.now.rules calls q) }
        ensures secondary { IfOk result (λ r. (calls : List (Call C)) → StandsFor C.cmp self.now calls
            → (q : C) → is_among C.cmp r.secondary q ≡ (is_tracked C.cmp self.now.rules calls q && not (is_primary C.cmp self.now.rules calls q))) }
        ensures value { IfOk result (λ r. r ≡ all_in C.cmp self.now) }
        ensures exactly { IfOk result (λ r. (calls : List (Call C)) → EqualKeysAreOne C.cmp → StandsFor C.cmp self.now calls
            → r ≡ all_peers C.cmp self.now.rules calls) }
    {
        let first = peers_with_role(self.alloc, &self.records, true)?;
        let second = peers_with_role(self.alloc, &self.records, false)?;
        let primary = Set::from_iter_dedup(first)?;
        let secondary = Set::from_iter_dedup(second)?;
        Ok(TrackedPeers { primary, secondary })
    }

    /// The newest of the sets that are kept, its index, and the peers of all of them. `None` exactly where none is kept.
    ///
    /// `Err` only where memory runs out.
    pub fn latest_update(&self) -> Result<Option<PeerSetUpdate<C>>, AllocError>
        ensures index { IfOk result (λ o. (calls : List (Call C)) → StandsFor C.cmp self.now calls
            → option_map (λ u. u.index) o ≡ latest_index (kept_sets C.cmp self.now.rules calls)) }
        ensures latest { IfOk result (λ o. (calls : List (Call C)) → StandsFor C.cmp self.now calls
            → option_map (λ u. u.latest) o ≡ option_map peers_of (newest_of (kept_sets C.cmp self.now.rules calls))) }
        ensures primary { IfOk result (λ o. IfSome o (λ u. (calls : List (Call C)) → StandsFor C.cmp self.now calls
            → (q : C) → is_among C.cmp u.all.primary q ≡ is_primary C.cmp self.now.rules calls q)) }
        ensures secondary { IfOk result (λ o. IfSome o (λ u. (calls : List (Call C)) → StandsFor C.cmp self.now calls
            → (q : C) → is_among C.cmp u.all.secondary q ≡ (is_tracked C.cmp self.now.rules calls q && not (is_primary C.cmp self.now.rules calls q)))) }
        ensures value { IfOk result (λ r. r ≡ update_in C.cmp self.now) }
        ensures exactly { IfOk result (λ r. (calls : List (Call C)) → EqualKeysAreOne C.cmp → StandsFor C.cmp self.now calls
            → r ≡ latest_update C.cmp self.now.rules calls) }
    {
        let Some(set) = newest(&self.sets) else {
            return Ok(None);
        };
        let latest = peers_of(set)?;
        let all = self.all()?;
        Ok(Some(PeerSetUpdate {
            index: set.index,
            latest,
            all,
        }))
    }

    /// The peers that are blocked at the moment `now`, also those of which the directory doesn't know.
    ///
    /// `Err` only where memory runs out.
    pub fn blocked_peers(&self, now: u64) -> Result<Set<C>, AllocError>
        ensures each { IfOk result (λ r. (calls : List (Call C)) → StandsFor C.cmp self.now calls
            → (q : C) → is_among C.cmp r q ≡ is_blocked C.cmp self.now.rules calls q now) }
        ensures value { IfOk result (λ r. r ≡ blocked_in C.cmp self.now now) }
        ensures exactly { IfOk result (λ r. (calls : List (Call C)) → EqualKeysAreOne C.cmp → StandsFor C.cmp self.now calls
            → r ≡ blocked_keys C.cmp self.now.rules calls now) }
    {
        let peers = blocked(self.alloc, &self.blocks, now)?;
        let keys = Set::from_iter_dedup(peers)?;
        Ok(keys)
    }

    /// The IP addresses that eligible peers dial from at the moment `now`, each once, IPv4 first and each kind by its bytes: those that
    /// are global, or all where private ones are allowed.
    ///
    /// `Err` only where memory runs out.
    pub fn listenable(&self, now: u64) -> Result<Vec<IpAddr>, AllocError>
        ensures each { IfOk result (λ v. (calls : List (Call C)) → StandsFor C.cmp self.now calls
            → (q : C) (source : IpAddr) → is_listenable C.cmp self.now.rules calls q source now ≡ true → is_heard v.items source ≡ true) }
        ensures only { IfOk result (λ v. (calls : List (Call C)) → StandsFor C.cmp self.now calls
            → (source : IpAddr) → is_heard v.items source ≡ true → (q : C) × (is_listenable C.cmp self.now.rules calls q source now ≡ true)) }
        ensures value { IfOk result (λ r. r.items ≡ addresses_in C.cmp self.now now) }
        ensures exactly { IfOk result (λ r. (calls : List (Call C)) → EqualKeysAreOne C.cmp → StandsFor C.cmp self.now calls
            → r.items ≡ heard_addresses C.cmp self.now.rules calls now) }
    {
        let private = self.cfg.allow_private_ips;
        let listed = addresses(self.alloc, &self.records, &self.blocks, private, now)?;
        Ok(listed)
    }

    /// The peers to dial at the moment `now`, in key order, and when to ask again: the least moment at which a peer that waits for its
    /// next dial alone is listed, or at which the block of a peer of which the directory knows ends.
    ///
    /// `Err` only where memory runs out.
    pub fn dialable(&self, now: u64) -> Result<Dialable<C>, AllocError>
        ensures peers { IfOk result (λ d. (calls : List (Call C)) → StandsFor C.cmp self.now calls
            → (q : C) → is_among C.cmp d.peers q ≡ is_dialable C.cmp self.now.rules calls q now) }
        ensures ordered { IfOk result (λ d. IsStrictlySortedBy C.cmp d.peers) }
        ensures next { IfOk result (λ d. (calls : List (Call C)) → StandsFor C.cmp self.now calls
            → IfSome d.next_query_at (λ n. (q : C) × (next_query C.cmp self.now.rules calls q now ≡ Some n))) }
        ensures least { IfOk result (λ d. (calls : List (Call C)) → StandsFor C.cmp self.now calls
            → (q : C) → IfSome (next_query C.cmp self.now.rules calls q now) (λ t. comes_by d.next_query_at t ≡ true)) }
        ensures value { IfOk result (λ r. r ≡ dial_list_in C.cmp self.now now) }
        ensures exactly { IfOk result (λ r. (calls : List (Call C)) → EqualKeysAreOne C.cmp → StandsFor C.cmp self.now calls
            → r ≡ record { peers = dialable_keys C.cmp self.now.rules calls now; next_query_at = query_again_at C.cmp self.now.rules calls now }) }
    {
        let peers = dialable_peers(self.alloc, &self.records, &self.blocks, &self.cfg, now)?;
        let next_query_at = next_query(&self.records, &self.blocks, now);
        Ok(Dialable {
            peers: List::new(peers),
            next_query_at,
        })
    }

    /// Hands in the peer set of an index, with the addresses of its peers. It is kept, and of those that were kept the oldest one is no
    /// longer where there were as many as are kept. A peer with both roles is primary. Gives the peers to kill: the held ones whose
    /// address changes, and those in the oldest set that are stale or in no set then.
    ///
    /// `None` exactly where the index isn't above that of the last set that was accepted, and then nothing changes. `Err` only where
    /// memory runs out, and then the set counts as never handed in.
    pub fn track(
        &mut self,
        index: u64,
        peers: AddressableTrackedPeers<C>,
    ) -> Result<Option<Set<C>>, AllocError>
        ensures accepted { IfOk result (λ o. (calls : List (Call C)) → StandsFor C.cmp self.old calls → is_some o ≡ is_above index (accepted_sets C.cmp calls)) }
        ensures killed { IfOk result (λ o. IfSome o (λ k. (calls : List (Call C)) → StandsFor C.cmp self.old calls
            → (q : C) → is_among C.cmp k q ≡ is_killed C.cmp self.old.rules index peers.primary peers.secondary calls q)) }
        ensures ordered { IfOk result (λ o. IfSome o (λ k. IsStrictlySortedBy C.cmp k)) }
        ensures exactly { IfOk result (λ o. IfSome o (λ k. (calls : List (Call C)) → EqualKeysAreOne C.cmp → StandsFor C.cmp self.old calls
            → k ≡ killed_keys C.cmp self.old.rules index peers.primary peers.secondary calls)) }
        ensures rules { self.new.rules ≡ self.old.rules }
        ensures stands { IfOk result (λ o. (calls : List (Call C)) → StandsFor C.cmp self.old calls → StandsFor C.cmp self.new (call.Track index peers.primary peers.secondary ∷ calls)) }
        ensures memory { OnErr result ((calls : List (Call C)) → StandsFor C.cmp self.old calls → StandsFor C.cmp self.new calls) }
    {
        self.take_in(index, &peers.primary, &peers.secondary)
    }

    // Whether the peer's block ends after `now`.
    fn is_blocked(&self, peer: &C, now: u64) -> bool
        ensures { result ≡ lasts_at (lookup (is_at (C.cmp peer.now)) self.now.blocks) now }
    {
        lasts(self.blocks.get(peer), now)
    }

    /// Whether `peer` may connect at the moment `now`: it is another's key, in a set that is kept, and not blocked.
    pub fn eligible(&self, peer: &C, now: u64) -> bool
        ensures { (calls : List (Call C)) → StandsFor C.cmp self.now calls → result ≡ is_eligible C.cmp self.now.rules calls peer.now now }
    {
        if self.is_blocked(peer, now) {
            return false;
        }
        match self.records.get(peer) {
            Some(record) => record.eligible(),
            None => false,
        }
    }

    /// Whether a connection that `peer` began from `source` may be taken up at the moment `now`. Whether it has waited since its last
    /// grant is left to `listen`.
    pub fn acceptable(&self, peer: &C, source: IpAddr, now: u64) -> bool
        ensures { (calls : List (Call C)) → StandsFor C.cmp self.now calls → result ≡ is_acceptable C.cmp self.now.rules calls peer.now source now }
    {
        if self.is_blocked(peer, now) {
            return false;
        }
        match self.records.get(peer) {
            Some(record) => record.acceptable(source, self.cfg.bypass_ip_check),
            None => false,
        }
    }

    /// Asks for a reservation to dial `peer` at the moment `now`, and for where to dial it. The peer is then listed for a dial after the
    /// cooldown and `jitter`.
    ///
    /// `None` exactly where the peer isn't eligible, is held, was granted less than the cooldown before, is primary in no set, or has no
    /// ingress that may be dialed. `Err` only where memory runs out, and then nothing has changed.
    pub fn dial(
        &mut self,
        peer: &C,
        now: u64,
        jitter: u64,
    ) -> Result<Option<(Reservation<C>, Ingress)>, AllocError>
        ensures granted { IfOk result (λ o. (calls : List (Call C)) → StandsFor C.cmp self.old calls → is_some o ≡ allows_dial C.cmp self.old.rules calls peer.now now) }
        ensures metadata { IfOk result (λ o. IfSome o (λ g. g.0 ≡ side.Dialer peer.now)) }
        ensures ingress { IfOk result (λ o. IfSome o (λ g. (calls : List (Call C)) → StandsFor C.cmp self.old calls
            → option_map ingress_of (address_of C.cmp self.old.rules calls peer.now) ≡ Some g.1)) }
        ensures rules { self.new.rules ≡ self.old.rules }
        ensures stands { IfOk result (λ o. (calls : List (Call C)) → StandsFor C.cmp self.old calls → StandsFor C.cmp self.new (call.Dial peer.now now jitter (is_some o) ∷ calls)) }
        ensures memory { OnErr result (self.new ≡ self.old) }
    {
        if self.is_blocked(peer, now) {
            return Ok(None);
        }
        let found = self.ingress_of(peer)?;
        let Some(ingress) = found else {
            return Ok(None);
        };
        if self.records.grant_dial(&self.cfg, peer, now, jitter) {
            return Ok(Some((Reservation::new(Metadata::Dialer(*peer)), ingress)));
        }
        Ok(None)
    }

    // Where the peer is dialed, if that is known.
    fn ingress_of(&self, peer: &C) -> Result<Option<Ingress>, AllocError>
        ensures { IfOk result (λ i. i ≡ found_ingress (lookup (is_at (C.cmp peer.now)) self.now.records)) }
    {
        match self.records.get(peer) {
            Some(record) => record.ingress(self.alloc),
            None => Ok(None),
        }
    }

    /// Asks for a reservation for `peer`, which dialed from `source`, at the moment `now`. The peer is then listed for a dial after the
    /// cooldown and `jitter`.
    ///
    /// `None` exactly where the peer isn't eligible, is held, was granted less than the cooldown before, or dials from another address
    /// and that is tested.
    pub fn listen(
        &mut self,
        peer: &C,
        source: IpAddr,
        now: u64,
        jitter: u64,
    ) -> Result<Option<Reservation<C>>, AllocError>
        ensures granted { IfOk result (λ o. (calls : List (Call C)) → StandsFor C.cmp self.old calls → is_some o ≡ allows_listen C.cmp self.old.rules calls peer.now source now) }
        ensures metadata { IfOk result (λ o. IfSome o (λ g. g ≡ side.Listener peer.now)) }
        ensures rules { self.new.rules ≡ self.old.rules }
        ensures stands { IfOk result (λ o. (calls : List (Call C)) → StandsFor C.cmp self.old calls → StandsFor C.cmp self.new (call.Listen peer.now now jitter (is_some o) ∷ calls)) }
        ensures memory { OnErr result (self.new ≡ self.old) }
    {
        if self.is_blocked(peer, now) {
            return Ok(None);
        }
        if self
            .records
            .grant_listen(&self.cfg, peer, source, now, jitter)
        {
            return Ok(Some(Reservation::new(Metadata::Listener(*peer))));
        }
        Ok(None)
    }

    /// Begins the connection of a reserved `peer`. False exactly where its address changed since it was reserved.
    pub fn connect(&mut self, peer: &C) -> bool
        requires { is_reserved_in (lookup (is_at (C.cmp peer.now)) self.old.records) ≡ true }
        ensures answer { (calls : List (Call C)) → StandsFor C.cmp self.old calls → result ≡ not (is_stale C.cmp self.old.rules calls peer.now) }
        ensures rules { self.new.rules ≡ self.old.rules }
        ensures stands { (calls : List (Call C)) (conn : ℕ) → StandsFor C.cmp self.old calls → StandsFor C.cmp self.new (call.Connect peer.now None conn ∷ calls) }
    {
        self.records.begin(peer)
    }

    /// Gives `peer` another address. True exactly where it is another's key of which the directory knows, and that changed it.
    ///
    /// No memory is taken, and so there is no `Err`.
    pub fn overwrite(&mut self, peer: &C, address: Address) -> Result<bool, AllocError>
        ensures answer { IfOk result (λ b. (calls : List (Call C)) → StandsFor C.cmp self.old calls → b ≡ is_overwritten C.cmp self.old.rules calls peer.now address) }
        ensures rules { self.new.rules ≡ self.old.rules }
        ensures stands { IfOk result (λ b. (calls : List (Call C)) → StandsFor C.cmp self.old calls → StandsFor C.cmp self.new (call.Overwrite peer.now address ∷ calls)) }
        ensures memory { IsOk result }
    {
        Ok(self.records.readdress(peer, address))
    }

    /// Takes back the reservation of a peer, which is held or of which the directory doesn't know. It forgets a peer that is then in no
    /// set, but for a block.
    pub fn release(&mut self, metadata: &Metadata<C>)
        requires { is_held_or_unknown (lookup (is_at (C.cmp (peer_of metadata.now))) self.old.records) ≡ true }
        ensures rules { self.new.rules ≡ self.old.rules }
        ensures stands { (calls : List (Call C)) → StandsFor C.cmp self.old calls → StandsFor C.cmp self.new (call.Release (peer_of metadata.now) ∷ calls) }
    {
        self.records.end_hold(metadata.public_key());
    }

    /// Blocks `peer` from the moment `now` on for the block's duration. True exactly where it is another's key and isn't blocked then.
    ///
    /// `Err` only where memory runs out, and then nothing has changed.
    pub fn block(&mut self, peer: &C, now: u64) -> Result<bool, AllocError>
        ensures answer { IfOk result (λ b. (calls : List (Call C)) → StandsFor C.cmp self.old calls → b ≡ is_blockable C.cmp self.old.rules calls peer.now now) }
        ensures rules { self.new.rules ≡ self.old.rules }
        ensures stands { IfOk result (λ b. (calls : List (Call C)) → StandsFor C.cmp self.old calls → StandsFor C.cmp self.new (call.Block peer.now now ∷ calls)) }
        ensures memory { OnErr result (self.new ≡ self.old) }
    {
        if self.is_own(peer) {
            return Ok(false);
        }
        if self.is_blocked(peer, now) {
            return Ok(false);
        }
        let end = self.block_end(now);
        self.blocks.put(*peer, end)?;
        Ok(true)
    }

    /// Takes away the blocks that have ended at the moment `now`. True exactly where there was one.
    pub fn unblock_expired(&mut self, now: u64) -> bool
        ensures due { result ≡ true → (calls : List (Call C)) → StandsFor C.cmp self.old calls → (q : C) × (is_over (block_of C.cmp self.old.rules calls q) now ≡ true) }
        ensures none_due { result ≡ false → (calls : List (Call C)) → StandsFor C.cmp self.old calls → (q : C) → is_over (block_of C.cmp self.old.rules calls q) now ≡ false }
        ensures quiet { result ≡ false → (q : C) → is_over (lookup (is_at (C.cmp q)) self.old.blocks) now ≡ false }
        ensures kept { result ≡ false → self.new ≡ self.old }
        ensures rules { self.new.rules ≡ self.old.rules }
        ensures stands { (calls : List (Call C)) → StandsFor C.cmp self.old calls → StandsFor C.cmp self.new (call.UnblockExpired now ∷ calls) }
    {
        take_ended(&mut self.blocks, now)
    }

    // When a block ends that begins at `now`.
    fn block_end(&self, now: u64) -> u128
        ensures { result ≡ now + self.now.rules.block_duration }
    {
        u128::from(now) + u128::from(self.cfg.block_duration)
    }
}
