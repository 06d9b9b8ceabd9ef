//! `Records`, what is kept of each peer, with an index of it.
ghost use Rattle.std.specs.Prelude.{◌≡◌, true, cond, not, Some, None, IfOk, OnOk, OnErr};
ghost use Rattle.std.specs.List.Sorted.{IsStrictlySortedBy};
ghost use Rattle.std.specs.Option.{option_copied};
ghost use Rattle.std.specs.Map.{lookup, keys_of};
ghost use Rattle.std.specs.BTreeMap.{is_at};
ghost use Rattle.p2p_tracker_directory.specs.Recorded.{fresh, may_dial_in, may_listen_in, reserved_by, connected, updated, is_reserved_in, is_held_or_unknown, is_stale_in, differs_in, without_need, written};
ghost use Rattle.p2p_tracker_directory.specs.Tracked.{blanked, needed, joined, leaves};
ghost use Rattle.p2p_tracker_directory.specs.Indexed.{HasRules};
ghost use Rattle.p2p_tracker_directory.specs.declared.record.Address.TheVariants as place;
ghost use Rattle.p2p_tracker_directory.specs.declared.record.ReserveResult.TheVariants as reserve;

use crate::directory::Config;
use crate::directory::entries::{count_less, count_more, forget};
use crate::directory::grants::{reserve_dial, reserve_listen};
use crate::directory::index::Index;
use crate::{Record, record};
use p2p_address::{Address, IpAddr, SocketAddr};
use p2p_base::PublicKey;
use std::alloc::{AllocError, Global};
use std::collections::BTreeMap;
use std::marker::Model;

// A record for each key of which the directory knows. The index follows each change to a record.
#[derive(Drop)]
pub(super) struct Records<C: PublicKey> {
    pub(super) map: BTreeMap<C, Record>,
    pub(super) index: Index<C>,
}

impl<C: PublicKey> Model for Records<C> {
    ghost use Rattle.p2p_tracker_directory.specs.Indexed.{Roster, Indexes};

    ghost Value = { Roster C };

    ghost view = { λ r. record { entries = r.map.entries; private = r.index.private; dns = r.index.dns } };

    ghost invariant = { λ r. Indexes C.cmp r.index r.map.entries };
}

impl<C: PublicKey> Records<C> {
    // The record of this node itself alone.
    pub(super) fn of_local(alloc: Global, local: C, cfg: &Config) -> Result<Records<C>, AllocError>
        ensures records { IfOk result (λ r. (q : C) → lookup (is_at (C.cmp q)) r.entries ≡ cond (is_at (C.cmp local) q) (Some (fresh place.Myself)) None) }
        ensures rules { IfOk result (λ r. HasRules cfg.now.allow_private_ips cfg.now.allow_dns r) }
    {
        let mut records = Records {
            map: BTreeMap::new(alloc),
            index: Index::new(alloc, cfg),
        };
        records.insert(&local, record::Address::Myself)?;
        Ok(records)
    }

    // The record of a peer.
    pub(super) fn get(&self, peer: &C) -> Option<&Record>
        ensures { option_copied result ≡ lookup (is_at (C.cmp peer.now)) self.now.entries }
    {
        self.map.get(peer)
    }

    // States that the records stand in the order of their keys. It does nothing.
    pub(super) fn stand_in_order(&self)
        ensures { IsStrictlySortedBy C.cmp (keys_of self.now.entries) }
    {
        let _ = self.map.iter();
    }

    // Reserves a peer that isn't blocked, where it may be dialed. True exactly where it did.
    pub(super) fn grant_dial(&mut self, cfg: &Config, peer: &C, now: u64, jitter: u64) -> bool
        ensures answer { result ≡ may_dial_in (lookup (is_at (C.cmp peer.now)) self.old.entries) now cfg.now.allow_private_ips cfg.now.allow_dns }
        ensures after { self.new.entries ≡ written C.cmp (lookup (is_at (C.cmp peer.now)) self.old.entries) self.old.entries peer.now
            (λ r. cond result (reserved_by reserve.Reserved r now cfg.now.peer_connection_cooldown jitter) r) }
        ensures rules { HasRules self.old.private self.old.dns self.new }
    {
        let before = self.index.spot(&self.map, peer);
        let Some(record) = self.map.get_mut(peer) else {
            return false;
        };
        let granted = reserve_dial(record, cfg, now, jitter);
        self.index.follow(&self.map, peer, before);
        granted
    }

    // Reserves a peer that isn't blocked, where a connection that it began from `source` may be taken up. True exactly where it did.
    pub(super) fn grant_listen(
        &mut self,
        cfg: &Config,
        peer: &C,
        source: IpAddr,
        now: u64,
        jitter: u64,
    ) -> bool
        ensures answer { result ≡ may_listen_in (lookup (is_at (C.cmp peer.now)) self.old.entries) source now cfg.now.bypass_ip_check }
        ensures after { self.new.entries ≡ written C.cmp (lookup (is_at (C.cmp peer.now)) self.old.entries) self.old.entries peer.now
            (λ r. cond result (reserved_by reserve.Reserved r now cfg.now.peer_connection_cooldown jitter) r) }
        ensures rules { HasRules self.old.private self.old.dns self.new }
    {
        let before = self.index.spot(&self.map, peer);
        let Some(record) = self.map.get_mut(peer) else {
            return false;
        };
        let granted = reserve_listen(record, cfg, source, now, jitter);
        self.index.follow(&self.map, peer, before);
        granted
    }

    // Begins a connection of a reserved peer, unless its address changed since. The index doesn't tell whether a peer is held.
    pub(super) fn begin(&mut self, peer: &C) -> bool
        requires { is_reserved_in (lookup (is_at (C.cmp peer.now)) self.old.entries) ≡ true }
        ensures answer { result ≡ not (is_stale_in (lookup (is_at (C.cmp peer.now)) self.old.entries)) }
        ensures after { self.new.entries ≡ written C.cmp (lookup (is_at (C.cmp peer.now)) self.old.entries) self.old.entries peer.now connected }
        ensures rules { HasRules self.old.private self.old.dns self.new }
    {
        let Some(record) = self.map.get_mut(peer) else {
            return false;
        };
        record.connect()
    }

    // Gives a peer another address. True exactly where that changed it.
    pub(super) fn readdress(&mut self, peer: &C, address: Address) -> bool
        ensures answer { result ≡ differs_in (lookup (is_at (C.cmp peer.now)) self.old.entries) address }
        ensures after { self.new.entries ≡ written C.cmp (lookup (is_at (C.cmp peer.now)) self.old.entries) self.old.entries peer.now (λ r. updated r address) }
        ensures rules { HasRules self.old.private self.old.dns self.new }
    {
        let before = self.index.spot(&self.map, peer);
        let Some(record) = self.map.get_mut(peer) else {
            return false;
        };
        let changed = record.update(address);
        self.index.follow(&self.map, peer, before);
        changed
    }

    // Holds a peer no longer, and forgets its record where nothing needs it then: it is in no set, and so the index hasn't got it.
    pub(super) fn end_hold(&mut self, peer: &C)
        requires { is_held_or_unknown (lookup (is_at (C.cmp peer.now)) self.old.entries) ≡ true }
        ensures each { (q : C) → lookup (is_at (C.cmp q)) self.new.entries ≡ cond (is_at (C.cmp peer.now) q)
            (without_need (lookup (is_at (C.cmp q)) self.old.entries)) (lookup (is_at (C.cmp q)) self.old.entries) }
        ensures rules { HasRules self.old.private self.old.dns self.new }
    {
        let before = self.index.spot(&self.map, peer);
        let Some(record) = self.map.get_mut(peer) else {
            return;
        };
        record.release();
        forget(&mut self.map, peer);
        self.index.follow(&self.map, peer, before);
    }

    // Makes a record for a peer that has none. The set that it is made for gives it an address.
    pub(super) fn make_blank(&mut self, peer: &C) -> Result<(), AllocError>
        ensures made { OnOk result ((q : C) → lookup (is_at (C.cmp q)) self.new.entries ≡ blanked (is_at (C.cmp peer.now) q) (lookup (is_at (C.cmp q)) self.old.entries)) }
        ensures memory { OnErr result (self.new.entries ≡ self.old.entries) }
        ensures rules { HasRules self.old.private self.old.dns self.new }
    {
        if self.map.contains_key(peer) {
            return Ok(());
        }
        let nowhere = Address::Symmetric(SocketAddr {
            ip: IpAddr::V4([0, 0, 0, 0]),
            port: 0,
        });
        self.insert(peer, record::Address::Known(nowhere))
    }

    // Makes a record for a peer that has none, in no set and never granted: so it has no place in the index yet.
    fn insert(&mut self, peer: &C, address: record::Address) -> Result<(), AllocError>
        requires { lookup (is_at (C.cmp peer.now)) self.old.entries ≡ None }
        ensures made { OnOk result ((q : C) → lookup (is_at (C.cmp q)) self.new.entries ≡ cond (is_at (C.cmp peer.now) q) (Some (fresh address)) (lookup (is_at (C.cmp q)) self.old.entries)) }
        ensures memory { OnErr result (self.new.entries ≡ self.old.entries) }
        ensures rules { HasRules self.old.private self.old.dns self.new }
    {
        self.index.enter(peer)?;
        if self.map.insert(*peer, Record::at(address)).is_err() {
            self.index.follow(&self.map, peer, (None, None));
            return Err(AllocError);
        }
        Ok(())
    }

    // Forgets a peer that nothing needs.
    pub(super) fn forget(&mut self, peer: &C)
        ensures each { (q : C) → lookup (is_at (C.cmp q)) self.new.entries ≡ cond (is_at (C.cmp peer.now) q)
            (needed (lookup (is_at (C.cmp q)) self.old.entries)) (lookup (is_at (C.cmp q)) self.old.entries) }
        ensures rules { HasRules self.old.private self.old.dns self.new }
    {
        let before = self.index.spot(&self.map, peer);
        forget(&mut self.map, peer);
        self.index.follow(&self.map, peer, before);
    }

    // Puts a peer that has a record into one more set, which gives it this address.
    pub(super) fn enter(&mut self, peer: &C, address: Address, is_primary: bool)
        ensures after { self.new.entries ≡ written C.cmp (lookup (is_at (C.cmp peer.now)) self.old.entries) self.old.entries peer.now
            (λ r. joined is_primary (updated r address)) }
        ensures rules { HasRules self.old.private self.old.dns self.new }
    {
        let before = self.index.spot(&self.map, peer);
        let Some(record) = self.map.get_mut(peer) else {
            return;
        };
        record.update(address);
        count_more(record, is_primary);
        self.index.follow(&self.map, peer, before);
    }

    // Takes a peer out of a set, and forgets it where nothing needs it then.
    pub(super) fn leave(&mut self, peer: &C, is_primary: bool)
        ensures each { (q : C) → lookup (is_at (C.cmp q)) self.new.entries ≡ leaves is_primary (is_at (C.cmp peer.now) q) (lookup (is_at (C.cmp q)) self.old.entries) }
        ensures rules { HasRules self.old.private self.old.dns self.new }
    {
        let before = self.index.spot(&self.map, peer);
        let Some(record) = self.map.get_mut(peer) else {
            return;
        };
        count_less(record, is_primary);
        forget(&mut self.map, peer);
        self.index.follow(&self.map, peer, before);
    }
}
