//! `Index`, from where peers dial and when each comes up for a dial.
ghost use Rattle.std.specs.Prelude.{◌≡◌, OnOk, OnErr, [], None};
ghost use Rattle.std.specs.Map.{lookup};
ghost use Rattle.std.specs.BTreeMap.{is_at};
ghost use Rattle.p2p_tracker_directory.specs.Indexed.{source_of, source_in, due_of, due_in, Enters, Stays, Follows};

use crate::Record;
use crate::directory::Config;
use crate::places::Places;
use p2p_address::IpAddr;
use p2p_base::PublicKey;
use std::alloc::{AllocError, Global};
use std::collections::BTreeMap;

// Each key that has a record: at the address from which it dials, if it is another peer's in a set, and at the moment from which it is
// listed, if it is primary in one and may be dialed at its address. A key's node is made before its record, so that it moves from one
// place to another without memory.
#[derive(Drop)]
pub(super) struct Index<C: PublicKey> {
    // Whether addresses that aren't global may be dialed, and names.
    pub(super) private: bool,
    pub(super) dns: bool,
    pub(super) sources: Places<IpAddr, C>,
    pub(super) queue: Places<u128, C>,
    alloc: Global,
}

// The address that another peer in a set dials from.
fn source_of(known: &Record) -> Option<IpAddr>
    ensures { result ≡ source_of known.now }
{
    if known.eligible() {
        return known.egress_ip();
    }
    None
}

pub(super) fn source_in<C: Ord>(records: &BTreeMap<C, Record>, peer: &C) -> Option<IpAddr>
    ensures { result ≡ source_in (lookup (is_at (C.cmp peer.now)) records.now.entries) }
{
    match records.get(peer) {
        Some(record) => source_of(record),
        None => None,
    }
}

// From when another peer is listed that is primary in a set, and may be dialed at its address.
fn due_of(known: &Record, private: bool, dns: bool) -> Option<u128>
    ensures { result ≡ due_of known.now private dns }
{
    if known.primary_sets() > 0 && known.has_valid_ingress(private, dns) {
        return Some(known.next_dial());
    }
    None
}

impl<C: PublicKey> Index<C> {
    // The index of no peers.
    pub(super) fn new(alloc: Global, cfg: &Config) -> Index<C>
        ensures sources { result.sources ≡ [] }
        ensures queue { result.queue ≡ [] }
        ensures private { result.private ≡ cfg.now.allow_private_ips }
        ensures dns { result.dns ≡ cfg.now.allow_dns }
    {
        Index {
            private: cfg.allow_private_ips,
            dns: cfg.allow_dns,
            sources: Places::new(),
            queue: Places::new(),
            alloc,
        }
    }

    // From where a peer dials and when it is listed, as its record is now.
    pub(super) fn spot(
        &self,
        records: &BTreeMap<C, Record>,
        peer: &C,
    ) -> (Option<IpAddr>, Option<u128>)
        ensures source { result.0 ≡ source_in (lookup (is_at (C.cmp peer.now)) records.now.entries) }
        ensures due { result.1 ≡ due_in (lookup (is_at (C.cmp peer.now)) records.now.entries) self.now.private self.now.dns }
    {
        match records.get(peer) {
            Some(record) => (source_of(record), due_of(record, self.private, self.dns)),
            None => (None, None),
        }
    }

    // Takes a peer in that is about to have a record.
    pub(super) fn enter(&mut self, peer: &C) -> Result<(), AllocError>
        ensures entered { OnOk result (Enters C.cmp self.old self.new peer.now) }
        ensures memory { OnErr result (Stays C.cmp self.old self.new peer.now) }
        ensures private { self.new.private ≡ self.old.private }
        ensures dns { self.new.dns ≡ self.old.dns }
    {
        self.sources.enter(self.alloc, *peer)?;
        if self.queue.enter(self.alloc, *peer).is_err() {
            self.sources.leave(*peer, None);
            return Err(AllocError);
        }
        Ok(())
    }

    // Follows a change to a peer's record, or the loss of it, from where the peer stood before. It takes no memory.
    pub(super) fn follow(
        &mut self,
        records: &BTreeMap<C, Record>,
        peer: &C,
        before: (Option<IpAddr>, Option<u128>),
    )
        ensures index { Follows C.cmp self.old self.new records.now.entries peer.now before.0 before.1 }
        ensures private { self.new.private ≡ self.old.private }
        ensures dns { self.new.dns ≡ self.old.dns }
    {
        if !records.contains_key(peer) {
            self.sources.leave(*peer, before.0);
            self.queue.leave(*peer, before.1);
            return;
        }
        let after = self.spot(records, peer);
        self.sources.shift(*peer, before.0, after.0);
        self.queue.shift(*peer, before.1, after.1);
    }
}
