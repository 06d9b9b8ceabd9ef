//! What the receiving half of a connection makes of greetings, bit vectors and infos.
ghost use Rattle.std.specs.Prelude.{◌≡◌, ◌∷◌, [], false, true, None, IfOk, IfSome, OnOk, IsSome};
ghost use Rattle.p2p_discovery_directory.specs.Reserved.{peer_of};
ghost use Rattle.p2p_discovery_peer.specs.Judging.{judge};
ghost use Rattle.p2p_discovery_peer.specs.Receiving.{receive_fails, quota_of, asked_of, refused_as, admitted_as, way_admitted, told_as, way_told, gossip_answer, gossip_live, gossip_way, greeted, greeting_judged, greeting_answer, greeting_way};
ghost use Rattle.p2p_discovery_peer.specs.Sparing.{admits};

use super::judging::{info_fault, infos_fault};
use super::live::Live;
use super::receiving::ended;
use super::{Error, Gossip, GossipKind, Stepped};
use p2p_base::{List, PublicKey};
use p2p_discovery::types::InfoVerifier;
use p2p_discovery::{Info, Verifier};
use p2p_discovery_directory::tracker;
use std::alloc::{AllocError, Global};
use std::fmt::Display;
use std::mem;

// What is answered of a bit vector or infos that their quota refuses.
fn refused<P: Display>(was_held: bool, kind: GossipKind) -> Stepped<P>
    ensures { result ≡ refused_as was_held kind }
{
    if was_held {
        return Stepped::Idle;
    }
    Stepped::Gossiped {
        kind,
        was_held,
        admitted: false,
    }
}

// Tells the tracker of infos, where they are believed.
fn put_infos<P: PublicKey, V: Verifier<P>>(
    alloc: Global,
    way: &mut tracker::Mailbox<P>,
    infos: &InfoVerifier<P>,
    verifier: &V,
    was_held: bool,
    told: List<Info<P>>,
    now: u64,
) -> Result<Stepped<P>, AllocError>
    ensures stepped { IfOk result (λ s. s ≡ told_as was_held ((judge P.eq infos.now (V.accepts verifier.now) now).faults told)) }
    ensures way { OnOk result (way.new ≡ way_told ((judge P.eq infos.now (V.accepts verifier.now) now).faults told) told way.old) }
    ensures fails { IfOk result (λ s. receive_fails s ≡ false) }
{
    if let Some(fault) = infos_fault(infos, verifier, told.as_slice(), now)? {
        return Ok(ended(alloc, Error::Types(fault)));
    }
    way.peers(told)?;
    Ok(Stepped::Gossiped {
        kind: GossipKind::Peers,
        was_held,
        admitted: true,
    })
}

// Tells the tracker of the info with which a peer greets, where it is believed.
fn put_greeting<P: PublicKey, V: Verifier<P>>(
    alloc: Global,
    way: &mut tracker::Mailbox<P>,
    infos: &InfoVerifier<P>,
    verifier: &V,
    info: Info<P>,
    now: u64,
) -> Result<Stepped<P>, AllocError>
    ensures stepped { IfOk result (λ s. s ≡ greeting_judged ((judge P.eq infos.now (V.accepts verifier.now) now).fault info)) }
    ensures way { OnOk result (way.new ≡ way_told ((judge P.eq infos.now (V.accepts verifier.now) now).fault info) (info ∷ []) way.old) }
    ensures fails { IfOk result (λ s. receive_fails s ≡ false) }
{
    if let Some(fault) = info_fault(infos, verifier, &info, now)? {
        return Ok(ended(alloc, Error::Types(fault)));
    }
    let mut told = List::empty(alloc);
    told.push(info)?;
    way.peers(told)?;
    Ok(Stepped::Greeted)
}

impl<P: PublicKey> Live<P> {
    // Asks the quota of a kind.
    fn admit(&mut self, kind: GossipKind, now: u64) -> bool
        ensures value { result ≡ admits (quota_of kind self.old) now }
        ensures after { self.new ≡ asked_of kind now self.old }
    {
        match kind {
            GossipKind::BitVec => self.bit_vecs.admit(now),
            GossipKind::Peers => self.peers.admit(now),
        }
    }

    // Takes a bit vector or infos that their quota admits.
    fn take_admitted<V: Verifier<P>>(
        &self,
        alloc: Global,
        way: &mut tracker::Mailbox<P>,
        infos: &InfoVerifier<P>,
        verifier: &V,
        was_held: bool,
        gossip: Gossip<P>,
        now: u64,
    ) -> Result<Stepped<P>, AllocError>
        ensures stepped { IfOk result (λ s. s
            ≡ admitted_as (judge P.eq infos.now (V.accepts verifier.now) now) was_held gossip) }
        ensures way { OnOk result (way.new ≡ way_admitted (judge P.eq infos.now (V.accepts verifier.now) now)
            (peer_of self.now.reservation) gossip way.old) }
        ensures fails { IfOk result (λ s. receive_fails s ≡ false) }
    {
        match gossip {
            Gossip::BitVec(bit_vec) => {
                way.bit_vec(*self.reservation.metadata().public_key(), bit_vec)?;
                Ok(Stepped::Gossiped {
                    kind: GossipKind::BitVec,
                    was_held,
                    admitted: true,
                })
            }
            Gossip::Peers(told) => put_infos(alloc, way, infos, verifier, was_held, told, now),
        }
    }

    // Takes a bit vector or infos, which are held where their quota refuses them.
    pub(crate) fn take_gossip<V: Verifier<P>>(
        &mut self,
        alloc: Global,
        way: &mut tracker::Mailbox<P>,
        infos: &InfoVerifier<P>,
        verifier: &V,
        was_held: bool,
        gossip: Gossip<P>,
        now: u64,
    ) -> Result<Stepped<P>, AllocError>
        requires { self.old.held ≡ None }
        ensures stepped { IfOk result (λ s. s
            ≡ gossip_answer (judge P.eq infos.now (V.accepts verifier.now) now) now gossip self.old was_held) }
        ensures live { OnOk result (self.new ≡ gossip_live now gossip self.old) }
        ensures way { OnOk result (way.new
            ≡ gossip_way (judge P.eq infos.now (V.accepts verifier.now) now) now gossip self.old way.old) }
        ensures fails { IfOk result (λ s. receive_fails s ≡ false) }
    {
        let kind = gossip.kind();
        if !self.admit(kind, now) {
            self.held = Some(gossip);
            return Ok(refused(was_held, kind));
        }
        self.take_admitted(alloc, way, infos, verifier, was_held, gossip, now)
    }

    // Takes the bit vector or infos that are held, where their quota admits them now.
    pub(crate) fn retry_gossip<V: Verifier<P>>(
        &mut self,
        alloc: Global,
        way: &mut tracker::Mailbox<P>,
        infos: &InfoVerifier<P>,
        verifier: &V,
        now: u64,
    ) -> Result<Stepped<P>, AllocError>
        requires { IsSome self.old.held }
        ensures stepped { IfOk result (λ s. IfSome self.old.held (λ g. s
            ≡ gossip_answer (judge P.eq infos.now (V.accepts verifier.now) now) now g self.old true)) }
        ensures live { OnOk result (IfSome self.old.held (λ g. self.new ≡ gossip_live now g self.old)) }
        ensures way { OnOk result (IfSome self.old.held (λ g. way.new
            ≡ gossip_way (judge P.eq infos.now (V.accepts verifier.now) now) now g self.old way.old)) }
        ensures reservation { OnOk result (self.new.reservation ≡ self.old.reservation) }
        ensures fails { IfOk result (λ s. receive_fails s ≡ false) }
    {
        match self.held.take() {
            Some(gossip) => self.take_gossip(alloc, way, infos, verifier, true, gossip, now),
            None => Ok(Stepped::Idle),
        }
    }

    // Takes a greeting.
    pub(crate) fn take_greeting<V: Verifier<P>>(
        &mut self,
        alloc: Global,
        way: &mut tracker::Mailbox<P>,
        infos: &InfoVerifier<P>,
        verifier: &V,
        info: Info<P>,
        now: u64,
    ) -> Result<Stepped<P>, AllocError>
        ensures stepped { IfOk result (λ s. s
            ≡ greeting_answer (judge P.eq infos.now (V.accepts verifier.now) now) info self.old) }
        ensures live { self.new ≡ greeted self.old }
        ensures way { OnOk result (way.new
            ≡ greeting_way (judge P.eq infos.now (V.accepts verifier.now) now) info self.old way.old) }
        ensures fails { IfOk result (λ s. receive_fails s ≡ false) }
    {
        if mem::replace(&mut self.is_greeted, true) {
            return Ok(ended(alloc, Error::DuplicateGreeting));
        }
        if info.public_key != *self.reservation.metadata().public_key() {
            return Ok(ended(alloc, Error::GreetingMismatch));
        }
        put_greeting(alloc, way, infos, verifier, info, now)
    }
}
