//! What the receiving half of a connection takes, and what becomes of it.
ghost use Rattle.std.specs.Prelude.{◌≡◌, [], true, false, None, IfOk, IfSome, OnOk, IsSome, IsTrue, not};
ghost use Rattle.std.specs.Option.{is_some};
ghost use Rattle.p2p_flow_connection.specs.Delivering.{deliver_answer, after_deliver, arrived_after};
ghost use Rattle.p2p_peer_shared.specs.Hearing.{left_waiting};
ghost use Rattle.p2p_runtime.specs.Streams.{Rose};
ghost use Rattle.p2p_discovery_directory.specs.Reserved.{peer_of};
ghost use Rattle.p2p_discovery.specs.Reading.{payload_of};
ghost use Rattle.p2p_discovery_peer.specs.Judging.{judge};
ghost use Rattle.p2p_discovery_peer.specs.Receiving.{received_as, with_inbox, with_decoded, with_heard, with_held, received, receive_fails, heard_in, reads, is_running as is_running_at};
ghost use Rattle.p2p_discovery_peer.specs.declared.peer.stepped.Stepped.TheVariants as stepped;

use super::judging::read_frame;
use super::live::{Live, Stage};
use super::{Error, Gossip, Stepped};
use p2p_base::{List, PublicKey};
use p2p_discovery::types::InfoVerifier;
use p2p_discovery::{Payload, PayloadConfig, Verifier};
use p2p_discovery_directory::tracker;
use p2p_flow_connection::{self as connection, Delivered, Inbounds};
use p2p_peer_shared::{copy_of, held_copy};
use p2p_runtime::Link;
use p2p_wire::{CodecError, Data};
use std::alloc::{AllocError, Global};
use std::fmt::Display;

impl<P> Stage<P> {
    // Whether the connection takes part in the traffic.
    fn is_running(&self) -> bool
        ensures { result ≡ is_running_at self.now }
    {
        matches!(self, Stage::Running(_))
    }
}

// The answer of a step in which the connection ends without a batch.
pub(crate) fn ended<P: Display>(alloc: Global, error: Error<P>) -> Stepped<P>
    ensures { result ≡ stepped.Ended error [] 0 }
{
    Stepped::Ended {
        error,
        frames: List::empty(alloc),
        written: 0,
    }
}

// What is answered of a message, by what became of it.
fn message_answer<P: PublicKey>(
    alloc: Global,
    was_held: bool,
    message: Data,
    delivered: Delivered<P>,
) -> Stepped<P>
    ensures { result ≡ received_as was_held message delivered }
{
    match delivered {
        Delivered::InvalidChannel => {
            ended(alloc, Error::Connection(connection::Error::InvalidChannel))
        }
        Delivered::Held if was_held => Stepped::Idle,
        delivered => Stepped::Received {
            was_held,
            message,
            delivered,
        },
    }
}

impl<P: PublicKey> Live<P> {
    // Takes a message of the link, which is held where its quota refuses it.
    fn take_message(
        &mut self,
        alloc: Global,
        inbounds: &mut Inbounds<P>,
        message: Data,
        now: u64,
    ) -> Result<Stepped<P>, AllocError>
        requires { self.old.inbox.held ≡ None }
        ensures stepped { IfOk result (λ s. s ≡ received_as false message
            (deliver_answer self.old.inbox inbounds.old (peer_of self.old.reservation) message now)) }
        ensures live { OnOk result (self.new
            ≡ with_inbox (after_deliver self.old.inbox (peer_of self.old.reservation) message now) self.old) }
        ensures arrived { OnOk result (inbounds.new
            ≡ arrived_after self.old.inbox inbounds.old (peer_of self.old.reservation) message now) }
    {
        let peer = *self.reservation.metadata().public_key();
        let copy = copy_of(&message)?;
        let delivered = self.inbox.deliver(inbounds, peer, message, now)?;
        Ok(message_answer(alloc, false, copy, delivered))
    }

    // Takes the message that is held, where its quota admits it now.
    fn retry_message(
        &mut self,
        alloc: Global,
        inbounds: &mut Inbounds<P>,
        copy: Data,
        now: u64,
    ) -> Result<Stepped<P>, AllocError>
        requires holds { IsSome self.old.inbox.held }
        requires copy { IfSome self.old.inbox.held (λ h. copy ≡ h.1) }
        ensures stepped { IfOk result (λ s. IfSome self.old.inbox.held
            (λ h. s ≡ received_as true h.1 (deliver_answer self.old.inbox inbounds.old h.0 h.1 now))) }
        ensures live { OnOk result (IfSome self.old.inbox.held
            (λ h. self.new ≡ with_inbox (after_deliver self.old.inbox h.0 h.1 now) self.old)) }
        ensures arrived { OnOk result (IfSome self.old.inbox.held
            (λ h. inbounds.new ≡ arrived_after self.old.inbox inbounds.old h.0 h.1 now)) }
    {
        let delivered = self.inbox.retry(inbounds, now)?;
        Ok(message_answer(alloc, true, copy, delivered))
    }

    // Takes what the peer says, or why a frame isn't of the grammar.
    #[tactic(auto, unfolding(crate::specs::Receiving::with_payload))]
    fn take_decoded<V: Verifier<P>>(
        &mut self,
        alloc: Global,
        inbounds: &mut Inbounds<P>,
        way: &mut tracker::Mailbox<P>,
        infos: &InfoVerifier<P>,
        verifier: &V,
        decoded: Result<Payload<P>, CodecError>,
        now: u64,
    ) -> Result<Stepped<P>, AllocError>
        requires message { self.old.inbox.held ≡ None }
        requires gossip { self.old.held ≡ None }
        ensures stepped { IfOk result (λ s. s ≡ (with_decoded (judge P.eq infos.now (V.accepts verifier.now) now)
            now decoded self.old inbounds.old way.old).stepped) }
        ensures live { OnOk result (self.new ≡ (with_decoded (judge P.eq infos.now (V.accepts verifier.now) now)
            now decoded self.old inbounds.old way.old).live) }
        ensures arrived { OnOk result (inbounds.new ≡ (with_decoded (judge P.eq infos.now (V.accepts verifier.now) now)
            now decoded self.old inbounds.old way.old).arrived) }
        ensures way { OnOk result (way.new ≡ (with_decoded (judge P.eq infos.now (V.accepts verifier.now) now)
            now decoded self.old inbounds.old way.old).way) }
        ensures reservation { OnOk result (self.new.reservation ≡ self.old.reservation) }
        ensures fails { IfOk result (λ s. receive_fails s ≡ false) }
    {
        match decoded {
            Err(error) => Ok(ended(alloc, Error::DecodeFailed(error))),
            Ok(Payload::Greeting(info)) => {
                self.take_greeting(alloc, way, infos, verifier, info, now)
            }
            Ok(_) if !self.is_greeted => Ok(ended(alloc, Error::MissingGreeting)),
            Ok(Payload::Data(message)) => self.take_message(alloc, inbounds, message, now),
            Ok(Payload::BitVec(bits)) => {
                let gossip = Gossip::BitVec(bits);
                self.take_gossip(alloc, way, infos, verifier, false, gossip, now)
            }
            Ok(Payload::Peers(told)) => {
                let gossip = Gossip::Peers(told);
                self.take_gossip(alloc, way, infos, verifier, false, gossip, now)
            }
        }
    }

    // Takes a frame of the link, or its fault.
    fn take_frame<L: Link, V: Verifier<P>>(
        &mut self,
        alloc: Global,
        link: &mut L,
        inbounds: &mut Inbounds<P>,
        way: &mut tracker::Mailbox<P>,
        infos: &InfoVerifier<P>,
        verifier: &V,
        cfg: &PayloadConfig,
        now: u64,
    ) -> Result<Stepped<P>, AllocError>
        requires message { self.old.inbox.held ≡ None }
        requires gossip { self.old.held ≡ None }
        ensures stepped { IfOk result (λ s. s ≡ (with_heard (payload_of P.key_of P.SIZE cfg.now)
            (judge P.eq infos.now (V.accepts verifier.now) now) now (heard_in s (L.waiting link.old)) self.old inbounds.old way.old).stepped) }
        ensures live { IfOk result (λ s. self.new ≡ (with_heard (payload_of P.key_of P.SIZE cfg.now)
            (judge P.eq infos.now (V.accepts verifier.now) now) now (heard_in s (L.waiting link.old)) self.old inbounds.old way.old).live) }
        ensures arrived { IfOk result (λ s. inbounds.new ≡ (with_heard (payload_of P.key_of P.SIZE cfg.now)
            (judge P.eq infos.now (V.accepts verifier.now) now) now (heard_in s (L.waiting link.old)) self.old inbounds.old way.old).arrived) }
        ensures way { IfOk result (λ s. way.new ≡ (with_heard (payload_of P.key_of P.SIZE cfg.now)
            (judge P.eq infos.now (V.accepts verifier.now) now) now (heard_in s (L.waiting link.old)) self.old inbounds.old way.old).way) }
        ensures reservation { OnOk result (self.new.reservation ≡ self.old.reservation) }
        ensures fault { IfOk result (λ s. IsTrue (receive_fails s) →
            Rose (L.faults_of link.old) (L.faults_of link.new)) }
        ensures no_fault { IfOk result (λ s. receive_fails s ≡ false → L.faults_of link.new ≡ L.faults_of link.old) }
        ensures waiting { IfOk result (λ s. receive_fails s ≡ false →
            L.waiting link.new ≡ left_waiting true (L.waiting link.old)) }
        ensures in_flight { L.in_flight link.new ≡ L.in_flight link.old }
    {
        match link.read() {
            Err(_) => Ok(ended(alloc, Error::ReceiveFailed)),
            Ok(None) => Ok(Stepped::Idle),
            Ok(Some(frame)) => {
                let decoded = read_frame(alloc, frame, cfg)?;
                self.take_decoded(alloc, inbounds, way, infos, verifier, decoded, now)
            }
        }
    }

    // Takes the message that is held, or else a frame.
    fn take_next<L: Link, V: Verifier<P>>(
        &mut self,
        alloc: Global,
        link: &mut L,
        inbounds: &mut Inbounds<P>,
        way: &mut tracker::Mailbox<P>,
        infos: &InfoVerifier<P>,
        verifier: &V,
        cfg: &PayloadConfig,
        now: u64,
    ) -> Result<Stepped<P>, AllocError>
        requires { self.old.held ≡ None }
        ensures stepped { IfOk result (λ s. s ≡ (with_held (payload_of P.key_of P.SIZE cfg.now)
            (judge P.eq infos.now (V.accepts verifier.now) now) now self.old.inbox.held
            (heard_in s (L.waiting link.old)) self.old inbounds.old way.old).stepped) }
        ensures live { IfOk result (λ s. self.new ≡ (with_held (payload_of P.key_of P.SIZE cfg.now)
            (judge P.eq infos.now (V.accepts verifier.now) now) now self.old.inbox.held
            (heard_in s (L.waiting link.old)) self.old inbounds.old way.old).live) }
        ensures arrived { IfOk result (λ s. inbounds.new ≡ (with_held (payload_of P.key_of P.SIZE cfg.now)
            (judge P.eq infos.now (V.accepts verifier.now) now) now self.old.inbox.held
            (heard_in s (L.waiting link.old)) self.old inbounds.old way.old).arrived) }
        ensures way { IfOk result (λ s. way.new ≡ (with_held (payload_of P.key_of P.SIZE cfg.now)
            (judge P.eq infos.now (V.accepts verifier.now) now) now self.old.inbox.held
            (heard_in s (L.waiting link.old)) self.old inbounds.old way.old).way) }
        ensures reservation { OnOk result (self.new.reservation ≡ self.old.reservation) }
        ensures fault { IfOk result (λ s. IsTrue (receive_fails s) →
            Rose (L.faults_of link.old) (L.faults_of link.new)) }
        ensures no_fault { IfOk result (λ s. receive_fails s ≡ false → L.faults_of link.new ≡ L.faults_of link.old) }
        ensures waiting { IfOk result (λ s. receive_fails s ≡ false →
            L.waiting link.new ≡ left_waiting (not (is_some self.old.inbox.held)) (L.waiting link.old)) }
        ensures in_flight { L.in_flight link.new ≡ L.in_flight link.old }
    {
        match held_copy(&self.inbox)? {
            Some(message) => self.retry_message(alloc, inbounds, message, now),
            None => self.take_frame(alloc, link, inbounds, way, infos, verifier, cfg, now),
        }
    }

    // Takes the first ready input of the receiving half.
    pub(crate) fn receive<L: Link, V: Verifier<P>>(
        &mut self,
        alloc: Global,
        link: &mut L,
        inbounds: &mut Inbounds<P>,
        way: &mut tracker::Mailbox<P>,
        infos: &InfoVerifier<P>,
        verifier: &V,
        cfg: &PayloadConfig,
        now: u64,
    ) -> Result<Stepped<P>, AllocError>
        ensures stepped { IfOk result (λ s. s ≡ (received (payload_of P.key_of P.SIZE cfg.now)
            (judge P.eq infos.now (V.accepts verifier.now) now) now self.old inbounds.old way.old
            (heard_in s (L.waiting link.old))).stepped) }
        ensures live { IfOk result (λ s. self.new ≡ (received (payload_of P.key_of P.SIZE cfg.now)
            (judge P.eq infos.now (V.accepts verifier.now) now) now self.old inbounds.old way.old
            (heard_in s (L.waiting link.old))).live) }
        ensures arrived { IfOk result (λ s. inbounds.new ≡ (received (payload_of P.key_of P.SIZE cfg.now)
            (judge P.eq infos.now (V.accepts verifier.now) now) now self.old inbounds.old way.old
            (heard_in s (L.waiting link.old))).arrived) }
        ensures way { IfOk result (λ s. way.new ≡ (received (payload_of P.key_of P.SIZE cfg.now)
            (judge P.eq infos.now (V.accepts verifier.now) now) now self.old inbounds.old way.old
            (heard_in s (L.waiting link.old))).way) }
        ensures reservation { OnOk result (self.new.reservation ≡ self.old.reservation) }
        ensures fault { IfOk result (λ s. IsTrue (receive_fails s) →
            Rose (L.faults_of link.old) (L.faults_of link.new)) }
        ensures no_fault { IfOk result (λ s. receive_fails s ≡ false → L.faults_of link.new ≡ L.faults_of link.old) }
        ensures waiting { IfOk result (λ s. receive_fails s ≡ false →
            L.waiting link.new ≡ left_waiting (reads self.old) (L.waiting link.old)) }
        ensures in_flight { L.in_flight link.new ≡ L.in_flight link.old }
    {
        if !self.stage.is_running() {
            return Ok(Stepped::Idle);
        }
        match self.held {
            Some(_) => self.retry_gossip(alloc, way, infos, verifier, now),
            None => self.take_next(alloc, link, inbounds, way, infos, verifier, cfg, now),
        }
    }
}
