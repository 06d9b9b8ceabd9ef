//! What the receiving half of a connection takes, and what becomes of it.
ghost use Rattle.std.specs.Prelude.{◌≡◌, ◌≤◌, ◌&&◌, [], true, false, None, IfOk, IfSome, OnOk, IsSome, IsTrue, is_err};
ghost use Rattle.p2p_flow_connection.specs.Delivering.{after_deliver};
ghost use Rattle.p2p_peer_shared.specs.Hearing.{left_waiting};
ghost use Rattle.p2p_runtime.specs.Streams.{Rose};
ghost use Rattle.p2p_tracker_directory.specs.Reserved.{peer_of};
ghost use Rattle.p2p_wire.specs.Frame.{decode_frame};
ghost use Rattle.p2p_lookup.specs.Receiving.{pinged, received_as, ping_taken, ping_admitted, with_ping, with_message, with_decoded, with_heard, with_held, received, receive_fails, heard_in, reads, is_running as is_running_at};
ghost use Rattle.p2p_lookup.specs.declared.peer.stepped.Stepped.TheVariants as stepped;

use super::live::{Live, Stage};
use super::{Error, Stepped};
use bytes::Bytes;
use p2p_base::{List, PublicKey};
use p2p_flow_connection::{self as connection, Delivered, Inbounds};
use p2p_peer_shared::{copy_of, held_copy};
use p2p_runtime::{Failed, Link};
use p2p_wire::{CodecError, Data, Message};
use std::alloc::{AllocError, Global};
use std::fmt::Display;

impl Stage {
    // Whether the connection takes part in the traffic.
    fn is_running(&self) -> bool
        ensures { result ≡ is_running_at self.now }
    {
        matches!(self, Stage::Running(_))
    }
}

// The answer of a step in which the connection ends without a batch.
pub(crate) fn ended<P: Display>(alloc: Global, error: Error<P>) -> Stepped<P>
    ensures { result ≡ stepped.Ended error [] 0 }
{
    Stepped::Ended {
        error,
        frames: List::empty(alloc),
        written: 0,
    }
}

// What is answered of a ping.
fn ping_answer<P: Display>(was_held: bool, admitted: bool) -> Stepped<P>
    ensures { result ≡ pinged was_held admitted }
{
    if was_held && !admitted {
        return Stepped::Idle;
    }
    Stepped::Pinged { was_held, admitted }
}

// What is answered of a message, by what became of it.
fn message_answer<P: PublicKey>(
    alloc: Global,
    was_held: bool,
    message: Data,
    delivered: Delivered<P>,
) -> Stepped<P>
    ensures { result ≡ received_as was_held message delivered }
{
    match delivered {
        Delivered::InvalidChannel => {
            ended(alloc, Error::Connection(connection::Error::InvalidChannel))
        }
        Delivered::Held if was_held => Stepped::Idle,
        delivered => Stepped::Received {
            was_held,
            message,
            delivered,
        },
    }
}

impl<P: PublicKey> Live<P> {
    // Takes a ping, which is held where its quota refuses it.
    fn take_ping(&mut self, was_held: bool, now: u64) -> Stepped<P>
        ensures stepped { result ≡ pinged was_held (ping_admitted now self.old) }
        ensures after { self.new ≡ ping_taken now (ping_admitted now self.old) self.old }
    {
        let admitted = self.pings.check(now).is_ok();
        self.holds_ping = !admitted;
        ping_answer(was_held, admitted)
    }

    // Takes a message of the link, which is held where its quota refuses it.
    fn take_message(
        &mut self,
        alloc: Global,
        inbounds: &mut Inbounds<P>,
        message: Data,
        now: u64,
    ) -> Result<Stepped<P>, AllocError>
        requires { self.old.inbox.held ≡ None }
        ensures stepped { IfOk result (λ s. s
            ≡ (with_message now false (peer_of self.old.reservation) message self.old inbounds.old).stepped) }
        ensures live { OnOk result (self.new ≡ (with_message now false
            (peer_of self.old.reservation) message self.old inbounds.old).live) }
        ensures arrived { OnOk result (inbounds.new
            ≡ (with_message now false (peer_of self.old.reservation) message self.old inbounds.old).arrived) }
    {
        let peer = *self.reservation.metadata().public_key();
        let copy = copy_of(&message)?;
        let delivered = self.inbox.deliver(inbounds, peer, message, now)?;
        Ok(message_answer(alloc, false, copy, delivered))
    }

    // Takes the message that is held, where its quota admits it now.
    fn retry_message(
        &mut self,
        alloc: Global,
        inbounds: &mut Inbounds<P>,
        copy: Data,
        now: u64,
    ) -> Result<Stepped<P>, AllocError>
        requires holds { IsSome self.old.inbox.held }
        requires copy { IfSome self.old.inbox.held (λ h. copy ≡ h.1) }
        ensures stepped { IfOk result (λ s. IfSome self.old.inbox.held
            (λ h. s ≡ (with_message now true h.0 h.1 self.old inbounds.old).stepped)) }
        ensures live { OnOk result (IfSome self.old.inbox.held
            (λ h. self.new ≡ (with_message now true h.0 h.1 self.old inbounds.old).live)) }
        ensures arrived { OnOk result (IfSome self.old.inbox.held
            (λ h. inbounds.new ≡ (with_message now true h.0 h.1 self.old inbounds.old).arrived)) }
    {
        let delivered = self.inbox.retry(inbounds, now)?;
        Ok(message_answer(alloc, true, copy, delivered))
    }

    // Takes what a frame says, or why it isn't of the grammar.
    fn take_decoded(
        &mut self,
        alloc: Global,
        inbounds: &mut Inbounds<P>,
        decoded: Result<Message, CodecError>,
        now: u64,
    ) -> Result<Stepped<P>, AllocError>
        requires { self.old.inbox.held ≡ None }
        ensures stepped { IfOk result (λ s. s ≡ (with_decoded now self.old inbounds.old decoded).stepped) }
        ensures live { OnOk result (self.new ≡ (with_decoded now self.old inbounds.old decoded).live) }
        ensures arrived { OnOk result (inbounds.new ≡ (with_decoded now self.old inbounds.old decoded).arrived) }
        ensures receives { IfOk result (λ s. receive_fails s ≡ false) }
    {
        match decoded {
            Err(error) => Ok(ended(alloc, Error::DecodeFailed(error))),
            Ok(Message::Ping) => Ok(self.take_ping(false, now)),
            Ok(Message::Data(message)) => self.take_message(alloc, inbounds, message, now),
        }
    }

    // Takes what the link answered.
    fn take_heard(
        &mut self,
        alloc: Global,
        inbounds: &mut Inbounds<P>,
        limit: u32,
        heard: Result<Option<Bytes>, Failed>,
        now: u64,
    ) -> Result<Stepped<P>, AllocError>
        requires { self.old.inbox.held ≡ None }
        ensures stepped { IfOk result (λ s. s ≡ (with_heard limit now self.old inbounds.old heard).stepped) }
        ensures live { OnOk result (self.new ≡ (with_heard limit now self.old inbounds.old heard).live) }
        ensures arrived { OnOk result (inbounds.new ≡ (with_heard limit now self.old inbounds.old heard).arrived) }
        ensures fails { IfOk result (λ s. receive_fails s ≡ is_err heard) }
    {
        match heard {
            Err(_) => Ok(ended(alloc, Error::ReceiveFailed)),
            Ok(None) => Ok(Stepped::Idle),
            Ok(Some(frame)) => {
                let decoded = Message::decode(frame, limit as usize);
                self.take_decoded(alloc, inbounds, decoded, now)
            }
        }
    }

    // Takes the first ready input of the receiving half.
    pub(crate) fn receive<L: Link>(
        &mut self,
        alloc: Global,
        link: &mut L,
        inbounds: &mut Inbounds<P>,
        limit: u32,
        now: u64,
    ) -> Result<Stepped<P>, AllocError>
        ensures stepped { IfOk result (λ s. s
            ≡ (received limit now self.old inbounds.old (heard_in s (L.waiting link.old))).stepped) }
        ensures live { IfOk result (λ s. self.new
            ≡ (received limit now self.old inbounds.old (heard_in s (L.waiting link.old))).live) }
        ensures arrived { IfOk result (λ s. inbounds.new
            ≡ (received limit now self.old inbounds.old (heard_in s (L.waiting link.old))).arrived) }
        ensures reservation { OnOk result (self.new.reservation ≡ self.old.reservation) }
        ensures fault { IfOk result (λ s. IsTrue (receive_fails s) →
            Rose (L.faults_of link.old) (L.faults_of link.new)) }
        ensures no_fault { IfOk result (λ s. receive_fails s ≡ false → L.faults_of link.new ≡ L.faults_of link.old) }
        ensures waiting { IfOk result (λ s. receive_fails s ≡ false →
            L.waiting link.new ≡ left_waiting (reads self.old) (L.waiting link.old)) }
        ensures told { IfOk result (λ s. IfSome (L.read_fails link.old) (λ b. receive_fails s ≡ (reads self.old && b))) }
        ensures in_flight { L.in_flight link.new ≡ L.in_flight link.old }
        ensures count { L.faults_of link.old ≤ L.faults_of link.new }
    {
        if !self.stage.is_running() {
            return Ok(Stepped::Idle);
        }
        if self.holds_ping {
            return Ok(self.take_ping(true, now));
        }
        match held_copy(&self.inbox)? {
            Some(message) => self.retry_message(alloc, inbounds, message, now),
            None => {
                let heard = link.read();
                self.take_heard(alloc, inbounds, limit, heard, now)
            }
        }
    }
}
