//! `Handshake`, an arrival that was admitted, until it ends.
ghost use Rattle.std.specs.Prelude.{◌≡◌, true, false, IfOk, OnOk, OnErr, IsErr};
ghost use Rattle.p2p_tracker_mailbox.specs.Mailboxes.{with_item_in};
ghost use Rattle.p2p_tracker_mailbox.specs.declared.answer.HandshakeItem.TheVariants as shake;
ghost use Rattle.p2p_gates.specs.Handshaking.{new_handshake};
ghost use Rattle.p2p_gates.specs.HandshakeTurns.{is_due, item_turn, ends, line_turn, handshake_turn};
ghost use Rattle.p2p_gates.specs.Stepping.{gone_on};
ghost use Rattle.p2p_gates.specs.declared.stepped.Input.TheVariants as input;

use crate::arrival::Arrival;
use crate::stepped::{Input, Left, Outcome, Put, Stepped};
use p2p_base::PublicKey;
use p2p_tracker_mailbox::{HandshakeItem, Mailbox};
use std::alloc::AllocError;
use std::marker::Model;

/// An arrival that was admitted, until it ends: by a reservation that is ready to spawn, or without a connection.
///
/// It asks the tracker whether the peer may connect, waits until its keys are exchanged, and asks for the peer. What
/// waits for it stands in the tracker's mailbox, under its name.
///
/// Ports `Actor::handshake` of commonware-p2p's listener.
pub struct Handshake<P> {
    name: u64,
    arrival: Arrival<P>,
    deadline: u128,
    is_accepted: bool,
    is_finished: bool,
    has_ended: bool,
    has_failed: bool,
}

impl<P: Drop> Drop for Handshake<P> {
    fn drop(self) {
        let Handshake {
            name: _name,
            arrival: _arrival,
            deadline: _deadline,
            is_accepted: _is_accepted,
            is_finished: _is_finished,
            has_ended: _has_ended,
            has_failed: _has_failed,
        } = self;
    }
}

impl<P> Model for Handshake<P> {
    ghost use Rattle.p2p_gates.specs.Handshaking.{Handshaking};

    ghost Value = { Handshaking P };

    ghost view = { λ h. record {
      name = h.name;
      arrival = h.arrival;
      deadline = h.deadline;
      is_accepted = h.is_accepted;
      is_finished = h.is_finished;
      has_ended = h.has_ended;
      has_failed = h.has_failed;
    } };
}

impl<P: PublicKey> Handshake<P> {
    // The handshake of an arrival that was admitted at the moment `now`, which may take `timeout` until its keys are
    // exchanged.
    pub(crate) fn new(name: u64, arrival: Arrival<P>, timeout: u64, now: u64) -> Handshake<P>
        ensures { result ≡ new_handshake name arrival timeout now }
    {
        Handshake {
            name,
            arrival,
            deadline: now as u128 + timeout as u128,
            is_accepted: false,
            is_finished: false,
            has_ended: false,
            has_failed: false,
        }
    }

    /// Its name, by which the tracker answers it.
    pub fn name(&self) -> u64
        ensures { result ≡ self.now.name }
    {
        self.name
    }

    /// The arrival that it is for.
    pub fn arrival(&self) -> &Arrival<P>
        ensures { result.now ≡ self.now.arrival }
    {
        &self.arrival
    }

    /// Whether the tracker told it that the peer may connect.
    pub fn is_accepted(&self) -> bool
        ensures { result ≡ self.now.is_accepted }
    {
        self.is_accepted
    }

    /// Whether it has ended: each step is idle then.
    pub fn has_ended(&self) -> bool
        ensures { result ≡ self.now.has_ended }
    {
        self.has_ended
    }

    /// Tells it whether its keys were exchanged, behind what waits for it. Where it has ended, nothing changes.
    ///
    /// `Err` only where memory runs out, and the mailbox stays as it was then.
    pub fn finished(&mut self, way: &mut Mailbox<P>, ok: bool) -> Result<(), AllocError>
        ensures after { OnOk result (way.new ≡ with_item_in way.old self.old.name (shake.Finished ok)) }
        ensures same { self.new ≡ self.old }
        ensures memory { OnErr result (way.new ≡ way.old) }
    {
        way.finish_handshake(self.name, ok)
    }

    /// Takes the oldest item that waits for it, and does what it says. Where none waits and its keys were not exchanged
    /// in time, it ends. Whether the peer may connect is asked twice: what it was told before its keys were exchanged
    /// is no grant.
    ///
    /// `Err` only where memory runs out. Each later step then answers so.
    pub fn step(&mut self, way: &mut Mailbox<P>, now: u64) -> Result<Stepped<P>, AllocError>
        ensures answer { IfOk result (λ s. s ≡ (handshake_turn self.old way.old now).stepped) }
        ensures after { OnOk result (self.new ≡ (handshake_turn self.old way.old now).actor) }
        ensures way { OnOk result (way.new ≡ (handshake_turn self.old way.old now).way) }
        ensures memory { OnErr result (self.new.has_failed ≡ true) }
        ensures failed { self.old.has_failed ≡ true → IsErr result }
    {
        if self.has_failed {
            return Err(AllocError);
        }
        match self.work(way, now) {
            Ok(stepped) => Ok(stepped),
            Err(_) => {
                self.has_failed = true;
                Err(AllocError)
            }
        }
    }

    // What a step does.
    fn work(&mut self, way: &mut Mailbox<P>, now: u64) -> Result<Stepped<P>, AllocError>
        ensures answer { IfOk result (λ s. s ≡ (handshake_turn self.old way.old now).stepped) }
        ensures after { OnOk result (self.new ≡ (handshake_turn self.old way.old now).actor) }
        ensures way { OnOk result (way.new ≡ (handshake_turn self.old way.old now).way) }
    {
        if self.has_ended {
            return Ok(Stepped::Idle);
        }
        match way.handshakes.take(self.name) {
            Some(item) => self.serve(way, item),
            None => Ok(self.wait(way, now)),
        }
    }

    // Ends where the keys were not exchanged in time.
    fn wait(&mut self, way: &mut Mailbox<P>, now: u64) -> Stepped<P>
        ensures answer { result ≡ (line_turn None self.old way.old now).stepped }
        ensures after { self.new ≡ (line_turn None self.old way.old now).actor }
        ensures way { way.new ≡ (line_turn None self.old way.old now).way }
    {
        if self.is_due(now) {
            self.end(way, Input::Deadline, Outcome::Ended)
        } else {
            Stepped::Idle
        }
    }

    // Whether the keys were not exchanged in time.
    fn is_due(&self, now: u64) -> bool
        ensures { result ≡ is_due self.now now }
    {
        !self.is_finished && self.deadline <= now as u128
    }

    // Does what an item says.
    fn serve(
        &mut self,
        way: &mut Mailbox<P>,
        item: HandshakeItem<P>,
    ) -> Result<Stepped<P>, AllocError>
        ensures answer { IfOk result (λ s. s ≡ (item_turn item self.old way.old).stepped) }
        ensures after { OnOk result (self.new ≡ (item_turn item self.old way.old).actor) }
        ensures way { OnOk result (way.new ≡ (item_turn item self.old way.old).way) }
    {
        match item {
            HandshakeItem::Acceptable(true) => Ok(self.accept()),
            HandshakeItem::Acceptable(false) => Ok(self.end(way, Input::Item, Outcome::Ended)),
            HandshakeItem::Finished(true) => self.ask(way),
            HandshakeItem::Finished(false) => Ok(self.end(way, Input::Item, Outcome::Ended)),
            HandshakeItem::Listen(Some(reservation)) => {
                Ok(self.end(way, Input::Item, Outcome::Ready(reservation)))
            }
            HandshakeItem::Listen(None) => Ok(self.end(way, Input::Item, Outcome::Ended)),
        }
    }

    // The peer may connect.
    fn accept(&mut self) -> Stepped<P>
        ensures answer { result ≡ gone_on input.Item None }
        ensures after { self.new ≡ record self.old { is_accepted = true } }
    {
        self.is_accepted = true;
        Stepped::goes_on(Input::Item, None)
    }

    // Asks for the peer, whose keys were exchanged.
    fn ask(&mut self, way: &mut Mailbox<P>) -> Result<Stepped<P>, AllocError>
        ensures answer { IfOk result (λ s. s ≡ (item_turn (shake.Finished true) self.old way.old).stepped) }
        ensures after { OnOk result (self.new ≡ (item_turn (shake.Finished true) self.old way.old).actor) }
        ensures way { OnOk result (way.new ≡ (item_turn (shake.Finished true) self.old way.old).way) }
    {
        let public_key = self.arrival.key;
        let source_ip = self.arrival.from.ip;
        let handshake = self.name;
        way.listen(public_key, source_ip, handshake)?;
        self.is_finished = true;
        let put = Put::Listen {
            public_key,
            source_ip,
            handshake,
        };
        Ok(Stepped::goes_on(Input::Item, Some(put)))
    }

    // Ends, and drops what waits for it.
    fn end(&mut self, way: &mut Mailbox<P>, took: Input, outcome: Outcome<P>) -> Stepped<P>
        ensures answer { result ≡ (ends took outcome self.old way.old).stepped }
        ensures after { self.new ≡ (ends took outcome self.old way.old).actor }
        ensures way { way.new ≡ (ends took outcome self.old way.old).way }
    {
        self.has_ended = true;
        let left = way.handshakes.end(self.name);
        Stepped::Served {
            took,
            put: None,
            left: Left::Handshake(left),
            outcome,
        }
    }
}
