//! `Dialer`, who asks whom to dial and begins an attempt for each grant.
ghost use Rattle.std.specs.Prelude.{◌≡◌, true, false, [], Some, None, IfOk, OnOk, IsErr, OnErr};
ghost use Rattle.p2p_runtime.specs.Draws.{seeded, shuffled};
ghost use Rattle.p2p_gates.specs.Attempting.{new_attempt};
ghost use Rattle.p2p_gates.specs.Dialing.{new_dialer};
ghost use Rattle.p2p_gates.specs.DialerTurns.{after_dial, next_query, next_deadline, last_peer, without_last, dials_next, begun, with_peers, answer_turn, asks_whom, is_due, waits, dialer_turn};
ghost use Rattle.p2p_gates.specs.declared.stepped.Input.TheVariants as input;

use crate::attempt::Attempt;
use crate::config::Config;
use crate::stepped::{Input, Left, Outcome, Put, Stepped};
use p2p_address::Ingress;
use p2p_base::PublicKey;
use p2p_runtime::Draws;
use p2p_tracker_directory::{Dialable, Reservation};
use p2p_tracker_mailbox::{DialerAnswer, Mailbox};
use std::alloc::{AllocError, Global};
use std::marker::Model;

/// Asks the tracker whom to dial, and then for one peer after another, until one is granted: an attempt begins then. It
/// dials at most once a `dial_frequency`, and asks one question at a time. Its answers wait in the tracker's mailbox.
///
/// Ports `Actor` of commonware-p2p's dialer, whose questions wait for their answers.
pub struct Dialer<P> {
    alloc: Global,
    cfg: Config,
    peers: Vec<P>,
    deadline: u128,
    asked_at: u64,
    is_asking: bool,
    has_failed: bool,
}

impl<P: Drop> Drop for Dialer<P> {
    fn drop(self) {
        let Dialer {
            alloc: _alloc,
            cfg: _cfg,
            peers: _peers,
            deadline: _deadline,
            asked_at: _asked_at,
            is_asking: _is_asking,
            has_failed: _has_failed,
        } = self;
    }
}

impl<P> Model for Dialer<P> {
    ghost use Rattle.p2p_gates.specs.Dialing.{Dialing};

    ghost Value = { Dialing P };

    ghost view = { λ d. record {
      cfg = d.cfg;
      peers = d.peers.items;
      deadline = d.deadline;
      asked_at = d.asked_at;
      is_asking = d.is_asking;
      has_failed = d.has_failed;
    } };
}

// The deadline after a dial at the moment `now`.
fn after_dial(cfg: &Config, now: u64) -> u128
    ensures { result ≡ after_dial cfg.now now }
{
    now as u128 + cfg.dial_frequency as u128
}

// The deadline without anyone to dial, which was asked at the moment `asked`.
fn next_query(cfg: &Config, asked: u64, next: Option<u128>) -> u128
    ensures { result ≡ next_query cfg.now asked next }
{
    let cooldown = asked as u128 + cfg.peer_connection_cooldown as u128;
    let earliest = after_dial(cfg, asked);
    let latest = cooldown.max(earliest);
    next.unwrap_or(cooldown).max(earliest).min(latest)
}

// The deadline once it is known whom to dial, which was asked at the moment `asked`.
fn next_deadline<P>(cfg: &Config, asked: u64, peers: &[P], next: Option<u128>) -> u128
    ensures { result ≡ next_deadline cfg.now asked peers.now next }
{
    match peers {
        [] => next_query(cfg, asked, next),
        [_, ..] => after_dial(cfg, asked),
    }
}

// Takes the last peer of a list.
fn pop_last<P>(peers: &mut Vec<P>) -> Option<P>
    ensures value { result ≡ last_peer peers.old.items }
    ensures after { peers.new.items ≡ without_last peers.old.items }
{
    peers.pop()
}

impl<P: PublicKey> Dialer<P> {
    /// A dialer that has nobody to dial, and asks for the first time at the moment `start`.
    pub fn new(alloc: Global, cfg: Config, start: u64) -> Dialer<P>
        ensures { result ≡ new_dialer cfg start }
    {
        Dialer {
            alloc,
            cfg,
            peers: Vec::new(alloc),
            deadline: start as u128,
            asked_at: start,
            is_asking: false,
            has_failed: false,
        }
    }

    /// Takes the oldest answer that waits for it, and does what it says. Where none waits, it asks no question yet and
    /// its deadline has come, it asks for the next peer of its list, or whom to dial.
    ///
    /// `seed` draws the order of a new list. A grant begins an attempt of the name `name`, which no earlier step was
    /// given.
    ///
    /// `Err` only where memory runs out. Each later step then answers so.
    pub fn step(
        &mut self,
        way: &mut Mailbox<P>,
        name: u64,
        now: u64,
        seed: u64,
    ) -> Result<Stepped<P>, AllocError>
        ensures answer { IfOk result (λ s. s ≡ (dialer_turn self.old way.old name now seed).stepped) }
        ensures after { OnOk result (self.new ≡ (dialer_turn self.old way.old name now seed).actor) }
        ensures way { OnOk result (way.new ≡ (dialer_turn self.old way.old name now seed).way) }
        ensures memory { OnErr result (self.new.has_failed ≡ true) }
        ensures failed { self.old.has_failed ≡ true → IsErr result }
    {
        if self.has_failed {
            return Err(AllocError);
        }
        match self.work(way, name, now, seed) {
            Ok(stepped) => Ok(stepped),
            Err(_) => {
                self.has_failed = true;
                Err(AllocError)
            }
        }
    }

    // What a step does.
    fn work(
        &mut self,
        way: &mut Mailbox<P>,
        name: u64,
        now: u64,
        seed: u64,
    ) -> Result<Stepped<P>, AllocError>
        ensures answer { IfOk result (λ s. s ≡ (dialer_turn self.old way.old name now seed).stepped) }
        ensures after { OnOk result (self.new ≡ (dialer_turn self.old way.old name now seed).actor) }
        ensures way { OnOk result (way.new ≡ (dialer_turn self.old way.old name now seed).way) }
    {
        match way.dialer.take() {
            Some(answer) => self.serve(way, answer, name, now, seed),
            None => self.wait(way, now),
        }
    }

    // Dials or asks where the deadline has come.
    fn wait(&mut self, way: &mut Mailbox<P>, now: u64) -> Result<Stepped<P>, AllocError>
        ensures answer { IfOk result (λ s. s ≡ (waits self.old way.old now).stepped) }
        ensures after { OnOk result (self.new ≡ (waits self.old way.old now).actor) }
        ensures way { OnOk result (way.new ≡ (waits self.old way.old now).way) }
    {
        if !self.is_due(now) {
            return Ok(Stepped::Idle);
        }
        if self.peers.is_empty() {
            return self.ask(way, now);
        }
        self.deadline = after_dial(&self.cfg, now);
        self.dial(way, Input::Deadline)
    }

    // Whether it waits for no answer, and its deadline has come.
    fn is_due(&self, now: u64) -> bool
        ensures { result ≡ is_due self.now now }
    {
        !self.is_asking && self.deadline <= now as u128
    }

    // Asks whom to dial.
    fn ask(&mut self, way: &mut Mailbox<P>, now: u64) -> Result<Stepped<P>, AllocError>
        ensures answer { IfOk result (λ s. s ≡ (asks_whom [] self.old way.old now).stepped) }
        ensures after { OnOk result (self.new ≡ (asks_whom [] self.old way.old now).actor) }
        ensures way { OnOk result (way.new ≡ (asks_whom [] self.old way.old now).way) }
    {
        way.dialable()?;
        self.asked_at = now;
        self.is_asking = true;
        Ok(Stepped::goes_on(Input::Deadline, Some(Put::Dialable)))
    }

    // Does what an answer says.
    fn serve(
        &mut self,
        way: &mut Mailbox<P>,
        answer: DialerAnswer<P>,
        name: u64,
        now: u64,
        seed: u64,
    ) -> Result<Stepped<P>, AllocError>
        ensures answer { IfOk result (λ s. s ≡ (answer_turn answer self.old way.old name now seed).stepped) }
        ensures after { OnOk result (self.new ≡ (answer_turn answer self.old way.old name now seed).actor) }
        ensures way { OnOk result (way.new ≡ (answer_turn answer self.old way.old name now seed).way) }
    {
        match answer {
            DialerAnswer::Dialable(dialable) => {
                self.keep(dialable, seed);
                self.dial(way, Input::Answer)
            }
            DialerAnswer::Dial(None) => self.dial(way, Input::Answer),
            DialerAnswer::Dial(Some((reservation, ingress))) => {
                Ok(self.begin(name, reservation, ingress, now))
            }
        }
    }

    // Keeps whom to dial, in a drawn order.
    fn keep(&mut self, dialable: Dialable<P>, seed: u64)
        ensures { self.new ≡ with_peers dialable seed self.old }
    {
        let Dialable {
            peers,
            next_query_at,
        } = dialable;
        self.deadline = next_deadline(&self.cfg, self.asked_at, peers.as_slice(), next_query_at);
        self.peers = peers.into_inner();
        Draws::new(seed).shuffle(&mut self.peers);
    }

    // Begins an attempt by a grant.
    fn begin(
        &mut self,
        name: u64,
        reservation: Reservation<P>,
        ingress: Ingress,
        now: u64,
    ) -> Stepped<P>
        ensures answer { result ≡ begun (new_attempt name reservation ingress self.old.cfg now) }
        ensures after { self.new ≡ record self.old { is_asking = false } }
    {
        self.is_asking = false;
        let attempt = Attempt::new(self.alloc, name, reservation, ingress, &self.cfg, now);
        Stepped::Served {
            took: Input::Answer,
            put: None,
            left: Left::Nothing,
            outcome: Outcome::Dialed(attempt),
        }
    }

    // Asks for the next peer of the list, if there is one.
    fn dial(&mut self, way: &mut Mailbox<P>, took: Input) -> Result<Stepped<P>, AllocError>
        ensures answer { IfOk result (λ s. s ≡ (dials_next took self.old way.old).stepped) }
        ensures after { OnOk result (self.new ≡ (dials_next took self.old way.old).actor) }
        ensures way { OnOk result (way.new ≡ (dials_next took self.old way.old).way) }
    {
        let Some(public_key) = pop_last(&mut self.peers) else {
            self.is_asking = false;
            return Ok(Stepped::goes_on(took, None));
        };
        way.dial(public_key)?;
        self.is_asking = true;
        Ok(Stepped::goes_on(took, Some(Put::Dial { public_key })))
    }
}
