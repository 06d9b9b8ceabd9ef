//! The steps of the handshakes of a node's listener, and what they are told of their keys.
ghost use Rattle.std.specs.Prelude.{◌≡◌, ◌<◌, ℕ, true, is_some, IfOk, OnOk};
ghost use Rattle.std.specs.Option.{option_map};
ghost use Rattle.p2p_net_queues.specs.Tables as table;
ghost use Rattle.p2p_net_queues.specs.Tables.{kept_with};
ghost use Rattle.p2p_net_gates.specs.Listening.{EndsAre};
ghost use Rattle.p2p_net_gates.specs.Handshaking.{ready_over, served_by, freed_if, ends_left, is_accepting, link_over, finished_in, StepsHandshake};

use crate::listening::{Listening, asked};
use p2p_base::Key;
use p2p_gates::{Handshake, Outcome, Stepped};
use p2p_log::Item;
use p2p_tracker_directory::Reservation;
use p2p_tracker_mailbox::Mailbox;
use std::alloc::AllocError;

/// What a handshake did in a step.
#[derive(Drop)]
pub enum HandshakeStep {
    /// There is none of this name.
    Gone,
    /// No input was ready.
    Idle,
    /// It took the oldest item that waits for it, or else its deadline had come.
    Served {
        /// Whether it took an item.
        took: bool,
        /// Whether it has ended.
        ended: bool,
        /// What it asked of the tracker.
        asked: Option<Item>,
        /// Where its peer is reserved: the link over which a connection is to be made, and the reservation.
        ready: Option<(u64, Reservation<Key>)>,
    },
}

/// The link and the reservation by which a connection is to be made, where that came of a step.
fn ready(link: u64, outcome: Outcome<Key>) -> Option<(u64, Reservation<Key>)>
    ensures { result ≡ ready_over link outcome }
{
    match outcome {
        Outcome::Ready(reservation) => Some((link, reservation)),
        // Each of these is moved out too, since no proof follows what is moved in part.
        Outcome::Admitted(_handshake) => None,
        Outcome::Dialed(_attempt) => None,
        Outcome::GoesOn => None,
        Outcome::Refused { .. } => None,
        Outcome::Ended => None,
    }
}

/// What was done, by the link over which the peer came and by whether the handshake has ended then.
fn served(stepped: Stepped<Key>, link: u64, ended: bool) -> HandshakeStep
    ensures { result ≡ served_by stepped link ended }
{
    match stepped {
        Stepped::Idle => HandshakeStep::Idle,
        Stepped::Served {
            took,
            put,
            outcome,
            ..
        } => HandshakeStep::Served {
            took: took.is_item(),
            ended,
            asked: asked(put),
            ready: ready(link, outcome),
        },
    }
}

impl Listening {
    /// One step of the handshake of this name, for which items wait in its tracker's mailbox, at the moment `at`. Where it ends,
    /// its place is free, and nothing has the listening end of its link.
    ///
    /// `Err` only where there is no memory. The handshake may then be dropped, and its node goes no further.
    pub fn handshake(
        &mut self,
        name: u64,
        way: &mut Mailbox<Key>,
        at: u64,
    ) -> Result<HandshakeStep, AllocError>
        requires places { is_some (table.at self.old.handshakes name) ≡ true → 0 < self.old.actor.places.held }
        ensures { IfOk result
            (λ s. StepsHandshake (table.at self.old.handshakes name) name at self.old self.new way.old way.new s) }
    {
        let Some(mut handshake) = self.handshakes.remove(name) else {
            return Ok(HandshakeStep::Gone);
        };
        let stepped = handshake.step(way, at)?;
        let link = handshake.arrival().link;
        let step = served(stepped, link, handshake.has_ended());
        self.keep(name, handshake)?;
        Ok(step)
    }

    /// Keeps a handshake, unless it has ended: then its place is free, and nothing has the listening end of its link.
    fn keep(&mut self, name: u64, handshake: Handshake<Key>) -> Result<(), AllocError>
        requires places { 0 < self.old.actor.places.held }
        ensures handshakes { OnOk result
            (self.new.handshakes ≡ kept_with handshake.has_ended name handshake self.old.handshakes) }
        ensures ends { OnOk result (EndsAre
            (ends_left handshake.has_ended handshake.arrival.link (table.at self.old.ends)) self.new.ends) }
        ensures rest { OnOk result (self.new ≡ record self.old {
          actor = freed_if handshake.has_ended self.old.actor;
          handshakes = self.new.handshakes;
          ends = self.new.ends;
        }) }
    {
        if handshake.has_ended() {
            self.actor.ended();
            let _ = self.ends.remove(handshake.arrival().link);
            return Ok(());
        }
        Ok(self.handshakes.insert(name, handshake)?)
    }

    /// Whether the handshake of this name has not ended, and took that its peer may connect.
    pub fn accepts(&self, handshake: u64) -> bool
        ensures { result ≡ is_accepting (table.at self.now.handshakes handshake) }
    {
        match self.handshakes.find(handshake) {
            Some(found) => found.is_accepted(),
            None => false,
        }
    }

    /// Whether the handshake of this name has not ended.
    pub fn stands(&self, handshake: u64) -> bool
        ensures { result ≡ is_some (table.at self.now.handshakes handshake) }
    {
        self.handshakes.has(handshake)
    }

    /// The link over which the peer of the handshake of this name came, where that has not ended.
    pub fn link_of(&self, handshake: u64) -> Option<u64>
        ensures { result ≡ option_map link_over (table.at self.now.handshakes handshake) }
    {
        match self.handshakes.find(handshake) {
            Some(found) => Some(found.arrival().link),
            None => None,
        }
    }

    /// Tells the handshake of this name whether its keys were exchanged, where it has not ended.
    ///
    /// `Err` only where there is no memory. The handshake may then be dropped, and its node goes no further.
    pub fn finish(
        &mut self,
        handshake: u64,
        ok: bool,
        way: &mut Mailbox<Key>,
    ) -> Result<(), AllocError>
        ensures way { OnOk result (way.new ≡ finished_in (table.at self.old.handshakes handshake) ok way.old) }
        ensures handshakes { OnOk result
            ((k : ℕ) → table.at self.new.handshakes k ≡ table.at self.old.handshakes k) }
        ensures rest { OnOk result (self.new ≡ record self.old { handshakes = self.new.handshakes }) }
    {
        match self.handshakes.remove(handshake) {
            None => Ok(()),
            Some(mut told) => {
                told.finished(way, ok)?;
                Ok(self.handshakes.insert(handshake, told)?)
            }
        }
    }
}
