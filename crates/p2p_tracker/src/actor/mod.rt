//! `Actor`, the tracker itself: the blocks that have ended, or one message, a step.
ghost use Rattle.std.specs.Prelude.{◌≡◌, ℕ, ◌≤◌, List, [], length, true, false, IfOk, OnOk, OnErr, IsErr, IfSome};
ghost use Rattle.p2p_tracker_calls.specs.Jitter.{jitter_of};
ghost use Rattle.p2p_tracker_calls.specs.Named.{EqualKeysAreOne};
ghost use Rattle.p2p_tracker_calls.specs.Turns.{grants_none_held};
ghost use Rattle.p2p_tracker_calls.specs.declared.call.Call.{Call};
ghost use Rattle.p2p_tracker_directory.specs.Stands.{StandsFor};
ghost use Rattle.p2p_tracker_mailbox.specs.Desk.{next_message, question_at};
ghost use Rattle.p2p_flow.specs.Provided.{is_open};
ghost use Rattle.p2p_tracker_mailbox.specs.Mailboxes.{new_mailbox, runs_in};
ghost use Rattle.p2p_tracker.specs.Following.{Follows};
ghost use Rattle.p2p_tracker.specs.Putting.{IsPut, IsPutBy};
ghost use Rattle.p2p_tracker.specs.Serving.{IsQuietIn, MayTake, calls_after};
ghost use Rattle.p2p_tracker.specs.Stepping.{calls_then, IsStepOf, KeepsEligible};
ghost use Rattle.p2p_tracker.specs.Steps.{stepped_of, updates_for, sets_for};
ghost use Rattle.p2p_tracker.specs.Telling.{after_puts};
ghost use Rattle.p2p_tracker.specs.Tracking.{new_tracking, rules_for};

mod blocks;
mod conditions;
mod grants;
mod kills;
mod questions;
mod registering;
mod telling;

use crate::{Config, Mailbox, Message, Oracle, Put, Stepped};
use p2p_base::{List, PublicKey};
use p2p_tracker_directory::{Config as DirectoryConfig, Directory};
use std::alloc::{AllocError, Global};
use std::collections::BTreeMap;
use std::marker::Model;

/// The tracker: the directory of peers, who is told of its changes, and the connections that it may have to end.
///
/// Ports `Actor` of commonware-p2p's lookup tracker.
pub struct Actor<C: PublicKey> {
    alloc: Global,
    directory: Directory<C>,
    cooldown: u64,
    updates: Vec<u64>,
    sets: Vec<u64>,
    controls: BTreeMap<C, u64>,
    has_failed: bool,
}

impl<C: PublicKey> Drop for Actor<C> {
    fn drop(self) {
        let Actor {
            alloc: _alloc,
            directory: _directory,
            cooldown: _cooldown,
            updates: _updates,
            sets: _sets,
            controls: _controls,
            has_failed: _has_failed,
        } = self;
    }
}

impl<C: PublicKey> Model for Actor<C> {
    ghost use Rattle.p2p_tracker.specs.Tracking.{Tracking};

    ghost Value = { Tracking C };

    ghost view = { λ a. record {
      directory = a.directory;
      cooldown = a.cooldown;
      updates = a.updates.items;
      sets = a.sets.items;
      controls = a.controls.entries;
      has_failed = a.has_failed;
    } };
}

impl<C: PublicKey> Actor<C> {
    /// A tracker that knows of no peer but its own node, the mailbox for its messages, and the oracle that asks it.
    ///
    /// `Err` only where memory runs out.
    ///
    /// Ports `Actor::new` of commonware-p2p's lookup tracker.
    pub fn new(
        alloc: Global,
        cfg: Config<C>,
    ) -> Result<(Actor<C>, Mailbox<C>, Oracle<C>), AllocError>
        requires mailbox_size { 1 ≤ cfg.mailbox_size }
        requires max_peers_per_set { 1 ≤ cfg.max_peers_per_set }
        requires tracked_peer_sets { 1 ≤ cfg.tracked_peer_sets }
        ensures stands { IfOk result (λ r. StandsFor C.cmp r.0.directory []) }
        ensures actor { IfOk result (λ r. r.0 ≡ new_tracking r.0.directory cfg.peer_connection_cooldown) }
        ensures rules { IfOk result (λ r. r.0.directory.rules ≡ rules_for cfg) }
        ensures mailbox { IfOk result (λ r. r.1 ≡ new_mailbox cfg.mailbox_size) }
        ensures oracle { IfOk result (λ r. r.2.local ≡ cfg.public_key) }
        ensures most { IfOk result (λ r. r.2.max_peers_per_set ≡ cfg.max_peers_per_set) }
    {
        let directory = Directory::init(
            alloc,
            cfg.public_key,
            DirectoryConfig {
                allow_private_ips: cfg.allow_private_ips,
                allow_dns: cfg.allow_dns,
                bypass_ip_check: cfg.bypass_ip_check,
                max_sets: cfg.tracked_peer_sets,
                peer_connection_cooldown: cfg.peer_connection_cooldown,
                block_duration: cfg.block_duration,
            },
        )?;
        let mailbox = Mailbox::new(alloc, cfg.mailbox_size)?;
        let oracle = Oracle::new(cfg.public_key, cfg.max_peers_per_set);
        Ok((
            Actor::of_directory(alloc, directory, cfg.peer_connection_cooldown),
            mailbox,
            oracle,
        ))
    }

    // A tracker with this directory, which tells nobody and keeps no connection.
    fn of_directory(alloc: Global, directory: Directory<C>, cooldown: u64) -> Actor<C>
        ensures { result ≡ new_tracking directory cooldown }
    {
        Actor {
            alloc,
            directory,
            cooldown,
            updates: Vec::new(alloc),
            sets: Vec::new(alloc),
            controls: BTreeMap::new(alloc),
            has_failed: false,
        }
    }

    /// Takes away the blocks that have ended at the moment `now`. Where there is none, takes the oldest message of the mailbox and does
    /// what it says. `seed` draws the jitter of a grant.
    ///
    /// Its `requires` speaks of the oldest message, where no block is due: `may_step` tells whether it holds. Where that answers false the
    /// message can be taken out of the mailbox by `Mailbox::take`.
    ///
    /// `Err` only where memory runs out. Each later step then answers so.
    ///
    /// Ports the turn of the loop of commonware-p2p's lookup tracker.
    pub fn step(
        &mut self,
        way: &mut Mailbox<C>,
        now: u64,
        seed: u64,
    ) -> Result<Stepped<C>, AllocError>
        requires may_take { self.old.has_failed ≡ false → IsQuietIn C.cmp self.old.directory now
            → IfSome (next_message way.old.desk) (λ m. MayTake C.cmp self.old.directory m now) }
        ensures step { IfOk result (λ s. IsStepOf C.cmp self.old way.old now seed s self.new way.new) }
        ensures answer { IfOk result (λ s. (calls : List (Call C)) → EqualKeysAreOne C.cmp → Follows C.cmp self.old.directory self.old.controls calls
            → s ≡ stepped_of C.cmp self.old.directory.rules self.old.updates self.old.sets way.old.desk.sets way.old.heard (runs_in way.old) calls now (next_message way.old.desk)) }
        ensures kept { IfOk result (λ s. KeepsEligible C.cmp self.old way.old now seed s self.new) }
        ensures turns { IfOk result (λ s. (calls : List (Call C)) → grants_none_held C.cmp calls ≡ true
            → grants_none_held C.cmp (calls_then C.cmp self.old way.old now seed s calls) ≡ true) }
        ensures subscribed { OnOk result (length way.new.desk.updates ≡ length way.old.desk.updates) }
        ensures blocked_subscribed { OnOk result (length way.new.desk.sets ≡ length way.old.desk.sets) }
        ensures open { OnOk result ((n : ℕ) → is_open (question_at way.old.desk n) ≡ true → is_open (question_at way.new.desk n) ≡ true) }
        ensures cooldown { self.new.cooldown ≡ self.old.cooldown }
        ensures works { OnOk result (self.new.has_failed ≡ false) }
        ensures memory { OnErr result (self.new.has_failed ≡ true) }
        ensures failed { self.old.has_failed ≡ true → IsErr result }
    {
        if self.has_failed {
            return Err(AllocError);
        }
        self.has_failed = true;
        self.directory.stands_in_order();
        let stepped = self.work(way, now, seed)?;
        self.directory.stands_in_order();
        self.has_failed = false;
        Ok(stepped)
    }

    // What a step does.
    fn work(&mut self, way: &mut Mailbox<C>, now: u64, seed: u64) -> Result<Stepped<C>, AllocError>
        requires { IsQuietIn C.cmp self.old.directory now → IfSome (next_message way.old.desk) (λ m. MayTake C.cmp self.old.directory m now) }
        ensures step { IfOk result (λ s. IsStepOf C.cmp self.old way.old now seed s self.new way.new) }
        ensures put { IfOk result (λ s. IsPutBy C.cmp self.old self.new way.old.desk.sets way.old.heard (runs_in way.old) now s (next_message way.old.desk)) }
        ensures cooldown { self.new.cooldown ≡ self.old.cooldown }
        ensures has_failed { self.new.has_failed ≡ self.old.has_failed }
    {
        if self.directory.unblock_expired(now) {
            let put = self.ended_blocks(way, now)?;
            return Ok(Stepped::EndedBlocks { put });
        }
        match way.take() {
            Some(message) => {
                let put = self.serve(way, message, now, seed)?;
                Ok(Stepped::Message { put })
            }
            None => Ok(Stepped::Idle),
        }
    }

    // Does what a message says.
    fn serve(
        &mut self,
        way: &mut Mailbox<C>,
        message: Message<C>,
        now: u64,
        seed: u64,
    ) -> Result<List<Put<C>>, AllocError>
        requires { MayTake C.cmp self.old.directory message now }
        ensures stands { IfOk result (λ p. (calls : List (Call C)) → StandsFor C.cmp self.old.directory calls
            → StandsFor C.cmp self.new.directory (calls_after C.cmp self.old.directory.rules message now (jitter_of self.old.cooldown seed) calls)) }
        ensures follows { IfOk result (λ p. (calls : List (Call C)) → Follows C.cmp self.old.directory self.old.controls calls
            → Follows C.cmp self.new.directory self.new.controls (calls_after C.cmp self.old.directory.rules message now (jitter_of self.old.cooldown seed) calls)) }
        ensures rules { OnOk result (self.new.directory.rules ≡ self.old.directory.rules) }
        ensures cooldown { self.new.cooldown ≡ self.old.cooldown }
        ensures has_failed { self.new.has_failed ≡ self.old.has_failed }
        ensures put { IfOk result (λ p. IsPut C.cmp self.old self.new way.old.desk.sets way.old.heard (runs_in way.old) now message p) }
        ensures desk { IfOk result (λ p. way.new ≡ after_puts p way.old) }
        ensures updates { OnOk result (self.new.updates ≡ updates_for message self.old.updates) }
        ensures sets { OnOk result (self.new.sets ≡ sets_for message self.old.sets) }
    {
        match message {
            Message::Register { index, peers } => self.register(way, now, index, peers),
            Message::Overwrite { peers } => self.overwrite(way, now, peers),
            Message::PeerSet { index, ticket } => self.peer_set(way, index, ticket),
            Message::Subscribe { ticket } => self.subscribe(way, ticket),
            Message::Block { public_key } => self.block(way, now, public_key),
            Message::SubscribeBlocked { ticket } => self.subscribe_blocked(way, now, ticket),
            Message::Connect { public_key, conn } => self.connect(now, public_key, conn),
            Message::Dialable => self.dialable(way, now),
            Message::Dial { public_key } => self.dial(way, now, seed, public_key),
            Message::Acceptable {
                public_key,
                source_ip,
                handshake,
            } => self.acceptable(way, now, public_key, source_ip, handshake),
            Message::Listen {
                public_key,
                source_ip,
                handshake,
            } => self.listen(way, now, seed, public_key, source_ip, handshake),
            Message::Release { metadata } => Ok(self.release(metadata)),
        }
    }
}
