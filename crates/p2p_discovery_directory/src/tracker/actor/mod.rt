//! `Actor`, the tracker itself: the blocks that have ended, or one message, a step.
ghost use Rattle.std.specs.Prelude.{◌≡◌, ◌≤◌, false, true, IfOk, OnErr, IsErr, IfSome};
ghost use Rattle.p2p_tracker_mailbox.specs.Desk.{next_message};
ghost use Rattle.p2p_discovery_directory.specs.Asking.{new_way};
ghost use Rattle.p2p_discovery_directory.specs.Stepping.{IsQuiet, IsStep, MayTake};
ghost use Rattle.p2p_discovery_directory.specs.Tracking.{new_tracking};

mod connections;
mod controls;
mod gossiping;
mod grants;
mod registering;
mod telling;
mod tracking;

use super::{Config, Mailbox, Message, Oracle, Put, Stepped};
use crate::DirectoryOf;
use p2p_base::PublicKey;
use p2p_discovery::Info;
use std::alloc::{AllocError, Global};
use std::marker::Model;
use tracking::Tracking;

/// The tracker: the directory of peers, who is told of its changes, and the connections that it may have to end.
///
/// Ports `Actor` of commonware-p2p's discovery tracker, over any directory.
pub struct Actor<P: PublicKey, D> {
    tracking: Tracking<P, D>,
    has_failed: bool,
}

impl<P: PublicKey, D: Drop> Drop for Actor<P, D> {
    fn drop(self) {
        let Actor {
            tracking: _tracking,
            has_failed: _has_failed,
        } = self;
    }
}

impl<P: PublicKey, D> Model for Actor<P, D> {
    ghost use Rattle.p2p_discovery_directory.specs.Tracking.{Tracker};

    ghost Value = { Tracker D P };

    ghost view = { λ a. record { tracking = a.tracking; has_failed = a.has_failed } };
}

impl<P: PublicKey, D: DirectoryOf<P> + Drop> Actor<P, D> {
    /// A tracker over this directory, which tells nobody and keeps no connection, the mailbox for its messages, and the oracle that asks
    /// it. `own` is the own info, with which connections that begin are answered; of `cfg` the key, the sizes and the cooldown are read.
    ///
    /// `Err` only where memory runs out.
    ///
    /// Ports `Actor::new` of commonware-p2p's discovery tracker, which signs the own info and makes the directory.
    pub fn new(
        alloc: Global,
        cfg: Config<P>,
        own: Info<P>,
        directory: D,
    ) -> Result<(Actor<P, D>, Mailbox<P>, Oracle<P>), AllocError>
        requires mailbox_size { 1 ≤ cfg.mailbox_size }
        requires own { own.public_key ≡ cfg.public_key }
        requires none_held { (q : P) → D.is_held directory q ≡ false }
        ensures tracking { IfOk result (λ r. r.0.tracking ≡ new_tracking directory own cfg.peer_connection_cooldown cfg.peer_gossip_max_count) }
        ensures works { IfOk result (λ r. r.0.has_failed ≡ false) }
        ensures mailbox { IfOk result (λ r. r.1 ≡ new_way cfg.mailbox_size) }
        ensures oracle { IfOk result (λ r. r.2.local ≡ cfg.public_key) }
        ensures most { IfOk result (λ r. r.2.max_peers_per_set ≡ cfg.max_peers_per_set) }
    {
        let mailbox = Mailbox::new(alloc, cfg.mailbox_size)?;
        let (cooldown, most) = (cfg.peer_connection_cooldown, cfg.peer_gossip_max_count);
        let actor = Actor {
            tracking: Tracking::new(alloc, directory, own, cooldown, most),
            has_failed: false,
        };
        let oracle = Oracle::new(cfg.public_key, cfg.max_peers_per_set);
        Ok((actor, mailbox, oracle))
    }

    /// The directory, whose tests tell whether a step may take its message.
    pub fn directory(&self) -> &D
        ensures { result.now ≡ self.now.tracking.directory }
    {
        self.tracking.directory()
    }

    /// Takes away the blocks that have ended at the moment `now`. Where there is none, takes the oldest message of the mailbox and does
    /// what it says. `seed` draws the jitter of a grant, the set of a bit vector, and which infos are told of too many.
    ///
    /// Its `requires` speaks of the oldest message, where no block is due. Of a connect it holds where the directory says that the peer is
    /// reserved, as `PlainDirectory::may_connect` does, of a release where it is held or has no record, as `may_release` tells, and of each
    /// other message it holds. Whoever puts the messages knows which one is the oldest.
    ///
    /// `Err` only where memory runs out. Each later step then answers so.
    ///
    /// Ports the turn of the loop of commonware-p2p's discovery tracker.
    pub fn step(
        &mut self,
        way: &mut Mailbox<P>,
        now: u64,
        seed: u64,
    ) -> Result<Stepped<P>, AllocError>
        requires may_take { self.old.has_failed ≡ false → IsQuiet D.has_due self.old.tracking.directory now
            → IfSome (next_message way.old.desk) (λ m. MayTake D.is_eligible D.is_reserved D.is_held D.has_record self.old.tracking.directory now m) }
        ensures step { IfOk result (λ s. IsStep D.answering D.is_eligible D.has_due P.cmp self.old.tracking way.old now seed s self.new.tracking way.new) }
        ensures works { IfOk result (λ s. self.new.has_failed ≡ false) }
        ensures memory { OnErr result (self.new.has_failed ≡ true) }
        ensures failed { self.old.has_failed ≡ true → IsErr result }
    {
        if self.has_failed {
            return Err(AllocError);
        }
        self.has_failed = true;
        let stepped = self.tracking.work(way, now, seed)?;
        self.has_failed = false;
        Ok(stepped)
    }
}
