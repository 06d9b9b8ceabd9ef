//! `Tracking`, what a tracker knows, and what it does in a step.
ghost use Rattle.std.specs.Prelude.{◌≡◌, IfOk, IfSome};
ghost use Rattle.p2p_tracker_mailbox.specs.Desk.{next_message};
ghost use Rattle.p2p_discovery_directory.specs.Served.{IsServed};
ghost use Rattle.p2p_discovery_directory.specs.Stepping.{IsQuiet, IsStep, MayTake};
ghost use Rattle.p2p_discovery_directory.specs.Tracking.{new_tracking};

use super::{Mailbox, Message, Put, Stepped};
use crate::DirectoryOf;
use p2p_base::{List, PublicKey};
use p2p_discovery::Info;
use std::alloc::{AllocError, Global};
use std::collections::BTreeMap;
use std::marker::Model;

// The directory of peers, who is told of its changes, and the connections that it may have to end.
pub(super) struct Tracking<P: PublicKey, D> {
    pub(super) alloc: Global,
    pub(super) directory: D,
    pub(super) own: Info<P>,
    pub(super) cooldown: u64,
    pub(super) most: usize,
    pub(super) updates: Vec<u64>,
    pub(super) sets: Vec<u64>,
    pub(super) controls: BTreeMap<P, u64>,
}

impl<P: PublicKey, D: Drop> Drop for Tracking<P, D> {
    fn drop(self) {
        let Tracking {
            alloc: _alloc,
            directory: _directory,
            own: _own,
            cooldown: _cooldown,
            most: _most,
            updates: _updates,
            sets: _sets,
            controls: _controls,
        } = self;
    }
}

impl<P: PublicKey, D> Model for Tracking<P, D> {
    ghost use Rattle.p2p_discovery_directory.specs.Tracking.{Tracking as Tracks};

    ghost Value = { Tracks D P };

    ghost view = { λ a. record {
      directory = a.directory;
      own = a.own;
      cooldown = a.cooldown;
      most = a.most;
      updates = a.updates.items;
      sets = a.sets.items;
      controls = a.controls.entries;
    } };
}

impl<P: PublicKey, D: DirectoryOf<P> + Drop> Tracking<P, D> {
    // With this directory, and nobody to tell and no connection.
    pub(super) fn new(
        alloc: Global,
        directory: D,
        own: Info<P>,
        cooldown: u64,
        most: usize,
    ) -> Tracking<P, D>
        ensures { result ≡ new_tracking directory own cooldown most }
    {
        Tracking {
            alloc,
            directory,
            own,
            cooldown,
            most,
            updates: Vec::new(alloc),
            sets: Vec::new(alloc),
            controls: BTreeMap::new(alloc),
        }
    }

    // The directory.
    pub(super) fn directory(&self) -> &D
        ensures { result.now ≡ self.now.directory }
    {
        &self.directory
    }

    // What a step does.
    pub(super) fn work(
        &mut self,
        way: &mut Mailbox<P>,
        now: u64,
        seed: u64,
    ) -> Result<Stepped<P>, AllocError>
        requires { IsQuiet D.has_due self.old.directory now
            → IfSome (next_message way.old.desk) (λ m. MayTake D.is_eligible D.is_reserved D.is_held D.has_record self.old.directory now m) }
        ensures { IfOk result (λ s. IsStep D.answering D.is_eligible D.has_due P.cmp self.old way.old now seed s self.new way.new) }
    {
        if self.directory.unblock_expired(now) {
            let put = self.ended_blocks(now)?;
            return Ok(Stepped::EndedBlocks { put });
        }
        match way.take() {
            Some(message) => {
                let put = self.serve(message, now, seed)?;
                Ok(Stepped::Message { put })
            }
            None => Ok(Stepped::Idle),
        }
    }

    // Does what a message says.
    fn serve(
        &mut self,
        message: Message<P>,
        now: u64,
        seed: u64,
    ) -> Result<List<Put<P>>, AllocError>
        requires { MayTake D.is_eligible D.is_reserved D.is_held D.has_record self.old.directory now message }
        ensures { IfOk result (λ p. IsServed D.answering D.is_eligible P.cmp now seed self.old self.new message p) }
    {
        match message {
            Message::Register { index, peers } => self.register(now, seed, index, peers),
            Message::PeerSet { index, ticket } => self.peer_set(now, seed, index, ticket),
            Message::Subscribe { ticket } => self.subscribe(now, seed, ticket),
            Message::Block { public_key } => self.block(now, seed, public_key),
            Message::SubscribeBlocked { ticket } => self.subscribe_blocked(now, seed, ticket),
            Message::Connect {
                public_key,
                dialer,
                conn,
            } => self.connect(now, seed, public_key, dialer, conn),
            Message::Construct { public_key } => self.construct(now, seed, public_key),
            Message::BitVec {
                public_key,
                bit_vec,
            } => self.bit_vec(now, seed, public_key, bit_vec),
            Message::Peers { peers } => Ok(self.peers(now, seed, peers)),
            Message::Dialable => self.dialable(now, seed),
            Message::Dial { public_key } => self.dial(now, seed, public_key),
            Message::Acceptable {
                public_key,
                handshake,
            } => self.acceptable(now, seed, public_key, handshake),
            Message::Listen {
                public_key,
                handshake,
            } => self.listen(now, seed, public_key, handshake),
            Message::Release { metadata } => Ok(self.release(now, seed, metadata)),
        }
    }
}
