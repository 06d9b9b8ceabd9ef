//! `Tracker`, the tracker of a node.
ghost use Rattle.std.specs.Prelude.{◌≡◌, ◌≤◌, [], Some, slice_get, IfOk, OnOk};
ghost use Rattle.p2p_log_rules.specs.Tracking.{key_cmp};
ghost use Rattle.p2p_net_tracker.specs.Begins.{IsNew};
ghost use Rattle.p2p_net_tracker.specs.Stepping.{Steps};

use crate::naming::Tickets;
use crate::question::Ticket;
use crate::telling::tell;
use p2p_base::Key;
use p2p_log::{Config, Envelope, Reply};
use p2p_log_rules::Row;
use p2p_net_queues::{Board, Deque, Table, Turn, only, taking};
use p2p_tracker::{Actor, Config as TrackerConfig, Mailbox, Oracle, Stepped};
use std::alloc::{AllocError, Global};

/// The tracker of a node: its actor with the mailbox, at whose desk the oracle finds what it was answered; and beside them the
/// names of the messages that wait there and of what waits for those who asked.
pub struct Tracker {
    /// The actor.
    pub actor: Actor<Key>,
    /// Its mailbox.
    pub mailbox: Mailbox<Key>,
    /// By which the node asks it.
    pub oracle: Oracle<Key>,
    /// The names of the messages that wait in the mailbox, the oldest first.
    pub names: Deque<(u64, u64)>,
    /// The events whose questions its tickets are.
    pub tickets: Tickets,
    /// What each event asked that may be answered, and under which number.
    pub questions: Table<Ticket>,
    /// The questions for peer sets whose answer was given.
    pub answered: Table<bool>,
    /// The connections of the node that have ended.
    pub ended: Table<()>,
    /// What it put and what was not taken.
    pub told: Board<Envelope>,
}

impl Drop for Tracker {
    fn drop(self) {
        let Tracker {
            actor: _actor,
            mailbox: _mailbox,
            oracle: _oracle,
            names: _names,
            tickets: _tickets,
            questions: _questions,
            answered: _answered,
            ended: _ended,
            told: _told,
        } = self;
    }
}

impl Tracker {
    /// The tracker of a node that was asked for nothing.
    ///
    /// `Err` only where there is no memory.
    pub fn new(alloc: Global, config: &Config) -> Result<Tracker, AllocError>
        requires mailbox_size { 1 ≤ config.now.mailbox_size }
        requires max_peers_per_set { 1 ≤ config.now.max_peers_per_set }
        requires tracked_peer_sets { 1 ≤ config.now.tracked_peer_sets }
        ensures { IfOk result (λ t. IsNew config.now t) }
    {
        let (actor, mailbox, oracle) = Actor::new(
            alloc,
            TrackerConfig {
                public_key: config.public_key,
                mailbox_size: config.mailbox_size,
                max_peers_per_set: config.max_peers_per_set,
                tracked_peer_sets: config.tracked_peer_sets,
                peer_connection_cooldown: config.peer_connection_cooldown,
                allow_private_ips: config.allow_private_ips,
                allow_dns: config.allow_dns,
                bypass_ip_check: config.bypass_ip_check,
                block_duration: config.block_duration,
            },
        )?;
        Ok(Tracker {
            actor,
            mailbox,
            oracle,
            names: Deque::new(alloc),
            tickets: Tickets::new(alloc),
            questions: Table::new(alloc),
            answered: Table::new(alloc),
            ended: Table::new(alloc),
            told: Board::new(alloc),
        })
    }
}

impl Tracker {
    ghost use Rattle.std.specs.Prelude.{false, IfSome};
    ghost use Rattle.p2p_tracker_mailbox.specs.Desk.{next_message};
    ghost use Rattle.p2p_tracker.specs.Serving.{IsQuietIn, MayTake};

    /// One step: takes away the blocks that have ended, or else does what the oldest message says.
    ///
    /// `Err` only where there is no memory. Each later step then answers so.
    pub fn step(&mut self, turn: Turn, now: u64, seed: u64) -> Result<Row, AllocError>
        requires may_take { self.old.actor.has_failed ≡ false → IsQuietIn key_cmp self.old.actor.directory now
            → IfSome (next_message self.old.mailbox.desk) (λ m. MayTake key_cmp self.old.actor.directory m now) }
        ensures { IfOk result (λ r. Steps turn.entry turn.node now seed self.old self.new r) }
    {
        match self.actor.step(&mut self.mailbox, now, seed)? {
            Stepped::Idle => Ok(only(turn.alloc, Reply::Idle)),
            Stepped::EndedBlocks { put } => {
                let mut row = only(turn.alloc, Reply::Ok);
                tell(
                    turn,
                    &self.tickets,
                    &self.ended,
                    &mut self.told,
                    &mut row,
                    put,
                )?;
                Ok(row)
            }
            Stepped::Message { put } => {
                let Some(name) = self.names.pop() else {
                    return Ok(only(turn.alloc, Reply::Idle));
                };
                let mut row = taking(turn.alloc, name)?;
                tell(
                    turn,
                    &self.tickets,
                    &self.ended,
                    &mut self.told,
                    &mut row,
                    put,
                )?;
                Ok(row)
            }
        }
    }
}
