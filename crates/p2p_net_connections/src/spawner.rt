//! `Spawning`, the spawner's mailbox of a node.
ghost use Rattle.std.specs.Prelude.{◌≡◌, ◌≤◌, [], ◌∷◌, ◌++◌, slice_get, IfOk, OnOk};
ghost use Rattle.p2p_base.specs.Queue.{oldest};
ghost use Rattle.p2p_log.specs.declared.queue.Queue.TheVariants as queue;
ghost use Rattle.p2p_log.specs.declared.item.Item.TheVariants as item;
ghost use Rattle.p2p_tracker_directory.specs.Reserved.{peer_of};
ghost use Rattle.p2p_tracker_mailbox.specs.Mailboxes.{with_message_in};
ghost use Rattle.p2p_tracker_mailbox.specs.declared.message.Message.TheVariants as message;
ghost use Rattle.p2p_net_connections.specs.Spawner.{no_spawning, refuses, told_row, spawned, given_back, released, taken_by, without_first};

use p2p_base::{Key, NoRoom, Sent};
use p2p_log::{Item, Queue};
use p2p_log_rules::Row;
use p2p_lookup::spawner::{Mailbox, Message};
use p2p_net_queues::{Deque, Turn};
use p2p_tracker_directory::Reservation;
use p2p_tracker_mailbox::Mailbox as Tracker;
use std::alloc::{AllocError, Global};

/// The spawner's mailbox of a node.
pub struct Spawning {
    /// The connections that it is to make.
    pub mailbox: Mailbox<Key>,
    /// The names of what waits there, the oldest first.
    pub names: Deque<(u64, u64)>,
}

impl Drop for Spawning {
    fn drop(self) {
        let Spawning {
            mailbox: _mailbox,
            names: _names,
        } = self;
    }
}

/// A message that the spawner took: its name, the link of the connection that it asks for, and the right to connect with the peer.
#[derive(Drop)]
pub struct Taken {
    pub name: (u64, u64),
    pub link: u64,
    pub reservation: Reservation<Key>,
}

/// Gives a reservation back to the tracker. Its key is the answer.
fn give_back(reservation: Reservation<Key>, way: &mut Tracker<Key>) -> Result<Key, AllocError>
    ensures key { IfOk result (λ k. k ≡ peer_of reservation) }
    ensures way { OnOk result (way.new ≡ with_message_in way.old (message.Release reservation)) }
{
    let key = *reservation.metadata().public_key();
    match way.release(reservation) {
        Ok(_) => Ok(key),
        Err(NoRoom(_)) => Err(AllocError),
    }
}

impl Spawning {
    /// An empty one of `size` places.
    ///
    /// `Err` only where there is no memory.
    pub fn new(alloc: Global, size: usize) -> Result<Spawning, AllocError>
        requires { 1 ≤ size }
        ensures { IfOk result (λ s. s ≡ no_spawning size) }
    {
        let mailbox = Mailbox::new(alloc, size)?;
        Ok(Spawning {
            mailbox,
            names: Deque::new(alloc),
        })
    }

    /// The message that was put last has the name of the entry's first put, which is this.
    fn name(&mut self, turn: Turn, key: Key, link: u64, row: &mut Row) -> Result<(), AllocError>
        ensures row { OnOk result (row.new ≡ record row.old {
          puts = row.old.puts ++ (queue.Spawner turn.node, item.Spawn key link) ∷ [];
        }) }
        ensures after { OnOk result (self.new ≡ record self.old { names = self.old.names ++ (turn.entry, 0) ∷ [] }) }
    {
        self.names.push((turn.entry, 0))?;
        row.puts
            .push((Queue::Spawner(turn.node), Item::Spawn { key, link }))?;
        Ok(())
    }

    /// Asks for a connection over this link, by this reservation: the message is the first put of the entry's row.
    /// Where no more may wait, the reservation is given back in the mailbox of the tracker, and its key is the answer.
    ///
    /// `Err` only where there is no memory. Some of it may then be done, and its node goes no further.
    pub fn spawn(
        &mut self,
        turn: Turn,
        link: u64,
        reservation: Reservation<Key>,
        way: &mut Tracker<Key>,
        row: &mut Row,
    ) -> Result<Option<Key>, AllocError>
        ensures row { OnOk result (row.new ≡ told_row (refuses self.old) turn.node link reservation row.old) }
        ensures after { OnOk result (self.new ≡ spawned (refuses self.old) turn.entry link reservation self.old) }
        ensures way { OnOk result (way.new ≡ given_back (refuses self.old) reservation way.old) }
        ensures released { IfOk result (λ o. o ≡ released (refuses self.old) reservation) }
    {
        let key = *reservation.metadata().public_key();
        match self.mailbox.spawn(link, reservation) {
            Ok(Sent::Rejected(reservation)) => Ok(Some(give_back(reservation, way)?)),
            Ok(Sent::Closed(reservation)) => Ok(Some(give_back(reservation, way)?)),
            Ok(_) => {
                self.name(turn, key, link, row)?;
                Ok(None)
            }
            Err(_) => Err(AllocError),
        }
    }

    /// Takes the oldest message. `None` where none waits.
    pub fn take(&mut self) -> Option<Taken>
        ensures value { result ≡ taken_by (slice_get self.old.names 0) (oldest self.old.mailbox) }
        ensures after { self.new ≡ without_first self.old }
    {
        match (self.names.pop(), self.mailbox.take()) {
            (
                Some(name),
                Some(
                    Message::Spawn {
                        connection,
                        reservation,
                        ..
                    },
                ),
            ) => Some(Taken {
                name,
                link: connection,
                reservation,
            }),
            _ => None,
        }
    }
}
