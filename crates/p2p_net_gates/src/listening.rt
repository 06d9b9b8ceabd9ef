//! `Listening`, the listener of a node.
ghost use Rattle.std.specs.Prelude.{◌≡◌, ◌++◌, ◌∷◌, [], length, slice_get, IfOk, OnOk};
ghost use Rattle.std.specs.BTreeMap.{insert_entry};
ghost use Rattle.std.specs.Ordering.{nat_cmp};
ghost use Rattle.p2p_log.specs.declared.queue.Queue.TheVariants as queue;
ghost use Rattle.p2p_log.specs.declared.item.Item.TheVariants as item;
ghost use Rattle.p2p_log_rules.specs.declared.row.ListeningEnd.TheVariants as listening;
ghost use Rattle.p2p_net_queues.specs.Tables as table;
ghost use Rattle.p2p_net_gates.specs.Listening.{IsNew, arrived, Steps, told_in, refused_in, asked_item, took_of, took_by, names_left, names_after, begun_by, handshakes_after, EndsAre, changed_ends, ends_after};

use p2p_address::SocketAddr;
use p2p_base::Key;
use p2p_gates::{Arrival, Config as GatesConfig, Handshake, Listener, Outcome, Put, Stepped};
use p2p_log::{Item, Queue};
use p2p_log_rules::{ListeningEnd, Row};
use p2p_net_queues::{Deque, Table, Turn};
use p2p_tracker_calls::gates::Reply;
use p2p_tracker_mailbox::Mailbox;
use std::alloc::{AllocError, Global};

/// The listener of a node.
pub struct Listening {
    /// The listener, with the peers that it has yet to take.
    pub actor: Listener<Key>,
    /// The names of these, the oldest first.
    pub names: Deque<(u64, u64)>,
    /// The handshakes that have not ended, by the events that began them.
    pub handshakes: Table<Handshake<Key>>,
    /// What has the listening end of each link that leads here, by the link's name.
    pub ends: Table<ListeningEnd>,
}

impl Drop for Listening {
    fn drop(self) {
        let Listening {
            actor: _actor,
            names: _names,
            handshakes: _handshakes,
            ends: _ends,
        } = self;
    }
}

/// What a listener took in a step.
#[derive(Drop)]
pub enum Took {
    /// The addresses from which peers may come.
    Update,
    /// A peer that arrived.
    Arrival {
        /// Its name.
        name: (u64, u64),
        /// What the gates told it.
        told: Reply,
        /// The link whose listening end nothing has any more, where a gate refused it.
        refused: Option<u64>,
        /// What was asked of the tracker, where its handshake begins.
        asked: Option<Item>,
    },
}

/// What the gates told, where an arrival was taken.
fn told(outcome: &Outcome<Key>) -> Option<Reply>
    ensures { result ≡ told_in outcome.now }
{
    match outcome {
        Outcome::Refused { reply, .. } => Some(*reply),
        Outcome::Admitted(_) => Some(Reply::Admitted),
        _ => None,
    }
}

/// The link of an arrival that a gate refused.
fn refused(outcome: &Outcome<Key>) -> Option<u64>
    ensures { result ≡ refused_in outcome.now }
{
    match outcome {
        Outcome::Refused { link, .. } => Some(*link),
        _ => None,
    }
}

/// What a listener or a handshake asked, as an item of its tracker's mailbox.
pub(crate) fn asked(put: Option<Put<Key>>) -> Option<Item>
    ensures { result ≡ asked_item put }
{
    match put {
        Some(
            Put::Acceptable {
                public_key,
                handshake,
                ..
            },
        ) => Some(Item::AskAcceptable {
            handshake,
            key: public_key,
        }),
        Some(
            Put::Listen {
                public_key,
                handshake,
                ..
            },
        ) => Some(Item::AskListen {
            handshake,
            key: public_key,
        }),
        _ => None,
    }
}

impl Listening {
    /// Nobody has arrived yet.
    ///
    /// `Err` only where there is no memory.
    pub fn new(alloc: Global, gates: GatesConfig) -> Result<Listening, AllocError>
        ensures { IfOk result (λ l. IsNew gates l) }
    {
        Ok(Listening {
            actor: Listener::new(alloc, gates)?,
            names: Deque::new(alloc),
            handshakes: Table::new(alloc),
            ends: Table::new(alloc),
        })
    }

    /// A peer with this key arrives from an address over the entry's link, as the row's next put.
    ///
    /// `Err` only where there is no memory. The row and the queue may then differ, and the node goes no further.
    pub fn arrive(
        &mut self,
        turn: Turn,
        row: &mut Row,
        from: SocketAddr,
        key: Key,
    ) -> Result<(), AllocError>
        ensures row { OnOk result (row.new ≡ record row.old { puts = row.old.puts ++ (queue.Arrivals turn.node, item.Arrival from key turn.entry) ∷ [] }) }
        ensures after { OnOk result (self.new ≡ arrived turn.entry (length row.old.puts) from key self.old) }
    {
        let link = turn.entry;
        let place = row.puts.len() as u64;
        self.actor.arrive(from, key, link)?;
        self.ends.insert(link, ListeningEnd::Arriving)?;
        self.names.push((turn.entry, place))?;
        let queue = Queue::Arrivals(turn.node);
        row.puts.push((queue, Item::Arrival { from, key, link }))?;
        Ok(())
    }

    /// One step of the listener, whose update waits in its tracker's mailbox, at the moment `at`. A peer that is admitted begins
    /// a handshake of this name. `None` where no input was ready.
    ///
    /// `Err` only where there is no memory.
    pub fn step(
        &mut self,
        name: u64,
        way: &mut Mailbox<Key>,
        at: u64,
    ) -> Result<Option<Took>, AllocError>
        ensures { IfOk result (λ o. Steps name at self.old self.new way.old way.new o) }
    {
        let stepped = self.actor.step(way, name, at)?;
        Ok(self.note(name, stepped)?)
    }

    /// What was done in a step of this name, by the name of the arrival that was taken. A handshake that it began is kept.
    fn note(&mut self, name: u64, stepped: Stepped<Key>) -> Result<Option<Took>, AllocError>
        ensures took { IfOk result (λ o. o ≡ took_by stepped (slice_get self.old.names 0)) }
        ensures names { OnOk result (self.new.names ≡ names_after stepped self.old.names) }
        ensures handshakes { OnOk result (self.new.handshakes ≡ handshakes_after stepped name self.old.handshakes) }
        ensures ends { OnOk result (EndsAre (ends_after stepped name (table.at self.old.ends)) self.new.ends) }
        ensures actor { OnOk result (self.new.actor ≡ self.old.actor) }
    {
        match stepped {
            Stepped::Idle => Ok(None),
            Stepped::Served { put, outcome, .. } => {
                let told = told(&outcome);
                let refused = refused(&outcome);
                self.begin(name, outcome)?;
                Ok(self.took(told, refused, put))
            }
        }
    }

    /// Keeps the handshake that a step of this name began, if it began one, and notes what has the listening end of the
    /// link: that handshake, or nothing where the arrival was refused.
    fn begin(&mut self, name: u64, outcome: Outcome<Key>) -> Result<(), AllocError>
        ensures handshakes { OnOk result (self.new.handshakes ≡ begun_by outcome name self.old.handshakes) }
        ensures ends { OnOk result (EndsAre (changed_ends outcome name (table.at self.old.ends)) self.new.ends) }
        ensures rest { OnOk result
            (self.new ≡ record self.old { handshakes = self.new.handshakes; ends = self.new.ends }) }
    {
        match outcome {
            Outcome::Admitted(handshake) => Ok(self.admit(name, handshake)?),
            Outcome::Refused { link, .. } => {
                let _ = self.ends.remove(link);
                Ok(())
            }
            // Each of these is moved out too, since no proof follows what is moved in part.
            Outcome::Dialed(_attempt) => Ok(()),
            Outcome::Ready(_reservation) => Ok(()),
            Outcome::GoesOn => Ok(()),
            Outcome::Ended => Ok(()),
        }
    }

    /// Keeps a handshake of this name, which has the listening end of its link.
    fn admit(&mut self, name: u64, handshake: Handshake<Key>) -> Result<(), AllocError>
        ensures { OnOk result (self.new ≡ record self.old {
          handshakes = insert_entry nat_cmp self.old.handshakes name handshake;
          ends = insert_entry nat_cmp self.old.ends handshake.arrival.link (listening.Handshake name);
        }) }
    {
        let link = handshake.arrival().link;
        self.ends.insert(link, ListeningEnd::Handshake(name))?;
        Ok(self.handshakes.insert(name, handshake)?)
    }

    /// What was taken: an arrival, where the gates told it something.
    fn took(
        &mut self,
        told: Option<Reply>,
        refused: Option<u64>,
        put: Option<Put<Key>>,
    ) -> Option<Took>
        ensures took { result ≡ took_of told refused put (slice_get self.old.names 0) }
        ensures names { self.new ≡ record self.old { names = names_left told self.old.names } }
    {
        match told {
            None => Some(Took::Update),
            Some(told) => {
                let name = self.names.pop()?;
                Some(Took::Arrival {
                    name,
                    told,
                    refused,
                    asked: asked(put),
                })
            }
        }
    }

    /// What has the listening end of a link, if anything has.
    pub fn end_of(&self, link: u64) -> Option<ListeningEnd>
        ensures { result ≡ table.at self.now.ends link }
    {
        self.ends.get(link)
    }
}
