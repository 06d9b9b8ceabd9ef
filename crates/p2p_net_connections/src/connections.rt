//! `Connections`, the connections of a node.
ghost use Rattle.std.specs.Prelude.{◌≡◌, ◌++◌, [], slice_get, IfOk, OnOk};
ghost use Rattle.std.specs.Option.{option_copied};
ghost use Rattle.p2p_log_rules.specs.Connections.{is_answer as answer_test};
ghost use Rattle.p2p_log_rules.specs.Effect.{takes_oldest};
ghost use Rattle.p2p_log.specs.Lines.{name_of};
ghost use Rattle.p2p_net_queues.specs.Tables.{at, waiting, popped_at};
ghost use Rattle.p2p_net_connections.specs.Connections.{no_connections, spawned_with, begun_with, answered_by, answered, without_answer, named_answer};

use p2p_base::Key;
use p2p_log::{Envelope, Item, Queue, Reply};
use p2p_log_rules::Row;
use p2p_net_queues::{Deque, Table, Turn, only, taking};
use p2p_peer_shared::half_quota;
use p2p_runtime::RateLimiter;
use p2p_tracker_directory::Reservation;
use std::alloc::{AllocError, Global};

/// A connection of a node: the link that it goes over, by its name, the right to connect with its peer, and the quota of the pings
/// that come over it.
#[derive(Drop)]
pub struct Connection {
    pub link: u64,
    pub reservation: Reservation<Key>,
    pub pings: RateLimiter,
}

/// How far a connection is that has begun.
#[derive(Clone, Copy, Debug, PartialEq, Eq)]
pub enum Stage {
    /// It waits for its router's answer.
    Begun,
    /// It runs, and counts to its next ping from the moment `pinged`, in nanoseconds.
    Running { pinged: u64 },
}

/// The connections of a node, by the events that made them, the router's answers that wait for them, and what came over them
/// and waits for their quotas.
pub struct Connections {
    /// Each connection that its spawner made and that has not ended.
    pub spawned: Table<Connection>,
    /// How far those are that have begun.
    pub stages: Table<Stage>,
    /// The answers that wait for each connection, the oldest first.
    pub answers: Table<Deque<Envelope>>,
    /// What came over each connection and waits until its quota admits it, the oldest first.
    pub held: Table<Deque<Envelope>>,
}

impl Drop for Connections {
    fn drop(self) {
        let Connections {
            spawned: _spawned,
            stages: _stages,
            answers: _answers,
            held: _held,
        } = self;
    }
}

/// Whether an item is the router's answer.
fn is_answer(item: &Item) -> bool
    ensures { result ≡ answer_test item.now }
{
    match item {
        Item::RouterAnswer => true,
        _ => false,
    }
}

impl Connections {
    /// No connections.
    pub fn new(alloc: Global) -> Connections
        ensures { result ≡ no_connections }
    {
        Connections {
            spawned: Table::new(alloc),
            stages: Table::new(alloc),
            answers: Table::new(alloc),
            held: Table::new(alloc),
        }
    }

    /// The connection that an event made, while it has not ended.
    pub fn find(&self, conn: u64) -> Option<&Connection>
        ensures { option_copied result ≡ at self.now.spawned conn }
    {
        self.spawned.find(conn)
    }

    /// How far the connection that an event made is, where it has begun.
    pub fn stage(&self, conn: u64) -> Option<Stage>
        ensures { result ≡ at self.now.stages conn }
    {
        self.stages.get(conn)
    }

    /// The node's spawner made a connection over this link, with the peer of this reservation. A node that pings so often, in
    /// nanoseconds, takes one ping in half that time.
    ///
    /// `Err` only where there is no memory. The connection is then not kept, and its node goes no further.
    pub fn spawn(
        &mut self,
        turn: Turn,
        link: u64,
        reservation: Reservation<Key>,
        ping_frequency: u64,
    ) -> Result<(), AllocError>
        ensures { OnOk result (self.new ≡ spawned_with turn.entry link reservation ping_frequency self.old) }
    {
        let connection = Connection {
            link,
            reservation,
            pings: RateLimiter::new(half_quota(ping_frequency)),
        };
        self.spawned.insert(turn.entry, connection)?;
        Ok(())
    }

    /// A connection has begun.
    ///
    /// `Err` only where there is no memory. Nothing is changed then, and its node goes no further.
    pub fn begin(&mut self, conn: u64) -> Result<(), AllocError>
        ensures { OnOk result (self.new ≡ begun_with conn self.old) }
    {
        self.stages.insert(conn, Stage::Begun)?;
        Ok(())
    }

    /// Keeps an item, the put of this place, where it is for a connection of the node.
    fn keep(&mut self, turn: Turn, place: u64, put: &(Queue, Item)) -> Result<(), AllocError>
        ensures { OnOk result (self.new ≡ record self.old { answers = answered_by turn.entry turn.node place put.now self.old.answers }) }
    {
        let conn = put.0.detail();
        let queue = Queue::RouterAnswer {
            node: turn.node,
            conn,
        };
        if queue != put.0 {
            return Ok(());
        }
        let item = put.1.try_clone(turn.alloc)?;
        self.answers.push_at(
            turn.alloc,
            conn,
            Envelope {
                entry: turn.entry,
                place,
                queue: put.0,
                item,
            },
        )?;
        Ok(())
    }

    /// Keeps those of the puts of an entry that are for a connection of the node: its router's answers.
    ///
    /// `Err` only where there is no memory. Some of them may then be kept, and its node goes no further.
    pub fn answer(&mut self, turn: Turn, puts: &[(Queue, Item)]) -> Result<(), AllocError>
        ensures { OnOk result (self.new ≡ record self.old { answers = answered turn.entry turn.node 0 puts.now self.old.answers }) }
    {
        for (place, put) in puts.iter().enumerate() {
            self.keep(turn, place as u64, put)?;
        }
        Ok(())
    }

    /// Takes what stands first for a connection: its name, and whether it is the router's answer.
    fn pop(&mut self, conn: u64) -> Option<((u64, u64), bool)>
        ensures first { result ≡ named_answer (slice_get (waiting self.old.answers conn) 0) }
        ensures after { self.new ≡ record self.old { answers = popped_at self.old.answers conn } }
    {
        match self.answers.pop_at(conn) {
            None => None,
            Some(taken) => Some(((taken.entry, taken.place), is_answer(&taken.item))),
        }
    }

    /// Takes the router's answer to a connection, which runs from then on, and counts to its next ping from this moment, in
    /// nanoseconds.
    ///
    /// `Err` only where there is no memory. The answer may then be taken and the connection not run, and its node goes no
    /// further.
    pub fn run(&mut self, alloc: Global, conn: u64, now: u64) -> Result<Row, AllocError>
        ensures row { IfOk result (λ r. r ≡ takes_oldest (waiting self.old.answers conn)) }
        ensures after { OnOk result (self.new ≡ without_answer conn now self.old) }
    {
        match self.pop(conn) {
            None => Ok(only(alloc, Reply::Idle)),
            Some((name, is_answer)) => {
                if is_answer {
                    self.stages.insert(conn, Stage::Running { pinged: now })?;
                }
                let row = taking(alloc, name)?;
                Ok(row)
            }
        }
    }
}
