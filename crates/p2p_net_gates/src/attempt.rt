//! `RunningAttempt`, an attempt of a node's dialer.
ghost use Rattle.std.specs.Prelude.{◌≡◌, ◌++◌, ◌∷◌, [], IfOk, OnOk, is_some, length, cond, Some, None};
ghost use Rattle.p2p_log.specs.declared.queue.Queue.TheVariants as queue;
ghost use Rattle.p2p_log_rules.specs.Attempting.{link_item, resolve_by, dial_answered_row};
ghost use Rattle.p2p_gates.specs.AttemptTurns.{attempt_turn};
ghost use Rattle.p2p_tracker_directory.specs.Reserved.{peer_of};
ghost use Rattle.p2p_tracker_mailbox.specs.Mailboxes.{with_message_in};
ghost use Rattle.p2p_tracker_mailbox.specs.declared.message.Message.TheVariants as message;
ghost use Rattle.p2p_net_gates.specs.Attempts.{is_name, running, took_names, told_under, told_in, link_told, resolved, answered, released_key, handed, handed_way, ended, tried, after_turn, way_after};

use p2p_address::{Ingress, SocketAddr};
use p2p_base::{Key, List, NoRoom};
use p2p_gates::{Attempt, AttemptItem, Input, Outcome, Put, Stepped};
use p2p_log::{Item, Queue, Reply};
use p2p_log_rules::Row;
use p2p_net_queues::{Deque, Turn, end_items, only};
use p2p_tracker_directory::Reservation;
use p2p_tracker_mailbox::Mailbox;
use std::alloc::{AllocError, Global};

/// An attempt of a node's dialer that has not ended.
#[derive(Drop)]
pub struct RunningAttempt {
    /// The attempt.
    pub actor: Attempt<Key>,
    /// The names of what waits for it, the oldest first.
    pub names: Deque<(u64, u64)>,
    /// Whether it was told the addresses of its peer.
    pub is_resolved: bool,
    /// The event that answered its dial, with a link or a refusal, once one did.
    pub answer: Option<u64>,
    /// The link of which it has the dialing end.
    pub link: Option<u64>,
}

/// What an attempt did in a step.
#[derive(Drop)]
pub struct Tried {
    /// What it took, and what ended with it.
    pub row: Row,
    /// The key whose reservation it gave back.
    pub released: Option<Key>,
    /// Over which link, and by which reservation, a connection is to be made.
    pub ready: Option<(u64, Reservation<Key>)>,
}

/// Whether an ingress is a name.
fn is_named(ingress: &Ingress) -> bool
    ensures { result ≡ is_name ingress.now }
{
    match ingress {
        Ingress::Socket(_) => false,
        Ingress::Dns { .. } => true,
    }
}

/// Whose reservation was given back.
fn released(put: Option<Put<Key>>) -> Option<Key>
    ensures { result ≡ released_key put }
{
    match put {
        Some(Put::Release { metadata }) => Some(*metadata.public_key()),
        _ => None,
    }
}

/// Gives a reservation back to the tracker. Its key is the answer.
fn give_back(reservation: Reservation<Key>, way: &mut Mailbox<Key>) -> Result<Key, AllocError>
    ensures key { IfOk result (λ k. k ≡ peer_of reservation) }
    ensures way { OnOk result (way.new ≡ with_message_in way.old (message.Release reservation)) }
{
    let key = *reservation.metadata().public_key();
    match way.release(reservation) {
        Ok(_) => Ok(key),
        Err(NoRoom(_)) => Err(AllocError),
    }
}

/// The connection that is to be made over the link that answered its dial, where a step ended with its reservation. Without such
/// a link the reservation is given back, and its key is the answer in place of `released`.
fn hand(
    outcome: Outcome<Key>,
    released: Option<Key>,
    answer: Option<u64>,
    way: &mut Mailbox<Key>,
) -> Result<(Option<Key>, Option<(u64, Reservation<Key>)>), AllocError>
    ensures handed { IfOk result (λ h. h ≡ handed outcome released answer) }
    ensures way { OnOk result (way.new ≡ handed_way outcome answer way.old) }
{
    let Outcome::Ready(reservation) = outcome else {
        return Ok((released, None));
    };
    let Some(link) = answer else {
        return Ok((Some(give_back(reservation, way)?), None));
    };
    Ok((released, Some((link, reservation))))
}

/// The link of this name, where there is one, or else the one of before.
fn linked(links: bool, name: u64, before: Option<u64>) -> Option<u64>
    ensures { result ≡ cond links (Some name) before }
{
    if links {
        return Some(name);
    }
    before
}

/// What an attempt is told of its dial: that there is a link, or that there is none.
fn link_told(links: bool) -> (AttemptItem, Item)
    ensures { result ≡ (link_told links, link_item links) }
{
    if links {
        return (AttemptItem::Linked, Item::Linked);
    }
    (AttemptItem::Refused, Item::Refused)
}

impl RunningAttempt {
    /// An attempt that has begun.
    pub fn new(alloc: Global, actor: Attempt<Key>) -> RunningAttempt
        ensures { result ≡ running actor }
    {
        RunningAttempt {
            actor,
            names: Deque::new(alloc),
            is_resolved: false,
            answer: None,
            link: None,
        }
    }

    /// Takes the name of the oldest item, where a step took one.
    fn take_name(&mut self, took: Input, row: &mut Row) -> Result<(), AllocError>
        ensures row { OnOk result (row.new ≡ record row.old { takes = row.old.takes ++ (took_names took self.old.names).0 }) }
        ensures names { OnOk result (self.new ≡ record self.old { names = (took_names took self.old.names).1 }) }
    {
        if took.is_item() {
            if let Some(name) = self.names.pop() {
                row.takes.push(name)?;
            }
        }
        Ok(())
    }

    /// Ends what waits for it, where it has ended.
    fn end_names(&mut self, alloc: Global, row: &mut Row) -> Result<(), AllocError>
        ensures row { OnOk result (row.new ≡ record row.old { ends = row.old.ends ++ (ended self.old.actor self.old.names).0 }) }
        ensures names { OnOk result (self.new ≡ record self.old { names = (ended self.old.actor self.old.names).1 }) }
    {
        if self.actor.has_ended() {
            end_items(row, self.names.take_all(alloc))?;
        }
        Ok(())
    }

    /// One step at the moment `at`: the oldest item, or else its deadline. What it gives back stands in the mailbox of the
    /// tracker then.
    ///
    /// `Err` only where there is no memory. Each later step then answers so.
    pub fn step(
        &mut self,
        alloc: Global,
        way: &mut Mailbox<Key>,
        at: u64,
        seed: u64,
    ) -> Result<Tried, AllocError>
        ensures tried { IfOk result (λ t.
            t ≡ tried (attempt_turn self.old.actor way.old at seed) self.old.answer self.old.names) }
        ensures after { OnOk result (self.new ≡ after_turn (attempt_turn self.old.actor way.old at seed) self.old) }
        ensures way { OnOk result (way.new ≡ way_after (attempt_turn self.old.actor way.old at seed) self.old.answer) }
    {
        match self.actor.step(way, at, seed)? {
            Stepped::Idle => Ok(Tried {
                row: only(alloc, Reply::Idle),
                released: None,
                ready: None,
            }),
            Stepped::Served {
                took,
                put,
                outcome,
                ..
            } => {
                let mut row = only(alloc, Reply::Ok);
                self.take_name(took, &mut row)?;
                self.end_names(alloc, &mut row)?;
                let (gave_back, ready) = hand(outcome, released(put), self.answer, way)?;
                Ok(Tried {
                    row,
                    released: gave_back,
                    ready,
                })
            }
        }
    }

    /// It is told this, which waits for it under the name of this put of the row.
    ///
    /// `Err` only where there is no memory. The row and what waits for it may then differ, and its node goes no further.
    pub(crate) fn tell(
        &mut self,
        turn: Turn,
        attempt: u64,
        told: AttemptItem,
        item: Item,
        row: &mut Row,
    ) -> Result<(), AllocError>
        ensures row { OnOk result (row.new ≡ told_in turn.node attempt item row.old) }
        ensures after { OnOk result (self.new ≡ told_under (turn.entry, length row.old.puts) told self.old) }
    {
        self.actor.put(told)?;
        self.names.push((turn.entry, row.puts.len() as u64))?;
        let queue = Queue::Attempt {
            node: turn.node,
            attempt,
        };
        row.puts.push((queue, item))?;
        Ok(())
    }

    /// It is told the addresses that its peer's name stands for, once.
    ///
    /// `Err` only where there is no memory. Some of it may then be told, and its node goes no further.
    pub fn resolve(
        &mut self,
        turn: Turn,
        attempt: u64,
        addresses: &List<SocketAddr>,
    ) -> Result<Row, AllocError>
        ensures row { IfOk result (λ r. r ≡ resolve_by self.old.actor.ingress self.old.is_resolved attempt turn.node addresses.now) }
        ensures after { OnOk result (self.new ≡ resolved self.old.actor.ingress self.old.is_resolved turn.entry addresses.now self.old) }
    {
        if self.is_resolved || !is_named(self.actor.ingress()) {
            return Ok(only(turn.alloc, Reply::Gone));
        }
        self.is_resolved = true;
        let told = AttemptItem::Addresses(addresses.try_clone(turn.alloc)?);
        let item = Item::Resolved(addresses.try_clone(turn.alloc)?);
        let mut row = only(turn.alloc, Reply::Ok);
        self.tell(turn, attempt, told, item, &mut row)?;
        Ok(row)
    }

    /// Its dial is answered, with a link or a refusal, once it has an address to dial, and once.
    ///
    /// `Err` only where there is no memory. Some of it may then be told, and its node goes no further.
    pub fn answer_dial(&mut self, turn: Turn, attempt: u64, links: bool) -> Result<Row, AllocError>
        ensures row { IfOk result (λ r.
            r ≡ dial_answered_row self.old.actor.address (is_some self.old.answer) links attempt turn.node) }
        ensures after { OnOk result (
            self.new ≡ answered self.old.actor.address (is_some self.old.answer) links turn.entry self.old) }
    {
        if self.actor.address().is_none() {
            return Ok(only(turn.alloc, Reply::Pending));
        }
        if self.answer.is_some() {
            return Ok(only(turn.alloc, Reply::Gone));
        }
        self.answer = Some(turn.entry);
        self.link = linked(links, turn.entry, self.link);
        let (told, item) = link_told(links);
        let mut row = only(turn.alloc, Reply::Ok);
        self.tell(turn, attempt, told, item, &mut row)?;
        Ok(row)
    }
}
