//! What became of a copy, found in the log.
ghost use Rattle.std.specs.Prelude.{◌≡◌, ℕ, filter, flat_map, length};
ghost use Rattle.std.specs.List.{list_any};
ghost use Rattle.p2p_log.specs.Lines.{ended_item, goes, live, live_from, placed, same_name, stays};
ghost use Rattle.p2p_log.specs.Copies.{accepted, accepted_by, carries, carries_copy};
ghost use Rattle.p2p_log.specs.Fates.{ended_from, fate_ended, fate_of, fate_waiting, outcome_in, queue_named, queue_read, takes_at};

use crate::end::{End, Outcome};
use crate::entry::{Entry, Reply};
use crate::event::Act;
use crate::item::Item;
use crate::queue::Queue;
use crate::report::{Fate, Report};
use p2p_base::{Feedback, Key, Unreliable};

impl Entry {
    /// The keys for whom a send was accepted, one for each copy. None where the entry is of no accepted send.
    pub fn accepted(&self) -> &[Key]
        ensures { result.now ≡ accepted_by self.now.event.act self.now.reply }
    {
        match (&self.event.act, &self.reply) {
            (Act::Send { .. }, Reply::Sent(keys)) => keys.as_slice(),
            (
                Act::SendChecked { .. },
                Reply::Outcome {
                    outcome: Unreliable::Outcome(Feedback::Ok),
                    keys,
                    ..
                },
            ) => keys.as_slice(),
            _ => &[],
        }
    }
}

impl Report {
    /// Where the copy at `place` of the send `send` stands, or how it ended. `None` where no send of that number was
    /// accepted for so many recipients.
    ///
    /// It takes no memory, and a few walks over the log.
    pub fn fate(&self, send: u64, place: u64) -> Option<Fate>
        ensures { result ≡ fate_of self.now.log (send, place) }
    {
        if place >= self.copies(send) {
            return None;
        }
        let log = self.log.as_slice();
        match ended(log, (send, place)) {
            Some((entry, outcome)) => self.fate_at_end(entry, outcome),
            None => waiting(log, (send, place)),
        }
    }

    /// How many copies the send was accepted for. 0 where there is no such send.
    pub fn copies(&self, send: u64) -> u64
        ensures { result ≡ length (accepted self.now.log send) }
    {
        match self.log.as_slice().get(send as usize) {
            Some(entry) => entry.accepted().len() as u64,
            None => 0,
        }
    }

    /// The fate of a copy that ended so at this entry. `None` where it was delivered and the entry took no item that
    /// was put.
    pub fn fate_at_end(&self, entry: u64, outcome: Outcome) -> Option<Fate>
        ensures { result ≡ fate_ended self.now.log (entry, outcome) }
    {
        match outcome {
            Outcome::Dropped(cause) => Some(Fate::Dropped(cause, entry)),
            Outcome::Delivered => match queue_read_at(self.log.as_slice(), entry) {
                Some(queue) => Some(Fate::Delivered(queue, entry)),
                None => None,
            },
        }
    }
}

fn is_same(a: (u64, u64), b: (u64, u64)) -> bool
    ensures { result ≡ same_name a b }
{
    a.0 == b.0 && a.1 == b.1
}

// ---- ends

// How the copy ended among these ends.
fn outcome_among(ends: &[End], copy: (u64, u64)) -> Option<Outcome>
    ensures { result ≡ outcome_in copy ends.now }
{
    for end in ends {
        if let End::Copy(send, place, outcome) = *end {
            if is_same(copy, (send, place)) {
                return Some(outcome);
            }
        }
    }
    None
}

// The first entry that ends the copy, and how.
fn ended(log: &[Entry], copy: (u64, u64)) -> Option<(u64, Outcome)>
    ensures { result ≡ ended_from 0 copy log.now }
{
    for (n, entry) in log.iter().enumerate() {
        if let Some(outcome) = outcome_among(entry.ends.as_slice(), copy) {
            return Some((n as u64, outcome));
        }
    }
    None
}

// The queue in which the item of this name was put.
fn queue_of(log: &[Entry], name: (u64, u64)) -> Option<Queue>
    ensures { result ≡ queue_named log.now name }
{
    match log.get(name.0 as usize) {
        Some(entry) => match entry.puts.as_slice().get(name.1 as usize) {
            Some(put) => Some(put.0),
            None => None,
        },
        None => None,
    }
}

// The queue of the first item that the entry took.
fn queue_read_at(log: &[Entry], entry: u64) -> Option<Queue>
    ensures { result ≡ queue_read log.now (takes_at log.now entry) }
{
    match log.get(entry as usize) {
        Some(found) => match found.takes.as_slice().first() {
            Some(name) => queue_of(log, *name),
            None => None,
        },
        None => None,
    }
}

// ---- carriers

fn carries(item: &Item, copy: (u64, u64)) -> bool
    ensures { result ≡ carries_copy copy item.now }
{
    match item {
        Item::Content { send, to, .. } => *send == copy.0 && copy.1 < to.len() as u64,
        Item::Frame {
            copy: Some(other),
            ..
        } => is_same(copy, *other),
        Item::Held { copy: other, .. } => is_same(copy, *other),
        Item::Message { copy: other, .. } => is_same(copy, *other),
        _ => false,
    }
}

fn is_among(names: &[(u64, u64)], name: (u64, u64)) -> bool
    ensures { result ≡ list_any (same_name name) names.now }
{
    names.iter().any(|other| is_same(name, *other))
}

// Whether one of the ends is the item's.
fn ends_item(ends: &[End], name: (u64, u64)) -> bool
    ensures { result ≡ list_any (same_name name) (flat_map ended_item ends.now) }
{
    for end in ends {
        if let End::Item(entry, place) = *end {
            if is_same(name, (entry, place)) {
                return true;
            }
        }
    }
    false
}

// Whether the item goes by this entry.
fn goes_by(entry: &Entry, name: (u64, u64)) -> bool
    ensures { result ≡ list_any (same_name name) (goes entry.now) }
{
    is_among(entry.takes.as_slice(), name) || ends_item(entry.ends.as_slice(), name)
}

// Whether the item goes by one of these entries.
fn goes_among(entries: &[Entry], name: (u64, u64)) -> bool
    ensures { result ≡ list_any (same_name name) (flat_map goes entries.now) }
{
    for entry in entries {
        if goes_by(entry, name) {
            return true;
        }
    }
    false
}

// Where the first of the puts of the entry `n` stands that carries the copy and goes by none of the later entries.
fn waiting_put(puts: &[(Queue, Item)], n: u64, copy: (u64, u64), later: &[Entry]) -> Option<Fate>
    ensures { result ≡ fate_waiting (filter (carries copy) (filter (stays (flat_map goes later.now)) (placed n 0 puts.now))) }
{
    for (place, put) in puts.iter().enumerate() {
        if carries(&put.1, copy) && !goes_among(later, (n, place as u64)) {
            return Some(Fate::Waiting(put.0));
        }
    }
    None
}

// Where the first item stands that carries the copy and has not gone.
fn waiting(log: &[Entry], copy: (u64, u64)) -> Option<Fate>
    ensures { result ≡ fate_waiting (filter (carries copy) (live log.now)) }
{
    for (n, entry) in log.iter().enumerate() {
        let found = waiting_put(entry.puts.as_slice(), n as u64, copy, &log[n + 1..]);
        if found.is_some() {
            return found;
        }
    }
    None
}
