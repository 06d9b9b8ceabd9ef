//! What became of each copy, found in one walk over the log from its last entry to its first.
ghost use Rattle.std.specs.Prelude.{◌≡◌, ℕ, ◌==◌, ◌&&◌, ◌||◌, cond, filter, flat_map, nat_lt, not, IfOk, OnOk, Some};
ghost use Rattle.std.specs.List.{list_any};
ghost use Rattle.std.specs.Option.{option_or};
ghost use Rattle.p2p_log.specs.Lines.{ended_item, name_of, placed, same_name};
ghost use Rattle.p2p_log.specs.Copies.{carries_copy};
ghost use Rattle.p2p_log.specs.Fates.{fate_of, outcome_in};
ghost use Rattle.p2p_sim_report.specs.Found.{value_of, has, ended_or, first_of, HasEnds, HasCarriers, HasGone};

use p2p_log::{End, Entry, Fate, Item, Outcome, Queue, Report};
use std::alloc::{AllocError, Global};
use std::collections::{BTreeMap, BTreeSet};

/// The ends of all copies, and where the carriers stand of those that wait.
#[derive(Drop)]
pub struct Found {
    pub ended: BTreeMap<(u64, u64), (u64, Outcome)>,
    pub waiting: BTreeMap<(u64, u64), Fate>,
}

/// What the log tells of all copies.
pub fn find(alloc: Global, log: &[Entry]) -> Result<Found, AllocError>
    ensures ended { IfOk result (λ found. HasEnds found.ended 0 log.now) }
    ensures waiting { IfOk result (λ found. HasCarriers found.waiting 0 log.now) }
{
    let ended = ends_in(alloc, log)?;
    let waiting = carriers_in(alloc, log)?;
    Ok(Found { ended, waiting })
}

impl Found {
    /// The fate of a copy of the report in which this was found.
    pub fn fate(&self, report: &Report, copy: (u64, u64)) -> Option<Fate>
        requires ended { HasEnds self.now.ended 0 report.now.log }
        requires waiting { HasCarriers self.now.waiting 0 report.now.log }
        ensures { result ≡ fate_of report.now.log copy }
    {
        if copy.1 >= report.copies(copy.0) {
            return None;
        }
        match at(&self.ended, copy) {
            Some((entry, outcome)) => report.fate_at_end(entry, outcome),
            None => at(&self.waiting, copy),
        }
    }
}

// ---- names

fn at<V: Copy>(map: &BTreeMap<(u64, u64), V>, name: (u64, u64)) -> Option<V>
    ensures { result ≡ value_of map.now name }
{
    map.get(&name).copied()
}

fn set_at<V: Drop>(
    map: &mut BTreeMap<(u64, u64), V>,
    name: (u64, u64),
    value: V,
) -> Result<(), AllocError>
    ensures { OnOk result ((other : ℕ × ℕ) → value_of map.new other ≡ cond (same_name other name) (Some value) (value_of map.old other)) }
{
    map.insert(name, value)?;
    Ok(())
}

fn is_in(set: &BTreeSet<(u64, u64)>, name: (u64, u64)) -> bool
    ensures { result ≡ has set.now name }
{
    set.contains(&name)
}

fn add(set: &mut BTreeSet<(u64, u64)>, name: (u64, u64)) -> Result<(), AllocError>
    ensures { OnOk result ((other : ℕ × ℕ) → has set.new other ≡ (same_name other name || has set.old other)) }
{
    set.insert(name)?;
    Ok(())
}

// ---- ends

// Of each copy that ends here, the first end.
fn note_ends(
    ended: &mut BTreeMap<(u64, u64), (u64, Outcome)>,
    n: u64,
    ends: &[End],
) -> Result<(), AllocError>
    ensures { OnOk result ((copy : ℕ × ℕ) → value_of ended.new copy ≡ ended_or n (outcome_in copy ends.now) (value_of ended.old copy)) }
{
    for i in (0..ends.len()).rev() {
        if let End::Copy(send, place, outcome) = ends[i] {
            set_at(ended, (send, place), (n, outcome))?;
        }
    }
    Ok(())
}

fn ends_in(alloc: Global, log: &[Entry]) -> Result<BTreeMap<(u64, u64), (u64, Outcome)>, AllocError>
    ensures { IfOk result (λ ended. HasEnds ended 0 log.now) }
{
    let mut ended = BTreeMap::new(alloc);
    for n in (0..log.len()).rev() {
        note_ends(&mut ended, n as u64, log[n].ends.as_slice())?;
    }
    Ok(ended)
}

// ---- carriers

// All copies of the send up to this many stand there.
fn note_content(
    waiting: &mut BTreeMap<(u64, u64), Fate>,
    send: u64,
    copies: u64,
    fate: Fate,
) -> Result<(), AllocError>
    ensures { OnOk result ((copy : ℕ × ℕ) → value_of waiting.new copy ≡ cond ((send == copy.0) && nat_lt copy.1 copies) (Some fate) (value_of waiting.old copy)) }
{
    for place in 0..copies {
        set_at(waiting, (send, place), fate)?;
    }
    Ok(())
}

// The copies that the item carries stand there.
fn note_item(
    waiting: &mut BTreeMap<(u64, u64), Fate>,
    item: &Item,
    fate: Fate,
) -> Result<(), AllocError>
    ensures { OnOk result ((copy : ℕ × ℕ) → value_of waiting.new copy ≡ cond (carries_copy copy item.now) (Some fate) (value_of waiting.old copy)) }
{
    match item {
        Item::Content { send, to, .. } => note_content(waiting, *send, to.len() as u64, fate),
        Item::Frame {
            copy: Some(copy),
            ..
        } => set_at(waiting, *copy, fate),
        Item::Held { copy, .. } => set_at(waiting, *copy, fate),
        Item::Message { copy, .. } => set_at(waiting, *copy, fate),
        _ => Ok(()),
    }
}

// The copies that these puts of the entry `n` carry stand in their queues, where the items are not gone.
fn note_puts(
    waiting: &mut BTreeMap<(u64, u64), Fate>,
    gone: &BTreeSet<(u64, u64)>,
    n: u64,
    puts: &[(Queue, Item)],
) -> Result<(), AllocError>
    ensures { OnOk result ((copy : ℕ × ℕ) → value_of waiting.new copy ≡ option_or (first_of copy (filter (λ x. not (has gone.now (name_of x))) (placed n 0 puts.now))) (value_of waiting.old copy)) }
{
    for place in (0..puts.len()).rev() {
        if !is_in(gone, (n, place as u64)) {
            note_item(waiting, &puts[place].1, Fate::Waiting(puts[place].0))?;
        }
    }
    Ok(())
}

fn note_taken(gone: &mut BTreeSet<(u64, u64)>, takes: &[(u64, u64)]) -> Result<(), AllocError>
    ensures { OnOk result ((name : ℕ × ℕ) → has gone.new name ≡ (list_any (same_name name) takes.now || has gone.old name)) }
{
    for name in takes {
        add(gone, *name)?;
    }
    Ok(())
}

// The item that ends here is gone.
fn note_end(gone: &mut BTreeSet<(u64, u64)>, end: End) -> Result<(), AllocError>
    ensures { OnOk result ((name : ℕ × ℕ) → has gone.new name ≡ (list_any (same_name name) (ended_item end) || has gone.old name)) }
{
    match end {
        End::Item(entry, place) => add(gone, (entry, place)),
        _ => Ok(()),
    }
}

fn note_ended(gone: &mut BTreeSet<(u64, u64)>, ends: &[End]) -> Result<(), AllocError>
    ensures { OnOk result ((name : ℕ × ℕ) → has gone.new name ≡ (list_any (same_name name) (flat_map ended_item ends.now) || has gone.old name)) }
{
    for end in ends {
        note_end(gone, *end)?;
    }
    Ok(())
}

fn carriers_in(alloc: Global, log: &[Entry]) -> Result<BTreeMap<(u64, u64), Fate>, AllocError>
    ensures { IfOk result (λ waiting. HasCarriers waiting 0 log.now) }
{
    let mut waiting = BTreeMap::new(alloc);
    let mut gone = BTreeSet::new(alloc);
    for n in (0..log.len()).rev() {
        let entry = &log[n];
        note_puts(&mut waiting, &gone, n as u64, entry.puts.as_slice())?;
        note_taken(&mut gone, entry.takes.as_slice())?;
        note_ended(&mut gone, entry.ends.as_slice())?;
    }
    Ok(waiting)
}
