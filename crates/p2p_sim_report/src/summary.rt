//! The summary of a report.
ghost use Rattle.std.specs.Prelude.{◌≡◌, ◌++◌, IfOk, OnOk};
ghost use Rattle.std.specs.String.{string_bytes};
ghost use Rattle.p2p_sim_report.specs.Found.{HasEnds, HasCarriers};
ghost use Rattle.p2p_sim_report.specs.SummaryText.{send_fates, all_fates, is_of as has_kind, count as how_many, ended_onto, summary_onto, summary_text};

use crate::found::{Found, find};
use crate::text::{put, put_number};
use p2p_base::Key;
use p2p_log::{Fate, Report};
use std::alloc::{AllocError, Global};

/// The text of the summary, one line: how many copies the report has, how many of them were delivered, were dropped or
/// wait, and how many entries there are. It is a JSON object without spaces, its names in byte order.
///
/// `AllocError` where memory runs out.
pub fn write_summary(alloc: Global, report: &Report) -> Result<String, AllocError>
    ensures { IfOk result (λ text. string_bytes text ≡ summary_text report.now.log) }
{
    let found = find(alloc, report.log.as_slice())?;
    let fates = fates(alloc, report, &found)?;
    let mut out = String::new(alloc);
    put_summary(&mut out, fates.as_slice(), report.log.len() as u64)?;
    Ok(out)
}

// ---- fates

// Adds those of the copies of a send.
fn add_fates(
    fates: &mut Vec<Option<Fate>>,
    report: &Report,
    found: &Found,
    send: u64,
    keys: &[Key],
) -> Result<(), AllocError>
    requires ended { HasEnds found.now.ended 0 report.now.log }
    requires waiting { HasCarriers found.now.waiting 0 report.now.log }
    ensures { OnOk result (fates.new.items ≡ fates.old.items ++ send_fates report.now.log send 0 keys.now) }
{
    for (place, _key) in keys.iter().enumerate() {
        fates.push(found.fate(report, (send, place as u64)))?;
    }
    Ok(())
}

// Those of all copies.
fn fates(alloc: Global, report: &Report, found: &Found) -> Result<Vec<Option<Fate>>, AllocError>
    requires ended { HasEnds found.now.ended 0 report.now.log }
    requires waiting { HasCarriers found.now.waiting 0 report.now.log }
    ensures { IfOk result (λ fates. fates.items ≡ all_fates report.now.log) }
{
    let mut fates = Vec::new(alloc);
    let log = report.log.as_slice();
    for (n, entry) in log.iter().enumerate() {
        add_fates(&mut fates, report, found, n as u64, entry.accepted())?;
    }
    Ok(fates)
}

// ---- counts

/// What a fate is, whichever queue, entry and cause it names.
#[derive(Clone, Copy)]
pub enum Kind {
    Delivered,
    Dropped,
    Waiting,
}

fn is_of(kind: Kind, fate: Option<Fate>) -> bool
    ensures { result ≡ has_kind kind fate }
{
    match (kind, fate) {
        (Kind::Delivered, Some(Fate::Delivered(..))) => true,
        (Kind::Dropped, Some(Fate::Dropped(..))) => true,
        (Kind::Waiting, Some(Fate::Waiting(_))) => true,
        _ => false,
    }
}

// How many of the fates are of this kind.
fn count(kind: Kind, fates: &[Option<Fate>]) -> u64
    ensures { result ≡ how_many kind fates.now }
{
    let mut count = 0;
    for fate in fates {
        if is_of(kind, *fate) {
            count += 1;
        }
    }
    count
}

// ---- the text

fn put_ended(out: &mut String, fates: &[Option<Fate>]) -> Result<(), AllocError>
    ensures { OnOk result (string_bytes out.new ≡ ended_onto (string_bytes out.old) fates.now) }
{
    put(out, "{\"copies\":")?;
    put_number(out, fates.len() as u64)?;
    put(out, ",\"delivered\":")?;
    put_number(out, count(Kind::Delivered, fates))?;
    put(out, ",\"dropped\":")?;
    put_number(out, count(Kind::Dropped, fates))
}

fn put_summary(out: &mut String, fates: &[Option<Fate>], entries: u64) -> Result<(), AllocError>
    ensures { OnOk result (string_bytes out.new ≡ summary_onto (string_bytes out.old) fates.now entries) }
{
    put_ended(out, fates)?;
    put(out, ",\"entries\":")?;
    put_number(out, entries)?;
    put(out, ",\"waiting\":")?;
    put_number(out, count(Kind::Waiting, fates))?;
    put(out, "}\n")
}
