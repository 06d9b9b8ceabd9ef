//! The lines of a report.
ghost use Rattle.std.specs.Prelude.{◌≡◌, IfOk, OnOk};
ghost use Rattle.std.specs.String.{string_bytes};
ghost use Rattle.p2p_sim_report.specs.Found.{HasEnds, HasCarriers};
ghost use Rattle.p2p_sim_report.specs.ReportText.{entry_start_onto, entry_onto, entries_onto, copy_line_onto, copies_onto, all_copies_onto, count_copies, counts_onto, report_text};

use crate::found::{Found, find};
use crate::text::{ToText, put, put_count, put_list, put_number};
use p2p_base::Key;
use p2p_log::{Entry, Report};
use std::alloc::{AllocError, Global};

/// The text of the report: a line for each entry, then one for each copy by send and place, then one with the counts.
/// Each line is a JSON object without spaces, its names in byte order.
///
/// `AllocError` where memory runs out.
pub fn write_report(alloc: Global, report: &Report) -> Result<String, AllocError>
    ensures { IfOk result (λ text. string_bytes text ≡ report_text report.now.log) }
{
    let mut out = String::new(alloc);
    let found = find(alloc, report.log.as_slice())?;
    put_entries(&mut out, report.log.as_slice())?;
    put_all_copies(&mut out, report, &found)?;
    put_counts(
        &mut out,
        copies_in(report.log.as_slice()),
        report.log.len() as u64,
    )?;
    Ok(out)
}

// ---- entries

fn put_entry_start(out: &mut String, n: u64, entry: &Entry) -> Result<(), AllocError>
    ensures { OnOk result (string_bytes out.new ≡ entry_start_onto (string_bytes out.old) n entry.now) }
{
    put(out, "{\"end\":")?;
    put_list(out, entry.ends.as_slice())?;
    put(out, ",\"n\":")?;
    put_number(out, n)?;
    put(out, ",\"put\":")?;
    put_list(out, entry.puts.as_slice())?;
    put(out, ",\"reply\":")
}

fn put_entry(out: &mut String, n: u64, entry: &Entry) -> Result<(), AllocError>
    ensures { OnOk result (string_bytes out.new ≡ entry_onto (string_bytes out.old) n entry.now) }
{
    put_entry_start(out, n, entry)?;
    entry.reply.write_onto(out)?;
    put(out, ",\"take\":")?;
    put_list(out, entry.takes.as_slice())?;
    put(out, "}\n")
}

fn put_entries(out: &mut String, log: &[Entry]) -> Result<(), AllocError>
    ensures { OnOk result (string_bytes out.new ≡ entries_onto (string_bytes out.old) 0 log.now) }
{
    for (n, entry) in log.iter().enumerate() {
        put_entry(out, n as u64, entry)?;
    }
    Ok(())
}

// ---- copies

fn put_copy_line(
    out: &mut String,
    report: &Report,
    found: &Found,
    copy: (u64, u64),
) -> Result<(), AllocError>
    requires ended { HasEnds found.now.ended 0 report.now.log }
    requires waiting { HasCarriers found.now.waiting 0 report.now.log }
    ensures { OnOk result (string_bytes out.new ≡ copy_line_onto report.now.log (string_bytes out.old) copy) }
{
    put(out, "{\"copy\":")?;
    copy.write_onto(out)?;
    put(out, ",\"fate\":")?;
    found.fate(report, copy).write_onto(out)?;
    put(out, "}\n")
}

fn put_copies(
    out: &mut String,
    report: &Report,
    found: &Found,
    send: u64,
    keys: &[Key],
) -> Result<(), AllocError>
    requires ended { HasEnds found.now.ended 0 report.now.log }
    requires waiting { HasCarriers found.now.waiting 0 report.now.log }
    ensures { OnOk result (string_bytes out.new ≡ copies_onto report.now.log (string_bytes out.old) send 0 keys.now) }
{
    for (place, _key) in keys.iter().enumerate() {
        put_copy_line(out, report, found, (send, place as u64))?;
    }
    Ok(())
}

fn put_all_copies(out: &mut String, report: &Report, found: &Found) -> Result<(), AllocError>
    requires ended { HasEnds found.now.ended 0 report.now.log }
    requires waiting { HasCarriers found.now.waiting 0 report.now.log }
    ensures { OnOk result (string_bytes out.new ≡ all_copies_onto report.now.log (string_bytes out.old) 0 report.now.log) }
{
    let log = report.log.as_slice();
    for (n, entry) in log.iter().enumerate() {
        put_copies(out, report, found, n as u64, entry.accepted())?;
    }
    Ok(())
}

// ---- counts

// How many copies there are. A `u128` holds the sum of as many lengths as there can be entries.
fn copies_in(log: &[Entry]) -> u128
    ensures { result ≡ count_copies log.now }
{
    let mut copies = 0u128;
    for entry in log {
        copies += entry.accepted().len() as u128;
    }
    copies
}

fn put_counts(out: &mut String, copies: u128, entries: u64) -> Result<(), AllocError>
    ensures { OnOk result (string_bytes out.new ≡ counts_onto (string_bytes out.old) copies entries) }
{
    put(out, "{\"copies\":")?;
    put_count(out, copies)?;
    put(out, ",\"entries\":")?;
    put_number(out, entries)?;
    put(out, "}\n")
}
