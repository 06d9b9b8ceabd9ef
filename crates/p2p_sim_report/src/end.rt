//! The text of ends and fates.
ghost use Rattle.std.specs.Prelude.{◌≡◌, OnOk};
ghost use Rattle.std.specs.String.{string_bytes};
ghost use Rattle.p2p_sim_report.specs.EndText.{cause_onto, outcome_onto, item_end_onto, copy_end_onto, waiting_onto, delivered_onto, dropped_onto};

use crate::text::{ToText, put, put_number};
use p2p_log::{Cause, End, Fate, Outcome, Queue};
use std::alloc::AllocError;

fn put_cause(out: &mut String, cause: Cause) -> Result<(), AllocError>
    ensures { OnOk result (string_bytes out.new ≡ cause_onto (string_bytes out.old) cause) }
{
    match cause {
        Cause::Unbound => put(out, "\"unbound\""),
        Cause::NoConnection => put(out, "\"no_connection\""),
        Cause::RelayFull => put(out, "\"relay_full\""),
        Cause::ConnectionEnded => put(out, "\"connection_ended\""),
        Cause::FrameRefused => put(out, "\"frame_refused\""),
        Cause::ChannelUnregistered => put(out, "\"channel_unregistered\""),
        Cause::MailboxFull => put(out, "\"mailbox_full\""),
        Cause::ReceiverClosed => put(out, "\"receiver_closed\""),
        Cause::LinkCut => put(out, "\"link_cut\""),
        Cause::NodeStopped => put(out, "\"node_stopped\""),
    }
}

fn put_outcome(out: &mut String, outcome: Outcome) -> Result<(), AllocError>
    ensures { OnOk result (string_bytes out.new ≡ outcome_onto (string_bytes out.old) outcome) }
{
    match outcome {
        Outcome::Delivered => put(out, "\"delivered\""),
        Outcome::Dropped(cause) => put_cause(out, cause),
    }
}

fn put_item_end(out: &mut String, entry: u64, place: u64) -> Result<(), AllocError>
    ensures { OnOk result (string_bytes out.new ≡ item_end_onto (string_bytes out.old) entry place) }
{
    put(out, "[\"item\",")?;
    put_number(out, entry)?;
    put(out, ",")?;
    put_number(out, place)?;
    put(out, "]")
}

fn put_copy_end(out: &mut String, send: u64, place: u64, outcome: Outcome) -> Result<(), AllocError>
    ensures { OnOk result (string_bytes out.new ≡ copy_end_onto (string_bytes out.old) send place outcome) }
{
    put(out, "[\"copy\",")?;
    put_number(out, send)?;
    put(out, ",")?;
    put_number(out, place)?;
    put(out, ",")?;
    put_outcome(out, outcome)?;
    put(out, "]")
}

impl ToText for End {
    ghost use Rattle.p2p_sim_report.specs.EndText.{end_onto};

    ghost onto = { end_onto };

    fn write_onto(&self, out: &mut String) -> Result<(), AllocError> {
        match *self {
            End::Item(entry, place) => put_item_end(out, entry, place),
            End::Copy(send, place, outcome) => put_copy_end(out, send, place, outcome),
        }
    }
}

fn put_waiting(out: &mut String, queue: Queue) -> Result<(), AllocError>
    ensures { OnOk result (string_bytes out.new ≡ waiting_onto (string_bytes out.old) queue) }
{
    put(out, "[\"waiting\",")?;
    queue.write_onto(out)?;
    put(out, "]")
}

fn put_delivered(out: &mut String, queue: Queue, entry: u64) -> Result<(), AllocError>
    ensures { OnOk result (string_bytes out.new ≡ delivered_onto (string_bytes out.old) queue entry) }
{
    put(out, "[\"delivered\",")?;
    queue.write_onto(out)?;
    put(out, ",")?;
    put_number(out, entry)?;
    put(out, "]")
}

fn put_dropped(out: &mut String, cause: Cause, entry: u64) -> Result<(), AllocError>
    ensures { OnOk result (string_bytes out.new ≡ dropped_onto (string_bytes out.old) cause entry) }
{
    put(out, "[\"dropped\",")?;
    put_cause(out, cause)?;
    put(out, ",")?;
    put_number(out, entry)?;
    put(out, "]")
}

impl ToText for Option<Fate> {
    ghost use Rattle.p2p_sim_report.specs.EndText.{fate_onto};

    ghost onto = { fate_onto };

    fn write_onto(&self, out: &mut String) -> Result<(), AllocError> {
        match *self {
            Some(Fate::Waiting(queue)) => put_waiting(out, queue),
            Some(Fate::Delivered(queue, entry)) => put_delivered(out, queue, entry),
            Some(Fate::Dropped(cause, entry)) => put_dropped(out, cause, entry),
            None => put(out, "null"),
        }
    }
}
