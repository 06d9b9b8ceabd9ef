//! The text of a queue's name.
ghost use Rattle.std.specs.Prelude.{◌≡◌, ◌++◌, OnOk};
ghost use Rattle.std.specs.String.{string_bytes};
ghost use Rattle.p2p_sim_report.specs.QueueText.{number_end_onto, numbers_onto, side_onto, link_onto};

use crate::text::{ToText, put, put_number};
use p2p_log::{Queue, Side};
use std::alloc::AllocError;

fn put_side(out: &mut String, side: Side) -> Result<(), AllocError>
    ensures { OnOk result (string_bytes out.new ≡ side_onto (string_bytes out.old) side) }
{
    match side {
        Side::Out => put(out, "out"),
        Side::In => put(out, "in"),
    }
}

fn put_link(out: &mut String, link: u64, side: Side) -> Result<(), AllocError>
    ensures { OnOk result (string_bytes out.new ≡ link_onto (string_bytes out.old) link side) }
{
    put(out, "\"link:")?;
    put_number(out, link)?;
    put(out, ":")?;
    put_side(out, side)?;
    put(out, "\"")
}

// A queue of two numbers, of which `start` is the quote, the kind and the colon.
fn put_numbers(out: &mut String, start: &str, a: u64, b: u64) -> Result<(), AllocError>
    ensures { OnOk result (string_bytes out.new ≡ numbers_onto (string_bytes out.old ++ start.now) a b) }
{
    put(out, start)?;
    put_number(out, a)?;
    put(out, ":")?;
    put_number(out, b)?;
    put(out, "\"")
}

// A queue of one number, of which `start` is the quote, the kind and the colon.
fn put_one(out: &mut String, start: &str, a: u64) -> Result<(), AllocError>
    ensures { OnOk result (string_bytes out.new ≡ number_end_onto (string_bytes out.old ++ start.now) a) }
{
    put(out, start)?;
    put_number(out, a)?;
    put(out, "\"")
}

impl ToText for Queue {
    ghost use Rattle.p2p_sim_report.specs.QueueText.{queue_onto};

    ghost onto = { queue_onto };

    fn write_onto(&self, out: &mut String) -> Result<(), AllocError> {
        match *self {
            Queue::Router(node) => put_one(out, "\"router:", node),
            Queue::Peers { node, channel } => put_numbers(out, "\"peers:", node, channel),
            Queue::RouterAnswer { node, conn } => put_numbers(out, "\"ready:", node, conn),
            Queue::High { node, conn } => put_numbers(out, "\"high:", node, conn),
            Queue::Low { node, conn } => put_numbers(out, "\"low:", node, conn),
            Queue::Link { link, side } => put_link(out, link, side),
            Queue::Held { node, conn } => put_numbers(out, "\"held:", node, conn),
            Queue::Channel { node, channel } => put_numbers(out, "\"channel:", node, channel),
            Queue::Tracker(node) => put_one(out, "\"tracker:", node),
            Queue::Addresses(node) => put_one(out, "\"update:", node),
            Queue::Dialer(node) => put_one(out, "\"dialer:", node),
            Queue::Control { node, conn } => put_numbers(out, "\"control:", node, conn),
            Queue::PeerSet { question, .. } => put_one(out, "\"answer:", question),
            Queue::PeerSetUpdates { question, .. } => put_one(out, "\"updates:", question),
            Queue::Blocked { question, .. } => put_one(out, "\"blocked:", question),
            Queue::Attempt { node, attempt } => put_numbers(out, "\"attempt:", node, attempt),
            Queue::Arrivals(node) => put_one(out, "\"arrivals:", node),
            Queue::Handshake { node, handshake } => {
                put_numbers(out, "\"handshake:", node, handshake)
            }
            Queue::Spawner(node) => put_one(out, "\"spawner:", node),
        }
    }
}
