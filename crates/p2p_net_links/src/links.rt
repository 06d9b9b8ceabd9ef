//! `Links`, the frames in flight, who dialed, between whom keys are exchanged, which ends were dropped, and which links were cut.
ghost use Rattle.std.specs.Prelude.{◌≡◌, ℕ, ◌++◌, ◌∷◌, [], length, map, slice_get, IfOk, OnOk};
ghost use Rattle.std.specs.Option.{option_copied};
ghost use Rattle.p2p_log_rules.specs.Effect.{only as only_reply, ping_puts};
ghost use Rattle.p2p_log_rules.specs.Halves.{side_at as side_at_node};
ghost use Rattle.p2p_net_queues.specs.Tables.{waiting, popped_at};
ghost use Rattle.p2p_net_links.specs.Links.{no_links, way_of, pinged_way, written_way, batch_way, with_way, batch_row, write_frames_row};

use p2p_base::List;
use p2p_log::{Envelope, Item, Queue, Reply, Side};
use p2p_log_rules::{Opening, Row};
use p2p_net_queues::{Deque, Table, Turn, only};
use p2p_wire::Message;
use std::alloc::{AllocError, Global};

/// The frames in flight over each link, the oldest first, by the direction in which they go, who dialed it, between whom keys
/// are exchanged over it, which of its ends were dropped, and whether it was cut.
pub struct Links {
    /// From the end that dialed.
    pub outward: Table<Deque<Envelope>>,
    /// From the end that listened.
    pub inward: Table<Deque<Envelope>>,
    /// The nodes that dialed, by the events that made the links.
    pub dialers: Table<u64>,
    /// Between whom keys are exchanged, by the events that made the links.
    pub openings: Table<Opening>,
    /// The links whose end that dialed was dropped.
    pub dropped_outward: Table<()>,
    /// The links whose end that listened was dropped.
    pub dropped_inward: Table<()>,
    /// The links that were cut.
    pub cut: Table<()>,
}

impl Drop for Links {
    fn drop(self) {
        let Links {
            outward: _outward,
            inward: _inward,
            dialers: _dialers,
            openings: _openings,
            dropped_outward: _dropped_outward,
            dropped_inward: _dropped_inward,
            cut: _cut,
        } = self;
    }
}

/// Writes these frames, which have these names, to one direction of a link, in order, and adds to the row what was moved.
fn write_all(
    turn: Turn,
    way: &mut Table<Deque<Envelope>>,
    row: &mut Row,
    link: u64,
    side: Side,
    frames: &[((u64, u64), Item)],
) -> Result<(), AllocError>
    ensures way { OnOk result (way.new ≡ written_way turn.entry link side (length row.old.puts) frames.now way.old) }
    ensures row { OnOk result (row.new ≡ batch_row link side frames.now row.old) }
{
    let queue = Queue::Link { link, side };
    for frame in frames {
        let item = frame.1.try_clone(turn.alloc)?;
        way.put(turn, row, link, queue, item)?;
        row.takes.push(frame.0)?;
    }
    Ok(())
}

/// The row of a batch before its frames: a ping is written to one direction of a link, where one is due.
fn begin_batch(
    turn: Turn,
    way: &mut Table<Deque<Envelope>>,
    link: u64,
    side: Side,
    due: bool,
) -> Result<Row, AllocError>
    ensures row { IfOk result (λ r. r ≡ record (only_reply Reply.Ok) { puts = ping_puts due (Queue.Link link side) }) }
    ensures way { OnOk result (way.new ≡ pinged_way due turn.entry link side way.old) }
{
    let mut row = only(turn.alloc, Reply::Ok);
    if !due {
        return Ok(row);
    }
    let frame = Message::Ping.encode(turn.alloc)?;
    let ping = Item::Frame { copy: None, frame };
    way.put(turn, &mut row, link, Queue::Link { link, side }, ping)?;
    Ok(row)
}

/// Writes a ping, where one is due, and then these frames, which have these names, to one direction of a link, in order.
fn write_batch(
    turn: Turn,
    way: &mut Table<Deque<Envelope>>,
    link: u64,
    side: Side,
    due: bool,
    frames: &[((u64, u64), Item)],
) -> Result<Row, AllocError>
    ensures row { IfOk result (λ r. r ≡ batch_row link side frames.now (record (only_reply Reply.Ok) { puts = ping_puts due (Queue.Link link side) })) }
    ensures way { OnOk result (way.new ≡ batch_way due turn.entry link side frames.now way.old) }
{
    let mut row = begin_batch(turn, way, link, side, due)?;
    write_all(turn, way, &mut row, link, side, frames)?;
    Ok(row)
}

impl Links {
    /// No links.
    pub fn new(alloc: Global) -> Links
        ensures { result ≡ no_links }
    {
        Links {
            outward: Table::new(alloc),
            inward: Table::new(alloc),
            dialers: Table::new(alloc),
            openings: Table::new(alloc),
            dropped_outward: Table::new(alloc),
            dropped_inward: Table::new(alloc),
            cut: Table::new(alloc),
        }
    }

    /// One direction of the links.
    fn way(&self, side: Side) -> &Table<Deque<Envelope>>
        ensures { result.now ≡ way_of self.now side }
    {
        match side {
            Side::Out => &self.outward,
            Side::In => &self.inward,
        }
    }

    /// The oldest frame in flight in one direction of a link.
    pub fn front(&self, link: u64, side: Side) -> Option<&Envelope>
        ensures { option_copied result ≡ slice_get (waiting (way_of self.now side) link) 0 }
    {
        self.way(side).front_at(link)
    }

    /// Takes the oldest frame in flight in one direction of a link.
    pub fn take(&mut self, link: u64, side: Side) -> Option<Envelope>
        ensures first { result ≡ slice_get (waiting (way_of self.old side) link) 0 }
        ensures rest { self.new ≡ with_way self.old side (popped_at (way_of self.old side) link) }
    {
        match side {
            Side::Out => self.outward.pop_at(link),
            Side::In => self.inward.pop_at(link),
        }
    }

    /// Writes a batch to one direction of a link, in order: a ping first, where one is due, and these frames, which were taken
    /// under these names.
    ///
    /// `Err` only where there is no memory. Some of them may then be in flight, and the node that wrote goes no further.
    pub fn write(
        &mut self,
        turn: Turn,
        link: u64,
        side: Side,
        ping: bool,
        frames: List<((u64, u64), Item)>,
    ) -> Result<Row, AllocError>
        ensures row { IfOk result (λ r. r ≡ write_frames_row link side ping frames) }
        ensures after { OnOk result (self.new ≡ with_way self.old side (batch_way ping turn.entry link side frames (way_of self.old side))) }
    {
        if !ping && frames.is_empty() {
            return Ok(only(turn.alloc, Reply::Idle));
        }
        match side {
            Side::Out => {
                let row = write_batch(
                    turn,
                    &mut self.outward,
                    link,
                    side,
                    ping,
                    frames.as_slice(),
                )?;
                Ok(row)
            }
            Side::In => {
                let row = write_batch(turn, &mut self.inward, link, side, ping, frames.as_slice())?;
                Ok(row)
            }
        }
    }
}

/// The direction in which a node writes to a link, by the node that dialed it.
pub fn side_at(node: u64, dialer: u64) -> Side
    ensures { result ≡ side_at_node node dialer }
{
    if dialer == node { Side::Out } else { Side::In }
}
