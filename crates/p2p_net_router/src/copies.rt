//! The copies that the router put into relays, or dropped.
ghost use Rattle.std.specs.Prelude.{◌≡◌, ℕ, OnOk};
ghost use Rattle.p2p_log_rules.specs.Effect.{relay_queue};
ghost use Rattle.p2p_net_router.specs.Relays.{spread_of, with_spread};
ghost use Rattle.p2p_net_router.specs.Building.{NamesBuild};
ghost use Rattle.p2p_net_router.specs.Copies.{copy_spread, copies_spread};

use crate::Name;
use crate::names::note;
use bytes::Bytes;
use p2p_base::Key;
use p2p_log::{Cause, End, Item, Outcome, Queue};
use p2p_log_rules::Row;
use p2p_net_queues::{Board, Turn};
use p2p_router::Routed;
use std::alloc::AllocError;

/// The queue of a connection for frames with priority, or for those without.
pub fn lane(priority: bool, node: u64, conn: u64) -> Queue
    ensures { result ≡ relay_queue priority node conn }
{
    if priority {
        Queue::High { node, conn }
    } else {
        Queue::Low { node, conn }
    }
}

/// What became of one copy: it stands in a relay, or it was dropped.
fn note_copy(
    turn: Turn,
    names: &mut Board<Name>,
    row: &mut Row,
    copy: (u64, u64),
    frame: &Bytes,
    routed: &Routed<Key>,
) -> Result<(), AllocError>
    ensures row { OnOk result (row.new ≡ with_spread row.old (copy_spread turn.node copy.0 copy.1 frame.now routed.now (spread_of row.old))) }
    ensures names { OnOk result ((n : _) (items : _) → NamesBuild n names.old items turn.entry row.old → NamesBuild n names.new items turn.entry row.new) }
{
    let cause = match routed {
        Routed::Put { conn, priority, .. } => {
            let queue = lane(*priority, turn.node, *conn);
            let item = Item::Frame {
                copy: Some(copy),
                frame: frame.clone()?,
            };
            return note(turn, names, row, queue, item);
        }
        Routed::NoConnection { .. } => Cause::NoConnection,
        Routed::RelayFull { .. } => Cause::RelayFull,
        Routed::Closed { .. } => Cause::ConnectionEnded,
    };
    row.ends
        .push(End::Copy(copy.0, copy.1, Outcome::Dropped(cause)))?;
    Ok(())
}

/// What became of the copies of a send, in order of the recipients.
pub fn note_copies(
    turn: Turn,
    names: &mut Board<Name>,
    row: &mut Row,
    send: u64,
    frame: &Bytes,
    copies: &[Routed<Key>],
) -> Result<(), AllocError>
    ensures row { OnOk result (row.new ≡ with_spread row.old (copies_spread turn.node send 0 frame.now copies.now (spread_of row.old))) }
    ensures names { OnOk result ((n : _) (items : _) → NamesBuild n names.old items turn.entry row.old → NamesBuild n names.new items turn.entry row.new) }
{
    for (place, routed) in copies.iter().enumerate() {
        let copy = (send, place as u64);
        note_copy(turn, names, row, copy, frame, routed)?;
    }
    Ok(())
}
