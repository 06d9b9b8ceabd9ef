//! What a step of an attempt or of a handshake hands on: what it asks of the tracker, a reservation by which a connection is to be
//! made, and the end of a link that it drops.
ghost use Rattle.std.specs.Prelude.{◌≡◌, OnOk};
ghost use Rattle.p2p_net_dialing.specs.Spawning.{Spawns, release_item};
ghost use Rattle.p2p_net_dialing.specs.Dialing.{HandsOn, DropsUnless};

use p2p_base::Key;
use p2p_log::{Cause, Item, Side};
use p2p_log_rules::Row;
use p2p_net_links::Links;
use p2p_net_node::Node;
use p2p_net_queues::Turn;
use p2p_tracker_directory::Reservation;
use std::alloc::{AllocError, Global};

/// What gives the reservation of a key back, in a tracker's mailbox.
pub(crate) fn release_of(released: Option<Key>) -> Option<Item>
    ensures { result ≡ release_item released }
{
    match released {
        Some(key) => Some(Item::Release(key)),
        None => None,
    }
}

/// Asks the spawner for a connection over this link, or gives the reservation back to the tracker, where no more may wait for
/// the spawner, as the row's next put.
fn spawn(
    node: &mut Node,
    turn: Turn,
    link: u64,
    reservation: Reservation<Key>,
    row: &mut Row,
) -> Result<(), AllocError>
    ensures does { OnOk result (Spawns turn.entry turn.node link reservation node.old node.new row.old row.new) }
    ensures failed { OnOk result (node.new.failed ≡ node.old.failed) }
{
    let way = &mut node.tracker.mailbox;
    let released = node.spawning.spawn(turn, link, reservation, way, row)?;
    node.tracker.put_message(turn, release_of(released), row)?;
    Ok(())
}

/// Puts what was asked of the tracker, or makes a connection of a reservation that is ready for one, as the row's next put.
pub(crate) fn hand_on(
    node: &mut Node,
    turn: Turn,
    asked: Option<Item>,
    ready: Option<(u64, Reservation<Key>)>,
    row: &mut Row,
) -> Result<(), AllocError>
    ensures does { OnOk result (HandsOn ready turn.entry turn.node asked node.old node.new row.old row.new) }
    ensures failed { OnOk result (node.new.failed ≡ node.old.failed) }
{
    match ready {
        Some((link, reservation)) => Ok(spawn(node, turn, link, reservation, row)?),
        None => Ok(node.tracker.put_message(turn, asked, row)?),
    }
}

/// The end of a link that writes in this direction is dropped, where there is a link, unless it is `kept`.
pub(crate) fn drop_unless(
    alloc: Global,
    links: &mut Links,
    kept: bool,
    link: Option<u64>,
    side: Side,
    row: &mut Row,
) -> Result<(), AllocError>
    ensures { OnOk result (DropsUnless kept link side links.old links.new row.old row.new) }
{
    let Some(link) = link else {
        return Ok(());
    };
    if kept {
        return Ok(());
    }
    Ok(links.drop_end(alloc, row, link, side, Cause::ConnectionEnded)?)
}
