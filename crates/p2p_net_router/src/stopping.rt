//! A router whose node stops: what waits in it ends, one queue after another, and then it is closed. Its lists of peers stay.
ghost use Rattle.std.specs.Prelude.{◌≡◌, ℕ, ◌++◌, ◌∷◌, [], false, None, map, filter, take as first_of, OnOk};
ghost use Rattle.std.specs.BTreeMap.{get};
ghost use Rattle.std.specs.Ordering.{nat_cmp};
ghost use Rattle.p2p_log.specs.Apart.{AreApart};
ghost use Rattle.p2p_log.specs.Drained.{all_end};
ghost use Rattle.p2p_log.specs.Lines.{name_of, stays, stands_in};
ghost use Rattle.p2p_log_rules.specs.Effect.{relay_queue};
ghost use Rattle.p2p_net_queues.specs.Rows.{sent_dropped};
ghost use Rattle.p2p_net_router.specs.Ends.{closed_link};
ghost use Rattle.p2p_net_router.specs.Holds.{routes_in};
ghost use Rattle.p2p_net_router.specs.Items.{key_cmp, named_keys};
ghost use Rattle.p2p_net_router.specs.Oldest.{send_of};
ghost use Rattle.p2p_net_router.specs.Resting.{IsListing, RouterLeft};
ghost use Rattle.p2p_net_router.specs.Stopping.{frame_ends, frames_end, message_ends};
ghost use Rattle.p2p_router.specs.Messenger.{is_bound, shut};
ghost use Rattle.p2p_router.specs.Routing.{link_of};

use crate::copies::lane;
use crate::release::close_relay;
use crate::{Name, Router};
use p2p_base::Key;
use p2p_flow::Recipients;
use p2p_log::{Cause, End, Queue};
use p2p_log_rules::Row;
use p2p_net_queues::{drop_copy, drop_sent};
use p2p_router::Message;
use std::alloc::AllocError;
use std::collections::VecDeque;

/// Each copy of a send to these recipients is dropped, in order.
fn drop_content(row: &mut Row, send: u64, recipients: &Recipients<Key>) -> Result<(), AllocError>
    ensures { OnOk result (row.new ≡ record row.old { ends = row.old.ends ++ sent_dropped Cause.NodeStopped send 0 (named_keys recipients.now) }) }
{
    match recipients {
        Recipients::All => Ok(()),
        Recipients::Some(keys) => drop_sent(row, send, keys.as_slice(), Cause::NodeStopped),
        Recipients::One(_) => drop_copy(row, (send, 0), Cause::NodeStopped),
    }
}

/// The send of a tag.
fn send_tagged(tag: Option<(u64, u64)>) -> u64
    ensures { result ≡ send_of tag }
{
    match tag {
        None => 0,
        Some(tag) => tag.0,
    }
}

/// A message of this name ends untaken, and right after it its copies.
fn end_message(row: &mut Row, name: Name, message: &Message<Key>) -> Result<(), AllocError>
    ensures { OnOk result (row.new ≡ record row.old { ends = row.old.ends ++ message_ends name message.now }) }
{
    row.ends.push(End::Item(name.entry, name.place))?;
    match message {
        Message::Content { recipients, .. } => {
            drop_content(row, send_tagged(name.tag), recipients)
        }
        _ => Ok(()),
    }
}

/// A frame of this name ends untaken, and right after it its copy.
fn end_frame(row: &mut Row, name: Name) -> Result<(), AllocError>
    ensures { OnOk result (row.new ≡ record row.old { ends = row.old.ends ++ frame_ends name }) }
{
    row.ends.push(End::Item(name.entry, name.place))?;
    match name.tag {
        None => Ok(()),
        Some(copy) => drop_copy(row, copy, Cause::NodeStopped),
    }
}

/// Frames of these names end untaken, one after another, and right after each of them its copy.
fn end_frames(row: &mut Row, names: VecDeque<Name>) -> Result<(), AllocError>
    ensures { OnOk result (row.new ≡ record row.old { ends = row.old.ends ++ frames_end names.items }) }
{
    for name in names {
        end_frame(row, name)?;
    }
    Ok(())
}

impl Router {
    /// Ends the oldest message of the mailbox, where there is one.
    fn end_oldest(&mut self, row: &mut Row) -> Result<(), AllocError>
        ensures row { OnOk result ((items : _) → RouterLeft self.old items → AreApart items
            → row.new ≡ record row.old { ends = row.old.ends ++ all_end Cause.NodeStopped (first_of 1 (filter (stands_in (Queue.Router self.old.number)) items)) }) }
        ensures left { OnOk result ((items : _) → RouterLeft self.old items → AreApart items
            → RouterLeft self.new (filter (stays (map name_of (first_of 1 (filter (stands_in (Queue.Router self.old.number)) items)))) items)) }
        ensures rest { OnOk result (self.new ≡ record self.old { messenger = record self.old.messenger { binding = self.new.messenger.binding }; names = self.new.names }) }
    {
        let Some(message) = self.messenger.take() else {
            return Ok(());
        };
        let Some(name) = self.names.pop(Queue::Router(self.number)) else {
            return Ok(());
        };
        end_message(row, name, &message)?;
        Ok(())
    }

    /// Ends what waits in the mailbox, as its node stops: one message after another, and right after each of them its copies.
    ///
    /// `Err` only where there is no memory. Some of it may then be ended and missing in the row, and its node goes no further.
    pub fn end_mailbox(&mut self, row: &mut Row) -> Result<(), AllocError>
        ensures row { OnOk result ((items : _) → RouterLeft self.old items → AreApart items
            → row.new ≡ record row.old { ends = row.old.ends ++ all_end Cause.NodeStopped (filter (stands_in (Queue.Router self.old.number)) items) }) }
        ensures left { OnOk result ((items : _) → RouterLeft self.old items → AreApart items
            → RouterLeft self.new (filter (stays (map name_of (filter (stands_in (Queue.Router self.old.number)) items))) items)) }
        ensures rest { OnOk result (self.new ≡ record self.old { messenger = record self.old.messenger { binding = self.new.messenger.binding }; names = self.new.names }) }
    {
        for _index in 0..self.names.len(Queue::Router(self.number)) {
            self.end_oldest(row)?;
        }
        Ok(())
    }

    /// Ends the frames that wait for a connection, those with priority or those without, as its node stops: one after another,
    /// and right after each of them its copy. They are named no more; the relay that has them is left to `leave`.
    ///
    /// `Err` only where there is no memory. Some of them may then be missing in the row, and its node goes no further.
    pub fn end_lane(&mut self, conn: u64, priority: bool, row: &mut Row) -> Result<(), AllocError>
        ensures row { OnOk result ((items : _) → RouterLeft self.old items → AreApart items
            → row.new ≡ record row.old { ends = row.old.ends ++ all_end Cause.NodeStopped (filter (stands_in (relay_queue priority self.old.number conn)) items) }) }
        ensures left { OnOk result ((items : _) → RouterLeft self.old items → AreApart items
            → RouterLeft self.new (filter (stays (map name_of (filter (stands_in (relay_queue priority self.old.number conn)) items))) items)) }
        ensures rest { OnOk result (self.new ≡ record self.old { names = self.new.names }) }
    {
        match self.names.take_all(lane(priority, self.number, conn)) {
            None => Ok(()),
            Some(names) => Ok(end_frames(row, names)?),
        }
    }

    /// Closes a key's relay as its node stops: the frames that wait there go with it. The router still knows the key.
    pub fn leave(&mut self, key: Key)
        ensures links { self.new.actor.links ≡ closed_link (link_of key_cmp self.old.actor.links key) self.old.actor.links key }
        ensures left { (items : _) → RouterLeft self.old items → RouterLeft self.new items }
        ensures routes { routes_in self.new.actor.links ≡ routes_in self.old.actor.links }
        ensures rest { self.new ≡ record self.old { actor = record self.old.actor { links = self.new.actor.links } } }
    {
        close_relay(&mut self.actor, key);
    }

    /// Closes the mailbox for good, and knows no connection any more. The lists of peers stay, and whom the router knew.
    pub fn close(&mut self)
        ensures messenger { self.new.messenger ≡ shut self.old.messenger }
        ensures unbound { is_bound self.new.messenger.binding ≡ false }
        ensures listing { (items : _) → IsListing self.old items → IsListing self.new items }
        ensures peers { (conn : ℕ) → get nat_cmp self.new.peers conn ≡ None }
        ensures rest { self.new ≡ record self.old { messenger = self.new.messenger; peers = self.new.peers } }
    {
        self.messenger.close();
        self.peers.clear();
    }
}
