//! The ends of links that are dropped, and what is in flight towards them.
ghost use Rattle.std.specs.Prelude.{◌≡◌, ◌++◌, OnOk};
ghost use Rattle.p2p_log.specs.Drained.{all_end};
ghost use Rattle.p2p_log_rules.specs.Dropping.{other_side};
ghost use Rattle.p2p_net_queues.specs.Tables.{waiting};
ghost use Rattle.p2p_net_links.specs.Dropping.{is_dropped_at, end_dropped};
ghost use Rattle.p2p_net_links.specs.Links.{way_of};

use crate::links::Links;
use p2p_log::{Cause, Side};
use p2p_log_rules::Row;
use p2p_net_queues::drop_items;
use std::alloc::{AllocError, Global};

impl Links {
    /// Whether the end of a link that writes in this direction was dropped.
    pub fn is_dropped(&self, link: u64, side: Side) -> bool
        ensures { result ≡ is_dropped_at self.now side link }
    {
        match side {
            Side::Out => self.dropped_outward.has(link),
            Side::In => self.dropped_inward.has(link),
        }
    }

    /// The end of a link that writes in this direction is dropped. The frames in flight towards it, which are those of the other
    /// direction, end untaken for this cause, the oldest first, each with its copies.
    ///
    /// `Err` only where there is no memory. The frames may then be gone and told of to nobody, and the node that drops the end
    /// goes no further.
    pub fn drop_end(
        &mut self,
        alloc: Global,
        row: &mut Row,
        link: u64,
        side: Side,
        cause: Cause,
    ) -> Result<(), AllocError>
        ensures row { OnOk result (row.new ≡ record row.old { ends = row.old.ends ++ all_end cause (waiting (way_of self.old (other_side side)) link) }) }
        ensures after { OnOk result (self.new ≡ end_dropped link side self.old) }
    {
        match side {
            Side::Out => {
                let left = self.inward.take_all_at(alloc, link);
                self.dropped_outward.insert(link, ())?;
                drop_items(row, left, cause)
            }
            Side::In => {
                let left = self.outward.take_all_at(alloc, link);
                self.dropped_inward.insert(link, ())?;
                drop_items(row, left, cause)
            }
        }
    }
}
