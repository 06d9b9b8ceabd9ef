//! The links that are cut, and what is in flight over them.
ghost use Rattle.std.specs.Prelude.{◌≡◌, IfOk, OnOk};
ghost use Rattle.p2p_net_links.specs.Cutting.{is_cut_at, is_broken_at, can_be_cut_at, cut_answer, cut_after};

use crate::links::Links;
use p2p_log::{Cause, Reply, Side};
use p2p_log_rules::Row;
use p2p_net_queues::{drop_items, only};
use std::alloc::{AllocError, Global};

impl Links {
    /// Whether a link was cut.
    pub fn is_cut(&self, link: u64) -> bool
        ensures { result ≡ is_cut_at self.now link }
    {
        self.cut.has(link)
    }

    /// Whether nothing goes between an end of a link, which writes in this direction, and the other one any more: that end was
    /// dropped, or the link was cut.
    pub fn is_broken(&self, link: u64, side: Side) -> bool
        ensures { result ≡ is_broken_at self.now side link }
    {
        self.is_dropped(link, side) || self.is_cut(link)
    }

    /// Whether a link can be cut: it was made, it was not cut before, and one of its ends stands.
    fn can_be_cut(&self, link: u64) -> bool
        ensures { result ≡ can_be_cut_at self.now link }
    {
        let dropped = self.is_dropped(link, Side::Out) && self.is_dropped(link, Side::In);
        self.dialer(link).is_some() && !(self.is_cut(link) || dropped)
    }

    /// Cuts a link, where it can be cut: the frames in flight over it end untaken, each with its copies, first those from the end
    /// that dialed, the oldest first.
    ///
    /// `Err` only where there is no memory. The frames may then be gone and told of to nobody, and the world goes no further.
    pub fn cut(&mut self, alloc: Global, link: u64) -> Result<Row, AllocError>
        ensures row { IfOk result (λ r. r ≡ cut_answer self.old link) }
        ensures after { OnOk result (self.new ≡ cut_after link self.old) }
    {
        if !self.can_be_cut(link) {
            return Ok(only(alloc, Reply::Gone));
        }
        let mut row = only(alloc, Reply::Ok);
        let outward = self.outward.take_all_at(alloc, link);
        drop_items(&mut row, outward, Cause::LinkCut)?;
        let inward = self.inward.take_all_at(alloc, link);
        drop_items(&mut row, inward, Cause::LinkCut)?;
        self.cut.insert(link, ())?;
        Ok(row)
    }
}
