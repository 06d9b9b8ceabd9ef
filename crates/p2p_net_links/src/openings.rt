//! Who dialed the links, and between whom keys are exchanged over them: how an exchange begins, and how it ends.
ghost use Rattle.std.specs.Prelude.{◌≡◌, ◌==◌, ℕ, None, cond, OnOk};
ghost use Rattle.p2p_net_queues.specs.Tables as table;
ghost use Rattle.p2p_net_links.specs.Links.{opened_with};

use crate::links::Links;
use p2p_log_rules::Opening;
use std::alloc::AllocError;

impl Links {
    /// The node that dialed a link, where there is one of this name.
    pub fn dialer(&self, link: u64) -> Option<u64>
        ensures { result ≡ table.at self.now.dialers link }
    {
        self.dialers.get(link)
    }

    /// Between whom keys are exchanged over a link, where they are.
    pub fn opening(&self, link: u64) -> Option<Opening>
        ensures { result ≡ table.at self.now.openings link }
    {
        self.openings.get(link)
    }

    /// A link is made, and keys are exchanged over it from now on, between these.
    ///
    /// `Err` only where there is no memory. The link may then be kept without the exchange.
    pub fn open(&mut self, link: u64, opening: Opening) -> Result<(), AllocError>
        ensures { OnOk result (self.new ≡ opened_with link opening self.old) }
    {
        self.dialers.insert(link, opening.node)?;
        self.openings.insert(link, opening)?;
        Ok(())
    }

    /// No keys are exchanged over a link any more.
    pub fn finish(&mut self, link: u64)
        ensures openings { (k : ℕ) → table.at self.new.openings k
            ≡ cond (k == link) None (table.at self.old.openings k) }
        ensures rest { self.new ≡ record self.old { openings = self.new.openings } }
    {
        let _ = self.openings.remove(link);
    }
}
