//! The stop of a node's dialer and of its listener: what they hold goes, one after another.
ghost use Rattle.std.specs.Prelude.{◌≡◌, ◌≤◌, ◌++◌, [], None, length, IfOk, OnOk};
ghost use Rattle.std.specs.List.Sorted.{IsStrictlySortedBy};
ghost use Rattle.std.specs.Map.{keys_of};
ghost use Rattle.std.specs.Ordering.{nat_cmp};
ghost use Rattle.p2p_net_gates.specs.Stopping.{StopsFirst, StopsHandshake, paired, zipped};

use crate::dialing::Dialing;
use crate::listening::Listening;
use p2p_base::{Deque, Key, List};
use p2p_gates::Arrival;
use p2p_log_rules::Row;
use p2p_net_queues::{Table, end_items};
use std::alloc::{AllocError, Global};

/// An attempt or a handshake that stopped, with the link whose end it had.
#[derive(Drop)]
pub struct Stopped {
    /// Its name.
    pub name: u64,
    /// The link.
    pub link: Option<u64>,
}

/// Adds a link, with the name of its arrival, where there is one.
fn push_named(
    all: &mut List<((u64, u64), u64)>,
    name: Option<(u64, u64)>,
    link: u64,
) -> Result<(), AllocError>
    ensures { OnOk result (all.new ≡ all.old ++ paired name link) }
{
    if let Some(name) = name {
        all.push((name, link))?;
    }
    Ok(())
}

/// The names of these arrivals, each with its link.
fn zip_links(
    alloc: Global,
    mut names: Deque<(u64, u64)>,
    arrivals: Deque<Arrival<Key>>,
) -> Result<List<((u64, u64), u64)>, AllocError>
    ensures { IfOk result (λ l. l ≡ zipped names arrivals) }
{
    let mut all = List::empty(alloc);
    for arrival in arrivals.into_inner() {
        push_named(&mut all, names.pop(), arrival.link)?;
    }
    Ok(all)
}

impl Dialing {
    /// Nobody dials any more.
    pub fn stop(&mut self)
        ensures { self.new ≡ record self.old { actor = None } }
    {
        self.actor = None;
    }

    /// The first attempt stops, and what waits for it ends. `None` where there is none.
    ///
    /// `Err` only where there is no memory. The attempt is dropped then, and its node goes no further.
    pub fn stop_first(
        &mut self,
        alloc: Global,
        row: &mut Row,
    ) -> Result<Option<Stopped>, AllocError>
        ensures some { IfOk result (λ o. StopsFirst self.old.attempts self.new.attempts row.old row.new o) }
        ensures ordered { IsStrictlySortedBy nat_cmp (keys_of self.old.attempts) }
        ensures actor { self.new.actor ≡ self.old.actor }
    {
        let Some((name, mut running)) = self.attempts.pop_first() else {
            return Ok(None);
        };
        end_items(row, running.names.take_all(alloc))?;
        Ok(Some(Stopped {
            name,
            link: running.link,
        }))
    }
}

impl Listening {
    /// Takes all arrivals that wait, the oldest first: the name of each, and its link.
    ///
    /// `Err` only where there is no memory. The arrivals are gone then, and the node goes no further.
    pub fn take_arrivals(&mut self, alloc: Global) -> Result<List<((u64, u64), u64)>, AllocError>
        ensures taken { IfOk result (λ l. l ≡ zipped self.old.names self.old.actor.arrivals) }
        ensures after { self.new ≡ record self.old { names = []; actor = record self.old.actor { arrivals = [] } } }
    {
        let names = self.names.take_all(alloc);
        let arrivals = self.actor.take_arrivals();
        Ok(zip_links(alloc, names, arrivals)?)
    }

    /// The first handshake stops, and its place is free. `None` where there is none.
    pub fn stop_first(&mut self) -> Option<Stopped>
        requires places { IsStrictlySortedBy nat_cmp (keys_of self.old.handshakes) → length self.old.handshakes ≤ self.old.actor.places.held }
        ensures some { StopsHandshake self.old.handshakes self.old self.new result }
        ensures ordered { IsStrictlySortedBy nat_cmp (keys_of self.old.handshakes) }
    {
        let (name, handshake) = self.handshakes.pop_first()?;
        self.actor.ended();
        Some(Stopped {
            name,
            link: Some(handshake.arrival().link),
        })
    }

    /// Nothing has the listening end of any link any more.
    pub fn forget_ends(&mut self, alloc: Global)
        ensures { self.new ≡ record self.old { ends = [] } }
    {
        self.ends = Table::new(alloc);
    }
}
