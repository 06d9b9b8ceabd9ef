//! The list of peers that waits for a channel, and the peers that the router has.
ghost use Rattle.std.specs.Prelude.{◌≡◌, map, filter, take as first_of, IfOk};
ghost use Rattle.p2p_log.specs.Lines.{name_of, stays, stands_in};
ghost use Rattle.p2p_log.specs.Apart.{AreApart};
ghost use Rattle.p2p_net_router.specs.Peers.{names_taken, peers_known};
ghost use Rattle.p2p_net_router.specs.Resting.{IsListing};
ghost use Rattle.p2p_net_router.specs.Stands.{StandsOver};

use crate::Router;
use p2p_base::{Key, List};
use p2p_log::Queue;
use std::alloc::{AllocError, Global};

impl Router {
    /// Takes the list of peers that waits for a channel, and gives its name. `None` where none waits.
    pub fn take_list(&mut self, channel: u64) -> Option<(u64, u64)>
        ensures name { (configs : _) (log : _) (items : _) → StandsOver configs log self.old items
            → names_taken result ≡ map name_of (first_of 1 (filter (stands_in (Queue.Peers self.old.number channel)) items)) }
        ensures stands { (configs : _) (log : _) (items : _) → StandsOver configs log self.old items → AreApart items
            → StandsOver configs log self.new (filter (stays (names_taken result)) items) }
        ensures named { (items : _) → IsListing self.old items
            → names_taken result ≡ map name_of (first_of 1 (filter (stands_in (Queue.Peers self.old.number channel)) items)) }
        ensures listing { (items : _) → IsListing self.old items → AreApart items → IsListing self.new (filter (stays (names_taken result)) items) }
        ensures rest { self.new ≡ record self.old { messenger = record self.old.messenger { lists = self.new.messenger.lists }; names = self.new.names } }
    {
        let Some(number) = self.subscriptions.get(&channel).copied() else {
            return None;
        };
        let Some(_list) = self.messenger.take_list(number) else {
            return None;
        };
        let queue = Queue::Peers {
            node: self.number,
            channel,
        };
        let Some(name) = self.names.pop(queue) else {
            return None;
        };
        Some((name.entry, name.place))
    }

    /// The keys of the router's connections, in key order, where it has taken the channel's subscription; otherwise no keys.
    ///
    /// `Err` only where there is no memory.
    pub fn peers(&self, alloc: Global, channel: u64) -> Result<List<Key>, AllocError>
        ensures { IfOk result (λ keys. keys ≡ peers_known self.now channel) }
    {
        match self.subscriptions.get(&channel).copied() {
            None => Ok(List::empty(alloc)),
            Some(number) => Ok(self.actor.peers_told(alloc, number)?),
        }
    }
}
