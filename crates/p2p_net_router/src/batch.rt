//! Frames of one connection: a batch of them, or all.
ghost use Rattle.std.specs.Prelude.{◌≡◌, ◌≤◌, ◌+◌, ◌++◌, ◌∷◌, [], true, length, map, take as first_of, filter, IfOk, OnOk};
ghost use Rattle.p2p_log.specs.Lines.{name_of, stays, stands_in, named};
ghost use Rattle.p2p_log_rules.specs.Effect.{relay_queue};
ghost use Rattle.p2p_log.specs.Apart.{AreApart};
ghost use Rattle.p2p_net_router.specs.Batches.{all_of, batch_of, AreKept};
ghost use Rattle.p2p_net_router.specs.Holds.{Holds};
ghost use Rattle.p2p_net_router.specs.Names.{is_routers};
ghost use Rattle.p2p_net_router.specs.Stands.{StandsOver, StandsFor, IsBeside, AreAway};

use crate::Router;
use crate::copies::lane;
use p2p_base::List;
use p2p_log::Item;
use std::alloc::{AllocError, Global};

/// Takes the oldest frames of a lane, as many as this at most.
fn take_lane(
    router: &mut Router,
    taken: &mut List<((u64, u64), Item)>,
    conn: u64,
    priority: bool,
    most: usize,
) -> Result<(), AllocError>
    ensures taken { OnOk result ((size : _) (items : _) → Holds size router.old items → AreApart items
        → taken.new ≡ taken.old ++ map named (first_of most (filter (stands_in (relay_queue priority router.old.number conn)) items))) }
    ensures holds { OnOk result ((size : _) (items : _) → Holds size router.old items → AreApart items
        → Holds size router.new (filter (stays (map name_of (first_of most (filter (stands_in (relay_queue priority router.old.number conn)) items)))) items)) }
    ensures kept { OnOk result (AreKept router.old router.new) }
    ensures at_most { OnOk result (length taken.new ≤ length taken.old + most) }
{
    for _index in 0..most {
        match router.take(conn, priority) {
            None => return Ok(()),
            Some(frame) => taken.push(frame)?,
        }
    }
    Ok(())
}

impl Router {
    /// Takes at most `size` of the frames that wait for a connection, those with priority first, each with its name.
    ///
    /// `Err` only where there is no memory. Some of them may then be taken and handed to nobody, and its node goes no further.
    pub fn batch(
        &mut self,
        alloc: Global,
        conn: u64,
        size: usize,
    ) -> Result<List<((u64, u64), Item)>, AllocError>
        ensures taken { IfOk result (λ taken. (places : _) (items : _) → Holds places self.old items → AreApart items
            → taken ≡ map named (batch_of self.old.number conn size items)) }
        ensures holds { OnOk result ((places : _) (items : _) → Holds places self.old items → AreApart items
            → Holds places self.new (filter (stays (map name_of (batch_of self.old.number conn size items))) items)) }
        ensures kept { OnOk result (AreKept self.old self.new) }
        ensures stands { IfOk result (λ taken. (configs : _) (log : _) (e : _) → StandsFor configs log self.old → IsBeside configs log e self.old.number
            → e.takes ≡ map (λ t. t.0) taken → e.ends ≡ [] → ((q : _) → is_routers self.old.number q ≡ true → AreAway q e.puts)
            → StandsFor configs (log ++ e ∷ []) self.new) }
        ensures over { OnOk result ((configs : _) (log : _) (items : _) → StandsOver configs log self.old items → AreApart items
            → StandsOver configs log self.new (filter (stays (map name_of (batch_of self.old.number conn size items))) items)) }
    {
        let mut taken = List::empty(alloc);
        take_lane(self, &mut taken, conn, true, size)?;
        let left = size - taken.len();
        take_lane(self, &mut taken, conn, false, left)?;
        Ok(taken)
    }

    /// How many frames of a lane wait for a connection.
    fn waiting(&self, conn: u64, priority: bool) -> usize
        ensures { (size : _) (items : _) → Holds size self.now items → result ≡ length (filter (stands_in (relay_queue priority self.now.number conn)) items) }
    {
        self.names.len(lane(priority, self.number, conn))
    }

    /// Takes all frames that wait for a connection, those with priority first, each with its name.
    ///
    /// `Err` only where there is no memory. Some of them may then be taken and handed to nobody, and its node goes no further.
    pub fn take_all(
        &mut self,
        alloc: Global,
        conn: u64,
    ) -> Result<List<((u64, u64), Item)>, AllocError>
        ensures taken { IfOk result (λ taken. (places : _) (items : _) → Holds places self.old items → AreApart items
            → taken ≡ map named (all_of self.old.number conn items)) }
        ensures holds { OnOk result ((places : _) (items : _) → Holds places self.old items → AreApart items
            → Holds places self.new (filter (stays (map name_of (all_of self.old.number conn items))) items)) }
        ensures kept { OnOk result (AreKept self.old self.new) }
        ensures over { OnOk result ((configs : _) (log : _) (items : _) → StandsOver configs log self.old items → AreApart items
            → StandsOver configs log self.new (filter (stays (map name_of (all_of self.old.number conn items))) items)) }
    {
        let mut taken = List::empty(alloc);
        let high = self.waiting(conn, true);
        take_lane(self, &mut taken, conn, true, high)?;
        let low = self.waiting(conn, false);
        take_lane(self, &mut taken, conn, false, low)?;
        Ok(taken)
    }
}
