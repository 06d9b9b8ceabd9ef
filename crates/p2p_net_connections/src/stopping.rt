//! What a node that stops gives up, one after another: its connections, and what its spawner has not made yet.
ghost use Rattle.std.specs.Prelude.{◌≡◌, [], ◌∷◌, slice_get, IfSome, IfNone};
ghost use Rattle.std.specs.List.Sorted.{IsStrictlySortedBy};
ghost use Rattle.std.specs.Map.{keys_of};
ghost use Rattle.std.specs.Ordering.{nat_cmp};
ghost use Rattle.p2p_base.specs.Queue.{oldest};
ghost use Rattle.p2p_net_connections.specs.Spawner.{taken_by, without_first};
ghost use Rattle.p2p_net_connections.specs.Stopping.{message_by};

use crate::connections::{Connection, Connections};
use crate::spawner::Spawning;

impl Connections {
    /// Takes out the connection of the least name, with that name, where there is one. What waits for it is left.
    pub fn stop_first(&mut self) -> Option<(u64, Connection)>
        ensures taken { IfSome result (λ e. self.old.spawned ≡ e ∷ self.new.spawned) }
        ensures empty { IfNone result (self.old.spawned ≡ []) }
        ensures unchanged { IfNone result (self.new.spawned ≡ []) }
        ensures ordered { IsStrictlySortedBy nat_cmp (keys_of self.old.spawned) }
        ensures rest { self.new ≡ record self.old { spawned = self.new.spawned } }
    {
        self.spawned.pop_first()
    }
}

impl Spawning {
    /// Takes the oldest message, with its reservation: its name, and the link of the connection that it asks for. `None` where
    /// none waits.
    pub fn stop_first(&mut self) -> Option<((u64, u64), u64)>
        ensures value { result ≡ message_by (taken_by (slice_get self.old.names 0) (oldest self.old.mailbox)) }
        ensures after { self.new ≡ without_first self.old }
    {
        match self.take() {
            None => None,
            Some(taken) => Some((taken.name, taken.link)),
        }
    }
}
