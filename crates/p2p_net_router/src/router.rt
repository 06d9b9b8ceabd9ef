//! `Router`, the router of one node.
ghost use Rattle.std.specs.Prelude.{◌≡◌, ◌==◌, ◌≤◌, ◌<◌, ◌^◌, ℕ, ◌++◌, ◌∷◌, [], length, nat_le, slice_get, filter, map, IfOk, OnOk, IsTrue, Some, None, true, false, if◌then◌else◌};
ghost use Rattle.std.specs.Ordering.{nat_cmp, is_eq};
ghost use Rattle.std.specs.BTreeMap.{get};
ghost use Rattle.p2p_log_rules.specs.Frames.{frame_of};
ghost use Rattle.p2p_log_rules.specs.Facts.{channels, capacity_in, is_stopped};
ghost use Rattle.p2p_log.specs.Lines.{line, live};
ghost use Rattle.p2p_log_rules.specs.Effect.{entry_of, relay_queue, route_oldest, router_capacity, sent_row, start_row};
ghost use Rattle.p2p_log.specs.Apart.{AreApart};
ghost use Rattle.p2p_net_queues.specs.Board.{held};
ghost use Rattle.p2p_router.specs.Messenger.{is_unbound, is_bound, subscribed, new_desk};
ghost use Rattle.p2p_router.specs.Routes.{new_routes};
ghost use Rattle.p2p_net_router.specs.Holds.{Adds};
ghost use Rattle.p2p_net_router.specs.Names.{is_routers};
ghost use Rattle.p2p_net_router.specs.Stands.{StandsFor, IsRegistration};

use crate::Name;
use crate::step::note_step;
use p2p_base::Key;
use p2p_flow::Connected;
use p2p_log::{Act, Queue};
use p2p_log_rules::Row;
use p2p_net_queues::{Board, Turn};
use p2p_router::{Actor, Messenger};
use std::alloc::{AllocError, Global};
use std::collections::BTreeMap;

/// The router of one node: its messenger and its actor, and the names of what stands in their queues.
pub struct Router {
    /// The node's number.
    pub number: u64,
    /// The mailbox, and the newest list of peers for each subscription.
    pub messenger: Messenger<Key>,
    /// The connected peers with their relays.
    pub actor: Actor<Key>,
    /// The channel of each subscription.
    pub channels: Vec<u64>,
    /// The number of each channel's subscription.
    pub subscriptions: BTreeMap<u64, u64>,
    /// The peer of each connection that the router was told of.
    pub peers: BTreeMap<u64, Key>,
    /// The names of what stands in its queues.
    pub names: Board<Name>,
}

impl Drop for Router {
    fn drop(self) {
        let Router {
            number: _number,
            messenger: _messenger,
            actor: _actor,
            channels: _channels,
            subscriptions: _subscriptions,
            peers: _peers,
            names: _names,
        } = self;
    }
}

/// A router without a mailbox, which holds nothing.
fn empty(alloc: Global, number: u64) -> Router
    ensures number { result.number ≡ number }
    ensures messenger { result.messenger ≡ new_desk }
    ensures actor { result.actor ≡ new_routes }
    ensures channels { result.channels.items ≡ [] }
    ensures subscriptions { (c : ℕ) → get nat_cmp result.subscriptions c ≡ None }
    ensures peers { (conn : ℕ) → get nat_cmp result.peers conn ≡ None }
    ensures names { (q : _) → held result.names q ≡ [] }
{
    Router {
        number,
        messenger: Messenger::unbound(alloc),
        actor: Actor::without_peers(alloc),
        channels: Vec::new(alloc),
        subscriptions: BTreeMap::new(alloc),
        peers: BTreeMap::new(alloc),
        names: Board::new(alloc),
    }
}

impl Router {
    /// A router without a mailbox, which holds nothing.
    pub fn new(alloc: Global, number: u64) -> Router
        ensures number { result.number ≡ number }
        ensures messenger { result.messenger ≡ new_desk }
        ensures peers { (conn : ℕ) → get nat_cmp result.peers conn ≡ None }
        ensures stands { (configs : _) → StandsFor configs [] result }
    {
        empty(alloc, number)
    }

    /// A channel wants the lists of connected peers.
    ///
    /// `Err` only where there is no memory. The router may then have done a part of it, and its node goes no further.
    pub fn subscribe(&mut self, alloc: Global, channel: u64) -> Result<(), AllocError>
        ensures messenger { OnOk result (self.new.messenger ≡ subscribed self.old.messenger) }
        ensures channels { OnOk result (self.new.channels.items ≡ self.old.channels.items ++ channel ∷ []) }
        ensures subscriptions { OnOk result ((c : ℕ) → get nat_cmp self.new.subscriptions c ≡ (if is_eq (nat_cmp channel c) then Some (length self.old.messenger.lists) else get nat_cmp self.old.subscriptions c)) }
        ensures rest { OnOk result (self.new ≡ record self.old { messenger = self.new.messenger; channels = self.new.channels; subscriptions = self.new.subscriptions }) }
        ensures stands { OnOk result ((configs : _) (log : _) (e : _) → StandsFor configs log self.old → is_stopped log self.old.number ≡ false → IsTrue (is_unbound self.old.messenger.binding)
            → IsRegistration e self.old.number channel → capacity_in (channels configs log self.old.number) channel ≡ None → StandsFor configs (log ++ e ∷ []) self.new) }
    {
        self.channels.push(channel)?;
        let number = self.messenger.subscribe(alloc)?;
        self.subscriptions.insert(channel, number)?;
        Ok(())
    }

    /// Takes the oldest message of the mailbox, and does what it says.
    ///
    /// What is put for a connection, the router's answer, the caller puts: the row has it.
    ///
    /// `Err` only where there is no memory. The router may then have done a part of it, and its node goes no further.
    pub fn step(&mut self, turn: Turn) -> Result<Row, AllocError>
        ensures row { IfOk result (λ row. (configs : _) (log : _) → StandsFor configs log self.old
            → row ≡ route_oldest configs log self.old.number (line log (Queue.Router self.old.number))) }
        ensures others { IfOk result (λ row. (configs : _) (log : _) (q : _) → StandsFor configs log self.old → is_routers self.old.number q ≡ false
            → Adds turn.entry row (live log) q) }
        ensures stands { IfOk result (λ row. (configs : _) (log : _) (event : _) → StandsFor configs log self.old → length log ≡ turn.entry
            → event.act ≡ Act.Router self.old.number → StandsFor configs (log ++ entry_of event row ∷ []) self.new) }
        ensures rest { OnOk result (self.new ≡ record self.old { messenger = self.new.messenger; actor = self.new.actor; names = self.new.names }) }
    {
        let turn = Turn {
            node: self.number,
            ..turn
        };
        let stepped = self.actor.step(&mut self.messenger)?;
        note_step(turn, &mut self.names, self.channels.as_slice(), &stepped)
    }
}
