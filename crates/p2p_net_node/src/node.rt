//! A node: what it is made of, and its parts.
ghost use Rattle.std.specs.Prelude.{◌≡◌, ◌*◌, ◌<◌, ◌^◌, ℕ, [], IfOk, true, false, None};
ghost use Rattle.std.specs.Ordering.{nat_cmp};
ghost use Rattle.std.specs.BTreeMap as tree;
ghost use Rattle.p2p_log_rules.specs.Valid.{fits};
ghost use Rattle.p2p_net_channels.specs.Channels.{no_channels};
ghost use Rattle.p2p_net_connections.specs.Connections.{no_connections};
ghost use Rattle.p2p_net_gates.specs.Dialing.{no_dialing, gates_of};
ghost use Rattle.p2p_net_gates.specs.Listening.{IsNew as IsNewListening};
ghost use Rattle.p2p_net_router.specs.Stands.{StandsFor};
ghost use Rattle.p2p_net_connections.specs.Spawner.{no_spawning};
ghost use Rattle.p2p_net_tracker.specs.Begins.{IsNew};
ghost use Rattle.p2p_net_node.specs.Ready.{is_node_up};
ghost use Rattle.p2p_net_node.specs.Requested.{capacity_by};

use crate::configs::retained;
use p2p_log::{Config, Rate};
use p2p_net_channels::Channels;
use p2p_net_connections::{Connections, Spawning};
use p2p_net_gates::{Dialing, Listening, gates_config};
use p2p_net_router::Router;
use p2p_net_tracker::Tracker;
use std::alloc::{AllocError, Global};

/// A node: what it is made of, and its parts.
pub struct Node {
    /// What it is made of.
    pub config: Config,
    /// How many peers are retained.
    pub retained: usize,
    /// Its router, with the mailbox, the relays and the lists of peers.
    pub router: Router,
    /// Its channels, and what waits in them.
    pub channels: Channels,
    /// Its connections, the router's answers to them, and what waits for their quotas.
    pub connections: Connections,
    /// Its tracker, with what waits for those who asked it.
    pub tracker: Tracker,
    /// Its dialer, once it has started, and the attempts of it that have not ended.
    pub dialing: Dialing,
    /// Its listener.
    pub listening: Listening,
    /// The connections that its spawner is to make.
    pub spawning: Spawning,
    /// Whether it has stopped.
    pub stopped: bool,
    /// Whether it found no memory.
    pub failed: bool,
}

impl Drop for Node {
    fn drop(self) {
        let Node {
            config: _config,
            retained: _retained,
            router: _router,
            channels: _channels,
            connections: _connections,
            tracker: _tracker,
            dialing: _dialing,
            listening: _listening,
            spawning: _spawning,
            stopped: _stopped,
            failed: _failed,
        } = self;
    }
}

impl Node {
    /// A node that was asked for nothing.
    ///
    /// `Err` only where there is no memory.
    pub fn new(alloc: Global, number: u64, config: Config) -> Result<Node, AllocError>
        requires { fits config ≡ true }
        ensures config { IfOk result (λ x. x.config ≡ config) }
        ensures counted { config.mailbox_size < 2 ^ 64 }
        ensures retained { IfOk result (λ x. x.retained ≡ config.max_peers_per_set * config.tracked_peer_sets) }
        ensures number { IfOk result (λ x. x.router.number ≡ number) }
        ensures router { IfOk result (λ x. (configs : _) → StandsFor configs [] x.router) }
        ensures peers { IfOk result (λ x. (c : ℕ) → tree.get nat_cmp x.router.peers c ≡ None) }
        ensures tracker { IfOk result (λ x. IsNew config x.tracker) }
        ensures channels { IfOk result (λ x. x.channels ≡ no_channels) }
        ensures connections { IfOk result (λ x. x.connections ≡ no_connections) }
        ensures dialing { IfOk result (λ x. x.dialing ≡ no_dialing) }
        ensures listening { IfOk result (λ x. IsNewListening (gates_of config) x.listening) }
        ensures spawning { IfOk result (λ x. x.spawning ≡ no_spawning config.mailbox_size) }
        ensures runs { IfOk result (λ x. x.stopped ≡ false) }
        ensures works { IfOk result (λ x. x.failed ≡ false) }
    {
        let size = config.mailbox_size;
        prove!(size <= usize::MAX);
        let tracker = Tracker::new(alloc, &config)?;
        let listening = Listening::new(alloc, gates_config(&config))?;
        let spawning = Spawning::new(alloc, size)?;
        Ok(Node {
            config,
            retained: retained(&config),
            router: Router::new(alloc, number),
            channels: Channels::new(alloc),
            connections: Connections::new(alloc),
            tracker,
            dialing: Dialing::new(alloc),
            listening,
            spawning,
            stopped: false,
            failed: false,
        })
    }

    /// How many messages a channel of this quota holds: the bursts of the retained peers.
    pub fn capacity(&self, quota: Rate) -> u128
        ensures { result ≡ capacity_by self.now quota }
    {
        self.retained as u128 * quota.burst as u128
    }

    /// Whether it has started, and has not stopped.
    pub fn is_up(&self) -> bool
        ensures { result ≡ is_node_up self.now }
    {
        self.router.messenger.bound()
    }
}
