//! `Network`, a node of a network of lookup before it starts.
ghost use Rattle.std.specs.Prelude.{◌≡◌, ◌++◌, ◌∷◌, [], None, true, length, IfOk, IfErr, OnOk, OnErr};
ghost use Rattle.p2p_base.specs.Queue.{empty_queue};
ghost use Rattle.p2p_flow_connection.specs.Arriving.{nothing_arrived, with_channel};
ghost use Rattle.p2p_flow_senders.specs.Limits.{fresh_limit, HasLimit};
ghost use Rattle.p2p_flow_senders.specs.Registering.{places_of, IsRegisterCause};
ghost use Rattle.p2p_gates.specs.Dialing.{new_dialer};
ghost use Rattle.p2p_lookup.specs.Networks.{tracked_by, gated_by, connections_of, no_channels, asked_from, IsNewListener, IsSameNode};
ghost use Rattle.p2p_lookup.specs.Sizing.{fits};
ghost use Rattle.p2p_lookup.specs.Spawning.{new_spawner};
ghost use Rattle.p2p_peer_shared.specs.Opening.{refusal_in, router_places, can_open, opened, received_from, AreInOrder};
ghost use Rattle.p2p_router.specs.Connections.{IsIndexed};
ghost use Rattle.p2p_router.specs.Messenger.{new_desk, subscribed};
ghost use Rattle.p2p_router.specs.Routes.{new_routes};
ghost use Rattle.p2p_tracker.specs.Tracking.{new_tracking, rules_for};
ghost use Rattle.p2p_tracker_directory.specs.Stands.{StandsFor};
ghost use Rattle.p2p_tracker_mailbox.specs.Mailboxes.{new_mailbox};

mod running;

use crate::{Config, spawner};
use p2p_base::{List, NoRoom, PublicKey};
use p2p_flow::Channel;
use p2p_flow_connection::Inbounds;
use p2p_flow_senders::channels::{Receiver, Sender};
use p2p_flow_senders::{Channels, RegisterError, Way};
use p2p_gates::{Config as GatesConfig, Dialer, Listener};
use p2p_peer_shared::network::{self as shared, Fitting};
use p2p_router::{self as router, Messenger};
use p2p_runtime::Quota;
use p2p_tracker::{self as tracker, Oracle};
pub use running::Running;
use std::alloc::{AllocError, Global};

/// A node of a network of lookup before it starts.
///
/// Ports `Network` of commonware-p2p's `authenticated::lookup`.
pub struct Network<P: PublicKey> {
    /// What waits for the tracker; its desk is lent to the oracle.
    pub tracker_way: tracker::Mailbox<P>,
    /// What the senders of the channels are lent.
    pub way: Way<P, Messenger<P>>,
    /// What the receivers of the channels are lent.
    pub inbounds: Inbounds<P>,
    cfg: Fitting<Config<P>>,
    channels: Channels<P>,
    tracker: tracker::Actor<P>,
}

impl<P: PublicKey> Drop for Network<P> {
    fn drop(self) {
        let Network {
            tracker_way: _tracker_way,
            way: _way,
            inbounds: _inbounds,
            cfg: _cfg,
            channels: _channels,
            tracker: _tracker,
        } = self;
    }
}

// What a start makes that needs memory.
type Parts<P> = (router::Actor<P>, Listener<P>, spawner::Mailbox<P>);

impl<P: PublicKey> Network<P> {
    /// A node of this configuration, without channels, whose tracker knows of no peer but the node itself, and the oracle that asks its
    /// tracker.
    ///
    /// `Err` only where memory runs out.
    ///
    /// Ports `Network::new` of commonware-p2p, whose panics `fits` stands for.
    pub fn new(alloc: Global, cfg: Config<P>) -> Result<(Network<P>, Oracle<P>), AllocError>
        requires { fits cfg ≡ true }
        ensures cfg { IfOk result (λ r. r.0.cfg ≡ cfg) }
        ensures tracker { IfOk result (λ r. r.0.tracker ≡ new_tracking r.0.tracker.directory cfg.peer_connection_cooldown) }
        ensures stands { IfOk result (λ r. StandsFor P.cmp r.0.tracker.directory []) }
        ensures rules { IfOk result (λ r. r.0.tracker.directory.rules ≡ rules_for (tracked_by cfg)) }
        ensures tracker_way { IfOk result (λ r. r.0.tracker_way ≡ new_mailbox cfg.mailbox_size) }
        ensures way { IfOk result (λ r. r.0.way ≡ record { messenger = new_desk; limits = [] }) }
        ensures inbounds { IfOk result (λ r. r.0.inbounds ≡ nothing_arrived) }
        ensures channels { IfOk result (λ r. r.0.channels ≡ no_channels cfg) }
        ensures oracle { IfOk result (λ r. r.1.local ≡ cfg.public_key) }
        ensures most { IfOk result (λ r. r.1.max_peers_per_set ≡ cfg.max_peers_per_set) }
    {
        let Some(max_peers) = cfg.max_retained_peers() else {
            unreachable!()
        };
        let (tracker, tracker_way, oracle) = tracker::Actor::new(alloc, tracker_config(&cfg))?;
        let network = Network {
            tracker_way,
            way: Way::new(alloc, Messenger::unbound(alloc)),
            inbounds: Inbounds::new(alloc),
            channels: Channels::new(alloc, cfg.max_message_size, max_peers),
            cfg: Fitting::new(cfg),
            tracker,
        };
        Ok((network, oracle))
    }

    /// Registers a channel, whose peers have this quota: its mailbox holds the burst of each peer that is retained.
    ///
    /// `DuplicateChannel` comes exactly where the channel has a mailbox or is registered already, else `CapacityOverflow` exactly where the
    /// places of its mailbox, or of all mailboxes together, pass `usize`, and `Memory` of want of memory. Nothing has changed then.
    ///
    /// Ports `Network::register` of commonware-p2p.
    pub fn register(
        &mut self,
        alloc: Global,
        channel: Channel,
        rate: Quota,
    ) -> Result<(Sender<P, Messenger<P>>, Receiver<P>), RegisterError>
        ensures sender { IfOk result (λ r. r.0 ≡ record { channel = channel; max_size = self.old.channels.max_size; place = length self.old.way.limits }) }
        ensures serves { IfOk result (λ r. HasLimit (λ d. length d.lists) r.0 self.new.way) }
        ensures receiver { IfOk result (λ r. r.1 ≡ record { channel = channel; capacity = places_of self.old.channels.max_peers rate }) }
        ensures fits { OnOk result (refusal_in self.old.inbounds self.old.channels channel rate ≡ None) }
        ensures refused { IfErr result (IsRegisterCause (refusal_in self.old.inbounds self.old.channels channel rate)) }
        ensures channels { OnOk result (self.new.channels ≡ record self.old.channels { quotas = self.old.channels.quotas ++ (channel, rate) ∷ [] }) }
        ensures inbounds { OnOk result (self.new.inbounds ≡ with_channel self.old.inbounds channel (places_of self.old.channels.max_peers rate)) }
        ensures messenger { OnOk result (self.new.way.messenger ≡ subscribed self.old.way.messenger) }
        ensures limits { OnOk result (self.new.way.limits ≡ self.old.way.limits ++ fresh_limit channel rate (length self.old.way.messenger.lists) [] ∷ []) }
        ensures same { IsSameNode self.old self.new }
        ensures tracker_way { self.new.tracker_way ≡ self.old.tracker_way }
        ensures unchanged { OnErr result (self.new ≡ self.old) }
    {
        let (way, inbounds) = (&mut self.way, &mut self.inbounds);
        shared::register(alloc, &mut self.channels, way, inbounds, channel, rate)
    }

    /// Whether `start` may be called: `mailbox_size` and the places of all channels sum within `usize`, and nobody bound or closed the
    /// messenger.
    pub fn can_start(&self) -> bool
        ensures { result ≡ can_open self.now.cfg.mailbox_size self.now.channels self.now.way.messenger }
    {
        let base = self.cfg.cfg().mailbox_size;
        shared::can_open(base, &self.channels, &self.way.messenger)
    }

    /// Starts the node: its senders reach its router from then on, whose mailbox holds `mailbox_size` messages and the places of all
    /// channels, and its dialer asks for the first time at the moment `now`, in nanoseconds. Where `bind` is false its senders never reach
    /// the router: its messenger and its tracker's mailbox are closed, and its receivers get no more.
    ///
    /// `NoRoom` hands the node back where there is no memory; nothing has changed then.
    ///
    /// Ports `Network::start` of commonware-p2p, which panics where it can't bind.
    pub fn start(
        self,
        alloc: Global,
        now: u64,
        bind: bool,
    ) -> Result<Running<P>, NoRoom<Network<P>>>
        requires { can_open self.cfg.mailbox_size self.channels self.way.messenger ≡ true }
        ensures router { IfOk result (λ r. r.router ≡ new_routes) }
        ensures indexed { IfOk result (λ r. IsIndexed P.cmp r.router) }
        ensures way { IfOk result (λ r. r.way ≡ opened bind (router_places self.cfg.mailbox_size self.channels) self.way) }
        ensures tracker { IfOk result (λ r. r.tracker ≡ self.tracker) }
        ensures tracker_way { IfOk result (λ r. r.tracker_way ≡ asked_from bind self.tracker_way) }
        ensures inbounds { IfOk result (λ r. r.inbounds ≡ received_from bind self.inbounds) }
        ensures listener { IfOk result (λ r. IsNewListener (gated_by self.cfg) r.listener) }
        ensures dialer { IfOk result (λ r. r.dialer ≡ new_dialer (gated_by self.cfg) now) }
        ensures spawner { IfOk result (λ r. r.spawner ≡ new_spawner (connections_of self.cfg r.spawner.cfg.channels)) }
        ensures channels { IfOk result (λ r. AreInOrder self.channels.quotas r.spawner.cfg.channels) }
        ensures spawner_way { IfOk result (λ r. r.spawner_way ≡ empty_queue self.cfg.mailbox_size) }
        ensures handed_back { IfErr result (λ e. e.0 ≡ self) }
    {
        let mut network = self;
        match network.open(alloc, bind) {
            Ok(parts) => Ok(network.run(alloc, now, parts)),
            Err(_) => Err(NoRoom(network)),
        }
    }

    // Makes what needs memory, and binds the messenger or ends what waits. Nothing has changed where there is no memory.
    fn open(&mut self, alloc: Global, bind: bool) -> Result<Parts<P>, AllocError>
        requires { can_open self.old.cfg.mailbox_size self.old.channels self.old.way.messenger ≡ true }
        ensures router { IfOk result (λ r. r.0 ≡ new_routes) }
        ensures indexed { IfOk result (λ r. IsIndexed P.cmp r.0) }
        ensures listener { IfOk result (λ r. IsNewListener (gated_by self.old.cfg) r.1) }
        ensures spawner_way { IfOk result (λ r. r.2 ≡ empty_queue self.old.cfg.mailbox_size) }
        ensures way { OnOk result (self.new.way ≡ opened bind (router_places self.old.cfg.mailbox_size self.old.channels) self.old.way) }
        ensures tracker_way { OnOk result (self.new.tracker_way ≡ asked_from bind self.old.tracker_way) }
        ensures inbounds { OnOk result (self.new.inbounds ≡ received_from bind self.old.inbounds) }
        ensures same { IsSameNode self.old self.new }
        ensures channels { self.new.channels ≡ self.old.channels }
        ensures memory { OnErr result (self.new ≡ self.old) }
    {
        let base = self.cfg.cfg().mailbox_size;
        let listener = listener_of(alloc, self.cfg.cfg())?;
        let spawner_way = spawner::Mailbox::new(alloc, base)?;
        let (way, inbounds) = (&mut self.way, &mut self.inbounds);
        let router = shared::open(alloc, bind, base, &self.channels, way, inbounds)?;
        close_unless(bind, &mut self.tracker_way);
        Ok((router, listener, spawner_way))
    }

    // The node with these parts.
    fn run(self, alloc: Global, now: u64, parts: Parts<P>) -> Running<P>
        ensures router { result.router ≡ parts.0 }
        ensures way { result.way ≡ self.way }
        ensures tracker { result.tracker ≡ self.tracker }
        ensures tracker_way { result.tracker_way ≡ self.tracker_way }
        ensures inbounds { result.inbounds ≡ self.inbounds }
        ensures listener { result.listener ≡ parts.1 }
        ensures dialer { result.dialer ≡ new_dialer (gated_by self.cfg) now }
        ensures spawner { result.spawner ≡ new_spawner (connections_of self.cfg result.spawner.cfg.channels) }
        ensures channels { AreInOrder self.channels.quotas result.spawner.cfg.channels }
        ensures spawner_way { result.spawner_way ≡ parts.2 }
    {
        let Network {
            tracker_way,
            way,
            inbounds,
            cfg,
            channels,
            tracker,
        } = self;
        let (router, listener, spawner_way) = parts;
        Running {
            tracker_way,
            way,
            inbounds,
            tracker,
            router,
            listener,
            dialer: Dialer::new(alloc, gates_config(cfg.cfg()), now),
            spawner: spawner_of(&cfg, channels),
            spawner_way,
        }
    }
}

// What a tracker of this configuration is told.
fn tracker_config<P: PublicKey>(cfg: &Config<P>) -> tracker::Config<P>
    ensures { result ≡ tracked_by cfg.now }
{
    tracker::Config {
        public_key: cfg.public_key,
        mailbox_size: cfg.mailbox_size,
        max_peers_per_set: cfg.max_peers_per_set,
        tracked_peer_sets: cfg.tracked_peer_sets,
        peer_connection_cooldown: cfg.peer_connection_cooldown,
        allow_private_ips: cfg.allow_private_ips,
        allow_dns: cfg.allow_dns,
        bypass_ip_check: cfg.bypass_ip_check,
        block_duration: cfg.block_duration,
    }
}

// What a listener and a dialer of this configuration are told.
fn gates_config<P: PublicKey>(cfg: &Config<P>) -> GatesConfig
    ensures { result ≡ gated_by cfg.now }
{
    GatesConfig {
        allow_private_ips: cfg.allow_private_ips,
        bypass_ip_check: cfg.bypass_ip_check,
        max_concurrent_handshakes: cfg.max_concurrent_handshakes,
        allowed_handshake_rate_per_ip: cfg.allowed_handshake_rate_per_ip,
        allowed_handshake_rate_per_subnet: cfg.allowed_handshake_rate_per_subnet,
        handshake_timeout: cfg.handshake_timeout,
        dial_timeout: cfg.dial_timeout,
        dial_frequency: cfg.dial_frequency,
        peer_connection_cooldown: cfg.peer_connection_cooldown,
    }
}

// The listener of a node of this configuration.
fn listener_of<P: PublicKey>(alloc: Global, cfg: &Config<P>) -> Result<Listener<P>, AllocError>
    ensures { IfOk result (λ l. IsNewListener (gated_by cfg.now) l) }
{
    let listener = Listener::new(alloc, gates_config(cfg))?;
    Ok(listener)
}

// Ends what waits for a tracker, unless its node is bound.
fn close_unless<P: PublicKey>(bind: bool, tracker_way: &mut tracker::Mailbox<P>)
    ensures { tracker_way.new ≡ asked_from bind tracker_way.old }
{
    if !bind {
        tracker_way.close();
    }
}

// The spawner of connections with these channels.
fn spawner_of<P: PublicKey>(cfg: &Fitting<Config<P>>, channels: Channels<P>) -> spawner::Actor<P>
    ensures spawner { result ≡ new_spawner (connections_of cfg.now result.cfg.channels) }
    ensures channels { AreInOrder channels.quotas result.cfg.channels }
{
    let cfg = cfg.cfg();
    spawner::Actor::new(spawner::Config {
        channels: List::new(channels.collect()),
        mailbox_size: cfg.mailbox_size,
        send_batch_size: cfg.send_batch_size,
        ping_frequency: cfg.ping_frequency,
        max_message_size: cfg.max_message_size,
    })
}
