//! `Channels`, the channels of a node before it starts.
ghost use Rattle.std.specs.Prelude.{◌≡◌, ◌≤◌, ◌<◌, ◌+◌, ◌*◌, ◌^◌, ◌∷◌, ◌++◌, [], None, nat_lt, is_some, IfOk, IfErr, IfSome, OnOk, OnErr, length};
ghost use Rattle.std.specs.List.Sorted.{IsPermutation, IsSortedByKey};
ghost use Rattle.std.specs.Ordering.{nat_cmp};
ghost use Rattle.p2p_flow_connection.specs.Arriving.{mailbox_of, with_channel};
ghost use Rattle.p2p_flow_senders.specs.Limits.{fresh_limit, HasLimit};
ghost use Rattle.p2p_flow_senders.specs.Registering.{places_of, places_in, has_channel, within, refusal_of, register_refusal, IsRegisterCause};

use crate::channels::{Receiver, Sender, UnlimitedSender};
use crate::{RegisterError, Way};
use p2p_base::PublicKey;
use p2p_flow::{Carrier, Channel};
use p2p_flow_connection::Inbounds;
use p2p_runtime::Quota;
use std::alloc::{AllocError, Global};
use std::marker::{Model, PhantomData};

/// The channels that a node registers before it starts, each with the quota of its peers.
///
/// Ports `Channels` of commonware-p2p; the limiters stand in a `Way`, and the mailboxes in `Inbounds`.
#[derive(Drop)]
pub struct Channels<P> {
    max_size: u32,
    max_peers: usize,
    quotas: Vec<(Channel, Quota)>,
    places: usize,
    of: PhantomData<P>,
}

impl<P> Model for Channels<P> {
    ghost use Rattle.std.specs.Prelude.{◌≡◌, ◌≤◌};
    ghost use Rattle.p2p_flow_senders.specs.Registering.{Registered, places_in};

    ghost Value = { Registered };

    ghost view = { λ c. record { max_size = c.max_size; max_peers = c.max_peers; quotas = c.quotas.items } };

    ghost invariant = { λ c. (1 ≤ c.max_peers) × (c.places ≡ places_in c.max_peers c.quotas.items) };
}

// What a registration makes: the places of the channel's mailbox, and of all mailboxes then.
#[derive(Drop)]
struct Sizes {
    places: usize,
    all: usize,
}

impl<P: PublicKey> Channels<P> {
    /// No channel is registered. Messages have at most `max_size` bytes, and there are at most `max_peers` peers.
    pub fn new(alloc: Global, max_size: u32, max_peers: usize) -> Channels<P>
        requires { 1 ≤ max_peers }
        ensures { result ≡ record { max_size = max_size; max_peers = max_peers; quotas = [] } }
    {
        Channels {
            max_size,
            max_peers,
            quotas: Vec::new(alloc),
            places: 0,
            of: PhantomData,
        }
    }

    /// Registers a channel, whose peers have this quota: makes its limiter in `way` and its mailbox in `inbounds`, which holds the
    /// burst of each peer.
    ///
    /// `DuplicateChannel` comes exactly where the channel is registered already, else `CapacityOverflow` exactly where the places of
    /// its mailbox, or of all mailboxes together, pass `usize`, and `Memory` of want of memory. Nothing has changed then.
    pub fn register<M: Carrier<P>>(
        &mut self,
        alloc: Global,
        way: &mut Way<P, M>,
        inbounds: &mut Inbounds<P>,
        channel: Channel,
        quota: Quota,
    ) -> Result<(Sender<P, M>, Receiver<P>), RegisterError>
        requires { mailbox_of inbounds.old channel ≡ None }
        ensures sender { IfOk result (λ r. r.0
            ≡ record { channel = channel; max_size = self.old.max_size; place = length way.old.limits }) }
        ensures serves { IfOk result (λ r. HasLimit M.subscriptions r.0 way.new) }
        ensures receiver { IfOk result (λ r. r.1
            ≡ record { channel = channel; capacity = places_of self.old.max_peers quota }) }
        ensures fits { OnOk result (register_refusal self.old channel quota ≡ None) }
        ensures refused { IfErr result (IsRegisterCause (register_refusal self.old channel quota)) }
        ensures after { OnOk result (self.new ≡ record self.old { quotas = self.old.quotas ++ (channel, quota) ∷ [] }) }
        ensures inbounds { OnOk result (inbounds.new
            ≡ with_channel inbounds.old channel (places_of self.old.max_peers quota)) }
        ensures messenger { OnOk result (way.new.messenger ≡ M.after_subscribe way.old.messenger) }
        ensures limits { OnOk result (way.new.limits ≡ way.old.limits
            ++ fresh_limit channel quota (M.subscriptions way.old.messenger) (M.known way.old.messenger) ∷ []) }
        ensures self_unchanged { OnErr result (self.new ≡ self.old) }
        ensures inbounds_unchanged { OnErr result (inbounds.new ≡ inbounds.old) }
        ensures way_unchanged { OnErr result (way.new ≡ way.old) }
    {
        let Sizes { places, all } = sizes_with(
            self.max_peers,
            &self.quotas,
            self.places,
            channel,
            quota,
        )?;
        self.quotas.reserve(1)?;
        let sender = make(alloc, way, inbounds, channel, self.max_size, places, quota)?;
        self.quotas.push_reserved((channel, quota));
        self.places = all;
        Ok((sender, Receiver::new(channel, places)))
    }

    /// The channels with their quotas, in order of their numbers.
    pub fn collect(self) -> Vec<(Channel, Quota)>
        ensures same { IsPermutation self.quotas result.items }
        ensures ordered { IsSortedByKey (λ q. q.0) nat_cmp result.items }
    {
        let Channels { quotas, .. } = self;
        let mut quotas = quotas;
        quotas.sort_unstable_by_key(|q| q.0);
        quotas
    }

    /// How many messages the router's mailbox holds: `base`, and the places of all channels. `None` exactly where that passes
    /// `usize`.
    pub fn outbound_mailbox_size(&self, base: usize) -> Option<usize>
        ensures { result ≡ within (base + places_in self.now.max_peers self.now.quotas) }
    {
        base.checked_add(self.places)
    }
}

// The places that the registration of a channel makes, or why it is refused.
fn sizes_with(
    bound: usize,
    quotas: &[(Channel, Quota)],
    all: usize,
    channel: Channel,
    quota: Quota,
) -> Result<Sizes, RegisterError>
    requires bound { 1 ≤ bound }
    requires all { all ≡ places_in bound quotas.now }
    ensures fits { OnOk result (refusal_of bound quotas.now channel quota ≡ None) }
    ensures places { IfOk result (λ s. s.places ≡ places_of bound quota) }
    ensures some { IfOk result (λ s. 1 ≤ s.places) }
    ensures all { IfOk result (λ s. s.all ≡ places_of bound quota + places_in bound quotas.now) }
    ensures refused { IfErr result (λ e. refusal_of bound quotas.now channel quota ≡ Some e) }
{
    if is_among(quotas, channel) {
        return Err(RegisterError::DuplicateChannel(channel));
    }
    let burst = quota.burst_size();
    match sizes_of(bound, burst, all) {
        Some(sizes) => Ok(sizes),
        None => Err(RegisterError::CapacityOverflow { bound, burst }),
    }
}

// Whether a channel is among these.
fn is_among(quotas: &[(Channel, Quota)], channel: Channel) -> bool
    ensures { result ≡ has_channel quotas.now channel }
{
    quotas.iter().any(|q| q.0 == channel)
}

// The places of a channel with this bound and burst, and of all channels with it, where they are within `usize`.
fn sizes_of(bound: usize, burst: u32, all: usize) -> Option<Sizes>
    requires bound { 1 ≤ bound }
    requires burst { 0 < burst }
    ensures fits { is_some result ≡ nat_lt (bound * burst + all) (2 ^ 64) }
    ensures places { IfSome result (λ s. s.places ≡ bound * burst) }
    ensures some { IfSome result (λ s. 1 ≤ s.places) }
    ensures all { IfSome result (λ s. s.all ≡ bound * burst + all) }
{
    let places = bound.checked_mul(burst as usize)?;
    let all = places.checked_add(all)?;
    Some(Sizes { places, all })
}

// Makes the mailbox of a channel, and its limiter; neither where there is no memory for both.
fn make<P: PublicKey, M: Carrier<P>>(
    alloc: Global,
    way: &mut Way<P, M>,
    inbounds: &mut Inbounds<P>,
    channel: Channel,
    max_size: u32,
    places: usize,
    quota: Quota,
) -> Result<Sender<P, M>, AllocError>
    requires places { 1 ≤ places }
    requires new { mailbox_of inbounds.old channel ≡ None }
    ensures sender { IfOk result (λ s. s ≡ record {
      channel = channel;
      max_size = max_size;
      place = length way.old.limits;
    }) }
    ensures serves { IfOk result (λ s. HasLimit M.subscriptions s way.new) }
    ensures inbounds { OnOk result (inbounds.new ≡ with_channel inbounds.old channel places) }
    ensures messenger { OnOk result (way.new.messenger ≡ M.after_subscribe way.old.messenger) }
    ensures limits { OnOk result (way.new.limits ≡ way.old.limits
        ++ fresh_limit channel quota (M.subscriptions way.old.messenger) (M.known way.old.messenger) ∷ []) }
    ensures inbounds_unchanged { OnErr result (inbounds.new ≡ inbounds.old) }
    ensures way_unchanged { OnErr result (way.new ≡ way.old) }
{
    inbounds.register(alloc, channel, places)?;
    let sender = UnlimitedSender::new(channel, max_size);
    match Sender::new(alloc, way, sender, quota) {
        Ok(sender) => Ok(sender),
        Err(failed) => {
            inbounds.deregister(channel);
            Err(failed)
        }
    }
}
