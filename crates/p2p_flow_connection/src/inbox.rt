//! `Inbox`, which delivers what comes over one connection as the quotas of its channels admit it.
ghost use Rattle.std.specs.Prelude.{◌≡◌, ℕ, List, [], ◌∷◌, None, IfOk, OnOk, OnErr, IfSome, IsSome};
ghost use Rattle.std.specs.Option.{is_some, option_copied};
ghost use Rattle.p2p_flow_connection.specs.Delivering.{limiter_in, verdict_of, limiter_after, checked_in, StandsAt, IsByLaw, delivered_as, arrival_of, limiter_of, deliver_answer, after_deliver, arrived_after};
ghost use Rattle.p2p_flow_connection.specs.Arriving.{arrival_answer, with_arrival};
ghost use Rattle.p2p_flow_connection.specs.Limiting.{fresh_of, quota_of, or_else};

use crate::{Delivered, Inbounds};
use p2p_base::Sent;
use p2p_flow::Channel;
use p2p_runtime::{Quota, RateLimiter};
use p2p_wire::Data;
use std::alloc::{AllocError, Global};
use std::collections::BTreeMap;
use std::marker::Model;

/// Delivers the messages that come over one connection to the mailboxes of their channels, as the quota of each channel admits them.
///
/// A message that its quota refuses is held, and while one is held no later message is delivered: `deliver` has that condition.
///
/// Ports `Inbox` of commonware-p2p, which waits for the quota; here the message is held, and `retry` tries it again.
#[derive(Drop)]
pub struct Inbox<P> {
    channels: Vec<(Channel, Quota)>,
    limiters: BTreeMap<Channel, RateLimiter>,
    held: Option<(P, Data)>,
}

impl<P> Model for Inbox<P> {
    ghost use Rattle.p2p_flow_connection.specs.Intake.{Intake};

    ghost Value = { Intake P };

    ghost view = { λ i. record { channels = i.channels.items; limiters = i.limiters.entries; held = i.held } };
}

impl<P: Drop> Inbox<P> {
    /// An inbox for the channels that have these quotas, which has admitted nothing and holds nothing. Of two quotas of one channel
    /// the first counts.
    pub fn new(alloc: Global, quotas: Vec<(Channel, Quota)>) -> Result<Inbox<P>, AllocError>
        ensures channels { IfOk result (λ i. i.channels ≡ quotas.items) }
        ensures limiters { IfOk result (λ i. (channel : ℕ) → limiter_of i channel ≡ fresh_of (quota_of quotas.items channel)) }
        ensures held { IfOk result (λ i. i.held ≡ None) }
    {
        let limiters = limiters_of(alloc, &quotas)?;
        Ok(Inbox {
            channels: quotas,
            limiters,
            held: None,
        })
    }

    /// The channels with their quotas, as they were given.
    pub fn channels(&self) -> &[(Channel, Quota)]
        ensures { result.now ≡ self.now.channels }
    {
        self.channels.as_slice()
    }

    /// Whether a message is held.
    pub fn is_holding(&self) -> bool
        ensures { result ≡ is_some self.now.held }
    {
        self.held.is_some()
    }

    /// The message that is held, with its sender.
    pub fn held(&self) -> Option<&(P, Data)>
        ensures { option_copied result ≡ self.now.held }
    {
        self.held.as_ref()
    }

    /// Delivers a message of `from` at the moment `now`, in nanoseconds, if its channel's quota admits it; otherwise it is held. A
    /// channel without a quota is answered `InvalidChannel`, and the message dropped. A mailbox that is full or closed, or isn't
    /// there, hands the message back; the cell of its quota stays taken.
    ///
    /// `Err` only where memory runs out: the mailboxes are as before then, and the inbox is given up with its connection.
    pub fn deliver(
        &mut self,
        inbounds: &mut Inbounds<P>,
        from: P,
        message: Data,
        now: u64,
    ) -> Result<Delivered<P>, AllocError>
        requires { self.old.held ≡ None }
        ensures answer { IfOk result (λ d. d ≡ deliver_answer self.old inbounds.old from message now) }
        ensures after { OnOk result (self.new ≡ after_deliver self.old from message now) }
        ensures inbounds { OnOk result (inbounds.new ≡ arrived_after self.old inbounds.old from message now) }
        ensures law { (past : List ℕ) (latest : ℕ) → StandsAt (limiter_of self.old message.channel) past latest →
            IsByLaw (limiter_of self.old message.channel) (limiter_of self.new message.channel) past latest now }
        ensures memory { OnErr result (inbounds.new ≡ inbounds.old) }
    {
        match admit(&mut self.limiters, message.channel, now) {
            None => Ok(Delivered::InvalidChannel),
            Some(false) => {
                self.held = Some((from, message));
                Ok(Delivered::Held)
            }
            Some(true) => put(inbounds, from, message),
        }
    }

    /// Delivers the message that is held, as `deliver` does: it stays held where its quota still refuses it.
    pub fn retry(
        &mut self,
        inbounds: &mut Inbounds<P>,
        now: u64,
    ) -> Result<Delivered<P>, AllocError>
        requires { IsSome self.old.held }
        ensures answer { IfOk result (λ d. IfSome self.old.held (λ h. d ≡ deliver_answer self.old inbounds.old h.0 h.1 now)) }
        ensures after { OnOk result (IfSome self.old.held (λ h. self.new ≡ after_deliver self.old h.0 h.1 now)) }
        ensures inbounds { OnOk result (IfSome self.old.held (λ h. inbounds.new ≡ arrived_after self.old inbounds.old h.0 h.1 now)) }
        ensures law { IfSome self.old.held (λ h. (past : List ℕ) (latest : ℕ) → StandsAt (limiter_of self.old h.1.channel) past latest →
            IsByLaw (limiter_of self.old h.1.channel) (limiter_of self.new h.1.channel) past latest now) }
        ensures memory { OnErr result (inbounds.new ≡ inbounds.old) }
    {
        match self.held.take() {
            Some((from, message)) => self.deliver(inbounds, from, message, now),
            None => Ok(Delivered::Held),
        }
    }
}

// A limiter for each channel.
fn limiters_of(
    alloc: Global,
    quotas: &[(Channel, Quota)],
) -> Result<BTreeMap<Channel, RateLimiter>, AllocError>
    ensures { IfOk result (λ m. (channel : ℕ) → limiter_in m.entries channel ≡ fresh_of (quota_of quotas.now channel)) }
{
    let mut limiters = BTreeMap::new(alloc);
    for (channel, quota) in quotas {
        add_limiter(&mut limiters, *channel, *quota)?;
    }
    Ok(limiters)
}

// Makes the limiter of a channel, unless there is one.
fn add_limiter(
    limiters: &mut BTreeMap<Channel, RateLimiter>,
    channel: Channel,
    quota: Quota,
) -> Result<(), AllocError>
    ensures { OnOk result ((q : ℕ) → limiter_in limiters.new.entries q ≡ or_else (limiter_in limiters.old.entries q) (fresh_of (quota_of ((channel, quota) ∷ []) q))) }
{
    if limiters.contains_key(&channel) {
        return Ok(());
    }
    limiters.insert(channel, RateLimiter::new(quota))?;
    Ok(())
}

// Asks the quota of a channel, if there is one, whether it admits a message.
fn admit(limiters: &mut BTreeMap<Channel, RateLimiter>, channel: Channel, now: u64) -> Option<bool>
    ensures verdict { result ≡ verdict_of (limiter_in limiters.old.entries channel) now }
    ensures after { limiters.new.entries ≡ checked_in limiters.old.entries channel now }
    ensures law { (past : List ℕ) (latest : ℕ) → StandsAt (limiter_in limiters.old.entries channel) past latest →
        IsByLaw (limiter_in limiters.old.entries channel) (limiter_in limiters.new.entries channel) past latest now }
{
    match limiters.get_mut(&channel) {
        Some(limiter) => Some(limiter.check(now).is_ok()),
        None => None,
    }
}

// Puts a message into its channel's mailbox.
fn put<P: Drop>(
    inbounds: &mut Inbounds<P>,
    from: P,
    message: Data,
) -> Result<Delivered<P>, AllocError>
    ensures answer { IfOk result (λ d. d ≡ delivered_as (arrival_answer inbounds.old message.channel (arrival_of from message))) }
    ensures after { OnOk result (inbounds.new ≡ with_arrival inbounds.old message.channel (arrival_of from message)) }
    ensures memory { OnErr result (inbounds.new ≡ inbounds.old) }
{
    let Data { channel, message } = message;
    match inbounds.put(channel, (from, message)) {
        Ok(Sent::Ok) => Ok(Delivered::Kept),
        Ok(Sent::Backoff) => Ok(Delivered::Kept),
        Ok(Sent::Rejected(message)) => Ok(Delivered::MailboxFull(message)),
        Ok(Sent::Closed(message)) => Ok(Delivered::Closed(message)),
        Err(_) => Err(AllocError),
    }
}
