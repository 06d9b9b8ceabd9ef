//! `Inbounds`, the mailboxes of a node's channels.
ghost use Rattle.std.specs.Prelude.{◌≡◌, ◌≤◌, true, IfOk, IfErr, OnOk, OnErr};
ghost use Rattle.std.specs.Option.{is_some};
ghost use Rattle.std.specs.BTreeMap.{insert_entry, is_at};
ghost use Rattle.std.specs.Map.{remove_entry};
ghost use Rattle.std.specs.Ordering.{nat_cmp};
ghost use Rattle.p2p_base.specs.Queue.{empty_queue, enqueued, without_oldest, closed_queue};
ghost use Rattle.p2p_base.specs.declared.policy.Keep.TheVariants as keep;
ghost use Rattle.p2p_flow_connection.specs.Arriving.{nothing_arrived, mailbox_in, mailbox_of, is_open_in, is_open, without_channel, changed_at, answered_by, oldest_of, with_channel, arrival_answer, with_arrival, arrival_waiting, without_arrival, without_receiver};

use p2p_base::{Mailbox, NoRoom, Sent};
use p2p_flow::{Channel, Message, Refusing, refusing};
use std::alloc::{AllocError, Global};
use std::collections::BTreeMap;
use std::marker::Model;

type Mailboxes<P> = BTreeMap<Channel, Mailbox<Refusing<Message<P>>>>;

/// The messages that arrived for the channels of a node: one mailbox for each channel that is registered, which refuses a message
/// when it is full.
///
/// In commonware-p2p each channel's receiver owns the mailbox; here receivers and connections are lent this value.
#[derive(Drop)]
pub struct Inbounds<P> {
    mailboxes: Mailboxes<P>,
    ended: bool,
}

impl<P> Model for Inbounds<P> {
    ghost use Rattle.p2p_flow_connection.specs.Arriving.{Arrived};

    ghost Value = { Arrived P };

    ghost view = { λ i. record { mailboxes = i.mailboxes.entries; ended = i.ended } };
}

impl<P: Drop> Inbounds<P> {
    /// No channel is registered, and the node hasn't ended.
    pub fn new(alloc: Global) -> Inbounds<P>
        ensures { result ≡ nothing_arrived }
    {
        Inbounds {
            mailboxes: BTreeMap::new(alloc),
            ended: false,
        }
    }

    /// Registers a channel, whose mailbox has `places` ready places. A channel that is registered already gets a new mailbox.
    ///
    /// `Err` only where memory runs out; nothing has changed then.
    pub fn register(
        &mut self,
        alloc: Global,
        channel: Channel,
        places: usize,
    ) -> Result<(), AllocError>
        requires { 1 ≤ places }
        ensures after { OnOk result (self.new ≡ with_channel self.old channel places) }
        ensures memory { OnErr result (self.new ≡ self.old) }
    {
        register_in(alloc, &mut self.mailboxes, channel, places)?;
        Ok(())
    }

    /// Takes back the registration of a channel, with what waits there.
    pub fn deregister(&mut self, channel: Channel)
        ensures { self.new ≡ without_channel self.old channel }
    {
        deregister_in(&mut self.mailboxes, channel);
    }

    /// Whether a channel is registered.
    pub fn is_registered(&self, channel: Channel) -> bool
        ensures { result ≡ is_some (mailbox_of self.now channel) }
    {
        is_registered_in(&self.mailboxes, channel)
    }

    /// Whether a channel takes messages: it is registered, and its mailbox wasn't closed.
    pub fn is_open(&self, channel: Channel) -> bool
        ensures { result ≡ is_open self.now channel }
    {
        is_open_in(&self.mailboxes, channel)
    }

    /// Closes the mailbox of a channel, and drops what waits there. A channel that isn't registered stays so.
    pub fn close(&mut self, channel: Channel)
        ensures { self.new ≡ without_receiver self.old channel }
    {
        close_in(&mut self.mailboxes, channel);
    }

    /// Tells that the node ended. What waits can still be taken.
    pub fn end(&mut self)
        ensures { self.new ≡ record self.old { ended = true } }
    {
        self.ended = true;
    }

    /// Whether the node ended.
    pub fn has_ended(&self) -> bool
        ensures { result ≡ self.now.ended }
    {
        self.ended
    }

    /// Removes the oldest message of a channel. `None` exactly where none waits there.
    pub fn take(&mut self, channel: Channel) -> Option<Message<P>>
        ensures value { result ≡ arrival_waiting self.old channel }
        ensures after { self.new ≡ without_arrival self.old channel }
    {
        take_from(&mut self.mailboxes, channel)
    }

    /// Puts a message last in the mailbox of its channel. A closed mailbox hands it back, as does a channel that isn't registered,
    /// and a full one refuses it.
    ///
    /// `NoRoom` hands the message back where there is no memory for it; nothing has changed then.
    pub fn put(
        &mut self,
        channel: Channel,
        message: Message<P>,
    ) -> Result<Sent<Message<P>>, NoRoom<Message<P>>>
        ensures answer { IfOk result (λ s. s ≡ arrival_answer self.old channel message) }
        ensures after { OnOk result (self.new ≡ with_arrival self.old channel message) }
        ensures no_room { IfErr result (λ e. (e.0 ≡ message) × (self.new ≡ self.old)) }
    {
        put_into(&mut self.mailboxes, channel, message)
    }
}

// Makes the mailbox of a channel.
fn register_in<P: Drop>(
    alloc: Global,
    mailboxes: &mut Mailboxes<P>,
    channel: Channel,
    places: usize,
) -> Result<(), AllocError>
    requires { 1 ≤ places }
    ensures after { OnOk result (mailboxes.new.entries ≡ insert_entry nat_cmp mailboxes.old.entries channel (empty_queue places)) }
    ensures memory { OnErr result (mailboxes.new.entries ≡ mailboxes.old.entries) }
{
    let mailbox = Mailbox::new(alloc, places)?;
    mailboxes.insert(channel, mailbox)?;
    Ok(())
}

// Drops the mailbox of a channel, where there is one.
fn deregister_in<P: Drop>(mailboxes: &mut Mailboxes<P>, channel: Channel)
    ensures { mailboxes.new.entries ≡ remove_entry (is_at (nat_cmp channel)) mailboxes.old.entries }
{
    let _ = mailboxes.remove(&channel);
}

// Whether a channel has a mailbox.
fn is_registered_in<P>(mailboxes: &Mailboxes<P>, channel: Channel) -> bool
    ensures { result ≡ is_some (mailbox_in mailboxes.now.entries channel) }
{
    mailboxes.contains_key(&channel)
}

// Whether a channel has a mailbox that wasn't closed.
fn is_open_in<P>(mailboxes: &Mailboxes<P>, channel: Channel) -> bool
    ensures { result ≡ is_open_in (mailbox_in mailboxes.now.entries channel) }
{
    match mailboxes.get(&channel) {
        Some(mailbox) => !mailbox.is_closed(),
        None => false,
    }
}

// Closes the mailbox of a channel, where there is one.
fn close_in<P: Drop>(mailboxes: &mut Mailboxes<P>, channel: Channel)
    ensures { mailboxes.new.entries ≡ changed_at closed_queue mailboxes.old.entries channel }
{
    match mailboxes.get_mut(&channel) {
        Some(mailbox) => mailbox.close(),
        None => {}
    }
}

// Removes the oldest message of a channel.
fn take_from<P>(mailboxes: &mut Mailboxes<P>, channel: Channel) -> Option<Message<P>>
    ensures value { result ≡ oldest_of (mailbox_in mailboxes.old.entries channel) }
    ensures after { mailboxes.new.entries ≡ changed_at without_oldest mailboxes.old.entries channel }
{
    match mailboxes.get_mut(&channel) {
        Some(mailbox) => refusing::take(mailbox),
        None => None,
    }
}

// Puts a message last in the mailbox of its channel, where there is one.
fn put_into<P: Drop>(
    mailboxes: &mut Mailboxes<P>,
    channel: Channel,
    message: Message<P>,
) -> Result<Sent<Message<P>>, NoRoom<Message<P>>>
    ensures answer { IfOk result (λ s. s ≡ answered_by (mailbox_in mailboxes.old.entries channel) message) }
    ensures after { OnOk result (mailboxes.new.entries ≡ changed_at (λ q. enqueued keep.Refuse q message) mailboxes.old.entries channel) }
    ensures no_room { IfErr result (λ e. (e.0 ≡ message) × (mailboxes.new.entries ≡ mailboxes.old.entries)) }
{
    match mailboxes.get_mut(&channel) {
        Some(mailbox) => refusing::put(mailbox, message),
        None => Ok(Sent::Closed(message)),
    }
}
