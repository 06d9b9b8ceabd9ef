//! `Channels`, the channels of a node and what waits in them.
ghost use Rattle.std.specs.Prelude.{◌≡◌, ◌+◌, ◌≤◌, ◌<◌, ◌^◌, ◌++◌, ◌∷◌, [], false, max, length, slice_get, Option, Some, None, IfOk, OnOk, if◌then◌else◌};
ghost use Rattle.std.specs.BTreeMap.{insert_entry};
ghost use Rattle.std.specs.Ordering.{nat_cmp};
ghost use Rattle.p2p_net_queues.specs.Tables.{at, AreBut, waiting};
ghost use Rattle.p2p_net_channels.specs.Arrivals.{delivered};
ghost use Rattle.p2p_net_channels.specs.Channels.{no_channels, registered_with, may_admit, metered, refusal_told, refusal, enqueued_in, delivered_to, told_row, none_told, read_told, read_from, closed_row, closed_with};
ghost use Rattle.p2p_flow_connection.specs.Arriving.{arrival_waiting};
ghost use Rattle.p2p_net_channels.specs.Senders.{may_send, key_retry, key_metered, keys_passed, retry_told, keys_metered};

use crate::arrival::Arrived;
use crate::offer::Offer;
use bytes::Bytes;
use p2p_base::{Key, List, NoRoom, Sent};
use p2p_flow::Message;
use p2p_flow_connection::Inbounds;
use p2p_log::{Cause, End, Envelope, Item, Outcome, Queue, Reply};
use p2p_log_rules::{Checked, Row};
use p2p_net_queues::{Deque, Table, Turn, drop_items, only, taking};
use p2p_runtime::{KeyedRateLimiter, Quota};
use std::alloc::{AllocError, Global};

/// The registered channels of a node: the mailboxes in which messages wait for their readers, by what names these stand there, what
/// each channel admits of each connection and to each key, and what the node's checks admitted.
pub struct Channels {
    /// The mailboxes.
    pub inbounds: Inbounds<Key>,
    /// How many messages they hold at most, all together.
    pub total: usize,
    /// The messages of each mailbox as the items that the log has of them, the oldest first.
    pub waiting: Table<Deque<Envelope>>,
    /// The quota of each channel, on each connection, by the names of connections.
    pub quotas: Table<KeyedRateLimiter<u64>>,
    /// The quota of what the node sends on each channel, by the keys of those it sends to.
    pub senders: Table<KeyedRateLimiter<Key>>,
    /// What each check admitted that waits for its message, under the number of the check's event.
    pub checks: Table<Checked>,
}

impl Drop for Channels {
    fn drop(self) {
        let Channels {
            inbounds: _inbounds,
            total: _total,
            waiting: _waiting,
            quotas: _quotas,
            senders: _senders,
            checks: _checks,
        } = self;
    }
}

/// Why a mailbox did not take a message, where it did not.
fn refusal_told(answer: Sent<Message<Key>>) -> Option<Cause>
    ensures { result ≡ refusal_told answer }
{
    match answer {
        Sent::Ok | Sent::Backoff => None,
        Sent::Rejected(_) => Some(Cause::MailboxFull),
        Sent::Closed(_) => Some(Cause::ReceiverClosed),
    }
}

/// What a reader is told where no message waits, by whether its node has stopped.
fn none_told(stopped: bool) -> Reply
    ensures { result ≡ none_told stopped }
{
    if stopped {
        Reply::NetworkClosed
    } else {
        Reply::Pending
    }
}

/// The row of a reader that took this message out of its mailbox, where it stood as this item.
fn told_row(alloc: Global, message: Message<Key>, named: Envelope) -> Result<Row, AllocError>
    ensures { IfOk result (λ r. r ≡ told_row message named) }
{
    let name = (named.entry, named.place);
    match named.item {
        Item::Message { copy, .. } => {
            let mut row = taking(alloc, name)?;
            row.ends
                .push(End::Copy(copy.0, copy.1, Outcome::Delivered))?;
            let (from, bytes) = message;
            row.reply = Reply::Message { bytes, from };
            Ok(row)
        }
        _other => Ok(only(alloc, Reply::Pending)),
    }
}

impl Channels {
    /// No channels.
    pub fn new(alloc: Global) -> Channels
        ensures { result ≡ no_channels }
    {
        Channels {
            inbounds: Inbounds::new(alloc),
            total: 0,
            waiting: Table::new(alloc),
            quotas: Table::new(alloc),
            senders: Table::new(alloc),
            checks: Table::new(alloc),
        }
    }

    /// Registers a channel of this capacity, which admits so much of each connection and to each key.
    ///
    /// `Err` only where there is no memory. The channel may then be registered and not counted, and its node goes no further.
    pub fn register(
        &mut self,
        alloc: Global,
        channel: u64,
        capacity: usize,
        quota: Quota,
    ) -> Result<(), AllocError>
        requires room { self.old.total + capacity < 2 ^ 64 }
        requires places { 1 ≤ capacity }
        ensures { OnOk result (self.new ≡ registered_with self.old channel capacity quota) }
    {
        self.inbounds.register(alloc, channel, capacity)?;
        self.total += capacity;
        self.quotas
            .insert(channel, KeyedRateLimiter::new(alloc, quota))?;
        self.senders
            .insert(channel, KeyedRateLimiter::new(alloc, quota))?;
        Ok(())
    }

    /// Whether the quota of a channel admits one more message of a connection at the moment `now`, in nanoseconds: it does not
    /// where the channel is not registered. A message that is admitted counts from then on.
    ///
    /// `Err` only where there is no memory. Its node goes no further then.
    pub fn admit(&mut self, channel: u64, conn: u64, now: u64) -> Result<bool, AllocError>
        ensures admits { IfOk result (λ b. b ≡ may_admit self.old channel conn now) }
        ensures after { OnOk result (self.new ≡ metered channel conn now self.old) }
    {
        let admits = self.quotas.check_at(channel, conn, now)?;
        Ok(admits.is_ok())
    }

    /// Asks the quota of a channel for a message of the node to a key at the moment `now`, in nanoseconds, and notes the answer.
    /// A message that is admitted counts then.
    fn offer_key(
        &mut self,
        offer: &mut Offer,
        channel: u64,
        key: Key,
        now: u64,
    ) -> Result<(), AllocError>
        ensures admits { OnOk result (offer.new.admitted ≡ offer.old.admitted ++ (if may_send self.old channel key now then key ∷ [] else [])) }
        ensures retry { OnOk result (offer.new.retry ≡ max offer.old.retry (key_retry self.old channel key now)) }
        ensures after { OnOk result (self.new ≡ key_metered channel key now self.old) }
    {
        let answer = self.senders.check_at(channel, key, now)?;
        offer.note(key, answer)?;
        Ok(())
    }

    /// Asks the quota of a channel for a message of the node to each of these keys at the moment `now`, in nanoseconds, in order.
    /// Each that is admitted counts at once, before the next. None is admitted where the channel is not registered.
    ///
    /// `Err` only where there is no memory. Its node goes no further then.
    pub fn offer(
        &mut self,
        alloc: Global,
        channel: u64,
        keys: List<Key>,
        now: u64,
    ) -> Result<Offer, AllocError>
        ensures admits { IfOk result (λ o. o.admitted ≡ keys_passed self.old channel keys now) }
        ensures retry { IfOk result (λ o. o.retry ≡ retry_told self.old channel keys now) }
        ensures after { OnOk result (self.new ≡ keys_metered channel keys now self.old) }
    {
        let mut offer = Offer::new(alloc);
        for key in keys.into_inner() {
            self.offer_key(&mut offer, channel, key, now)?;
        }
        Ok(offer)
    }

    /// Keeps what the check of this event admitted for one message.
    ///
    /// `Err` only where there is no memory. Its node goes no further then.
    pub fn keep_check(&mut self, check: u64, checked: Checked) -> Result<(), AllocError>
        ensures { OnOk result (self.new ≡ record self.old { checks = insert_entry nat_cmp self.old.checks check checked }) }
    {
        self.checks.insert(check, checked)?;
        Ok(())
    }

    /// Takes what the check of this event admitted, where no message was asked for by it yet. What the other checks admitted stays.
    pub fn spend(&mut self, check: u64) -> Option<Checked>
        ensures admitted { result ≡ at self.old.checks check }
        ensures checks { AreBut check None self.old.checks self.new.checks }
        ensures rest { self.new ≡ record self.old { checks = self.new.checks } }
    {
        self.checks.remove(check)
    }

    /// Puts a message in the mailbox of its channel. Answers why that did not take it, where it did not.
    fn enqueue(
        &mut self,
        channel: u64,
        from: Key,
        bytes: Bytes,
    ) -> Result<Option<Cause>, AllocError>
        ensures refusal { IfOk result (λ why. why ≡ refusal self.old channel) }
        ensures after { OnOk result (self.new ≡ enqueued_in channel from bytes self.old) }
    {
        match self.inbounds.put(channel, (from, bytes)) {
            Ok(answer) => Ok(refusal_told(answer)),
            Err(NoRoom(_)) => Err(AllocError),
        }
    }

    /// Puts a message that arrived last in the mailbox of its channel, or ends its copy where that does not take it.
    ///
    /// `Err` only where there is no memory. The message may then stand in its mailbox and not in the row, and its node goes no
    /// further.
    pub fn deliver(
        &mut self,
        turn: Turn,
        row: &mut Row,
        from: Key,
        arrived: Arrived,
    ) -> Result<(), AllocError>
        ensures row { OnOk result (row.new ≡ delivered (refusal self.old arrived.channel) turn.node from arrived row.old) }
        ensures after { OnOk result (self.new ≡ delivered_to turn.entry (length row.old.puts) turn.node from arrived self.old) }
    {
        let Arrived {
            copy,
            channel,
            bytes,
        } = arrived;
        match self.enqueue(channel, from, bytes.clone()?)? {
            Some(why) => {
                row.ends
                    .push(End::Copy(copy.0, copy.1, Outcome::Dropped(why)))?;
            }
            None => {
                let queue = Queue::Channel {
                    node: turn.node,
                    channel,
                };
                let item = Item::Message { bytes, copy, from };
                self.waiting.put(turn, row, channel, queue, item)?;
            }
        }
        Ok(())
    }

    /// Takes the oldest message out of the mailbox of a channel for its reader. Where none waits there, none comes any more once the
    /// node has stopped.
    ///
    /// `Err` only where there is no memory. The message may then be taken and told to nobody, and its node goes no further.
    pub fn read(&mut self, alloc: Global, channel: u64) -> Result<Row, AllocError>
        ensures row { IfOk result (λ r. r ≡ read_told (none_told self.old.inbounds.ended) (arrival_waiting self.old.inbounds channel) (slice_get (waiting self.old.waiting channel) 0)) }
        ensures after { OnOk result (self.new ≡ read_from channel self.old) }
    {
        let none = none_told(self.inbounds.has_ended());
        let Some(message) = self.inbounds.take(channel) else {
            return Ok(only(alloc, none));
        };
        match self.waiting.pop_at(channel) {
            Some(named) => Ok(told_row(alloc, message, named)?),
            None => Ok(only(alloc, none)),
        }
    }

    /// Drops the reader of a channel: the messages that wait there end untaken, the oldest first, each with its copy.
    ///
    /// `Err` only where there is no memory. The messages may then be gone and told of to nobody, and its node goes no further.
    pub fn close(&mut self, alloc: Global, channel: u64) -> Result<Row, AllocError>
        ensures row { IfOk result (λ r. r ≡ closed_row (waiting self.old.waiting channel)) }
        ensures after { OnOk result (self.new ≡ closed_with channel self.old) }
    {
        self.inbounds.close(channel);
        let left = self.waiting.take_all_at(alloc, channel);
        let mut row = only(alloc, Reply::Ok);
        drop_items(&mut row, left, Cause::ReceiverClosed)?;
        Ok(row)
    }
}
