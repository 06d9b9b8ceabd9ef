//! What is asked of a router beside its steps.
ghost use Rattle.std.specs.Prelude.{◌≡◌, ◌≤◌, ◌<◌, ◌^◌, ℕ, Bool, false, ◌++◌, ◌∷◌, [], length, nat_le, slice_get, filter, map, IfOk, OnOk, IsTrue, Some, if◌then◌else◌};
ghost use Rattle.std.specs.Ordering.{nat_cmp, is_eq};
ghost use Rattle.std.specs.BTreeMap.{get};
ghost use Rattle.p2p_log_rules.specs.Frames.{frame_of};
ghost use Rattle.p2p_log_rules.specs.Connections.{is_ended};
ghost use Rattle.p2p_log_rules.specs.Facts.{is_up, is_stopped};
ghost use Rattle.p2p_log.specs.Lines.{stands_in, stays};
ghost use Rattle.p2p_log_rules.specs.Effect.{only as only_reply, entry_of, mailbox_size_at, copies_end, relay_queue, router_capacity, sent_row, start_row};
ghost use Rattle.p2p_log.specs.Apart.{AreApart};
ghost use Rattle.p2p_base.specs.Queue.{empty_queue};
ghost use Rattle.p2p_flow.specs.declared.plain.Recipients.TheVariants as recipients;
ghost use Rattle.p2p_router.specs.Mailbox.{appended, with_content};
ghost use Rattle.p2p_router.specs.Messenger.{is_unbound, is_bound, bound_to, in_mailbox, content_answered, content_taken};
ghost use Rattle.p2p_router.specs.declared.message.Message.TheVariants as message;
ghost use Rattle.p2p_router.specs.Routing.{link_of};
ghost use Rattle.p2p_net_router.specs.Items.{key_cmp};
ghost use Rattle.p2p_net_router.specs.Frames.{refuses, frame_taken_in, frame_waiting, without_frame};
ghost use Rattle.p2p_net_router.specs.Building.{NamesBuild, subscription};
ghost use Rattle.p2p_net_router.specs.Ends.{AreEnded};
ghost use Rattle.p2p_net_router.specs.Holds.{Holds, IsStranger, after, frame_taken, frame_gone, routes_in};
ghost use Rattle.p2p_net_router.specs.Stands.{StandsOver, StandsFor, HasPlaces, IsBeside, IsReadied};
ghost use Rattle.p2p_net_router.specs.Telling.{accepted_reply, refused_reply};

use crate::copies::lane;
use crate::names::note;
use crate::{Name, Router, Telling};
use bytes::Bytes;
use p2p_base::{Key, List, Unreliable};
use p2p_flow::{Recipients, Relay};
use p2p_log::{Act, Cause, Item, Outcome, Queue, Reply};
use p2p_log_rules::Row;
use p2p_net_queues::{Board, Turn, end_copies, only};
use p2p_router::{Actor, Mailbox, Messenger};
use p2p_wire::EncodedData;
use std::alloc::{AllocError, Global};

/// The row puts a subscription for each of these channels.
fn note_subscriptions(
    turn: Turn,
    names: &mut Board<Name>,
    row: &mut Row,
    channels: &[u64],
) -> Result<(), AllocError>
    ensures row { OnOk result (row.new ≡ record row.old { puts = row.old.puts ++ map (subscription turn.node) channels.now }) }
    ensures names { OnOk result ((n : _) (items : _) → NamesBuild n names.old items turn.entry row.old → NamesBuild n names.new items turn.entry row.new) }
{
    for channel in channels {
        let item = Item::Subscribe(*channel);
        note(turn, names, row, Queue::Router(turn.node), item)?;
    }
    Ok(())
}

/// The row of content that nobody takes: each copy ends.
fn lost(turn: Turn, telling: Telling, channel: u64, to: List<Key>) -> Result<Row, AllocError>
    ensures { IfOk result (λ r. r ≡ record { reply = accepted_reply telling turn.node channel to; takes = []; puts = []; ends = copies_end turn.entry 0 to (Outcome.Dropped Cause.Unbound) }) }
{
    let unbound = Outcome::Dropped(Cause::Unbound);
    let ends = end_copies(turn.alloc, turn.entry, to.as_slice(), unbound)?;
    Ok(Row {
        reply: telling.accepted(turn.node, channel, to),
        takes: List::empty(turn.alloc),
        puts: List::empty(turn.alloc),
        ends,
    })
}

/// Whether a message was refused.
fn is_rejected(told: &Unreliable) -> bool
    ensures { result ≡ refuses told.now }
{
    match told {
        Unreliable::Rejected => true,
        _ => false,
    }
}

/// Gives a messenger its mailbox, with so many places.
fn bind(alloc: Global, messenger: &mut Messenger<Key>, places: usize) -> Result<(), AllocError>
    requires places { 1 ≤ places }
    requires unbound { IsTrue (is_unbound messenger.old.binding) }
    ensures { OnOk result (messenger.new ≡ bound_to messenger.old (empty_queue places)) }
{
    let mailbox = Mailbox::new(alloc, places)?;
    match messenger.bind(mailbox) {
        Ok(()) => Ok(()),
        Err(_) => Err(AllocError),
    }
}

/// Tells the router's mailbox that a connection is ready.
fn tell_ready(
    messenger: &mut Messenger<Key>,
    key: Key,
    relay: Relay<EncodedData>,
    conn: u64,
) -> Result<(), AllocError>
    requires { IsTrue (is_bound messenger.old.binding) }
    ensures { OnOk result (messenger.new ≡ record messenger.old { binding = in_mailbox (λ q. appended q (message.Ready key relay conn)) messenger.old.binding }) }
{
    let Some(mailbox) = messenger.mailbox() else {
        unreachable!()
    };
    match mailbox.ready(key, relay, conn) {
        Ok(_) => Ok(()),
        Err(_) => Err(AllocError),
    }
}

/// Hands a frame to the mailbox of a bound messenger, and says what was told.
fn hand_frame(
    messenger: &mut Messenger<Key>,
    whom: Recipients<Key>,
    encoded: EncodedData,
    priority: bool,
) -> Result<Unreliable, AllocError>
    requires { IsTrue (is_bound messenger.old.binding) }
    ensures told { IfOk result (λ told. told ≡ content_answered messenger.old.binding) }
    ensures after { OnOk result (messenger.new ≡ record messenger.old { binding = in_mailbox (λ q. with_content q (message.Content whom encoded priority)) messenger.old.binding }) }
{
    let Some(mailbox) = messenger.mailbox() else {
        unreachable!()
    };
    mailbox.content(whom, encoded, priority)
}

/// Hands a message for these keys to a bound messenger. Gives its frame, and `None` where the mailbox refuses it.
fn hand(
    alloc: Global,
    messenger: &mut Messenger<Key>,
    channel: u64,
    priority: bool,
    bytes: &Bytes,
    to: &List<Key>,
) -> Result<Option<Bytes>, AllocError>
    requires length { length bytes.now < 2 ^ 32 }
    requires bound { IsTrue (is_bound messenger.old.binding) }
    ensures frame { IfOk result (λ frame. frame ≡ frame_taken_in (refuses (content_answered messenger.old.binding)) (frame_of channel bytes.now)) }
    ensures after { OnOk result (messenger.new ≡ content_taken messenger.old (recipients.Some to.now) channel bytes.now priority) }
{
    let encoded = EncodedData::new(alloc, channel, bytes.clone()?)?;
    let frame = encoded.payload.clone()?;
    let whom = Recipients::Some(to.try_clone(alloc)?);
    let told = hand_frame(messenger, whom, encoded, priority)?;
    if is_rejected(&told) {
        return Ok(None);
    }
    Ok(Some(frame))
}

/// The row of a message for these keys that the mailbox took in, with its frame.
fn note_sent(
    turn: Turn,
    names: &mut Board<Name>,
    telling: Telling,
    channel: u64,
    priority: bool,
    frame: Bytes,
    to: List<Key>,
) -> Result<Row, AllocError>
    ensures row { IfOk result (λ row. row ≡ record { reply = accepted_reply telling turn.node channel to; takes = []; puts = (Queue.Router turn.node, Item.Content channel frame priority turn.entry to) ∷ []; ends = [] }) }
    ensures names { IfOk result (λ row. (n : _) (items : _) → NamesBuild n names.old items turn.entry (only_reply (accepted_reply telling turn.node channel to)) → NamesBuild n names.new items turn.entry row) }
{
    let item = Item::Content {
        channel,
        frame,
        priority,
        send: turn.entry,
        to: to.try_clone(turn.alloc)?,
    };
    let reply = telling.accepted(turn.node, channel, to);
    let mut row = only(turn.alloc, reply);
    note(turn, names, &mut row, Queue::Router(turn.node), item)?;
    Ok(row)
}

/// Removes the oldest frame of a lane of a key's relay.
fn take_frame(actor: &mut Actor<Key>, key: Key, priority: bool) -> Option<EncodedData>
    ensures value { result ≡ frame_waiting (link_of key_cmp actor.old.links key) priority }
    ensures after { actor.new ≡ record actor.old { links = without_frame (link_of key_cmp actor.old.links key) actor.old.links key priority } }
{
    let Some(relay) = actor.relay_of(&key) else {
        return None;
    };
    if priority {
        relay.take_high()
    } else {
        relay.take_low()
    }
}

impl Router {
    /// Gives the messenger its mailbox with so many places, where the subscriptions that waited are put, in order.
    ///
    /// `Err` only where there is no memory. The router may then have done a part of it, and its node goes no further.
    pub fn start(&mut self, turn: Turn, places: usize) -> Result<Row, AllocError>
        requires places { 1 ≤ places }
        requires unbound { IsTrue (is_unbound self.old.messenger.binding) }
        ensures row { IfOk result (λ row. (configs : _) (log : _) → StandsFor configs log self.old → is_stopped log self.old.number ≡ false → row ≡ start_row configs log self.old.number) }
        ensures stands { IfOk result (λ row. (configs : _) (log : _) (event : _) → StandsFor configs log self.old → is_stopped log self.old.number ≡ false → length log ≡ turn.entry
            → event.act ≡ Act.Start self.old.number → places ≡ router_capacity configs log self.old.number
            → StandsFor configs (log ++ entry_of event row ∷ []) self.new) }
        ensures bound { OnOk result (IsTrue (is_bound self.new.messenger.binding)) }
        ensures rest { OnOk result (self.new ≡ record self.old { messenger = self.new.messenger; names = self.new.names }) }
    {
        let turn = Turn {
            node: self.number,
            ..turn
        };
        bind(turn.alloc, &mut self.messenger, places)?;
        let mut row = only(turn.alloc, Reply::Ok);
        note_subscriptions(turn, &mut self.names, &mut row, self.channels.as_slice())?;
        Ok(row)
    }

    /// Tells the router that the connection of this entry is ready, which is one of a key, with an empty relay of `size`
    /// places a lane. The put of that place names the message.
    ///
    /// `Err` only where there is no memory. The router may then have done a part of it, and its node goes no further.
    pub fn ready(
        &mut self,
        turn: Turn,
        place: u64,
        conn: u64,
        key: Key,
        size: usize,
    ) -> Result<(), AllocError>
        requires size { 1 ≤ size }
        requires bound { IsTrue (is_bound self.old.messenger.binding) }
        ensures holds { OnOk result ((items : _) → Holds size self.old items → IsStranger self.old conn key
            → Holds size self.new (items ++ record { entry = turn.entry; place = place; queue = Queue.Router self.old.number; item = Item.Ready conn key } ∷ [])) }
        ensures peers { OnOk result ((c : ℕ) → get nat_cmp self.new.peers c ≡ (if is_eq (nat_cmp conn c) then Some key else get nat_cmp self.old.peers c)) }
        ensures rest { OnOk result (self.new ≡ record self.old { messenger = self.new.messenger; peers = self.new.peers; names = self.new.names }) }
        ensures stands { OnOk result ((configs : _) (log : _) (e : _) → StandsFor configs log self.old → length log ≡ turn.entry → size ≡ mailbox_size_at configs self.old.number
            → is_ended log self.old.number conn ≡ false → IsStranger self.old conn key → IsBeside configs log e self.old.number → IsReadied e self.old.number place conn key
            → StandsFor configs (log ++ e ∷ []) self.new) }
        ensures bound { OnOk result (IsTrue (is_bound self.new.messenger.binding)) }
        ensures places { OnOk result ((places : _) → HasPlaces places self.old.messenger.binding → HasPlaces places self.new.messenger.binding) }
    {
        let relay = Relay::new(turn.alloc, size)?;
        tell_ready(&mut self.messenger, key, relay, conn)?;
        self.peers.insert(conn, key)?;
        let queue = Queue::Router(self.number);
        let name = Name {
            entry: turn.entry,
            place,
            tag: None,
        };
        self.names.push(turn.alloc, queue, name)?;
        Ok(())
    }

    /// Hands a message for these keys to the messenger.
    ///
    /// Without a mailbox all copies are lost; a full mailbox refuses the message. The reply tells which, or for whom it was
    /// accepted.
    ///
    /// `Err` only where there is no memory. The router may then have done a part of it, and its node goes no further.
    pub fn send(
        &mut self,
        turn: Turn,
        telling: Telling,
        channel: u64,
        priority: bool,
        bytes: &Bytes,
        to: List<Key>,
    ) -> Result<Row, AllocError>
        requires { length bytes.now < 2 ^ 32 }
        ensures row { IfOk result (λ row. (configs : _) (log : _) (items : _) → StandsOver configs log self.old items
            → row ≡ sent_row (accepted_reply telling self.old.number channel to) (refused_reply telling self.old.number channel to) (is_up log self.old.number)
            (nat_le (router_capacity configs log self.old.number) (length (filter (stands_in (Queue.Router self.old.number)) items)))
            self.old.number turn.entry channel priority (frame_of channel bytes.now) to) }
        ensures stands { IfOk result (λ row. (configs : _) (log : _) (items : _) → StandsOver configs log self.old items → length log ≡ turn.entry
            → StandsOver configs log self.new (after turn.entry row items)) }
        ensures rest { OnOk result (self.new ≡ record self.old { messenger = self.new.messenger; names = self.new.names }) }
    {
        let turn = Turn {
            node: self.number,
            ..turn
        };
        let bound = self.messenger.bound();
        if !bound {
            return Ok(lost(turn, telling, channel, to)?);
        }
        match hand(
            turn.alloc,
            &mut self.messenger,
            channel,
            priority,
            bytes,
            &to,
        )? {
            None => {
                let reply = telling.refused(turn.alloc, turn.node, channel, to);
                Ok(only(turn.alloc, reply))
            }
            Some(frame) => Ok(note_sent(
                turn,
                &mut self.names,
                telling,
                channel,
                priority,
                frame,
                to,
            )?),
        }
    }

    /// Takes the oldest frame that waits for a connection, with priority or without, and its name.
    pub fn take(&mut self, conn: u64, priority: bool) -> Option<((u64, u64), Item)>
        ensures value { (size : _) (items : _) → Holds size self.old items
            → result ≡ frame_taken (slice_get (filter (stands_in (relay_queue priority self.old.number conn)) items) 0) }
        ensures holds { (size : _) (items : _) → Holds size self.old items → AreApart items → Holds size self.new (filter (stays (frame_gone result)) items) }
        ensures routes { routes_in self.new.actor.links ≡ routes_in self.old.actor.links }
        ensures ends { (ended : ℕ → Bool) → AreEnded ended self.old.peers self.old.actor.links → AreEnded ended self.new.peers self.new.actor.links }
        ensures rest { self.new ≡ record self.old { actor = record self.old.actor { links = self.new.actor.links }; names = self.new.names } }
    {
        let Some(key) = self.peers.get(&conn).copied() else {
            return None;
        };
        let Some(encoded) = take_frame(&mut self.actor, key, priority) else {
            return None;
        };
        let queue = lane(priority, self.number, conn);
        let Some(name) = self.names.pop(queue) else {
            return None;
        };
        let item = Item::Frame {
            copy: name.tag,
            frame: encoded.payload,
        };
        Some(((name.entry, name.place), item))
    }
}
