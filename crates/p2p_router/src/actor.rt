//! `Actor`, the router itself: one message a step.
ghost use Rattle.std.specs.Prelude.{◌≡◌, ◌↔◌, ◌≤◌, [], length, nat_lt, None, Some, IfOk, OnOk, OnErr, IsErr, IsTrue, if◌then◌else◌};
ghost use Rattle.std.specs.Borrow.{sem};
ghost use Rattle.std.specs.List.Sorted.{IsStrictlySortedBy};
ghost use Rattle.std.specs.Map.{keys_of};
ghost use Rattle.std.specs.Option.{is_some, option_copied, option_copied_mut};
ghost use Rattle.p2p_base.specs.Queue.{empty_queue};
ghost use Rattle.p2p_router.specs.Connections.{is_over, without_conn, with_conn, peer_at, relay_at, IsOfOnePeer, IsIndexed};
ghost use Rattle.p2p_router.specs.Messenger.{message_waiting, told_all};
ghost use Rattle.p2p_router.specs.Routes.{new_routes};
ghost use Rattle.p2p_router.specs.Routing.{addressed, copies, copies_put, link_of, relay_of};
ghost use Rattle.p2p_router.specs.declared.link.Link.{Link};
ghost use Rattle.p2p_router.specs.Step.{heard, told_of, stepped_by, routes_by, desk_by, stepped_on, routes_on, desk_on};
ghost use Rattle.p2p_router.specs.declared.message.Message.TheVariants as message;
ghost use Rattle.p2p_router.specs.declared.stepped.Stepped.TheVariants as stepped;

use crate::link::Link;
use crate::routing::{peers_of, recipients_of, route};
use crate::{Config, Mailbox, Message, Messenger, Stepped, Told};
use p2p_base::{List, PublicKey};
use p2p_flow::{Recipients, Relay};
use p2p_wire::EncodedData;
use std::alloc::{AllocError, Global};
use std::collections::BTreeMap;
use std::marker::Model;

/// The router: a map from peers to the relays of their connections, and the subscriptions that are told when the map's keys change.
///
/// Ports `Actor` of commonware-p2p's router.
pub struct Actor<P: Ord> {
    links: BTreeMap<P, Link>,
    peers: BTreeMap<u64, P>,
    subscriptions: Vec<u64>,
    failed: bool,
}

impl<P: Ord + Drop> Drop for Actor<P> {
    fn drop(self) {
        let Actor {
            links: _links,
            peers: _peers,
            subscriptions: _subscriptions,
            failed: _failed,
        } = self;
    }
}

impl<P: Ord> Model for Actor<P> {
    ghost use Rattle.p2p_router.specs.Routes.{Routes};

    ghost Value = { Routes P };

    ghost view = { λ a. record {
      links = a.links.entries;
      peers = a.peers.entries;
      subscriptions = a.subscriptions.items;
      failed = a.failed;
    } };
}

impl<P: PublicKey> Actor<P> {
    ghost use Rattle.p2p_router.specs.Lends.{lends_relay_of, lends_relay_at};

    /// A router without peers, and the mailbox for its messages.
    ///
    /// Ports `Actor::new` of commonware-p2p's router.
    pub fn new(alloc: Global, cfg: Config) -> Result<(Actor<P>, Mailbox<P>), AllocError>
        requires { 1 ≤ cfg.mailbox_size }
        ensures actor { IfOk result (λ r. r.0 ≡ new_routes) }
        ensures mailbox { IfOk result (λ r. r.1 ≡ empty_queue cfg.mailbox_size) }
        ensures indexed { IfOk result (λ r. IsIndexed P.cmp r.0) }
    {
        let mailbox = Mailbox::new(alloc, cfg.mailbox_size)?;
        Ok((Actor::without_peers(alloc), mailbox))
    }

    /// A router without peers, whose mailbox is made elsewhere.
    pub fn without_peers(alloc: Global) -> Actor<P>
        ensures routes { result ≡ new_routes }
        ensures indexed { IsIndexed P.cmp result }
    {
        Actor {
            links: BTreeMap::new(alloc),
            peers: BTreeMap::new(alloc),
            subscriptions: Vec::new(alloc),
            failed: false,
        }
    }

    /// How many peers are connected.
    pub fn len(&self) -> usize
        ensures len { result ≡ length self.now.links }
        ensures ordered { IsStrictlySortedBy P.cmp (keys_of self.now.links) }
    {
        self.links.len()
    }

    /// The connected peers, in order of their keys, where more subscriptions than this many are told of them; otherwise none.
    pub fn peers_told(&self, alloc: Global, past: u64) -> Result<List<P>, AllocError>
        ensures { IfOk result (λ l. l ≡ (if nat_lt past (length self.now.subscriptions) then keys_of self.now.links else [])) }
    {
        if past as usize >= self.subscriptions.len() {
            return Ok(List::empty(alloc));
        }
        Ok(List::new(peers_of(alloc, &self.links)?))
    }

    /// Takes the oldest message of the messenger's mailbox, and does what it says.
    ///
    /// `Err` only where memory runs out. Each later step then answers so.
    ///
    /// Ports the turn of the loop of commonware-p2p's router.
    pub fn step(&mut self, messenger: &mut Messenger<P>) -> Result<Stepped<P>, AllocError>
        ensures stepped { IfOk result (λ s. s
            ≡ stepped_on P.cmp self.old messenger.old (message_waiting messenger.old)) }
        ensures idle { IfOk result (λ s. (s ≡ stepped.Idle) ↔ (message_waiting messenger.old ≡ None)) }
        ensures actor { OnOk result (self.new
            ≡ routes_on P.cmp self.old messenger.old (message_waiting messenger.old)) }
        ensures messenger { OnOk result (messenger.new
            ≡ desk_on P.cmp self.old messenger.old (message_waiting messenger.old)) }
        ensures memory { OnErr result (IsTrue self.new.failed) }
        ensures failed { IsTrue self.old.failed → IsErr result }
        ensures subscriptions { length messenger.new.lists ≡ length messenger.old.lists }
        ensures indexed { OnOk result (IsStrictlySortedBy P.cmp (keys_of self.old.links) → IsIndexed P.cmp self.old →
            IsOfOnePeer P.cmp self.old.links (message_waiting messenger.old) → IsIndexed P.cmp self.new) }
    {
        if self.failed {
            return Err(AllocError);
        }
        self.failed = true;
        let stepped = self.work(messenger)?;
        self.failed = false;
        Ok(stepped)
    }

    /// The relay of a connection. `None` exactly where no peer is connected over it: it was never ready here, its peer was released, or
    /// a later connection of its peer was ready.
    ///
    /// That every connected peer's relay is found holds as long as each connection is ready for one peer. Where the number of one was
    /// ready for a second peer, it is that one's.
    pub fn relay(&mut self, conn: u64) -> Option<&mut Relay<EncodedData>>
        ensures* writes_back { sem 𝓛 (lends_relay_at P.row P.Ord self.entry conn result) }
        ensures value { option_copied_mut result ≡ relay_at P.cmp self.old conn }
        ensures found { IsIndexed P.cmp self.old → (peer : P) (l : Link) → link_of P.cmp self.old.links peer ≡ Some l →
            l.conn ≡ conn → option_copied_mut result ≡ Some l.relay }
    {
        let Some(peer) = self.peer(conn) else {
            return None;
        };
        self.relay_of(&peer)
    }

    /// The peer that is connected over a connection.
    pub fn peer(&self, conn: u64) -> Option<P>
        ensures { result ≡ peer_at P.cmp self.now conn }
    {
        let peer = self.peers.get(&conn).copied()?;
        if is_over(self.links.get(&peer), conn) {
            Some(peer)
        } else {
            None
        }
    }

    /// Whether a connection has a relay here.
    #[tactic(auto, using(crate::proofs::Connected::relay_there))]
    pub fn has_relay(&self, conn: u64) -> bool
        ensures { result ≡ is_some (relay_at P.cmp self.now conn) }
    {
        self.peer(conn).is_some()
    }

    /// The relay of a peer's connection. `None` exactly where the peer isn't connected.
    pub fn relay_of(&mut self, peer: &P) -> Option<&mut Relay<EncodedData>>
        ensures* writes_back { sem 𝓛 (lends_relay_of P.row P.Ord self.entry peer.now result) }
        ensures value { option_copied_mut result ≡ relay_of P.cmp self.old.links peer.now }
    {
        let Some(link) = self.links.get_mut(peer) else {
            return None;
        };
        Some(link.relay())
    }

    // Takes the oldest message and does what it says.
    #[tactic(auto, unfolding(crate::specs::Messenger::told_all))]
    fn work(&mut self, messenger: &mut Messenger<P>) -> Result<Stepped<P>, AllocError>
        ensures stepped { IfOk result (λ s. s
            ≡ stepped_on P.cmp self.old messenger.old (message_waiting messenger.old)) }
        ensures actor { OnOk result (self.new
            ≡ routes_on P.cmp self.old messenger.old (message_waiting messenger.old)) }
        ensures messenger { OnOk result (messenger.new
            ≡ desk_on P.cmp self.old messenger.old (message_waiting messenger.old)) }
        ensures failed { self.new.failed ≡ self.old.failed }
        ensures subscriptions { length messenger.new.lists ≡ length messenger.old.lists }
    {
        match messenger.take() {
            None => Ok(Stepped::Idle),
            Some(Message::Ready { peer, relay, conn }) => self.ready(messenger, peer, relay, conn),
            Some(Message::Release { peer }) => self.release(messenger, peer),
            Some(
                Message::Content {
                    recipients,
                    encoded,
                    priority,
                },
            ) => self.content(recipients, encoded, priority),
            Some(Message::SubscribePeers { subscription }) => {
                self.subscribe(messenger, subscription)
            }
        }
    }

    // Takes in the relay of a peer's connection, and tells the subscribers.
    fn ready(
        &mut self,
        messenger: &mut Messenger<P>,
        peer: P,
        relay: Relay<EncodedData>,
        conn: u64,
    ) -> Result<Stepped<P>, AllocError>
        ensures stepped { IfOk result (λ s. s
            ≡ stepped_by P.cmp self.old messenger.old (message.Ready peer relay conn)) }
        ensures actor { OnOk result (self.new
            ≡ routes_by P.cmp self.old messenger.old (message.Ready peer relay conn)) }
        ensures messenger { OnOk result (messenger.new
            ≡ desk_by P.cmp self.old messenger.old (message.Ready peer relay conn)) }
        ensures failed { self.new.failed ≡ self.old.failed }
        ensures subscriptions { length messenger.new.lists ≡ length messenger.old.lists }
    {
        let alloc = *self.subscriptions.allocator();
        let replaced = self.links.insert(peer, Link { conn, relay })?;
        put_conn(&mut self.peers, &replaced, conn, peer)?;
        let told = tell(alloc, &self.links, messenger, &self.subscriptions)?;
        self.subscriptions = Vec::from_slice(alloc, told.subscriptions.as_slice())?;
        Ok(Stepped::Ready {
            peer,
            conn,
            replaced,
            told,
        })
    }

    // Drops the relay of a peer's connection, and tells the subscribers.
    fn release(&mut self, messenger: &mut Messenger<P>, peer: P) -> Result<Stepped<P>, AllocError>
        ensures stepped { IfOk result (λ s. s ≡ stepped_by P.cmp self.old messenger.old (message.Release peer)) }
        ensures actor { OnOk result (self.new ≡ routes_by P.cmp self.old messenger.old (message.Release peer)) }
        ensures messenger { OnOk result (messenger.new ≡ desk_by P.cmp self.old messenger.old (message.Release peer)) }
        ensures failed { self.new.failed ≡ self.old.failed }
        ensures subscriptions { length messenger.new.lists ≡ length messenger.old.lists }
    {
        let alloc = *self.subscriptions.allocator();
        let released = self.links.remove(&peer);
        drop_conn(&mut self.peers, &released);
        let told = tell(alloc, &self.links, messenger, &self.subscriptions)?;
        self.subscriptions = Vec::from_slice(alloc, told.subscriptions.as_slice())?;
        Ok(Stepped::Release { peer, told })
    }

    // Puts a copy of a frame into the relay of each recipient.
    fn content(
        &mut self,
        recipients: Recipients<P>,
        encoded: EncodedData,
        priority: bool,
    ) -> Result<Stepped<P>, AllocError>
        ensures stepped { IfOk result (λ s. s
            ≡ stepped.Content encoded (copies P.cmp self.old.links encoded priority
            (addressed self.old.links recipients))) }
        ensures actor { OnOk result (self.new
            ≡ record self.old {
              links = copies_put P.cmp self.old.links encoded priority
                  (addressed self.old.links recipients);
            }) }
        ensures failed { self.new.failed ≡ self.old.failed }
    {
        let alloc = *self.subscriptions.allocator();
        let peers = recipients_of(alloc, &self.links, recipients)?;
        let routed = route(alloc, &mut self.links, &peers, &encoded, priority)?;
        Ok(Stepped::Content {
            encoded,
            copies: List::new(routed),
        })
    }

    // Tells one subscriber, and keeps it where its receiver is there.
    fn subscribe(
        &mut self,
        messenger: &mut Messenger<P>,
        subscription: u64,
    ) -> Result<Stepped<P>, AllocError>
        ensures stepped { IfOk result (λ s. s
            ≡ stepped_by P.cmp self.old messenger.old (message.SubscribePeers subscription)) }
        ensures actor { OnOk result (self.new
            ≡ routes_by P.cmp self.old messenger.old (message.SubscribePeers subscription)) }
        ensures messenger { OnOk result (messenger.new
            ≡ desk_by P.cmp self.old messenger.old (message.SubscribePeers subscription)) }
        ensures failed { self.new.failed ≡ self.old.failed }
        ensures subscriptions { length messenger.new.lists ≡ length messenger.old.lists }
    {
        let alloc = *self.subscriptions.allocator();
        let told = tell(alloc, &self.links, messenger, &[subscription])?;
        self.subscriptions
            .extend_from_slice(told.subscriptions.as_slice())?;
        Ok(Stepped::SubscribePeers { subscription, told })
    }
}

// Puts the list of connected peers for those of the subscriptions whose receivers are there.
fn tell<P: PublicKey>(
    alloc: Global,
    links: &BTreeMap<P, Link>,
    messenger: &mut Messenger<P>,
    subscriptions: &[u64],
) -> Result<Told<P>, AllocError>
    ensures told { IfOk result (λ t. t ≡ told_of messenger.old links.now.entries subscriptions.now) }
    ensures messenger { OnOk result (messenger.new
        ≡ told_all messenger.old (keys_of links.now.entries) (heard messenger.old subscriptions.now)) }
    ensures subscriptions { length messenger.new.lists ≡ length messenger.old.lists }
{
    let peers = peers_of(alloc, links)?;
    let heard = messenger.heard(alloc, subscriptions)?;
    messenger.tell_all(alloc, &peers, &heard)?;
    Ok(Told {
        peers: List::new(peers),
        subscriptions: List::new(heard),
    })
}

// Whether a link is that of a connection.
fn is_over(link: Option<&Link>, conn: u64) -> bool
    ensures { result ≡ is_over conn (option_copied link.entry) }
{
    match link {
        Some(link) => link.conn == conn,
        None => false,
    }
}

// The connection of a link has no peer.
fn drop_conn<P: Copy>(peers: &mut BTreeMap<u64, P>, link: &Option<Link>)
    ensures { peers.new.entries ≡ without_conn link.now peers.old.entries }
{
    match link {
        Some(link) => {
            let _ = peers.remove(&link.conn);
        }
        None => {}
    }
}

// A connection is ready for a peer, in place of the link that the peer had.
fn put_conn<P: Copy>(
    peers: &mut BTreeMap<u64, P>,
    replaced: &Option<Link>,
    conn: u64,
    peer: P,
) -> Result<(), AllocError>
    ensures { OnOk result (peers.new.entries ≡ with_conn replaced.now peers.old.entries conn peer) }
{
    drop_conn(peers, replaced);
    let _ = peers.insert(conn, peer)?;
    Ok(())
}
