//! What the tracker put, as items in the queues of its node.
ghost use Rattle.std.specs.Prelude.{◌≡◌, [], ◌∷◌, ◌++◌, slice_index_or, IfOk, OnOk};
ghost use Rattle.std.specs.Option.{option_map};
ghost use Rattle.p2p_tracker_directory.specs.Reserved.{peer_of};
ghost use Rattle.p2p_net_tracker.specs.Naming.{named_put, named_puts, grant_of};

use p2p_address::Ingress;
use p2p_base::{Key, List};
use p2p_log::{Item, Queue};
use p2p_tracker::{Metadata, Put};
use std::alloc::{AllocError, Global};

/// The events whose questions the tickets of a tracker are, by ticket.
#[derive(Drop)]
pub struct Tickets {
    /// Questions for peer sets.
    pub questions: List<u64>,
    /// Subscriptions to peer sets.
    pub updates: List<u64>,
    /// Subscriptions to the blocked keys.
    pub blocked: List<u64>,
}

impl Tickets {
    /// No ticket was given.
    pub fn new(alloc: Global) -> Tickets
        ensures { result ≡ record { questions = []; updates = []; blocked = [] } }
    {
        Tickets {
            questions: List::empty(alloc),
            updates: List::empty(alloc),
            blocked: List::empty(alloc),
        }
    }
}

/// The event of a ticket, or 0 where it was never given.
fn event_of(tickets: &List<u64>, ticket: u64) -> u64
    ensures { result ≡ slice_index_or tickets.now ticket 0 }
{
    match tickets.as_slice().get(ticket as usize) {
        Some(event) => *event,
        None => 0,
    }
}

/// Whom a dial reserved, and where to dial.
fn grant(granted: Option<(Metadata<Key>, Ingress)>) -> Option<(Key, Ingress)>
    ensures { result ≡ grant_of granted }
{
    match granted {
        Some((metadata, ingress)) => Some((*metadata.public_key(), ingress)),
        None => None,
    }
}

/// Whom a handshake reserved.
fn reserved_peer(reserved: Option<Metadata<Key>>) -> Option<Key>
    ensures { result ≡ option_map peer_of reserved }
{
    match reserved {
        Some(metadata) => Some(*metadata.public_key()),
        None => None,
    }
}

/// What the tracker of a node put, as an item in its queue.
fn name(node: u64, tickets: &Tickets, put: Put<Key>) -> Option<(Queue, Item)>
    ensures { result ≡ named_put node tickets.now put }
{
    match put {
        Put::Kill { conn, .. } => Some((Queue::Control { node, conn }, Item::Kill)),
        Put::Listenable { addresses, .. } => {
            Some((Queue::Addresses(node), Item::Addresses(addresses)))
        }
        Put::Update { ticket, update } => {
            let question = event_of(&tickets.updates, ticket);
            Some((
                Queue::PeerSetUpdates { node, question },
                Item::PeerSetUpdate(update),
            ))
        }
        Put::Blocked {
            ticket,
            blocked,
            ..
        } => {
            let question = event_of(&tickets.blocked, ticket);
            Some((Queue::Blocked { node, question }, Item::Blocked(blocked)))
        }
        Put::PeerSet { ticket, peers } => {
            let question = event_of(&tickets.questions, ticket);
            Some((Queue::PeerSet { node, question }, Item::PeerSet(peers)))
        }
        Put::Dialable(list) => {
            let item = Item::Dialable {
                next: list.next_query_at,
                peers: list.peers,
            };
            Some((Queue::Dialer(node), item))
        }
        Put::Dial(granted) => Some((Queue::Dialer(node), Item::Dial(grant(granted)))),
        Put::Acceptable {
            handshake,
            acceptable,
        } => Some((
            Queue::Handshake { node, handshake },
            Item::Acceptable(acceptable),
        )),
        Put::Listen {
            handshake,
            reserved,
        } => Some((
            Queue::Handshake { node, handshake },
            Item::Listen(reserved_peer(reserved)),
        )),
    }
}

/// What the tracker of a node put, in order, as items in their queues.
pub fn name_all(
    alloc: Global,
    node: u64,
    tickets: &Tickets,
    put: List<Put<Key>>,
) -> Result<List<(Queue, Item)>, AllocError>
    ensures { IfOk result (λ l. l ≡ named_puts node tickets.now put) }
{
    let mut named = List::empty(alloc);
    for one in put.into_inner() {
        if let Some(item) = name(node, tickets, one) {
            named.push(item)?;
        }
    }
    Ok(named)
}
