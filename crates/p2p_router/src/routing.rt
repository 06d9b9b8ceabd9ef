//! How content goes to the relays of its recipients.
ghost use Rattle.std.specs.Prelude.{◌≡◌, IfOk, OnOk};
ghost use Rattle.std.specs.Map.{keys_of};
ghost use Rattle.p2p_flow.specs.Lanes.{send_answer, sent_on};
ghost use Rattle.p2p_router.specs.Routing.{routed_as, copy_routed, copy_put, copies, copies_put, addressed};

use crate::Routed;
use crate::link::Link;
use p2p_base::Sent;
use p2p_flow::Recipients;
use p2p_wire::EncodedData;
use std::alloc::{AllocError, Global};
use std::collections::BTreeMap;

// The connected peers, in order of their keys.
pub fn peers_of<P: Ord + Copy>(
    alloc: Global,
    links: &BTreeMap<P, Link>,
) -> Result<Vec<P>, AllocError>
    ensures { IfOk result (λ v. v.items ≡ keys_of links.now.entries) }
{
    links.keys().copied().collect(alloc)
}

// The recipients, in order.
pub fn recipients_of<P: Ord + Copy>(
    alloc: Global,
    links: &BTreeMap<P, Link>,
    recipients: Recipients<P>,
) -> Result<Vec<P>, AllocError>
    ensures { IfOk result (λ v. v.items ≡ addressed links.now.entries recipients) }
{
    match recipients {
        Recipients::All => peers_of(alloc, links),
        Recipients::Some(peers) => Ok(peers.into_inner()),
        Recipients::One(peer) => {
            let mut peers = Vec::new(alloc);
            peers.push(peer)?;
            Ok(peers)
        }
    }
}

// What became of a copy, by what the relay answered.
fn by_answer<P: Copy>(sent: &Sent<EncodedData>, peer: P, conn: u64, priority: bool) -> Routed<P>
    ensures { result ≡ routed_as sent.now peer conn priority }
{
    match sent {
        Sent::Ok | Sent::Backoff => Routed::Put {
            peer,
            conn,
            priority,
        },
        Sent::Rejected(_) => Routed::RelayFull { peer, conn },
        Sent::Closed(_) => Routed::Closed { peer, conn },
    }
}

// Puts the copy for one peer into the relay of its connection.
fn put_on_link<P: Copy>(
    link: &mut Link,
    peer: P,
    copy: EncodedData,
    priority: bool,
) -> Result<Routed<P>, AllocError>
    ensures answer { IfOk result (λ r. r ≡ routed_as
        (send_answer link.old.relay copy priority) peer link.old.conn priority) }
    ensures after { OnOk result (link.new ≡ record {
      conn = link.old.conn;
      relay = sent_on link.old.relay copy priority;
    }) }
{
    match link.relay.send(copy, priority) {
        Ok(sent) => Ok(by_answer(&sent, peer, link.conn, priority)),
        Err(_) => Err(AllocError),
    }
}

// Puts the copy for one peer into its relay, or makes none where it has no connection.
fn put_copy<P: Ord + Copy>(
    links: &mut BTreeMap<P, Link>,
    peer: P,
    encoded: &EncodedData,
    priority: bool,
) -> Result<Routed<P>, AllocError>
    ensures answer { IfOk result (λ r. r ≡ copy_routed P.cmp links.old.entries encoded.now priority peer) }
    ensures after { OnOk result (links.new.entries ≡ copy_put P.cmp links.old.entries encoded.now priority peer) }
{
    match links.get_mut(&peer) {
        Some(link) => put_on_link(link, peer, encoded.clone()?, priority),
        None => Ok(Routed::NoConnection { peer }),
    }
}

// Puts one copy for each of these peers, in order.
pub fn route<P: Ord + Copy>(
    alloc: Global,
    links: &mut BTreeMap<P, Link>,
    peers: &[P],
    encoded: &EncodedData,
    priority: bool,
) -> Result<Vec<Routed<P>>, AllocError>
    ensures answer { IfOk result (λ v. v.items ≡ copies P.cmp links.old.entries encoded.now priority peers.now) }
    ensures after { OnOk result (links.new.entries
        ≡ copies_put P.cmp links.old.entries encoded.now priority peers.now) }
{
    let mut routed = Vec::with_capacity(alloc, peers.len())?;
    for peer in peers {
        routed.push(put_copy(links, *peer, encoded, priority)?)?;
    }
    Ok(routed)
}
