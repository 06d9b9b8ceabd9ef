//! How large what a node keeps is, by its configuration.
ghost use Rattle.std.specs.Prelude.{◌≡◌, ◌^◌, ◌<◌, ◌≤◌, length, nat_le, SomeIff};
ghost use Rattle.p2p_discovery.specs.GossipSize.{gossip_size};
ghost use Rattle.p2p_discovery_peer.specs.Sizing.{fits, max_retained, remote_count, times_counted, is_met, recurs};

use crate::config::{Bootstrapper, Config};
use p2p_base::PublicKey;
use p2p_peer_shared::network::{HasSizes, Sizes};

// The longest frame that a link takes, in bytes.
const LINK_MAX: usize = 16_777_216;

impl<P: PublicKey> Config<P> {
    /// Whether a node can be made of it: the sizes of peer sets, mailboxes and batches, how many sets are kept and how many handshakes run
    /// are 1 or more, a link takes each message and all that peers tell of each other, and the retained peers can be counted.
    ///
    /// It stands for the panics of commonware-p2p's `Network::new`.
    pub fn fits(&self) -> bool
        ensures { result ≡ fits P.SIZE P.cmp self.now }
    {
        self.sizes().fit() && (self.gossip_fits() && self.max_retained_peers().is_some())
    }

    // Whether a link takes all that peers tell of each other.
    fn gossip_fits(&self) -> bool
        ensures { result ≡ nat_le (gossip_size P.SIZE self.now.max_peers_per_set self.now.peer_gossip_max_count) 16777216 }
    {
        match self.max_gossip_size() {
            Some(size) => size <= LINK_MAX,
            None => false,
        }
    }

    /// How many peers are retained at most: those of each set that is kept, and the bootstrappers, each once and the own peer left out.
    /// `None` exactly where that isn't below 2^64.
    ///
    /// Ports `max_retained_peers` of commonware-p2p's `sizing`.
    pub fn max_retained_peers(&self) -> Option<usize>
        ensures { SomeIff result (max_retained P.cmp self.now < 2 ^ 64) (max_retained P.cmp self.now) }
    {
        let in_sets = self.max_peers_per_set.checked_mul(self.tracked_peer_sets)?;
        in_sets.checked_add(remote_count(&self.public_key, self.bootstrappers.as_slice()))
    }
}

impl<P> HasSizes for Config<P> {
    ghost use Rattle.p2p_discovery_peer.specs.Sizing.{sizes_of};

    ghost sizes = { λ c. sizes_of c };

    fn sizes(&self) -> Sizes {
        Sizes {
            max_peers_per_set: self.max_peers_per_set,
            mailbox_size: self.mailbox_size,
            tracked_peer_sets: self.tracked_peer_sets,
            send_batch_size: self.send_batch_size,
            max_concurrent_handshakes: self.max_concurrent_handshakes,
            max_message_size: self.max_message_size,
        }
    }
}

// How many of these there are, each once and the own peer left out.
fn remote_count<P: PublicKey>(own: &P, bootstrappers: &[Bootstrapper<P>]) -> usize
    ensures counted { result ≡ remote_count P.cmp own.now bootstrappers.now }
    ensures at_most { result ≤ length bootstrappers.now }
{
    let mut count = 0;
    for (i, bootstrapper) in bootstrappers.iter().enumerate() {
        count += times_counted(own, &bootstrapper.0, &bootstrappers[i + 1..]);
    }
    count
}

// How often a peer counts, which these follow: once, unless it is the own one, or among these.
fn times_counted<P: PublicKey>(own: &P, peer: &P, bootstrappers: &[Bootstrapper<P>]) -> usize
    ensures { result ≡ times_counted P.cmp own.now peer.now bootstrappers.now }
{
    if is_met(own, peer, bootstrappers) {
        0
    } else {
        1
    }
}

// Whether a peer is the own one, or among these.
fn is_met<P: PublicKey>(own: &P, peer: &P, bootstrappers: &[Bootstrapper<P>]) -> bool
    ensures { result ≡ is_met P.cmp own.now peer.now bootstrappers.now }
{
    own.cmp(peer).is_eq() || recurs(peer, bootstrappers)
}

// Whether a peer is among these.
fn recurs<P: PublicKey>(peer: &P, bootstrappers: &[Bootstrapper<P>]) -> bool
    ensures { result ≡ recurs P.cmp peer.now bootstrappers.now }
{
    bootstrappers.iter().any(|b| peer.cmp(&b.0).is_eq())
}
