//! How large what a node keeps is, by its configuration.
ghost use Rattle.std.specs.Prelude.{◌≡◌, ◌^◌, ◌<◌, SomeIff};
ghost use Rattle.p2p_lookup.specs.Sizing.{fits, max_retained};

use crate::config::Config;
use p2p_peer_shared::network::{HasSizes, Sizes};

impl<P> Config<P> {
    /// Whether a node can be made of it: the sizes of peer sets, mailboxes and batches, how many sets are kept and how many handshakes run
    /// are 1 or more, a link takes each message, and the retained peers can be counted.
    ///
    /// It stands for the panics of commonware-p2p's `Network::new`.
    pub fn fits(&self) -> bool
        ensures { result ≡ fits self.now }
    {
        self.sizes().fit() && self.max_retained_peers().is_some()
    }

    /// How many peers are retained at most: those of each set that is kept. `None` exactly where that isn't below 2^64.
    ///
    /// Ports `max_retained_peers` of commonware-p2p's `sizing`.
    pub fn max_retained_peers(&self) -> Option<usize>
        ensures { SomeIff result (max_retained self.now < 2 ^ 64) (max_retained self.now) }
    {
        self.max_peers_per_set.checked_mul(self.tracked_peer_sets)
    }
}

impl<P> HasSizes for Config<P> {
    ghost use Rattle.p2p_lookup.specs.Sizing.{sizes_of};

    ghost sizes = { λ c. sizes_of c };

    fn sizes(&self) -> Sizes {
        Sizes {
            max_peers_per_set: self.max_peers_per_set,
            mailbox_size: self.mailbox_size,
            tracked_peer_sets: self.tracked_peer_sets,
            send_batch_size: self.send_batch_size,
            max_concurrent_handshakes: self.max_concurrent_handshakes,
            max_message_size: self.max_message_size,
        }
    }
}
