//! `Sizes`, the sizes and counts by which a node can be made.
ghost use Rattle.std.specs.Prelude.{◌≡◌};
ghost use Rattle.p2p_peer_shared.specs.Sizing.{sizes_fit};
ghost use Rattle.p2p_peer_shared.specs.declared.network.sizes.Sizes.{Sizes as Sizing};

// The greatest `max_message_size` that a link takes, in bytes.
const MESSAGE_MAX: u32 = 16_777_200;

/// The sizes and counts of a configuration by which a node can be made, of whichever network.
#[derive(Clone, Copy, PartialEq, Eq, Debug)]
pub struct Sizes {
    /// How many distinct keys a peer set has at most, the own one counted.
    pub max_peers_per_set: usize,
    /// How many messages a mailbox of the node holds.
    pub mailbox_size: usize,
    /// How many peer sets are kept.
    pub tracked_peer_sets: usize,
    /// How many frames are written at once at most.
    pub send_batch_size: usize,
    /// How many handshakes run at a time at most.
    pub max_concurrent_handshakes: u32,
    /// How many bytes a message has at most.
    pub max_message_size: u32,
}

impl Sizes {
    /// Whether a node can be made by them: all but the last are 1 or more, and a link takes each message.
    pub fn fit(&self) -> bool
        ensures { result ≡ sizes_fit self.now }
    {
        self.max_peers_per_set > 0
            && self.mailbox_size > 0
            && (self.tracked_peer_sets > 0 && self.send_batch_size > 0)
            && (self.max_concurrent_handshakes > 0 && self.max_message_size <= MESSAGE_MAX)
    }
}

/// A configuration of a node, of whichever network.
pub trait HasSizes {
    // Its sizes.
    ghost sizes: { Self → Sizing };

    /// The sizes and counts by which a node can be made of it.
    fn sizes(&self) -> Sizes
        ensures { result ≡ sizes self.now };
}
