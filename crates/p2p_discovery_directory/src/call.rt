//! `Call`, one call of a directory of discovery.

use p2p_base::List;
use p2p_discovery::Info;

/// A call of a directory of peers that tell where they are dialed, with what was answered where that isn't told by the calls before
/// it.
///
/// Moments and jitters are in nanoseconds.
#[derive(Drop)]
pub enum Call<P> {
    /// A peer set was handed in.
    Track {
        index: u64,
        primary: List<P>,
        secondary: List<P>,
    },
    /// A peer was blocked.
    Block {
        peer: P,
        at: u64,
    },
    /// The blocks that had ended were taken away.
    UnblockExpired {
        at: u64,
    },
    /// A reservation to dial was asked for.
    Dial {
        peer: P,
        at: u64,
        jitter: u64,
        granted: bool,
    },
    /// A reservation for a peer that dialed was asked for.
    Listen {
        peer: P,
        at: u64,
        jitter: u64,
        granted: bool,
    },
    /// A connection of a reserved peer began.
    Connect {
        peer: P,
    },
    /// A reservation was given back.
    Release {
        peer: P,
    },
    /// Peers said where they are dialed.
    UpdatePeers {
        infos: List<Info<P>>,
    },
}
