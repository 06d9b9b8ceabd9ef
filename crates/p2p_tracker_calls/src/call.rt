//! `Call`, one call of a directory.

use p2p_address::Address;
use p2p_base::List;

/// A call of a directory of peers, with what was answered where that isn't told by the calls before it.
///
/// Moments, jitters and ends are in nanoseconds.
#[derive(Drop)]
pub enum Call<P> {
    /// A peer set with the addresses of its peers was handed in.
    Track {
        index: u64,
        primary: List<(P, Address)>,
        secondary: List<(P, Address)>,
    },
    /// A peer got another address.
    Overwrite {
        peer: P,
        address: Address,
    },
    /// A peer was blocked.
    Block {
        peer: P,
        at: u64,
    },
    /// The blocks that had ended were taken away.
    UnblockExpired {
        at: u64,
    },
    /// A reservation to dial was asked for.
    Dial {
        peer: P,
        at: u64,
        jitter: u64,
        granted: bool,
    },
    /// A reservation for a peer that dialed was asked for.
    Listen {
        peer: P,
        at: u64,
        jitter: u64,
        granted: bool,
    },
    /// A connection of a reserved peer began. It has a moment where a tracker took it, and none where the directory
    /// itself was called.
    Connect {
        peer: P,
        at: Option<u64>,
        conn: u64,
    },
    /// A reservation was given back.
    Release {
        peer: P,
    },
}
