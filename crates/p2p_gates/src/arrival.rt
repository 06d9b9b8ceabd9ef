//! `Arrival`, a peer that connects.
use p2p_address::SocketAddr;

/// A peer that connects.
#[derive(Clone, Copy, PartialEq, Eq, Debug)]
pub struct Arrival<P> {
    /// Where it connects from.
    pub from: SocketAddr,
    /// Its key.
    pub key: P,
    /// The link that it made, by its name.
    pub link: u64,
}
