//! `Peer`, the label of what is counted for each peer.

/// The label of what is counted for each peer.
///
/// Ports the `Peer` of commonware-p2p's metrics.
#[derive(Clone, Copy, PartialEq, Eq, Hash, Debug)]
pub struct Peer<P> {
    /// The peer.
    pub peer: P,
}
