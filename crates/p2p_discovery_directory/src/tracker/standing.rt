//! `Standing`, what the tracker makes of a message of a connection.

/// What the tracker makes of what the connection of a peer tells or asks.
#[derive(Drop)]
pub(super) enum Standing {
    /// No connection of the peer is kept: nothing.
    Unknown,
    /// This connection is kept, and its peer isn't eligible: it ends.
    Barred(u64),
    /// This connection is kept, and its peer is eligible: what it asks for.
    Kept(u64),
}
