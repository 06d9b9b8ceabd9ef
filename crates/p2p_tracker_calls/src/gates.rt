//! `Reply`, what the gates of a listener tell a peer that connects.

/// What the gates tell an arrival: the first that refuses it, or that none does.
#[derive(Clone, Copy, PartialEq, Eq, Debug)]
pub enum Reply {
    /// Its address isn't global, and others may not connect.
    Private,
    /// Its address isn't one that the listener was told of.
    Unregistered,
    /// The quota of its address or of its subnet refuses it, or both do.
    Limited {
        /// Whether the quota of its address does.
        ip: bool,
        /// Whether the quota of its subnet does.
        subnet: bool,
    },
    /// As many handshakes run as may.
    TooMany,
    /// None refuses it.
    Admitted,
}
