//! What an event asked a tracker that it may be answered, and under which number.

/// What an event asked a tracker that it may be answered.
#[derive(Clone, Copy, Debug, PartialEq, Eq)]
pub enum Question {
    /// Who is in a set.
    PeerSet,
    /// The peer sets that are tracked.
    Updates,
    /// The keys that are blocked.
    Blocked,
}

/// What an event asked, and the number under which the oracle answers it: that of a question for a peer set, or of a subscription.
#[derive(Clone, Copy, Debug, PartialEq, Eq)]
pub struct Ticket {
    /// What it asked.
    pub question: Question,
    /// The number.
    pub number: u64,
}
