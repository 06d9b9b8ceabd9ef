//! What sending into a queue answers.
ghost use Rattle.std.specs.Prelude.{◌≡◌};
ghost use Rattle.p2p_base.specs.Outcome.{is_accepted, outcome_of};

/// What a queue tells of a message that it did not hand back.
///
/// Ports `Feedback` of commonware-p2p's `commonware-actor`.
#[derive(Clone, Copy, PartialEq, Eq, Debug)]
pub enum Feedback {
    /// It entered the ready places.
    Ok,
    /// It was kept in the overflow.
    Backoff,
    /// The queue is closed.
    Closed,
}

/// What a queue that may refuse tells of a message.
///
/// Ports `Unreliable` of commonware-p2p's `commonware-actor`.
#[derive(Clone, Copy, PartialEq, Eq, Debug)]
pub enum Unreliable {
    /// It wasn't refused.
    Outcome(Feedback),
    /// It was refused.
    Rejected,
}

impl Unreliable {
    /// Whether the message was kept.
    pub fn accepted(self) -> bool
        ensures { result ≡ is_accepted self }
    {
        match self {
            Unreliable::Outcome(Feedback::Ok) => true,
            Unreliable::Outcome(Feedback::Backoff) => true,
            Unreliable::Outcome(Feedback::Closed) => false,
            Unreliable::Rejected => false,
        }
    }
}

/// What a mailbox answers to a message. A message that wasn't kept is handed back.
#[derive(Drop, Debug)]
pub enum Sent<T> {
    /// It entered the ready places.
    Ok,
    /// It was kept in the overflow.
    Backoff,
    /// The mailbox is full, and the message refuses the overflow.
    Rejected(T),
    /// The mailbox is closed.
    Closed(T),
}

impl<T: Drop> Sent<T> {
    /// The same without the message, which is dropped.
    pub fn outcome(self) -> Unreliable
        ensures { result ≡ outcome_of self }
    {
        match self {
            Sent::Ok => Unreliable::Outcome(Feedback::Ok),
            Sent::Backoff => Unreliable::Outcome(Feedback::Backoff),
            Sent::Rejected(_) => Unreliable::Rejected,
            Sent::Closed(_) => Unreliable::Outcome(Feedback::Closed),
        }
    }
}

/// There was no memory to keep this value, which is handed back.
#[derive(Drop, Debug)]
pub struct NoRoom<T>(pub T);

/// What a ring answers to an item.
#[derive(Drop, Debug)]
pub enum Pushed<T> {
    /// It was kept.
    Kept,
    /// It was kept, and the oldest item, which is handed out, made way for it.
    Replaced(T),
    /// The ring is closed, and the item is handed back.
    Closed(T),
}
