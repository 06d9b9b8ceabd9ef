//! How items and copies end.

/// Why a copy was dropped.
#[derive(Clone, Copy, Debug, PartialEq, Eq)]
pub enum Cause {
    /// It was sent on a node that had not started.
    Unbound,
    /// Its recipient had no connection.
    NoConnection,
    /// The queue of its recipient's connection was full.
    RelayFull,
    /// Its sender's connection, or its receiver's end of their link, ended before it came through.
    ConnectionEnded,
    /// Its frame was neither a message within its receiver's limit nor a ping.
    FrameRefused,
    /// Its channel was not registered where it came.
    ChannelUnregistered,
    /// The queue of its channel was full.
    MailboxFull,
    /// The reader of its channel closes, or had closed.
    ReceiverClosed,
    /// It was in flight over a link that was cut.
    LinkCut,
    /// It waited at a node that stopped, or was in flight towards it.
    NodeStopped,
}

/// What became of a copy.
#[derive(Clone, Copy, Debug, PartialEq, Eq)]
pub enum Outcome {
    /// Its reader took it.
    Delivered,
    /// It was dropped.
    Dropped(Cause),
}

/// An end that an entry makes.
#[derive(Clone, Copy, Debug, PartialEq, Eq)]
pub enum End {
    /// The item of this name left its queue untaken.
    Item(u64, u64),
    /// The copy of this name ended.
    Copy(u64, u64, Outcome),
}
