//! `Delivered`, what became of a message that came over a connection.
use p2p_flow::Message;

/// What became of a message that came over a connection. A message that its channel's mailbox didn't take is handed back.
#[derive(Drop, Debug)]
pub enum Delivered<P> {
    /// It waits in its channel's mailbox.
    Kept,
    /// Its channel's quota refuses it at this moment, and the inbox holds it.
    Held,
    /// Its channel's mailbox is full.
    MailboxFull(Message<P>),
    /// Its channel's mailbox is closed.
    Closed(Message<P>),
    /// Its channel has no quota here: it isn't registered. The message is dropped.
    InvalidChannel,
}
