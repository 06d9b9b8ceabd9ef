//! A mailbox that threads share.
ghost use Rattle.std.specs.Prelude.{◌≡◌};
ghost use Rattle.p2p_threads.specs.Mailbox.{told_of};

use crate::served::Served;
use crate::shared::Shared;
use p2p_base::{Mailbox, Sent, UnreliablePolicy};
use std::alloc::{AllocError, Global};
use std::marker::Model;

/// A mailbox that threads share. Its calls stand in one history.
pub type SharedMailbox<T> = Shared<MailboxObject<T>>;

/// A call of a mailbox.
#[derive(Clone, Copy, PartialEq, Eq, Debug)]
pub enum MailboxCall<T> {
    /// `Mailbox::enqueue` of this message.
    Enqueue(T),
    /// `Mailbox::take`.
    Take,
}

/// What a call of a mailbox is told. Of an enqueue it is what `Sent` says, without the message.
#[derive(Clone, Copy, PartialEq, Eq, Debug)]
pub enum MailboxReply<T> {
    /// The message entered the ready places.
    Ok,
    /// The message was kept in the overflow.
    Backoff,
    /// The mailbox is full, and the message refuses the overflow.
    Rejected,
    /// The mailbox is closed.
    Closed,
    /// The oldest message, which was taken. `None` exactly where none waits.
    Taken(Option<T>),
}

impl<T: Drop> MailboxReply<T> {
    // What an enqueue is told.
    fn told(sent: Sent<T>) -> MailboxReply<T>
        ensures { result ≡ told_of sent }
    {
        match sent {
            Sent::Ok => MailboxReply::Ok,
            Sent::Backoff => MailboxReply::Backoff,
            Sent::Rejected(_) => MailboxReply::Rejected,
            Sent::Closed(_) => MailboxReply::Closed,
        }
    }
}

/// A mailbox whose calls are values. Contracts see it as the mailbox.
#[derive(Drop)]
pub struct MailboxObject<T>(Mailbox<T>);

impl<T> Model for MailboxObject<T> {
    ghost use Rattle.p2p_base.specs.Queue.{Queue};

    ghost Value = { Queue T };

    ghost view = { λ o. o.0 };
}

impl<T> MailboxObject<T> {
    /// The object over a mailbox.
    pub fn new(mailbox: Mailbox<T>) -> MailboxObject<T>
        ensures { result ≡ mailbox }
    {
        MailboxObject(mailbox)
    }

    /// The mailbox.
    pub fn into_inner(self) -> Mailbox<T>
        ensures { result ≡ self }
    {
        self.0
    }
}

impl<T: UnreliablePolicy + Copy + Send> Served for MailboxObject<T> {
    ghost use Rattle.p2p_threads.specs.Mailbox.{mailbox_reply, mailbox_next};

    type Call = MailboxCall<T>;

    type Reply = MailboxReply<T>;

    ghost reply = { mailbox_reply T.keep_of };

    ghost next = { mailbox_next T.keep_of };

    fn serve(
        &mut self,
        _alloc: Global,
        call: MailboxCall<T>,
    ) -> Result<MailboxReply<T>, AllocError> {
        match call {
            MailboxCall::Enqueue(message) => match self.0.enqueue(message) {
                Ok(sent) => Ok(MailboxReply::told(sent)),
                Err(_) => Err(AllocError),
            },
            MailboxCall::Take => Ok(MailboxReply::Taken(self.0.take())),
        }
    }
}
