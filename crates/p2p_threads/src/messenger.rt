//! A messenger that threads share.
ghost use Rattle.std.specs.Prelude.{◌≡◌};

use crate::served::Served;
use crate::shared::Shared;
use bytes::Bytes;
use p2p_base::Unreliable;
use p2p_flow::{Carrier, Connected, Recipients};
use p2p_router::Messenger;
use std::alloc::{AllocError, Global};
use std::marker::Model;

/// A messenger that threads share. Its calls stand in one history.
pub type SharedMessenger<P> = Shared<MessengerObject<P>>;

/// A call of a messenger.
#[derive(Clone, Copy, PartialEq, Eq, Debug)]
pub enum MessengerCall<P> {
    /// `Carrier::content` for one recipient. The message is the number, as eight bytes, the highest first.
    Content {
        recipient: P,
        channel: u64,
        number: u64,
        priority: bool,
    },
    /// `Connected::subscribe`.
    Subscribe,
    /// `Messenger::close`.
    Close,
}

/// What a call of a messenger is told.
#[derive(Clone, Copy, PartialEq, Eq, Debug)]
pub enum MessengerReply {
    /// What content was told.
    Outcome(Unreliable),
    /// The number of the subscription.
    Subscription(u64),
    /// The messenger is closed now.
    Closed,
}

/// A messenger whose calls are values. Contracts see it as the messenger.
#[derive(Drop)]
pub struct MessengerObject<P>(Messenger<P>);

impl<P> Model for MessengerObject<P> {
    ghost use Rattle.p2p_router.specs.Messenger.{Desk};

    ghost Value = { Desk P };

    ghost view = { λ o. o.0 };
}

impl<P> MessengerObject<P> {
    /// The object over a messenger.
    pub fn new(messenger: Messenger<P>) -> MessengerObject<P>
        ensures { result ≡ messenger }
    {
        MessengerObject(messenger)
    }

    /// The messenger.
    pub fn into_inner(self) -> Messenger<P>
        ensures { result ≡ self }
    {
        self.0
    }
}

impl<P: Copy + Send> Served for MessengerObject<P> {
    ghost use Rattle.p2p_threads.specs.Messenger.{messenger_reply, messenger_next};

    type Call = MessengerCall<P>;

    type Reply = MessengerReply;

    ghost reply = { messenger_reply };

    ghost next = { messenger_next };

    fn serve(
        &mut self,
        alloc: Global,
        call: MessengerCall<P>,
    ) -> Result<MessengerReply, AllocError> {
        match call {
            MessengerCall::Content {
                recipient,
                channel,
                number,
                priority,
            } => {
                let message = Bytes::copy_from_slice(alloc, &number.to_be_bytes())?;
                let to = Recipients::One(recipient);
                let told = self.0.content(alloc, to, channel, message, priority)?;
                Ok(MessengerReply::Outcome(told))
            }
            MessengerCall::Subscribe => {
                let subscription = self.0.subscribe(alloc)?;
                Ok(MessengerReply::Subscription(subscription))
            }
            MessengerCall::Close => {
                self.0.close();
                Ok(MessengerReply::Closed)
            }
        }
    }
}
