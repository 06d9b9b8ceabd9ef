//! `Receiver`, which receives the messages of a channel.
ghost use Rattle.std.specs.Prelude.{◌≡◌, ◌≤◌};
ghost use Rattle.p2p_flow_connection.specs.Arriving.{without_arrival};
ghost use Rattle.p2p_flow_senders.specs.Receiving.{received_by};

use super::Error;
use p2p_flow::{Channel, Message, Polled};
use p2p_flow_connection::Inbounds;
use std::marker::{Model, PhantomData};

/// Receives the messages of one channel, from the mailboxes that it is lent.
///
/// Dropping it closes nothing: `Inbounds::close` closes its mailbox.
///
/// Ports `Receiver` of commonware-p2p's `channels`, which owns the mailbox.
#[derive(Drop)]
pub struct Receiver<P> {
    channel: Channel,
    capacity: usize,
    of: PhantomData<P>,
}

impl<P> Model for Receiver<P> {
    ghost use Rattle.std.specs.Prelude.{◌≤◌};
    ghost use Rattle.p2p_flow_senders.specs.Receiving.{Reader};

    ghost Value = { Reader };

    ghost view = { λ r. record { channel = r.channel; capacity = r.capacity } };

    ghost invariant = { λ r. 1 ≤ r.capacity };
}

impl<P: Drop> Receiver<P> {
    // The receiver of a channel, whose mailbox has so many places.
    pub(crate) fn new(channel: Channel, capacity: usize) -> Receiver<P>
        requires { 1 ≤ capacity }
        ensures { result ≡ record { channel = channel; capacity = capacity } }
    {
        Receiver {
            channel,
            capacity,
            of: PhantomData,
        }
    }
}

impl<P: Drop> crate::Receiver for Receiver<P> {
    ghost use Rattle.p2p_flow_connection.specs.Arriving.{without_arrival};
    ghost use Rattle.p2p_flow_senders.specs.Receiving.{received_by};

    type Error = Error;

    type PublicKey = P;

    type Way = Inbounds<P>;

    ghost serves = { λ _ _. Unit {0} };

    ghost received = { λ r a. received_by r.channel a };

    ghost after_recv = { λ r a. without_arrival a r.channel };

    ghost places = { λ r. r.capacity };

    fn poll_recv(&mut self, way: &mut Inbounds<P>) -> Result<Polled<Message<P>>, Error> {
        match way.take(self.channel) {
            Some(message) => Ok(Polled::Ready(message)),
            None if way.has_ended() => Err(Error::NetworkClosed),
            None => Ok(Polled::Pending),
        }
    }

    fn capacity(&self) -> usize {
        self.capacity
    }
}
