//! `SubReceiver`, which receives the messages of a subchannel.
ghost use Rattle.std.specs.Prelude.{◌≡◌, ◌≤◌, IfErr, OnOk, OnErr};
ghost use Rattle.p2p_mux.specs.Muxed.{without_receiver};

use crate::{Error, MuxQueues};
use p2p_base::NoRoom;
use p2p_flow::{Channel, Message, Polled};
use p2p_flow_senders::Receiver;
use std::marker::{Model, PhantomData};

/// Receives the messages of one subchannel, from the queues of its muxer, which it is lent.
///
/// Dropping it tells the muxer nothing: `close` does.
///
/// Ports `SubReceiver` of commonware-p2p, which owns its queue.
#[derive(Drop)]
pub struct SubReceiver<P> {
    subchannel: Channel,
    capacity: usize,
    of: PhantomData<P>,
}

impl<P> Model for SubReceiver<P> {
    ghost use Rattle.std.specs.Prelude.{◌≤◌};
    ghost use Rattle.p2p_mux.specs.Received.{Reader};

    ghost Value = { Reader };

    ghost view = { λ r. record { subchannel = r.subchannel; capacity = r.capacity } };

    ghost invariant = { λ r. 1 ≤ r.capacity };
}

impl<P: Drop> SubReceiver<P> {
    // The receiver of a subchannel, whose queue has so many places.
    pub(crate) fn new(subchannel: Channel, capacity: usize) -> SubReceiver<P>
        requires { 1 ≤ capacity }
        ensures { result ≡ record { subchannel = subchannel; capacity = capacity } }
    {
        SubReceiver {
            subchannel,
            capacity,
            of: PhantomData,
        }
    }

    /// Drops the messages that wait for the subchannel, and tells the muxer that the receiver is gone: it removes the
    /// route once it has taken what it was asked before. A muxer that has ended is told nothing.
    ///
    /// `NoRoom` hands the receiver back where there is no memory to tell the muxer; nothing has changed then.
    ///
    /// Ports the `drop` of `SubReceiver` of commonware-p2p.
    pub fn close(self, queues: &mut MuxQueues<P>) -> Result<(), NoRoom<SubReceiver<P>>>
        ensures after { OnOk result (queues.new ≡ without_receiver queues.old self.subchannel) }
        ensures no_room { IfErr result (λ e. e.0 ≡ self) }
        ensures unchanged { OnErr result (queues.new ≡ queues.old) }
    {
        match queues.close(self.subchannel) {
            Ok(()) => Ok(()),
            Err(_) => Err(NoRoom(self)),
        }
    }
}

impl<P: Drop> Receiver for SubReceiver<P> {
    ghost use Rattle.p2p_mux.specs.Muxed.{without_waiting};
    ghost use Rattle.p2p_mux.specs.Received.{received_on};

    type Error = Error;

    type PublicKey = P;

    type Way = MuxQueues<P>;

    ghost serves = { λ _ _. Unit {0} };

    ghost received = { λ r q. received_on r.subchannel q };

    ghost after_recv = { λ r q. without_waiting q r.subchannel };

    ghost places = { λ r. r.capacity };

    fn poll_recv(&mut self, way: &mut MuxQueues<P>) -> Result<Polled<Message<P>>, Error> {
        let may_come = way.has_route(self.subchannel);
        match way.take(self.subchannel) {
            Some(message) => Ok(Polled::Ready(message)),
            None if may_come => Ok(Polled::Pending),
            None => Err(Error::RecvFailed),
        }
    }

    fn capacity(&self) -> usize {
        self.capacity
    }
}
