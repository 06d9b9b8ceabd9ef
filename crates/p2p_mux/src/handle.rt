//! `MuxHandle`, which registers subchannels.
ghost use Rattle.std.specs.Prelude.{◌≡◌, ◌≤◌, ◌↔◌, true, Err, length, slice_get, IfOk, OnOk, OnErr, IsTrue};
ghost use Rattle.p2p_mux.specs.Built.{halves, registered_as, IfRegistered};
ghost use Rattle.p2p_mux.specs.Muxed.{requested, answer_at, without_answer, given_up};
ghost use Rattle.p2p_mux.specs.Requests.{is_open, given_answer};
ghost use Rattle.p2p_mux.specs.declared.error.Error.TheVariants as error;

use crate::{Error, MuxQueues, SubReceiver, SubSender};
use p2p_flow::{Channel, Polled};
use p2p_flow_senders::LimitedSender;
use std::alloc::AllocError;
use std::marker::Model;

/// Registers subchannels at a muxer, at any time.
///
/// It is a small name: what is asked through it stands in the muxer's queues, which it is lent. A request goes by its
/// number, and means something only in the queues in which it was made.
///
/// Ports `MuxHandle` of commonware-p2p, whose `register` is a future.
#[derive(Clone, Copy, PartialEq, Eq, Debug)]
pub struct MuxHandle<S> {
    sender: S,
    capacity: usize,
}

impl<S> Model for MuxHandle<S> {
    ghost use Rattle.std.specs.Prelude.{◌≤◌};
    ghost use Rattle.p2p_mux.specs.Built.{Handle};

    ghost Value = { Handle S };

    ghost view = { λ h. record { sender = h.sender; capacity = h.capacity } };

    ghost inverse = { λ v. record { sender = v.sender; capacity = v.capacity } };

    ghost invariant = { λ h. 1 ≤ h.capacity };
}

impl<S> MuxHandle<S> {
    // How many messages wait for each subchannel at most.
    pub(crate) fn capacity(&self) -> usize
        ensures capacity { result ≡ self.now.capacity }
        ensures some { 1 ≤ result }
    {
        self.capacity
    }
}

impl<S: LimitedSender> MuxHandle<S> {
    // The handle of a muxer over a sender, whose subchannels hold so many messages each.
    pub(crate) fn new(sender: S, capacity: usize) -> MuxHandle<S>
        requires { 1 ≤ capacity }
        ensures { result ≡ record { sender = sender; capacity = capacity } }
    {
        MuxHandle { sender, capacity }
    }

    /// Asks the muxer to register a subchannel. Gives the number of the request, whose answer `poll_register` takes.
    ///
    /// `Closed` comes exactly where the muxer has ended, and `Memory` where memory runs out; nothing has changed then.
    ///
    /// Ports `MuxHandle::register` of commonware-p2p, together with `poll_register`.
    pub fn register(
        &self,
        queues: &mut MuxQueues<S::PublicKey>,
        subchannel: Channel,
    ) -> Result<u64, Error>
        ensures number { IfOk result (λ n. n ≡ length queues.old.requests) }
        ensures after { OnOk result (queues.new ≡ requested queues.old subchannel) }
        ensures closed { (result ≡ Err error.Closed) ↔ (queues.old.ended ≡ true) }
        ensures unchanged { OnErr result (queues.new ≡ queues.old) }
    {
        queues.request(subchannel)
    }

    /// Takes the answer to a request: the sender and the receiver of the subchannel, where it is registered. `Pending`
    /// where the muxer hasn't taken the request yet, and hasn't ended.
    ///
    /// `AlreadyRegistered` comes exactly where a route of the subchannel stood when the muxer took the request, and
    /// `Closed` exactly where the muxer ended before it took it. An answer is taken once.
    ///
    /// Ports what `MuxHandle::register` of commonware-p2p waits for.
    pub fn poll_register(
        &self,
        queues: &mut MuxQueues<S::PublicKey>,
        ticket: u64,
    ) -> Result<Polled<(SubSender<S>, SubReceiver<S::PublicKey>)>, Error>
        requires open { IsTrue (is_open (answer_at queues.old ticket)) }
        ensures value { result ≡ registered_as self.now
            (given_answer queues.old.ended (slice_get queues.old.requests ticket)) }
        ensures halves { IfRegistered result
            (λ r. (r.0.sender ≡ self.now.sender) × (r.1.capacity ≡ self.now.capacity)) }
        ensures after { queues.new ≡ without_answer queues.old ticket }
    {
        match queues.answer(ticket) {
            Ok(Polled::Ready(subchannel)) => Ok(Polled::Ready(self.halves(subchannel))),
            Ok(Polled::Pending) => Ok(Polled::Pending),
            Err(error) => Err(error),
        }
    }

    /// Gives a request up, whose answer wasn't taken. One that the muxer hasn't taken yet makes no route. One that made
    /// a route is as a receiver that is closed: what waits for the subchannel is dropped, and the muxer is told, unless
    /// it has ended.
    ///
    /// `Err` only where memory runs out; nothing has changed then.
    ///
    /// In commonware-p2p the future of `register` is dropped, which leaves a route.
    pub fn give_up(
        &self,
        queues: &mut MuxQueues<S::PublicKey>,
        ticket: u64,
    ) -> Result<(), AllocError>
        requires open { IsTrue (is_open (answer_at queues.old ticket)) }
        ensures after { OnOk result (queues.new ≡ given_up queues.old ticket) }
        ensures memory { OnErr result (queues.new ≡ queues.old) }
    {
        queues.give_up(ticket)
    }

    // The sender and the receiver of a subchannel.
    fn halves(&self, subchannel: Channel) -> (SubSender<S>, SubReceiver<S::PublicKey>)
        ensures { result ≡ halves self.now subchannel }
    {
        let sender = SubSender::new(self.sender, subchannel);
        (sender, SubReceiver::new(subchannel, self.capacity))
    }
}
