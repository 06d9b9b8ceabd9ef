//! `Muxer`, which puts each message of a receiver into the queue of its subchannel.
ghost use Rattle.std.specs.Prelude.{◌≡◌, ℕ, List as Seq, true, false, None, IfOk, OnOk, OnErr, IsErr};
ghost use Rattle.p2p_mux.specs.Built.{new_muxer};
ghost use Rattle.p2p_mux.specs.MuxerSteps.{found, IsStepOf, IsTurn, IsAtWork};
ghost use Rattle.p2p_mux.specs.MuxerTurns.{received_turn};
ghost use Rattle.p2p_mux.specs.Passing.{TakesMessage, IsPassed};

use crate::{MuxQueues, MuxStepped};
use p2p_flow::Polled;
use p2p_flow_senders::{LimitedSender, Receiver};
use std::alloc::AllocError;
use std::marker::Model;

/// Puts each message that a receiver gives into the queue of its subchannel, without its prefix.
///
/// Requests for subchannels, and the queues, stand in its `MuxQueues`, which each step is lent.
///
/// Ports `Muxer` of commonware-p2p, whose `run` is a loop over these steps.
#[derive(Drop)]
pub struct Muxer<S, R> {
    pub(crate) sender: S,
    pub(crate) receiver: R,
    has_failed: bool,
}

impl<S, R> Model for Muxer<S, R> {
    ghost use Rattle.p2p_mux.specs.Built.{Wrapping};

    ghost Value = { Wrapping S R };

    ghost view = { λ m. record { sender = m.sender; receiver = m.receiver; has_failed = m.has_failed } };
}

// A muxer over a sender and a receiver.
pub(crate) fn muxer_of<S, R>(sender: S, receiver: R) -> Muxer<S, R>
    ensures { result ≡ new_muxer sender receiver }
{
    Muxer {
        sender,
        receiver,
        has_failed: false,
    }
}

impl<S: LimitedSender, R: Receiver<PublicKey = S::PublicKey>> Muxer<S, R>
where
    R::Error: Drop,
{
    /// Takes the oldest that it was asked, and does it; where it was asked nothing, it takes the oldest message of its
    /// receiver, and puts it into one queue or drops it for one cause. What it took and what became of it is answered:
    /// `Idle` where neither is there, and `Ended` where the receiver had no more to give, in this call or before, or
    /// `MuxQueues::end` was called before.
    ///
    /// A route is made for a request where none of its subchannel stands, and it holds as many messages as the receiver
    /// does.
    ///
    /// `Err` only where memory runs out: what was taken is lost then, and nothing else has changed. Each later step
    /// answers so, and takes nothing.
    ///
    /// Ports a turn of `Muxer::run` of commonware-p2p.
    pub fn step(
        &mut self,
        queues: &mut MuxQueues<S::PublicKey>,
        way: &mut R::Way,
    ) -> Result<MuxStepped, AllocError>
        requires { R.serves self.old.receiver way.old }
        ensures step { IsStepOf (found R.places R.received R.after_recv self.old.has_failed self.old.receiver
            queues.old way.old) result queues.new way.new }
        // What the turn makes of a message, told of each queue apart.
        ensures passed { (m : S.PublicKey × Seq ℕ) →
            TakesMessage queues.old (R.received self.old.receiver way.old) m →
            IfOk result (λ s. IsPassed s m queues.old queues.new) }
        ensures same { OnOk result (self.new ≡ self.old) }
        ensures memory { OnErr result (self.new ≡ record self.old { has_failed = true }) }
        ensures failed { self.old.has_failed ≡ true → IsErr result }
        ensures serves { R.serves self.new.receiver way.new }
    {
        if self.has_failed {
            return Err(AllocError);
        }
        match work(&mut self.receiver, queues, way) {
            Ok(stepped) => Ok(stepped),
            Err(_) => {
                self.has_failed = true;
                Err(AllocError)
            }
        }
    }
}

// What a step does.
fn work<R: Receiver>(
    receiver: &mut R,
    queues: &mut MuxQueues<R::PublicKey>,
    way: &mut R::Way,
) -> Result<MuxStepped, AllocError>
where
    R::PublicKey: Drop,
    R::Error: Drop,
    requires { R.serves receiver.old way.old }
    ensures step { IsStepOf (found R.places R.received R.after_recv false receiver.old queues.old way.old)
        result queues.new way.new }
    ensures same { receiver.new ≡ receiver.old }
    ensures serves { R.serves receiver.new way.new }
{
    if queues.has_ended() {
        return Ok(MuxStepped::Ended);
    }
    match queues.take_control() {
        Some(control) => queues.serve(control, receiver.capacity()),
        None => receive(receiver, queues, way),
    }
}

// Takes the oldest message of the receiver, and puts it into its queue. Where the receiver has ended, the muxer does.
fn receive<R: Receiver>(
    receiver: &mut R,
    queues: &mut MuxQueues<R::PublicKey>,
    way: &mut R::Way,
) -> Result<MuxStepped, AllocError>
where
    R::PublicKey: Drop,
    R::Error: Drop,
    requires { R.serves receiver.old way.old }
    ensures turn { IsTurn (received_turn (R.received receiver.old way.old) queues.old) queues.old result queues.new }
    ensures taken { OnErr result (IsAtWork None (R.received receiver.old way.old)) }
    ensures way { way.new ≡ R.after_recv receiver.old way.old }
    ensures same { receiver.new ≡ receiver.old }
    ensures serves { R.serves receiver.new way.new }
{
    match receiver.poll_recv(way) {
        Ok(Polled::Ready(message)) => queues.pass(message),
        Ok(Polled::Pending) => Ok(MuxStepped::Idle),
        Err(_) => {
            queues.end();
            Ok(MuxStepped::Ended)
        }
    }
}
