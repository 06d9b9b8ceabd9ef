//! What a muxer does with its queues: what it was asked, and where messages go.
ghost use Rattle.std.specs.Prelude.{◌≡◌, ◌≤◌, None, slice_get, IfOk, OnOk, OnErr};
ghost use Rattle.p2p_base.specs.Queue.{enqueue_answer, enqueued};
ghost use Rattle.p2p_base.specs.declared.policy.Keep.TheVariants as keep;
ghost use Rattle.p2p_mux.specs.Muxed.{answer_at, route_in};
ghost use Rattle.p2p_mux.specs.declared.request.Answer.TheVariants as answer;
ghost use Rattle.p2p_mux.specs.MuxerSteps.{IsTurn};
ghost use Rattle.p2p_mux.specs.MuxerTurns.{without_control, control_turn, register_turn, message_turn, route_turn, backed_up_as};

use crate::queues::Backup;
use crate::request::{Answer, Control, answer_to, note_answer};
use crate::{DropCause, MuxQueues, MuxStepped, routes};
use p2p_base::Sent;
use p2p_flow::{Channel, Message, refusing};
use p2p_wire::parse;
use std::alloc::AllocError;

impl<P: Drop> MuxQueues<P> {
    // Removes the oldest that the muxer was asked. `None` exactly where it was asked nothing.
    pub(crate) fn take_control(&mut self) -> Option<Control>
        ensures value { result ≡ slice_get self.old.control 0 }
        ensures after { self.new ≡ without_control self.old }
    {
        self.control.pop_front()
    }

    // Does what the muxer was asked, where a route has so many places.
    pub(crate) fn serve(
        &mut self,
        control: Control,
        places: usize,
    ) -> Result<MuxStepped, AllocError>
        requires { 1 ≤ places }
        ensures { IsTurn (control_turn control places self.old) self.old result self.new }
    {
        match control {
            Control::Register {
                request,
                subchannel,
            } => self.register(request, subchannel, places),
            Control::Deregister { subchannel } => {
                routes::remove(&mut self.routes, subchannel);
                Ok(MuxStepped::Deregistered { subchannel })
            }
        }
    }

    // Serves a request, unless it was given up.
    fn register(
        &mut self,
        request: u64,
        subchannel: Channel,
        places: usize,
    ) -> Result<MuxStepped, AllocError>
        requires { 1 ≤ places }
        ensures { IsTurn (register_turn (answer_at self.old request)
            (route_in self.old.routes subchannel) request subchannel places self.old)
            self.old result self.new }
    {
        match answer_to(&self.requests, request) {
            Answer::Awaited => self.decide(request, subchannel, places),
            Answer::Registered | Answer::Refused | Answer::Taken => Ok(MuxStepped::GivenUp {
                request,
                subchannel,
            }),
        }
    }

    // Makes a route, unless one stands.
    fn decide(
        &mut self,
        request: u64,
        subchannel: Channel,
        places: usize,
    ) -> Result<MuxStepped, AllocError>
        requires { 1 ≤ places }
        ensures { IsTurn (register_turn answer.Awaited
            (route_in self.old.routes subchannel) request subchannel places self.old)
            self.old result self.new }
    {
        if routes::contains(&self.routes, subchannel) {
            note_answer(&mut self.requests, request, Answer::Refused);
            return Ok(MuxStepped::Refused {
                request,
                subchannel,
            });
        }
        routes::make(self.alloc, &mut self.routes, subchannel, request, places)?;
        note_answer(&mut self.requests, request, Answer::Registered);
        Ok(MuxStepped::Registered {
            request,
            subchannel,
        })
    }

    // Puts a message into the queue of its subchannel, or drops it where it begins with no prefix.
    pub(crate) fn pass(&mut self, message: Message<P>) -> Result<MuxStepped, AllocError>
        ensures { IsTurn (message_turn message self.old) self.old result self.new }
    {
        let (from, bytes) = message;
        match parse(bytes) {
            Ok((subchannel, payload)) => self.route(subchannel, (from, payload)),
            Err(_) => Ok(MuxStepped::Dropped {
                cause: DropCause::PrefixBad,
            }),
        }
    }

    // Puts a message on the route of its subchannel, or without one into the queue of the backup.
    fn route(&mut self, subchannel: Channel, message: Message<P>) -> Result<MuxStepped, AllocError>
        ensures { IsTurn (route_turn (route_in self.old.routes subchannel) subchannel message self.old)
            self.old result self.new }
    {
        match self.routes.get_mut(&subchannel) {
            Some(route) => routes::put_on(route, subchannel, message),
            None => self.back_up(subchannel, message),
        }
    }

    // Puts a message into the queue of the backup. Without a backup it is dropped, as where that queue is full.
    fn back_up(
        &mut self,
        subchannel: Channel,
        message: Message<P>,
    ) -> Result<MuxStepped, AllocError>
        ensures { IsTurn (route_turn None subchannel message self.old) self.old result self.new }
    {
        match &mut self.backup {
            Some(backup) => put_last(backup, subchannel, message),
            None => Ok(MuxStepped::Dropped {
                cause: DropCause::NoRoute { subchannel },
            }),
        }
    }
}

// Puts a message last in the queue of the backup. A full one drops it.
fn put_last<P: Drop>(
    backup: &mut Backup<P>,
    subchannel: Channel,
    message: Message<P>,
) -> Result<MuxStepped, AllocError>
    ensures answer { IfOk result (λ s. s
        ≡ backed_up_as subchannel (enqueue_answer keep.Refuse backup.old (subchannel, message))) }
    ensures after { OnOk result (backup.new ≡ enqueued keep.Refuse backup.old (subchannel, message)) }
    ensures memory { OnErr result (backup.new ≡ backup.old) }
{
    match refusing::put(backup, (subchannel, message)) {
        Ok(Sent::Ok) => Ok(MuxStepped::BackedUp { subchannel }),
        Ok(Sent::Backoff) => Ok(MuxStepped::BackedUp { subchannel }),
        Ok(Sent::Rejected(_)) => Ok(MuxStepped::Dropped {
            cause: DropCause::BackupFull { subchannel },
        }),
        Ok(Sent::Closed(_)) => Ok(MuxStepped::Dropped {
            cause: DropCause::NoRoute { subchannel },
        }),
        Err(_) => Err(AllocError),
    }
}
