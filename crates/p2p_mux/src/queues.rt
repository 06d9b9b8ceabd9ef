//! `MuxQueues`, what waits for a muxer, and what it has put for receivers.
ghost use Rattle.std.specs.Prelude.{◌≡◌, ◌↔◌, true, Err, None, slice_get, length, IfOk, OnOk, OnErr};
ghost use Rattle.p2p_mux.specs.Muxed.{new_queues, has_route, waiting_on, without_waiting, requested, answer_at, without_answer, without_receiver, given_up, ended_queues};
ghost use Rattle.p2p_mux.specs.Received.{oldest_in, without_backed_up};
ghost use Rattle.p2p_mux.specs.Requests.{given_answer, is_open};
ghost use Rattle.p2p_mux.specs.declared.error.Error.TheVariants as error;

use crate::Error;
use crate::request::{
    Answer, Control, Request, answer_to, note_answer, route_made_by, take_answer,
};
use crate::routes::{self, Routes};
use p2p_base::Mailbox;
use p2p_flow::{Channel, Message, Polled, Refusing, refusing};
use std::alloc::{AllocError, Global};
use std::collections::{BTreeMap, VecDeque};
use std::marker::Model;

/// How many places for what a muxer is asked `MuxQueues::new` makes at once.
const FIRST_PLACES: usize = 4;

/// What waits for a muxer, what became of requests, and the messages that wait for the receivers of subchannels and of
/// the backup.
///
/// A handle, the receivers and the muxer are lent this value. For each request it keeps a small entry for good.
///
/// In commonware-p2p these are channels between them.
#[derive(Drop)]
pub struct MuxQueues<P> {
    pub(crate) alloc: Global,
    pub(crate) control: VecDeque<Control>,
    pub(crate) requests: Vec<Request>,
    pub(crate) routes: Routes<P>,
    pub(crate) backup: Option<Backup<P>>,
    pub(crate) ended: bool,
}

/// The messages without a route, with their subchannels.
pub(crate) type Backup<P> = Mailbox<Refusing<(Channel, Message<P>)>>;

impl<P> Model for MuxQueues<P> {
    ghost use Rattle.p2p_mux.specs.Muxed.{Muxed};

    ghost Value = { Muxed P };

    ghost view = { λ q. record {
      control = q.control.items;
      requests = q.requests.items;
      routes = q.routes.entries;
      backup = q.backup;
      ended = q.ended;
    } };
}

impl<P: Drop> MuxQueues<P> {
    // The queues of a muxer that was asked nothing, without a backup.
    pub(crate) fn new(alloc: Global) -> Result<MuxQueues<P>, AllocError>
        ensures { IfOk result (λ q. q ≡ new_queues None) }
    {
        let control = VecDeque::with_capacity(alloc, FIRST_PLACES)?;
        Ok(MuxQueues {
            alloc,
            control,
            requests: Vec::new(alloc),
            routes: BTreeMap::new(alloc),
            backup: None,
            ended: false,
        })
    }

    /// Ends the muxer. What it was asked and hasn't taken is dropped: these requests are answered `Closed`, as each
    /// later one is. Other answers, and the messages that wait for the receivers of subchannels and of the backup, can
    /// still be taken.
    ///
    /// In commonware-p2p the muxer ends when its task does.
    pub fn end(&mut self)
        ensures { self.new ≡ ended_queues self.old }
    {
        self.control.clear();
        self.ended = true;
    }

    /// Whether the muxer has ended.
    pub fn has_ended(&self) -> bool
        ensures { result ≡ self.now.ended }
    {
        self.ended
    }

    /// Whether a request has an answer to give, now or later: it was made here, and its answer was neither taken nor
    /// given up.
    pub fn is_open(&self, ticket: u64) -> bool
        ensures { result ≡ is_open (answer_at self.now ticket) }
    {
        match answer_to(&self.requests, ticket) {
            Answer::Awaited | Answer::Registered | Answer::Refused => true,
            Answer::Taken => false,
        }
    }

    // Asks that a subchannel be registered. Gives the number of the request.
    pub(crate) fn request(&mut self, subchannel: Channel) -> Result<u64, Error>
        ensures number { IfOk result (λ n. n ≡ length self.old.requests) }
        ensures after { OnOk result (self.new ≡ requested self.old subchannel) }
        ensures closed { (result ≡ Err error.Closed) ↔ (self.old.ended ≡ true) }
        ensures causes { OnErr result (self.new ≡ self.old) }
    {
        if self.ended {
            return Err(Error::Closed);
        }
        let request = self.requests.len() as u64;
        self.requests.reserve(1)?;
        self.control.reserve(1)?;
        self.requests.push_reserved(Request {
            subchannel,
            answer: Answer::Awaited,
        });
        self.control.push_back_reserved(Control::Register {
            request,
            subchannel,
        });
        Ok(request)
    }

    // Takes the answer to a request: the subchannel, where it is registered.
    pub(crate) fn answer(&mut self, request: u64) -> Result<Polled<Channel>, Error>
        ensures value { result ≡ given_answer self.old.ended (slice_get self.old.requests request) }
        ensures after { self.new ≡ without_answer self.old request }
    {
        let has_ended = self.ended;
        take_answer(&mut self.requests, request, has_ended)
    }

    // Gives a request up.
    pub(crate) fn give_up(&mut self, request: u64) -> Result<(), AllocError>
        ensures after { OnOk result (self.new ≡ given_up self.old request) }
        ensures memory { OnErr result (self.new ≡ self.old) }
    {
        if let Some(subchannel) = route_made_by(&self.requests, request) {
            self.close(subchannel)?;
        }
        note_answer(&mut self.requests, request, Answer::Taken);
        Ok(())
    }

    // Tells that the receiver of a subchannel is gone.
    pub(crate) fn close(&mut self, subchannel: Channel) -> Result<(), AllocError>
        ensures after { OnOk result (self.new ≡ without_receiver self.old subchannel) }
        ensures memory { OnErr result (self.new ≡ self.old) }
    {
        if !self.ended {
            self.control.push_back(Control::Deregister { subchannel })?;
        }
        routes::close(&mut self.routes, subchannel);
        Ok(())
    }

    // Whether a subchannel has a route.
    pub(crate) fn has_route(&self, subchannel: Channel) -> bool
        ensures { result ≡ has_route self.now subchannel }
    {
        !self.ended && routes::contains(&self.routes, subchannel)
    }

    // Removes the oldest message that waits for a subchannel.
    pub(crate) fn take(&mut self, subchannel: Channel) -> Option<Message<P>>
        ensures value { result ≡ waiting_on self.old subchannel }
        ensures after { self.new ≡ without_waiting self.old subchannel }
    {
        routes::take_from(&mut self.routes, subchannel)
    }

    // Removes the oldest message that waits for the backup.
    pub(crate) fn take_backed_up(&mut self) -> Option<(Channel, Message<P>)>
        ensures value { result ≡ oldest_in self.old.backup }
        ensures after { self.new ≡ without_backed_up self.old }
    {
        match &mut self.backup {
            Some(backup) => refusing::take(backup),
            None => None,
        }
    }
}
