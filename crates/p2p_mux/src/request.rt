//! What a muxer is asked, and what it answered.
ghost use Rattle.std.specs.Prelude.{◌≡◌, slice_get};
ghost use Rattle.p2p_mux.specs.Requests.{answer_of, with_answer, answer_given, given_answer, answer_left, route_made};

use crate::Error;
use p2p_flow::{Channel, Polled};

/// What waits for the muxer.
#[derive(Clone, Copy, PartialEq, Eq, Debug)]
pub(crate) enum Control {
    // A subchannel is to be registered, by the request of this number.
    Register { request: u64, subchannel: Channel },
    // The receiver of a subchannel is gone, and so its route is to go.
    Deregister { subchannel: Channel },
}

/// What became of a request.
#[derive(Clone, Copy, PartialEq, Eq, Debug)]
pub(crate) enum Answer {
    // The muxer hasn't taken the request yet.
    Awaited,
    // It made a route.
    Registered,
    // A route stood already.
    Refused,
    // Whoever asked took the answer, or gave the request up.
    Taken,
}

/// A request to register a subchannel.
#[derive(Clone, Copy, PartialEq, Eq, Debug)]
pub(crate) struct Request {
    pub(crate) subchannel: Channel,
    pub(crate) answer: Answer,
}

// What became of the request of a number. One that was never made has no answer to give.
pub(crate) fn answer_to(requests: &[Request], request: u64) -> Answer
    ensures { result ≡ answer_of (slice_get requests.now request) }
{
    match requests.get(request as usize) {
        Some(request) => request.answer,
        None => Answer::Taken,
    }
}

// The subchannel whose route the request of a number made, if it made one whose answer wasn't taken.
pub(crate) fn route_made_by(requests: &[Request], request: u64) -> Option<Channel>
    ensures { result ≡ route_made (slice_get requests.now request) }
{
    match requests.get(request as usize) {
        Some(request) if request.answer == Answer::Registered => Some(request.subchannel),
        Some(_) => None,
        None => None,
    }
}

// Notes what became of the request of a number, if it was made.
pub(crate) fn note_answer(requests: &mut [Request], request: u64, answer: Answer)
    ensures { requests.new ≡ with_answer requests.old request answer }
{
    let place = request as usize;
    if place < requests.len() {
        requests[place].answer = answer;
    }
}

// Takes the answer to a request: the subchannel, where it is registered. Where the muxer has ended, a request that it
// didn't take is answered that it is closed.
fn give(request: &mut Request, has_ended: bool) -> Result<Polled<Channel>, Error>
    ensures value { result ≡ answer_given has_ended request.old.answer request.old.subchannel }
    ensures after { request.new ≡ record {
      subchannel = request.old.subchannel;
      answer = answer_left has_ended request.old.answer;
    } }
{
    let subchannel = request.subchannel;
    match request.answer {
        Answer::Registered => {
            request.answer = Answer::Taken;
            Ok(Polled::Ready(subchannel))
        }
        Answer::Refused => {
            request.answer = Answer::Taken;
            Err(Error::AlreadyRegistered(subchannel))
        }
        Answer::Awaited if has_ended => {
            request.answer = Answer::Taken;
            Err(Error::Closed)
        }
        Answer::Awaited | Answer::Taken => Ok(Polled::Pending),
    }
}

// Takes the answer to the request of a number, if it was made.
pub(crate) fn take_answer(
    requests: &mut [Request],
    request: u64,
    has_ended: bool,
) -> Result<Polled<Channel>, Error>
    ensures value { result ≡ given_answer has_ended (slice_get requests.old request) }
    ensures after { requests.new ≡ with_answer requests.old request
        (answer_left has_ended (answer_of (slice_get requests.old request))) }
{
    let place = request as usize;
    if place < requests.len() {
        give(&mut requests[place], has_ended)
    } else {
        Ok(Polled::Pending)
    }
}
