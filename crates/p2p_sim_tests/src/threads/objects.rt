//! A limiter and a messenger that threads share.
ghost use Rattle.std.specs.Prelude.{◌≡◌};
ghost use Rattle.p2p_threads.specs.Account.{IsMadeBy};

use p2p_base::{Feedback, Key, Unreliable};
use p2p_router::{Mailbox, Messenger};
use p2p_runtime::{KeyedRateLimiter, Quota};
use p2p_threads::{
    CheckCall, LimiterObject, MessengerCall, MessengerObject, MessengerReply, Pass, Shared,
    SharedMessenger,
};
use std::alloc::{AllocError, Global};
use std::sync::Wait;

// The place of a check and its answer.
type Checked = (u64, Result<(), u128>);

// The answers of two checks of one key, with their places.
fn check_twice(
    rt: &impl Wait,
    shared: &Shared<LimiterObject<Key>>,
    pass: &mut Pass<LimiterObject<Key>>,
) -> Result<[Checked; 2], AllocError>
    requires { IsMadeBy shared.now pass.old }
{
    let key = Key(1);
    let first = shared.call(rt, pass, CheckCall { key, now: 5 })?;
    Ok([first, shared.call(rt, pass, CheckCall { key, now: 3 })?])
}

// The same of a new limiter, which admits one check in ten nanoseconds.
fn checked_twice(rt: &impl Wait, alloc: Global) -> Result<[Checked; 2], AllocError> {
    let Some(quota) = Quota::new(1, 10) else {
        return Err(AllocError);
    };
    let limiter = LimiterObject::new(KeyedRateLimiter::new(alloc, quota));
    let (shared, mut pass) = Shared::new(alloc, limiter)?;
    check_twice(rt, &shared, &mut pass)
}

#[test]
fn a_shared_limiter_counts_each_check(rt: HostRuntime) {
    let wanted = [(0, Ok(())), (1, Err(15))];
    assert_eq!(rt; checked_twice(&rt, rt.alloc()), Ok(wanted));
}

const CONTENT: MessengerCall<Key> = MessengerCall::Content {
    recipient: Key(2),
    channel: 7,
    number: 300,
    priority: false,
};

fn outcome(feedback: Feedback) -> MessengerReply {
    MessengerReply::Outcome(Unreliable::Outcome(feedback))
}

// What five calls are told, in turn.
fn told(
    rt: &impl Wait,
    shared: &SharedMessenger<Key>,
    pass: &mut Pass<MessengerObject<Key>>,
    calls: [MessengerCall<Key>; 5],
) -> Result<[MessengerReply; 5], AllocError>
    requires { IsMadeBy shared.now pass.old }
{
    let (_, first) = shared.call(rt, pass, calls[0])?;
    let (_, second) = shared.call(rt, pass, calls[1])?;
    let (_, third) = shared.call(rt, pass, calls[2])?;
    let (_, fourth) = shared.call(rt, pass, calls[3])?;
    let (_, fifth) = shared.call(rt, pass, calls[4])?;
    Ok([first, second, third, fourth, fifth])
}

// A messenger that is bound to a mailbox of one place.
fn bound(alloc: Global) -> Result<Messenger<Key>, AllocError> {
    let mut messenger = Messenger::unbound(alloc);
    if messenger.bind(Mailbox::new(alloc, 1)?).is_err() {
        return Err(AllocError);
    }
    Ok(messenger)
}

// What five calls are told there.
fn told_by_bound(
    rt: &impl Wait,
    alloc: Global,
    calls: [MessengerCall<Key>; 5],
) -> Result<[MessengerReply; 5], AllocError> {
    let messenger = MessengerObject::new(bound(alloc)?);
    let (shared, mut pass) = Shared::new(alloc, messenger)?;
    told(rt, &shared, &mut pass, calls)
}

#[test]
fn a_shared_messenger_answers_each_call(rt: HostRuntime) {
    let calls = [
        CONTENT,
        CONTENT,
        MessengerCall::Subscribe,
        MessengerCall::Close,
        CONTENT,
    ];
    let wanted = [
        outcome(Feedback::Ok),
        MessengerReply::Outcome(Unreliable::Rejected),
        MessengerReply::Subscription(0),
        MessengerReply::Closed,
        outcome(Feedback::Closed),
    ];
    assert_eq!(rt; told_by_bound(&rt, rt.alloc(), calls), Ok(wanted));
}
