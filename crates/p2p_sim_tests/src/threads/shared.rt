//! A counter that threads share.
ghost use Rattle.std.specs.Prelude.{◌+◌, ◌%◌, ◌^◌};
ghost use Rattle.p2p_threads.specs.Account.{IsMadeBy, IsAlike};

use p2p_threads::{Out, Pass, Served, Shared};
use std::alloc::{AllocError, Global};
use std::sync::Wait;
use std::thread;
use std::thread::{Threads, yield_now};

const CALLERS: usize = 4;

const CALLS: u64 = 1000;

/// A sum that wraps. It finds no memory to add the greatest number.
#[derive(Drop)]
struct Counter {
    sum: u64,
}

#[derive(Clone, Copy, PartialEq, Eq, Debug)]
struct Add(u64);

impl Served for Counter {
    type Call = Add;

    type Reply = u64;

    ghost reply = { λ o c. (o.sum + c.0) % 2 ^ 64 };

    ghost next = { λ o c. record { sum = (o.sum + c.0) % 2 ^ 64 } };

    fn serve(&mut self, _alloc: Global, call: Add) -> Result<u64, AllocError> {
        if call.0 == u64::MAX {
            return Err(AllocError);
        }
        self.sum = self.sum.wrapping_add(call.0);
        Ok(self.sum)
    }
}

// The places and the replies of two calls, between which one was refused, or `None` where it wasn't.
fn call_twice(
    rt: &impl Wait,
    shared: &Shared<Counter>,
    pass: &mut Pass<Counter>,
) -> Result<Option<[(u64, u64); 2]>, AllocError>
    requires { IsMadeBy shared.now pass.old }
    ensures { IsAlike pass.old pass.new }
{
    let first = shared.call(rt, pass, Add(2))?;
    let is_refused = shared.call(rt, pass, Add(u64::MAX)).is_err();
    let second = shared.call(rt, pass, Add(3))?;
    Ok(is_refused.then_some([first, second]))
}

// The sum once both passes are joined, and whether the history is that of the three calls.
fn closed_by_both(
    rt: &impl Wait,
    shared: Shared<Counter>,
    mut one: Pass<Counter>,
    two: Pass<Counter>,
) -> Option<(u64, bool)>
    requires one { IsMadeBy shared one }
    requires two { IsMadeBy shared two }
{
    shared.join(&mut one, two);
    let wanted = [(Add(2), 2), (Add(3), 5), (Add(4), 9)];
    match shared.close(rt, one) {
        Ok((counter, history)) => Some((counter.sum, history.as_slice() == wanted.as_slice())),
        Err(_) => None,
    }
}

// The same where one pass alone does not close.
fn closed(
    rt: &impl Wait,
    shared: Shared<Counter>,
    one: Pass<Counter>,
    two: Pass<Counter>,
) -> Option<(u64, bool)>
    requires one { IsMadeBy shared one }
    requires two { IsMadeBy shared two }
{
    match shared.close(rt, one) {
        Err(Out(shared, one)) => closed_by_both(rt, shared, one, two),
        Ok(_) => None,
    }
}

// The answers of two calls with one pass and of a third with another, and what both passes close with.
type Called = (
    Result<Option<[(u64, u64); 2]>, AllocError>,
    Result<(u64, u64), AllocError>,
    Option<(u64, bool)>,
);

// The same where the other pass is split off the first after its calls.
fn called(rt: &impl Wait, alloc: Global) -> Result<Called, AllocError> {
    let (shared, mut one) = Shared::new(alloc, Counter { sum: 0 })?;
    let twice = call_twice(rt, &shared, &mut one);
    let Ok(mut two) = shared.split(&mut one) else {
        unreachable!()
    };
    let third = shared.call(rt, &mut two, Add(4));
    Ok((twice, third, closed(rt, shared, one, two)))
}

#[test]
fn two_passes_make_one_history_without_the_call_that_was_refused(rt: HostRuntime) {
    let twice = Some([(0, 2), (1, 5)]);
    let wanted = (Ok(twice), Ok((2, 9)), Some((9, true)));
    assert_eq!(rt; called(&rt, rt.alloc()), Ok(wanted));
}

// One caller's calls, in order.
fn adds(
    rt: &impl Wait,
    shared: &Shared<Counter>,
    mut pass: Pass<Counter>,
    from: u64,
) -> (Pass<Counter>, Result<(), AllocError>)
    requires { IsMadeBy shared.now pass }
    ensures { IsAlike pass result.0 }
{
    for i in 0..CALLS {
        if shared
            .call(rt, &mut pass, Add(from.wrapping_add(i)))
            .is_err()
        {
            return (pass, Err(AllocError));
        }
        yield_now();
    }
    (pass, Ok(()))
}

// Two callers at once.
fn two_add<R: Threads + Wait + Sync>(
    rt: &R,
    shared: &Shared<Counter>,
    mut pass: Pass<Counter>,
    from: u64,
) -> (Pass<Counter>, Result<(), AllocError>)
    requires { IsMadeBy shared.now pass }
    ensures { IsAlike pass result.0 }
{
    let Ok(other) = shared.split(&mut pass) else {
        unreachable!()
    };
    let (one, two) = thread::join(
        rt,
        move || -> (Pass<Counter>, Result<(), AllocError>)
            requires { IsMadeBy shared.now pass }
            ensures { IsAlike pass result.0 }
        { adds(rt, shared, pass, from) },
        move || -> (Pass<Counter>, Result<(), AllocError>)
            requires { IsMadeBy shared.now other }
            ensures { IsAlike other result.0 }
        { adds(rt, shared, other, from.wrapping_add(CALLS)) },
    );
    let (mut pass, told) = one;
    let (other, other_told) = two;
    shared.join(&mut pass, other);
    (pass, told.and(other_told))
}

// Four callers at once.
fn four_add<R: Threads + Wait + Sync>(
    rt: &R,
    shared: &Shared<Counter>,
    mut pass: Pass<Counter>,
) -> (Pass<Counter>, Result<(), AllocError>)
    requires { IsMadeBy shared.now pass }
    ensures { IsAlike pass result.0 }
{
    let Ok(other) = shared.split(&mut pass) else {
        unreachable!()
    };
    let (one, two) = thread::join(
        rt,
        move || -> (Pass<Counter>, Result<(), AllocError>)
            requires { IsMadeBy shared.now pass }
            ensures { IsAlike pass result.0 }
        { two_add(rt, shared, pass, 0) },
        move || -> (Pass<Counter>, Result<(), AllocError>)
            requires { IsMadeBy shared.now other }
            ensures { IsAlike other result.0 }
        { two_add(rt, shared, other, 2 * CALLS) },
    );
    let (mut pass, told) = one;
    let (other, other_told) = two;
    shared.join(&mut pass, other);
    (pass, told.and(other_told))
}

// Whether each caller's calls stand in its order, each once, with the sum up to it.
fn is_in_order(history: &[(Add, u64)]) -> bool {
    let mut calls = [0u64; CALLERS];
    let mut sum: u64 = 0;
    for (Add(call), reply) in history.iter() {
        let Some(next) = calls.get_mut((*call / CALLS) as usize) else {
            return false;
        };
        sum = sum.wrapping_add(*call);
        if *next != *call % CALLS || *reply != sum {
            return false;
        }
        *next = next.wrapping_add(1);
    }
    calls == [CALLS; CALLERS]
}

// Whether the history of a counter is in order. False also where a call is out.
fn has_order(rt: &impl Wait, shared: Shared<Counter>, pass: Pass<Counter>) -> bool
    requires { IsMadeBy shared pass }
{
    match shared.close(rt, pass) {
        Ok((_, history)) => is_in_order(history.as_slice()),
        Err(_) => false,
    }
}

// What four callers at once are told, and whether their history is in order.
fn four_added<R: Threads + Wait + Sync>(
    rt: &R,
    alloc: Global,
) -> Result<(Result<(), AllocError>, bool), AllocError> {
    let (shared, pass) = Shared::new(alloc, Counter { sum: 0 })?;
    let (pass, told) = four_add(rt, &shared, pass);
    Ok((told, has_order(rt, shared, pass)))
}

#[test]
fn four_callers_keep_their_order(rt: HostRuntime) {
    assert_eq!(rt; four_added(&rt, rt.alloc()), Ok((Ok(()), true)));
}
