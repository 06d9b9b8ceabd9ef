//! Providers of peer sets and blockers, through their bounds alone, and the macro `block!`.
use p2p_base::{Feedback, Key};
use p2p_flow::{BlockedSubscription, Blocker, PeerSetSubscription, Polled, Provider};
use p2p_flow_senders::block;
use p2p_tracker_mailbox::{Mailbox, Oracle};
use std::alloc::{AllocError, Global};

// Whether a subscription to peer sets is told to wait.
fn sets_wait<T: Provider<PublicKey = Key>>(
    alloc: Global,
    provider: &mut T,
    way: &mut T::Way,
) -> Result<bool, AllocError>
    requires { T.serves provider.old way.old }
{
    let (number, told) = provider.subscribe(alloc, way)?;
    let polled = PeerSetSubscription::new(number).poll(provider, way);
    Ok(told == Feedback::Ok && matches!(polled, Ok(Polled::Pending)))
}

// The same of one to blocked keys.
fn blocks_wait<B: Blocker<PublicKey = Key>>(
    alloc: Global,
    blocker: &mut B,
    way: &mut B::Way,
) -> Result<bool, AllocError>
    requires { B.serves blocker.old way.old }
{
    let (number, told) = blocker.blocked(alloc, way)?;
    let polled = BlockedSubscription::new(number).poll(blocker, way);
    Ok(told == Feedback::Ok && matches!(polled, Ok(Polled::Pending)))
}

// Blocks a key, and tells why.
fn shut_out<B: Blocker<PublicKey = Key>>(
    alloc: Global,
    blocker: &mut B,
    way: &mut B::Way,
) -> Result<bool, AllocError>
    requires { B.serves blocker.old way.old }
{
    let told = block!(blocker, alloc, way, Key(5), "a bad frame", 7)?;
    Ok(told == Feedback::Ok)
}

// All that of the oracle of a new tracker, whose mailbox has three places.
fn asked(alloc: Global) -> Result<[bool; 3], AllocError> {
    let mut mailbox = Mailbox::new(alloc, 3)?;
    let mut oracle = Oracle::new(Key(1), 4);
    let sets = sets_wait(alloc, &mut oracle, &mut mailbox.desk)?;
    let blocks = blocks_wait(alloc, &mut oracle, &mut mailbox.desk)?;
    Ok([
        sets,
        blocks,
        shut_out(alloc, &mut oracle, &mut mailbox.desk)?,
    ])
}

#[test]
fn an_oracle_is_asked_through_its_bounds(rt: HostRuntime) {
    assert!(rt; asked(rt.alloc()) == Ok([true; 3]));
}
