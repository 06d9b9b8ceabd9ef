//! The sender and the receiver of channel 7 of a node, and a router with its messenger.
ghost use Rattle.std.specs.Prelude.{◌≤◌, IfOk};
ghost use Rattle.p2p_flow_senders.specs.Limits.{HasLimit};

use p2p_base::{Feedback, Key, Unreliable};
use p2p_flow::{Carrier, Message, Polled};
use p2p_flow_connection::Inbounds;
use p2p_flow_senders::channels::{Receiver, Sender, UnlimitedSender};
use p2p_flow_senders::limited::LimitedSender;
use p2p_flow_senders::{Channels, Way};
use p2p_router::{Actor, Config, Mailbox, Messenger};
use p2p_runtime::Quota;
use std::alloc::{AllocError, Global};

pub const SECOND: u64 = 1_000_000_000;

// What a message is told that was taken.
pub const OK: Unreliable = Unreliable::Outcome(Feedback::Ok);

// Where the senders of a node send.
pub type TestWay = Way<Key, Messenger<Key>>;

// The sender of a channel of a node.
pub type Sends = Sender<Key, Messenger<Key>>;

// A way over a messenger without a router, which keeps what is sent.
pub fn unrouted(alloc: Global) -> TestWay {
    Way::new(alloc, Messenger::unbound(alloc))
}

// A quota of one message a second.
pub fn one_a_second() -> Result<Quota, AllocError> {
    match Quota::with_period(SECOND) {
        Some(quota) => Ok(quota),
        None => Err(AllocError),
    }
}

// A sender on channel 7 of one message a second, which has at most `limit` bytes.
pub fn sender<M: Carrier<Key>>(
    alloc: Global,
    way: &mut Way<Key, M>,
    limit: u32,
) -> Result<Sender<Key, M>, AllocError>
    ensures { IfOk result (λ s. HasLimit M.subscriptions s way.new) }
{
    let quota = one_a_second()?;
    let sender = UnlimitedSender::new(7, limit);
    LimitedSender::new(alloc, way, sender, quota)
}

// The same sender and the receiver of channel 7, where so many messages wait.
pub fn channel<M: Carrier<Key>>(
    alloc: Global,
    way: &mut Way<Key, M>,
    limit: u32,
    places: usize,
) -> Result<(Sender<Key, M>, Receiver<Key>, Inbounds<Key>), AllocError>
    requires { 1 ≤ places }
    ensures { IfOk result (λ r. HasLimit M.subscriptions r.0 way.new) }
{
    let quota = one_a_second()?;
    let mut inbounds: Inbounds<Key> = Inbounds::new(alloc);
    if inbounds.is_registered(7) {
        return Err(AllocError);
    }
    let mut channels: Channels<Key> = Channels::new(alloc, limit, places);
    match channels.register(alloc, way, &mut inbounds, 7, quota) {
        Ok((sender, receiver)) => Ok((sender, receiver, inbounds)),
        Err(_) => Err(AllocError),
    }
}

// Whether a receiver gave the byte `m` of key 2.
pub fn is_m<E: Drop>(received: Result<Polled<Message<Key>>, E>) -> bool {
    match received {
        Ok(Polled::Ready((from, message))) => from == Key(2)
            && message.as_slice() == b"m".as_slice(),
        Ok(Polled::Pending) => false,
        Err(_) => false,
    }
}

// A messenger that is bound to this mailbox.
fn bound_to(alloc: Global, mailbox: Mailbox<Key>) -> Result<Messenger<Key>, AllocError> {
    let mut messenger = Messenger::unbound(alloc);
    if messenger.bind(mailbox).is_err() {
        return Err(AllocError);
    }
    Ok(messenger)
}

// A router, and a messenger that is bound to its mailbox of four places.
pub fn routed(alloc: Global) -> Result<(Actor<Key>, Messenger<Key>), AllocError> {
    let (router, mailbox) = Actor::new(alloc, Config { mailbox_size: 4 })?;
    let messenger = bound_to(alloc, mailbox)?;
    Ok((router, messenger))
}
