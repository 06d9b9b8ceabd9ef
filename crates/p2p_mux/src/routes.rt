//! Routes, by their subchannels.
ghost use Rattle.std.specs.Prelude.{◌≡◌, ◌≤◌, is_some, IfOk, OnOk, OnErr};
ghost use Rattle.std.specs.BTreeMap.{insert_entry, is_at};
ghost use Rattle.std.specs.Map.{remove_entry};
ghost use Rattle.std.specs.Ordering.{nat_cmp};
ghost use Rattle.p2p_base.specs.Queue.{enqueue_answer, enqueued, without_oldest, closed_queue};
ghost use Rattle.p2p_base.specs.declared.policy.Keep.TheVariants as keep;
ghost use Rattle.p2p_mux.specs.Muxed.{new_route, route_in, with_messages, changed_at, oldest_on};
ghost use Rattle.p2p_mux.specs.MuxerTurns.{routed_as};

use crate::{DropCause, MuxStepped};
use p2p_base::{Mailbox, Sent};
use p2p_flow::{Channel, Message, Refusing, refusing};
use std::alloc::{AllocError, Global};
use std::collections::BTreeMap;

/// What leads the messages of a subchannel to its receiver: the request that made it, and the messages that wait.
#[derive(Drop)]
pub(crate) struct Route<P> {
    pub(crate) request: u64,
    pub(crate) messages: Mailbox<Refusing<Message<P>>>,
}

/// The routes of a muxer.
pub(crate) type Routes<P> = BTreeMap<Channel, Route<P>>;

// Makes the route of a subchannel.
pub(crate) fn make<P: Drop>(
    alloc: Global,
    routes: &mut Routes<P>,
    subchannel: Channel,
    request: u64,
    places: usize,
) -> Result<(), AllocError>
    requires { 1 ≤ places }
    ensures after { OnOk result (routes.new.entries
        ≡ insert_entry nat_cmp routes.old.entries subchannel (new_route request places)) }
    ensures memory { OnErr result (routes.new.entries ≡ routes.old.entries) }
{
    let messages = Mailbox::new(alloc, places)?;
    routes.insert(subchannel, Route { request, messages })?;
    Ok(())
}

// Removes the route of a subchannel, where there is one, with what waits on it.
pub(crate) fn remove<P: Drop>(routes: &mut Routes<P>, subchannel: Channel)
    ensures { routes.new.entries ≡ remove_entry (is_at (nat_cmp subchannel)) routes.old.entries }
{
    let _ = routes.remove(&subchannel);
}

// Whether a subchannel has a route.
pub(crate) fn contains<P>(routes: &Routes<P>, subchannel: Channel) -> bool
    ensures { result ≡ is_some (route_in routes.now.entries subchannel) }
{
    routes.contains_key(&subchannel)
}

// Removes the oldest message that waits on the route of a subchannel.
pub(crate) fn take_from<P>(routes: &mut Routes<P>, subchannel: Channel) -> Option<Message<P>>
    ensures value { result ≡ oldest_on (route_in routes.old.entries subchannel) }
    ensures after { routes.new.entries ≡ changed_at without_oldest routes.old.entries subchannel }
{
    match routes.get_mut(&subchannel) {
        Some(route) => refusing::take(&mut route.messages),
        None => None,
    }
}

// Closes the queue of a subchannel's route, where there is one, and drops what waits on it.
pub(crate) fn close<P: Drop>(routes: &mut Routes<P>, subchannel: Channel)
    ensures { routes.new.entries ≡ changed_at closed_queue routes.old.entries subchannel }
{
    match routes.get_mut(&subchannel) {
        Some(route) => route.messages.close(),
        None => {}
    }
}

// Puts a message last on a route. A full one drops it, as does one whose receiver is gone.
pub(crate) fn put_on<P: Drop>(
    route: &mut Route<P>,
    subchannel: Channel,
    message: Message<P>,
) -> Result<MuxStepped, AllocError>
    ensures answer { IfOk result (λ s. s
        ≡ routed_as route.old.request subchannel (enqueue_answer keep.Refuse route.old.messages message)) }
    ensures after { OnOk result (route.new
        ≡ with_messages route.old (enqueued keep.Refuse route.old.messages message)) }
    ensures memory { OnErr result (route.new ≡ route.old) }
{
    let request = route.request;
    match refusing::put(&mut route.messages, message) {
        Ok(Sent::Ok) => Ok(MuxStepped::Routed {
            request,
            subchannel,
        }),
        Ok(Sent::Backoff) => Ok(MuxStepped::Routed {
            request,
            subchannel,
        }),
        Ok(Sent::Rejected(_)) => Ok(MuxStepped::Dropped {
            cause: DropCause::SubchannelFull { subchannel },
        }),
        Ok(Sent::Closed(_)) => Ok(MuxStepped::Dropped {
            cause: DropCause::NoRoute { subchannel },
        }),
        Err(_) => Err(AllocError),
    }
}
