//! Messages that a node offers: what the quota of their channel admits, what a check keeps of that, and what is sent.
ghost use Rattle.std.specs.Prelude.{◌≡◌, length, nat_lt, IfOk, OnOk};
ghost use Rattle.p2p_net_calls.specs.Offering.{node_offered, listed, ListTaken, Offers, SendsBy, SendsOffered, Sends, NotesCheck, Checks, SendsChecked};

use bytes::Bytes;
use p2p_base::{Key, List};
use p2p_log::{Recipients, Reply};
use p2p_log_rules::{Checked, Row};
use p2p_net_node::Node;
use p2p_net_queues::{Turn, only};
use p2p_net_router::{Router, Telling};
use std::alloc::{AllocError, Global};

/// What the quota of a channel made of a message that was offered to some keys.
#[derive(Drop)]
pub struct Offered {
    /// Whether it admits none of some.
    pub refused: bool,
    /// The keys that it admits, in order.
    pub admitted: List<Key>,
    /// The latest of the moments, in nanoseconds, from which those are admitted that it refuses.
    pub retry: u128,
    /// The name of the list of peers that was taken, where one waited and the message is for all.
    pub list: Option<(u64, u64)>,
}

/// The row of a message, with the name of the list that was taken for it.
fn with_list(alloc: Global, row: Row, list: Option<(u64, u64)>) -> Result<Row, AllocError>
    ensures { IfOk result (λ r. r ≡ listed list row) }
{
    let Row {
        reply,
        puts,
        ends,
        ..
    } = row;
    let takes = match list {
        Some(name) => List::from_slice(alloc, &[name])?,
        None => List::empty(alloc),
    };
    Ok(Row {
        reply,
        takes,
        puts,
        ends,
    })
}

/// Takes the list of peers that waits for a channel, where a message is for all, and gives its name.
fn take_list(router: &mut Router, channel: u64, to: &Recipients) -> Option<(u64, u64)>
    ensures { ListTaken to.now channel router.old router.new result }
{
    match to {
        Recipients::All => router.take_list(channel),
        Recipients::One(_) => None,
        Recipients::Some(_) => None,
    }
}

/// Whom a message on a channel is for, in order. All are the peers of the newest list that the channel was told of.
fn offered_to(
    node: &Node,
    alloc: Global,
    channel: u64,
    to: &Recipients,
) -> Result<List<Key>, AllocError>
    ensures { IfOk result (λ keys. keys ≡ node_offered node.now channel to.now) }
{
    match to {
        Recipients::All => Ok(node.router.peers(alloc, channel)?),
        Recipients::One(key) => Ok(List::from_slice(alloc, &[*key])?),
        Recipients::Some(keys) => Ok(keys.try_clone(alloc)?),
    }
}

/// Asks the quota of a channel at the moment `at`, in nanoseconds, for each of those whom a message is for.
fn offer(
    node: &mut Node,
    alloc: Global,
    at: u64,
    channel: u64,
    to: &Recipients,
) -> Result<Offered, AllocError>
    ensures does { IfOk result (λ o. Offers channel at to.now node.old node.new o) }
    ensures failed { OnOk result (node.new.failed ≡ node.old.failed) }
{
    let keys = offered_to(node, alloc, channel, to)?;
    let list = take_list(&mut node.router, channel, to);
    let is_for_some = !keys.is_empty();
    let offer = node.channels.offer(alloc, channel, keys, at)?;
    let refused = is_for_some && offer.admitted.is_empty();
    Ok(Offered {
        refused,
        admitted: offer.admitted,
        retry: offer.retry,
        list,
    })
}

/// Sends a message on a channel to those keys that its quota admits at the moment `at`, in nanoseconds, where it is no
/// longer than the node lets it be.
pub fn send(
    node: &mut Node,
    turn: Turn,
    at: u64,
    channel: u64,
    bytes: &Bytes,
    priority: bool,
    to: &Recipients,
) -> Result<Row, AllocError>
    ensures does { IfOk result (λ r. Sends turn.entry channel at priority bytes.now to.now node.old node.new r) }
    ensures failed { OnOk result (node.new.failed ≡ node.old.failed) }
{
    if !node.channels.inbounds.is_registered(channel) {
        return Ok(only(turn.alloc, Reply::Gone));
    }
    let offered = offer(node, turn.alloc, at, channel, to)?;
    let list = offered.list;
    let row = send_offered(node, turn, channel, bytes, priority, offered)?;
    Ok(with_list(turn.alloc, row, list)?)
}

/// Sends a message on a channel to the keys that its quota admitted, where it did not refuse all.
fn send_offered(
    node: &mut Node,
    turn: Turn,
    channel: u64,
    bytes: &Bytes,
    priority: bool,
    offered: Offered,
) -> Result<Row, AllocError>
    ensures does { IfOk result (λ r. SendsOffered offered.refused turn.entry channel priority bytes.now offered.admitted node.old node.new r) }
    ensures failed { OnOk result (node.new.failed ≡ node.old.failed) }
{
    if offered.refused {
        return Ok(only(turn.alloc, Reply::Sent(List::empty(turn.alloc))));
    }
    Ok(send_to(
        node,
        turn,
        Telling::Sent,
        channel,
        bytes,
        priority,
        offered.admitted,
    )?)
}

/// Sends a message on a channel to these keys, where it is no longer than the node lets it be, and the node has not stopped.
fn send_to(
    node: &mut Node,
    turn: Turn,
    telling: Telling,
    channel: u64,
    bytes: &Bytes,
    priority: bool,
    keys: List<Key>,
) -> Result<Row, AllocError>
    ensures does { IfOk result (λ r. SendsBy (nat_lt node.old.config.max_message_size (length bytes.now)) telling turn.entry channel priority bytes.now keys node.old node.new r) }
    ensures failed { OnOk result (node.new.failed ≡ node.old.failed) }
{
    let (size, limit) = (bytes.len(), node.config.max_message_size as usize);
    if size > limit {
        return Ok(only(turn.alloc, Reply::MessageTooLarge { size, limit }));
    }
    if node.stopped {
        let reply = telling.closed(turn.alloc, node.router.number, channel, keys);
        return Ok(only(turn.alloc, reply));
    }
    Ok(
        node.router
            .send(turn, telling, channel, priority, bytes, keys)?,
    )
}

/// Asks the quota of a channel at the moment `at`, in nanoseconds, for each of these, and keeps whom it admits for a message.
pub fn check(
    node: &mut Node,
    turn: Turn,
    at: u64,
    channel: u64,
    to: &Recipients,
) -> Result<Row, AllocError>
    ensures does { IfOk result (λ r. Checks turn.entry channel at to.now node.old node.new r) }
    ensures failed { OnOk result (node.new.failed ≡ node.old.failed) }
{
    if !node.channels.inbounds.is_registered(channel) {
        return Ok(only(turn.alloc, Reply::Gone));
    }
    let offered = offer(node, turn.alloc, at, channel, to)?;
    let list = offered.list;
    let row = note_check(node, turn, channel, offered)?;
    Ok(with_list(turn.alloc, row, list)?)
}

/// Keeps the keys that the quota of a channel admitted, under the number of this event, where it did not refuse all.
fn note_check(
    node: &mut Node,
    turn: Turn,
    channel: u64,
    offered: Offered,
) -> Result<Row, AllocError>
    ensures does { IfOk result (λ r. NotesCheck offered.refused turn.entry channel offered node.old node.new r) }
    ensures failed { OnOk result (node.new.failed ≡ node.old.failed) }
{
    if offered.refused {
        return Ok(only(turn.alloc, Reply::Retry(offered.retry)));
    }
    let keys = offered.admitted.try_clone(turn.alloc)?;
    let checked = Checked {
        channel,
        keys: offered.admitted,
    };
    node.channels.keep_check(turn.entry, checked)?;
    Ok(only(turn.alloc, Reply::Checked(keys)))
}

/// Sends a message to the keys that the check of this event admitted, on its channel, where none was asked for by it yet.
pub fn send_checked(
    node: &mut Node,
    turn: Turn,
    check: u64,
    bytes: &Bytes,
    priority: bool,
) -> Result<Row, AllocError>
    ensures does { IfOk result (λ r. SendsChecked turn.entry check priority bytes.now node.old node.new r) }
    ensures failed { OnOk result (node.new.failed ≡ node.old.failed) }
{
    match node.channels.spend(check) {
        None => Ok(only(turn.alloc, Reply::Gone)),
        Some(checked) => Ok(send_to(
            node,
            turn,
            Telling::Outcome,
            checked.channel,
            bytes,
            priority,
            checked.keys,
        )?),
    }
}
