//! The calls of a node: registering a channel, starting, reading and dropping a reader.
ghost use Rattle.std.specs.Prelude.{◌≡◌, ◌+◌, ◌<◌, ◌≤◌, ◌^◌, true, false, IfOk, OnOk, IsTrue};
ghost use Rattle.p2p_log_rules.specs.Valid.{is_quota};
ghost use Rattle.p2p_router.specs.Messenger.{is_unbound};
ghost use Rattle.p2p_net_node.specs.Requested.{capacity_by};
ghost use Rattle.p2p_net_calls.specs.Calls.{Registers, Starts, Reads, Closes};

use p2p_log::{Rate, Reply};
use p2p_log_rules::Row;
use p2p_net_node::Node;
use p2p_net_queues::{Turn, only};
use p2p_runtime::Quota;
use std::alloc::AllocError;

/// Registers a channel: its queue holds the bursts of the retained peers, and the router is asked for its lists of peers. A node that
/// has stopped registers none.
pub fn register(node: &mut Node, turn: Turn, channel: u64, quota: Rate) -> Result<Row, AllocError>
    requires room { node.old.stopped ≡ false → node.old.channels.total + capacity_by node.old quota < 2 ^ 64 }
    requires places { 1 ≤ capacity_by node.old quota }
    requires rate { is_quota quota ≡ true }
    ensures does { IfOk result (λ r. Registers channel quota node.old node.new r) }
    ensures failed { OnOk result (node.new.failed ≡ node.old.failed) }
{
    if node.stopped {
        return Ok(only(turn.alloc, Reply::Gone));
    }
    let capacity = node.capacity(quota) as usize;
    let rate = Quota::new(quota.burst, quota.period).unwrap();
    node.channels.register(turn.alloc, channel, capacity, rate)?;
    node.router.subscribe(turn.alloc, channel)?;
    Ok(only(turn.alloc, Reply::Capacity(capacity)))
}

/// Starts the node, at the moment `at`: the subscriptions that waited are put to its router, in order of registration, and
/// its dialer begins. One that has stopped does not start again.
pub fn start(node: &mut Node, turn: Turn, at: u64) -> Result<Row, AllocError>
    requires unbound { node.old.stopped ≡ false → IsTrue (is_unbound node.old.router.messenger.binding) }
    requires size { 1 ≤ node.old.config.mailbox_size }
    requires room { node.old.config.mailbox_size + node.old.channels.total < 2 ^ 64 }
    requires per_ip { is_quota node.old.config.allowed_handshake_rate_per_ip ≡ true }
    requires per_subnet { is_quota node.old.config.allowed_handshake_rate_per_subnet ≡ true }
    ensures does { IfOk result (λ r. Starts turn.entry at node.old node.new r) }
    ensures failed { OnOk result (node.new.failed ≡ node.old.failed) }
{
    if node.stopped {
        return Ok(only(turn.alloc, Reply::Gone));
    }
    let places = node.config.mailbox_size + node.channels.total;
    let row = node.router.start(turn, places)?;
    node.dialing.start(turn.alloc, &node.config, at);
    Ok(row)
}

/// Takes the oldest message of a channel. Where none waits, none will come to a node that has stopped.
pub fn read(node: &mut Node, turn: Turn, channel: u64) -> Result<Row, AllocError>
    ensures does { IfOk result (λ r. Reads channel node.old node.new r) }
    ensures failed { OnOk result (node.new.failed ≡ node.old.failed) }
{
    if !node.channels.inbounds.is_open(channel) {
        return Ok(only(turn.alloc, Reply::Gone));
    }
    let row = node.channels.read(turn.alloc, channel)?;
    Ok(row)
}

/// Drops the reader of a channel: what waits there ends untaken.
pub fn close(node: &mut Node, turn: Turn, channel: u64) -> Result<Row, AllocError>
    ensures does { IfOk result (λ r. Closes channel node.old node.new r) }
    ensures failed { OnOk result (node.new.failed ≡ node.old.failed) }
{
    if node.channels.inbounds.is_open(channel) {
        Ok(node.channels.close(turn.alloc, channel)?)
    } else {
        Ok(only(turn.alloc, Reply::Gone))
    }
}
