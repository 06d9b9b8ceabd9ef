//! The newest lists of peers, for the channels that want them.
ghost use Rattle.std.specs.Prelude.{◌≡◌, ℕ, ◌++◌, ◌∷◌, [], drop, filter, flat_map, map, OnOk, IfOk, if◌then◌else◌};
ghost use Rattle.p2p_log.specs.QueueCode.{same_queue};
ghost use Rattle.p2p_log.specs.Lines.{stays, ended_item};
ghost use Rattle.p2p_log_rules.specs.Effect.{peers_put, peers_ends};
ghost use Rattle.p2p_log.specs.Apart.{AreApart};
ghost use Rattle.p2p_net_queues.specs.Board.{held};
ghost use Rattle.p2p_net_router.specs.Names.{Agrees, label, ends_of};
ghost use Rattle.p2p_net_router.specs.Items.{channel_of};
ghost use Rattle.p2p_net_router.specs.Building.{NamesBuild};

use crate::Name;
use crate::names::note;
use p2p_base::{Key, List};
use p2p_log::{End, Item, Queue};
use p2p_log_rules::Row;
use p2p_net_queues::{Board, Turn};
use std::alloc::{AllocError, Global};

/// The channel of a subscription.
fn channel_at(channels: &[u64], subscription: u64) -> u64
    ensures { result ≡ channel_of channels.now subscription }
{
    match channels.get(subscription as usize) {
        Some(channel) => *channel,
        None => 0,
    }
}

/// The channels of these subscriptions.
pub fn channels_of(
    alloc: Global,
    channels: &[u64],
    subscriptions: &[u64],
) -> Result<Vec<u64>, AllocError>
    ensures { IfOk result (λ v. v.items ≡ map (channel_of channels.now) subscriptions.now) }
{
    let mut found = Vec::new(alloc);
    for subscription in subscriptions {
        found.push(channel_at(channels, *subscription))?;
    }
    Ok(found)
}

/// The list that waited for a channel was overwritten.
fn end_list(
    turn: Turn,
    names: &mut Board<Name>,
    row: &mut Row,
    channel: u64,
) -> Result<(), AllocError>
    ensures row { OnOk result (row.new ≡ record row.old { ends = row.old.ends ++ ends_of (held names.old (Queue.Peers turn.node channel)) }) }
    ensures names { OnOk result ((q : _) → held names.new q ≡ (if same_queue (Queue.Peers turn.node channel) q then drop 1 (held names.old q) else held names.old q)) }
{
    let queue = Queue::Peers {
        node: turn.node,
        channel,
    };
    match names.pop(queue) {
        None => Ok(()),
        Some(name) => {
            row.ends.push(End::Item(name.entry, name.place))?;
            Ok(())
        }
    }
}

/// The lists that waited for these channels were overwritten.
pub fn end_lists(
    turn: Turn,
    names: &mut Board<Name>,
    row: &mut Row,
    channels: &[u64],
) -> Result<(), AllocError>
    ensures row { OnOk result ((items : _) → AreApart items → Agrees turn.node label (held names.old) items
        → row.new ≡ record row.old { ends = row.old.ends ++ peers_ends items turn.node channels.now }) }
    ensures names { OnOk result ((items : _) → AreApart items → Agrees turn.node label (held names.old) items
        → Agrees turn.node label (held names.new) (filter (stays (flat_map ended_item (peers_ends items turn.node channels.now))) items)) }
{
    for channel in channels {
        end_list(turn, names, row, *channel)?;
    }
    Ok(())
}

/// A list of these peers was put for each of these channels.
pub fn note_lists(
    turn: Turn,
    names: &mut Board<Name>,
    row: &mut Row,
    keys: &[Key],
    channels: &[u64],
) -> Result<(), AllocError>
    ensures row { OnOk result (row.new ≡ record row.old { puts = row.old.puts ++ map (peers_put turn.node keys.now) channels.now }) }
    ensures names { OnOk result ((n : _) (items : _) → NamesBuild n names.old items turn.entry row.old → NamesBuild n names.new items turn.entry row.new) }
{
    for channel in channels {
        let queue = Queue::Peers {
            node: turn.node,
            channel: *channel,
        };
        let peers = List::from_slice(turn.alloc, keys)?;
        note(turn, names, row, queue, Item::Peers(peers))?;
    }
    Ok(())
}
