//! What the row of a step has, by what the actor answered.
ghost use Rattle.std.specs.Prelude.{◌≡◌, ℕ, ◌++◌, ◌∷◌, [], map, OnOk, IfOk};
ghost use Rattle.p2p_log.specs.Lines.{name_of};
ghost use Rattle.p2p_log.specs.Apart.{AreApart};
ghost use Rattle.p2p_log_rules.specs.Effect.{only as only_reply};
ghost use Rattle.p2p_net_queues.specs.Board.{held};
ghost use Rattle.p2p_log_rules.specs.Rows.{taken_row};
ghost use Rattle.p2p_net_router.specs.Relays.{spread_of, with_spread};
ghost use Rattle.p2p_net_router.specs.Names.{Agrees, label, tag_of};
ghost use Rattle.p2p_net_router.specs.Items.{channel_of};
ghost use Rattle.p2p_net_router.specs.Copies.{copies_spread};
ghost use Rattle.p2p_net_router.specs.Holds.{after};
ghost use Rattle.p2p_net_router.specs.Building.{NamesBuild};
ghost use Rattle.p2p_net_router.specs.Oldest.{IsOldest, without, send_of, send_named, told_row};
ghost use Rattle.p2p_net_router.specs.Stepped.{answers_put, listless, with_lists, reply_to, IsNoted};

use crate::Name;
use crate::copies::note_copies;
use crate::lists::{channels_of, end_lists, note_lists};
use crate::names::take;
use bytes::Bytes;
use p2p_base::Key;
use p2p_log::{Item, Queue, Reply};
use p2p_log_rules::Row;
use p2p_net_queues::{Board, Turn, only};
use p2p_router::{Routed, Stepped, Told};
use std::alloc::AllocError;

/// The send of a name's tag.
fn send_in(name: Option<Name>) -> u64
    ensures { result ≡ send_named name }
{
    match name {
        Some(Name { tag: Some(tag), .. }) => tag.0,
        _ => 0,
    }
}

/// The row takes the oldest message. Gives the send of its tag.
fn took(turn: Turn, names: &mut Board<Name>, row: &mut Row) -> Result<u64, AllocError>
    ensures row { OnOk result ((items : _) (x : _) (rest : _) → IsOldest turn.node names.old items x rest → row.new ≡ record row.old { takes = row.old.takes ++ name_of x ∷ [] }) }
    ensures send { IfOk result (λ send. (items : _) (x : _) (rest : _) → IsOldest turn.node names.old items x rest → send ≡ send_of (tag_of x.item)) }
    ensures names { OnOk result ((items : _) (x : _) (rest : _) → IsOldest turn.node names.old items x rest → Agrees turn.node label (held names.new) (without x items)) }
{
    let taken = take(names, row, Queue::Router(turn.node))?;
    Ok(send_in(taken))
}

/// The row puts the answer of a connection, where one was answered.
fn put_answer(turn: Turn, row: &mut Row, answered: Option<u64>) -> Result<(), AllocError>
    ensures { OnOk result (row.new ≡ record row.old { puts = row.old.puts ++ answers_put turn.node answered }) }
{
    match answered {
        None => Ok(()),
        Some(conn) => {
            let queue = Queue::RouterAnswer {
                node: turn.node,
                conn,
            };
            row.puts.push((queue, Item::RouterAnswer))?;
            Ok(())
        }
    }
}

/// The row puts the answer of a connection, where one was answered, and then the lists of peers for these subscriptions.
fn put_lists(
    turn: Turn,
    names: &mut Board<Name>,
    row: &mut Row,
    answered: Option<u64>,
    channels: &[u64],
    told: &Told<Key>,
) -> Result<(), AllocError>
    ensures row { OnOk result ((items : _) → AreApart items → Agrees turn.node label (held names.old) items
        → row.new ≡ with_lists row.old items turn.node (answers_put turn.node answered) told.now.peers (map (channel_of channels.now) told.now.subscriptions)) }
    ensures names { OnOk result ((items : _) → AreApart items → Agrees turn.node label (held names.old) items → row.old.puts ≡ []
        → NamesBuild turn.node names.new (listless turn.node (map (channel_of channels.now) told.now.subscriptions) items) turn.entry row.new) }
{
    let wanted = channels_of(turn.alloc, channels, told.subscriptions.as_slice())?;
    end_lists(turn, names, row, wanted.as_slice())?;
    put_answer(turn, row, answered)?;
    note_lists(turn, names, row, told.peers.as_slice(), wanted.as_slice())?;
    Ok(())
}

/// A connection was answered, where there is one, and the lists of peers put for these subscriptions.
fn note_told(
    turn: Turn,
    names: &mut Board<Name>,
    row: &mut Row,
    answered: Option<u64>,
    channels: &[u64],
    told: &Told<Key>,
) -> Result<(), AllocError>
    ensures row { OnOk result ((items : _) (x : _) (rest : _) → IsOldest turn.node names.old items x rest → row.old ≡ only_reply Reply.Ok
        → row.new ≡ told_row turn.node x items (answers_put turn.node answered) told.now.peers (map (channel_of channels.now) told.now.subscriptions)) }
    ensures names { OnOk result ((items : _) (x : _) (rest : _) → IsOldest turn.node names.old items x rest → row.old ≡ only_reply Reply.Ok → Agrees turn.node label (held names.new) (after turn.entry row.new items)) }
{
    let _ = took(turn, names, row)?;
    put_lists(turn, names, row, answered, channels, told)?;
    Ok(())
}

/// A frame was routed to its recipients.
fn note_content(
    turn: Turn,
    names: &mut Board<Name>,
    row: &mut Row,
    frame: &Bytes,
    copies: &[Routed<Key>],
) -> Result<(), AllocError>
    ensures row { OnOk result ((items : _) (x : _) (rest : _) → IsOldest turn.node names.old items x rest → row.old ≡ only_reply Reply.Ok
        → row.new ≡ with_spread (taken_row (name_of x)) (copies_spread turn.node (send_of (tag_of x.item)) 0 frame.now copies.now (record { puts = []; ends = [] }))) }
    ensures names { OnOk result ((items : _) (x : _) (rest : _) → IsOldest turn.node names.old items x rest → row.old ≡ only_reply Reply.Ok → Agrees turn.node label (held names.new) (after turn.entry row.new items)) }
{
    let send = took(turn, names, row)?;
    note_copies(turn, names, row, send, frame, copies)?;
    Ok(())
}

/// What the row of a step takes, puts and ends, by what the actor answered.
fn note_answer(
    turn: Turn,
    names: &mut Board<Name>,
    row: &mut Row,
    channels: &[u64],
    stepped: &Stepped<Key>,
) -> Result<(), AllocError>
    ensures { OnOk result (row.old ≡ only_reply (reply_to stepped.now) → IsNoted turn.node turn.entry channels.now names.old names.new stepped.now row.new) }
{
    match stepped {
        Stepped::Idle => Ok(()),
        Stepped::Ready { conn, told, .. } => {
            let answered = Some(*conn);
            Ok(note_told(turn, names, row, answered, channels, told)?)
        }
        Stepped::SubscribePeers { told, .. } => Ok(note_told(
            turn, names, row, None, channels, told,
        )?),
        Stepped::Release { told, .. } => Ok(note_told(turn, names, row, None, channels, told)?),
        Stepped::Content { encoded, copies } => Ok(note_content(
            turn,
            names,
            row,
            &encoded.payload,
            copies.as_slice(),
        )?),
    }
}

/// What a step replies.
fn reply_of(stepped: &Stepped<Key>) -> Reply
    ensures { result ≡ reply_to stepped.now }
{
    match stepped {
        Stepped::Idle => Reply::Idle,
        _ => Reply::Ok,
    }
}

/// The row of a step, by what the actor answered.
pub fn note_step(
    turn: Turn,
    names: &mut Board<Name>,
    channels: &[u64],
    stepped: &Stepped<Key>,
) -> Result<Row, AllocError>
    ensures { IfOk result (λ row. IsNoted turn.node turn.entry channels.now names.old names.new stepped.now row) }
{
    let mut row = only(turn.alloc, reply_of(stepped));
    note_answer(turn, names, &mut row, channels, stepped)?;
    Ok(row)
}
