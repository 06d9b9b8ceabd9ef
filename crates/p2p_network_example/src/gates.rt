//! The gates: how the two nodes come to a link, and each to a reservation of the other.
ghost use Rattle.std.specs.Prelude.{◌≡◌, ◌<◌, true, IfOk, OnOk};
ghost use Rattle.p2p_gates.specs.ListenerTurns.{begins, is_admitted};

use crate::NAME;
use crate::node::at;
use crate::tracker::{none_waits, serve};
use anyhow::{Result, bail};
use p2p_base::Key;
use p2p_gates::{Attempt, AttemptItem, Dialer, Handshake, Listener, Outcome, Stepped};
use p2p_lookup::Running;
use p2p_tracker::{Actor, Mailbox, Reservation};

/// What came of a step of a gate, which is printed with what it asked the tracker.
fn came(rt: &impl Print, key: Key, who: &'static str, stepped: Stepped<Key>) -> Result<Outcome<Key>>
    ensures { IfOk result (λ o. begins stepped ≡ is_admitted o) }
{
    match stepped {
        Stepped::Idle => bail!("nothing is ready"),
        Stepped::Served {
            took,
            put: None,
            outcome,
            ..
        } => {
            println!(rt; "  node {key}: the {who} took {took:?}")?;
            Ok(outcome)
        }
        Stepped::Served {
            took,
            put: Some(put),
            outcome,
            ..
        } => {
            println!(rt; "  node {key}: the {who} took {took:?}, and asks {put:?}")?;
            Ok(outcome)
        }
    }
}

/// One step of the dialer at the moment 0, and one of the tracker, which it asks. The last argument of the dialer's draws the order in which
/// it dials.
fn dial_step(
    rt: &impl Print,
    key: Key,
    tracker: &mut Actor<Key>,
    way: &mut Mailbox<Key>,
    dialer: &mut Dialer<Key>,
) -> Result<Outcome<Key>> {
    none_waits(way)?;
    let stepped = dialer.step(way, NAME, 0, 0)?;
    let outcome = came(rt, key, "dialer", stepped)?;
    serve(rt, key, tracker, way)?;
    Ok(outcome)
}

/// Lets the dialer ask whom to dial, ask for the one that is listed, and take the grant, which begins an attempt.
fn dial(rt: &impl Print, key: Key, running: &mut Running<Key>) -> Result<Attempt<Key>>
    ensures { running.new.way ≡ running.old.way }
{
    let (tracker, way) = (&mut running.tracker, &mut running.tracker_way);
    let dialer = &mut running.dialer;
    dial_step(rt, key, tracker, way, dialer)?;
    dial_step(rt, key, tracker, way, dialer)?;
    let Outcome::Dialed(attempt) = dial_step(rt, key, tracker, way, dialer)? else {
        bail!("no attempt begins");
    };
    println!(rt; "  node {key}: an attempt dials {:?}", attempt.address())?;
    Ok(attempt)
}

/// One step of an attempt at the moment 0, which is told this first. It has its address, and chooses none.
fn attempt_step(
    rt: &impl Print,
    key: Key,
    way: &mut Mailbox<Key>,
    attempt: &mut Attempt<Key>,
    item: AttemptItem,
) -> Result<Outcome<Key>> {
    attempt.put(item)?;
    let stepped = attempt.step(way, 0, 0)?;
    came(rt, key, "attempt", stepped)
}

/// One step of the listener at the moment 0, and one of the tracker, which it asks.
fn listen_step(
    rt: &impl Print,
    key: Key,
    tracker: &mut Actor<Key>,
    way: &mut Mailbox<Key>,
    listener: &mut Listener<Key>,
) -> Result<Outcome<Key>>
    ensures { IfOk result (λ o. is_admitted o ≡ true → 0 < listener.new.places.held) }
{
    none_waits(way)?;
    let stepped = listener.step(way, NAME, 0)?;
    let outcome = came(rt, key, "listener", stepped)?;
    serve(rt, key, tracker, way)?;
    Ok(outcome)
}

/// Lets the listener hear from where peers may come, and take the arrival of the key 1 over the link: each gate lets it pass, and a
/// handshake begins.
fn listen(rt: &impl Print, key: Key, running: &mut Running<Key>) -> Result<Handshake<Key>>
    ensures placed { OnOk result (0 < running.new.listener.places.held) }
    ensures way { running.new.way ≡ running.old.way }
{
    let (tracker, way) = (&mut running.tracker, &mut running.tracker_way);
    let listener = &mut running.listener;
    listener.arrive(at(1, 40_000), Key(1), NAME)?;
    listen_step(rt, key, tracker, way, listener)?;
    match listen_step(rt, key, tracker, way, listener)? {
        Outcome::Admitted(handshake) => Ok(handshake),
        _ => bail!("no handshake begins"),
    }
}

/// One step of a handshake at the moment 0, and one of the tracker, which it asks.
fn shake_step(
    rt: &impl Print,
    key: Key,
    tracker: &mut Actor<Key>,
    way: &mut Mailbox<Key>,
    handshake: &mut Handshake<Key>,
) -> Result<Outcome<Key>> {
    none_waits(way)?;
    let stepped = handshake.step(way, 0)?;
    let outcome = came(rt, key, "handshake", stepped)?;
    serve(rt, key, tracker, way)?;
    Ok(outcome)
}

/// The reservation with which an attempt or a handshake ended.
fn ready(outcome: Outcome<Key>) -> Result<Reservation<Key>> {
    match outcome {
        Outcome::Ready(reservation) => Ok(reservation),
        _ => bail!("it has not ended well"),
    }
}

/// Lets a handshake take that the peer may connect, then that its keys were exchanged, and then its grant. Its place is free then.
fn shake(
    rt: &impl Print,
    key: Key,
    running: &mut Running<Key>,
    handshake: &mut Handshake<Key>,
) -> Result<Reservation<Key>>
    requires { 0 < running.old.listener.places.held }
    ensures { running.new.way ≡ running.old.way }
{
    let (tracker, way) = (&mut running.tracker, &mut running.tracker_way);
    shake_step(rt, key, tracker, way, handshake)?;
    handshake.finished(way, true)?;
    shake_step(rt, key, tracker, way, handshake)?;
    let reservation = ready(shake_step(rt, key, tracker, way, handshake)?)?;
    running.listener.ended();
    Ok(reservation)
}

/// The node of the key 1 dials that of the key 2, by one attempt and one handshake. Whoever runs the nodes makes the link, and exchanges the
/// keys of both over it: here both are known from the start, so it only says that it is done.
pub fn meet(
    rt: &impl Print,
    first: &mut Running<Key>,
    second: &mut Running<Key>,
) -> Result<(Reservation<Key>, Reservation<Key>)>
    ensures first { first.new.way ≡ first.old.way }
    ensures second { second.new.way ≡ second.old.way }
{
    let mut attempt = dial(rt, Key(1), first)?;
    let mut handshake = listen(rt, Key(2), second)?;
    let way = &mut first.tracker_way;
    attempt_step(rt, Key(1), way, &mut attempt, AttemptItem::Linked)?;
    let listening = shake(rt, Key(2), second, &mut handshake)?;
    let finished = AttemptItem::Finished(true);
    let dialing = ready(attempt_step(rt, Key(1), way, &mut attempt, finished)?)?;
    Ok((dialing, listening))
}
