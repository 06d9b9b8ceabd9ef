//! How subscriptions are told.
ghost use Rattle.std.specs.Prelude.{◌≡◌, [], ◌∷◌, ◌++◌, OnOk};
ghost use Rattle.p2p_tracker_mailbox.specs.Desk.{with_update, with_set, set_of};
ghost use Rattle.p2p_tracker_mailbox.specs.Mailboxes.{with_desk};
ghost use Rattle.p2p_tracker.specs.Telling.{after_puts, updates_put, sets_put};
ghost use Rattle.p2p_tracker.specs.declared.stepped.Put.TheVariants as puts;

use crate::{Mailbox, Put};
use p2p_base::{PublicKey, Set};
use p2p_flow::PeerSetUpdate;
use std::alloc::AllocError;

// Puts an update for each of these subscriptions.
pub(super) fn tell_all<C: PublicKey>(
    way: &mut Mailbox<C>,
    tickets: &[u64],
    update: &PeerSetUpdate<C>,
    put: &mut Vec<Put<C>>,
) -> Result<(), AllocError>
    ensures put { OnOk result (put.new.items ≡ put.old.items ++ updates_put tickets.now update.now) }
    ensures desk { OnOk result (way.new ≡ after_puts (updates_put tickets.now update.now) way.old) }
{
    for ticket in tickets {
        tell(way, *ticket, update, put)?;
    }
    Ok(())
}

// Puts an update for a subscription.
fn tell<C: PublicKey>(
    way: &mut Mailbox<C>,
    ticket: u64,
    update: &PeerSetUpdate<C>,
    put: &mut Vec<Put<C>>,
) -> Result<(), AllocError>
    ensures put { OnOk result (put.new.items ≡ put.old.items ++ puts.Update ticket update.now ∷ []) }
    ensures desk { OnOk result (way.new ≡ with_desk way.old (with_update way.old.desk ticket update.now)) }
{
    let told = update.try_clone()?;
    let update = update.try_clone()?;
    way.put_update(ticket, told)?;
    put.push(Put::Update { ticket, update })?;
    Ok(())
}

// Puts a set of blocked keys for each of these subscriptions.
pub(super) fn tell_blocked_all<C: PublicKey>(
    way: &mut Mailbox<C>,
    tickets: &[u64],
    blocked: &Set<C>,
    put: &mut Vec<Put<C>>,
) -> Result<(), AllocError>
    ensures put { OnOk result (put.new.items ≡ put.old.items ++ sets_put way.old.desk.sets tickets.now blocked.now) }
    ensures desk { OnOk result (way.new ≡ after_puts (sets_put way.old.desk.sets tickets.now blocked.now) way.old) }
{
    for ticket in tickets {
        tell_blocked(way, *ticket, blocked, put)?;
    }
    Ok(())
}

// Puts a set of blocked keys for a subscription.
pub(super) fn tell_blocked<C: PublicKey>(
    way: &mut Mailbox<C>,
    ticket: u64,
    blocked: &Set<C>,
    put: &mut Vec<Put<C>>,
) -> Result<(), AllocError>
    ensures put { OnOk result (put.new.items ≡ put.old.items ++ puts.Blocked ticket blocked.now (set_of way.old.desk ticket) ∷ []) }
    ensures desk { OnOk result (way.new ≡ with_desk way.old (with_set way.old.desk ticket blocked.now)) }
{
    let told = blocked.try_clone()?;
    let blocked = blocked.try_clone()?;
    let dropped = way.put_blocked(ticket, told);
    put.push(Put::Blocked {
        ticket,
        blocked,
        dropped,
    })?;
    Ok(())
}
