//! How subscriptions are told, and lists of what is put.
ghost use Rattle.std.specs.Prelude.{◌≡◌, [], ◌∷◌, ◌++◌, IfOk, OnOk};
ghost use Rattle.p2p_discovery_directory.specs.Putting.{updates_put, sets_put};
ghost use Rattle.p2p_discovery_directory.specs.declared.tracker.put.Put.TheVariants as puts;

use super::Put;
use p2p_base::{List, PublicKey, Set};
use p2p_flow::PeerSetUpdate;
use std::alloc::{AllocError, Global};

// The list of this alone.
pub(super) fn only<P: PublicKey>(alloc: Global, put: Put<P>) -> Result<List<Put<P>>, AllocError>
    ensures { IfOk result (λ l. l ≡ put ∷ []) }
{
    let mut list = Vec::new(alloc);
    list.push(put)?;
    Ok(List::new(list))
}

// Puts an update for each of these subscriptions.
pub(super) fn tell_all<P: PublicKey>(
    tickets: &[u64],
    update: &PeerSetUpdate<P>,
    put: &mut Vec<Put<P>>,
) -> Result<(), AllocError>
    ensures { OnOk result (put.new.items ≡ put.old.items ++ updates_put tickets.now update.now) }
{
    for ticket in tickets {
        tell(*ticket, update, put)?;
    }
    Ok(())
}

// Puts an update for a subscription.
fn tell<P: PublicKey>(
    ticket: u64,
    update: &PeerSetUpdate<P>,
    put: &mut Vec<Put<P>>,
) -> Result<(), AllocError>
    ensures { OnOk result (put.new.items ≡ put.old.items ++ puts.Update ticket update.now ∷ []) }
{
    let update = update.try_clone()?;
    put.push(Put::Update { ticket, update })?;
    Ok(())
}

// Puts a set of blocked keys for each of these subscriptions.
pub(super) fn tell_blocked_all<P: PublicKey>(
    tickets: &[u64],
    blocked: &Set<P>,
    put: &mut Vec<Put<P>>,
) -> Result<(), AllocError>
    ensures { OnOk result (put.new.items ≡ put.old.items ++ sets_put tickets.now blocked.now) }
{
    for ticket in tickets {
        tell_blocked(*ticket, blocked, put)?;
    }
    Ok(())
}

// Puts a set of blocked keys for a subscription.
fn tell_blocked<P: PublicKey>(
    ticket: u64,
    blocked: &Set<P>,
    put: &mut Vec<Put<P>>,
) -> Result<(), AllocError>
    ensures { OnOk result (put.new.items ≡ put.old.items ++ puts.Blocked ticket blocked.now ∷ []) }
{
    let blocked = blocked.try_clone()?;
    put.push(Put::Blocked { ticket, blocked })?;
    Ok(())
}
