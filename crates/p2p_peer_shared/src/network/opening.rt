//! How a network begins to send and to receive, or ends both.
ghost use Rattle.std.specs.Prelude.{◌≡◌, ◌≤◌, true, IfOk, OnOk, OnErr, IsTrue};
ghost use Rattle.p2p_peer_shared.specs.Opening.{router_places, can_open, opened, received_from};
ghost use Rattle.p2p_router.specs.Connections.{IsIndexed};
ghost use Rattle.p2p_router.specs.Messenger.{is_unbound, bound_to};
ghost use Rattle.p2p_router.specs.Routes.{new_routes};

use p2p_base::PublicKey;
use p2p_flow_connection::Inbounds;
use p2p_flow_senders::{Channels, Way};
use p2p_router::{self as router, Messenger};
use std::alloc::{AllocError, Global};

/// Whether `open` may be called: `mailbox_size` and the places of all channels sum within `usize`, and nobody bound or closed the
/// messenger.
pub fn can_open<P: PublicKey>(
    mailbox_size: usize,
    channels: &Channels<P>,
    messenger: &Messenger<P>,
) -> bool
    ensures { result ≡ can_open mailbox_size channels.now messenger.now }
{
    let is_unbound = !messenger.bound() && !messenger.closed();
    channels.outbound_mailbox_size(mailbox_size).is_some() && is_unbound
}

/// Makes the router of a network, whose senders reach it from then on: its mailbox holds `mailbox_size` messages and the places of all
/// channels. Where `bind` is false they never will: the messenger is closed, and receivers get no more.
///
/// `Err` only where memory runs out. Nothing has changed then.
pub fn open<P: PublicKey>(
    alloc: Global,
    bind: bool,
    mailbox_size: usize,
    channels: &Channels<P>,
    way: &mut Way<P, Messenger<P>>,
    inbounds: &mut Inbounds<P>,
) -> Result<router::Actor<P>, AllocError>
    requires some { 1 ≤ mailbox_size }
    requires may { can_open mailbox_size channels.now way.old.messenger ≡ true }
    ensures router { IfOk result (λ r. r ≡ new_routes) }
    ensures indexed { IfOk result (λ r. IsIndexed P.cmp r) }
    ensures way { OnOk result (way.new ≡ opened bind (router_places mailbox_size channels.now) way.old) }
    ensures inbounds { OnOk result (inbounds.new ≡ received_from bind inbounds.old) }
    ensures way_unchanged { OnErr result (way.new ≡ way.old) }
    ensures inbounds_unchanged { OnErr result (inbounds.new ≡ inbounds.old) }
{
    let Some(mailbox_size) = channels.outbound_mailbox_size(mailbox_size) else {
        unreachable!()
    };
    let (router, mailbox) = router::Actor::new(alloc, router::Config { mailbox_size })?;
    if bind {
        bind_to(&mut way.messenger, mailbox)?;
    } else {
        way.messenger.close();
        inbounds.end();
    }
    Ok(router)
}

// Gives a messenger the router's mailbox. Nothing has changed where there is no memory for what waits.
fn bind_to<P: Drop>(
    messenger: &mut Messenger<P>,
    mailbox: router::Mailbox<P>,
) -> Result<(), AllocError>
    requires { IsTrue (is_unbound messenger.old.binding) }
    ensures after { OnOk result (messenger.new ≡ bound_to messenger.old mailbox) }
    ensures memory { OnErr result (messenger.new ≡ messenger.old) }
{
    match messenger.bind(mailbox) {
        Ok(()) => Ok(()),
        Err(_) => Err(AllocError),
    }
}
