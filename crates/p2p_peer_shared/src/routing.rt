//! What a connection tells its router, and what becomes of its relay.
ghost use Rattle.std.specs.Prelude.{◌≡◌, ◌≤◌, OnOk};
ghost use Rattle.p2p_flow.specs.Lanes.{empty_lanes};
ghost use Rattle.p2p_peer_shared.specs.Routing.{put_to_router, with_closed};
ghost use Rattle.p2p_router.specs.declared.message.Message.TheVariants as message;

use p2p_base::PublicKey;
use p2p_flow::Relay;
use p2p_router::{Actor, Messenger};
use std::alloc::{AllocError, Global};

/// Closes the relay of a connection, where the router holds one.
pub fn close_relay<P: PublicKey>(router: &mut Actor<P>, conn: u64)
    ensures { router.new ≡ with_closed P.cmp router.old conn }
{
    match router.relay(conn) {
        Some(relay) => relay.close(),
        None => {}
    }
}

/// Tells the router to release a peer. `Err` only where memory runs out.
pub fn put_release<P: PublicKey>(messenger: &mut Messenger<P>, peer: P) -> Result<(), AllocError>
    ensures { OnOk result (messenger.new ≡ put_to_router messenger.old (message.Release peer)) }
{
    match messenger.mailbox() {
        Some(mailbox) => {
            mailbox.release(peer)?;
            Ok(())
        }
        None => Ok(()),
    }
}

/// Tells the router that connection `conn` of a peer is ready, with a new relay of two queues of `size` places. `Err` only where memory
/// runs out.
pub fn put_ready<P: PublicKey>(
    alloc: Global,
    messenger: &mut Messenger<P>,
    peer: P,
    size: usize,
    conn: u64,
) -> Result<(), AllocError>
    requires { 1 ≤ size }
    ensures { OnOk result (messenger.new ≡ put_to_router messenger.old (message.Ready peer (empty_lanes size) conn)) }
{
    let relay = Relay::new(alloc, size)?;
    match messenger.mailbox() {
        Some(mailbox) => match mailbox.ready(peer, relay, conn) {
            Ok(_) => Ok(()),
            Err(_) => Err(AllocError),
        },
        None => Ok(()),
    }
}
