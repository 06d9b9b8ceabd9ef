//! `gather_for`, with which the sending half of a connection finds what there is to do.
ghost use Rattle.std.specs.Prelude.{◌≡◌, IfOk, OnOk};
ghost use Rattle.p2p_router.specs.Connections.{relay_at};
ghost use Rattle.p2p_peer_shared.specs.Gathering.{first_frames, batch, gathered_as, gathered_of, gathered_over, control_over, router_over};

use bytes::Bytes;
use p2p_base::{List, PublicKey};
use p2p_flow::Relay;
use p2p_flow_connection::{Control, Outbox};
use p2p_router::Actor;
use p2p_wire::EncodedData;
use std::alloc::{AllocError, Global};

/// What there is to do for the sending half of a connection that runs.
#[derive(Drop)]
pub enum Gathered {
    /// No input is ready.
    Nothing,
    /// A kill was met.
    Killed,
    /// No more comes.
    Disconnected,
    /// A batch is to be written.
    Batch(List<Bytes>),
}

// What a batch comes to, by whether a kill was met, its frames, and whether no more comes.
fn judge(killed: bool, frames: Vec<Bytes>, ended: bool) -> Gathered
    ensures { result ≡ gathered_as killed frames.items ended }
{
    if killed {
        return Gathered::Killed;
    }
    if !frames.is_empty() {
        return Gathered::Batch(List::new(frames));
    }
    if ended {
        Gathered::Disconnected
    } else {
        Gathered::Nothing
    }
}

// A batch that begins with this frame, if there is one.
fn begin_batch(alloc: Global, first: Option<Bytes>, size: usize) -> Result<Outbox, AllocError>
    ensures { IfOk result (λ o. o ≡ record { frames = first_frames first; size = size }) }
{
    let mut outbox = Outbox::new(alloc, size);
    if let Some(frame) = first {
        outbox.push(frame)?;
    }
    Ok(outbox)
}

// Fills a batch that begins with this frame, if there is one.
fn gather<C: Control>(
    alloc: Global,
    control: &mut C,
    relay: &mut Relay<EncodedData>,
    first: Option<Bytes>,
    size: usize,
) -> Result<Gathered, AllocError>
    ensures value { IfOk result (λ g. g ≡ gathered_of (C.ended control.old)
        (batch C.frame_of (C.ended control.old) size first (C.waiting control.old) relay.old)) }
    ensures control { OnOk result (C.waiting control.new
        ≡ (batch C.frame_of (C.ended control.old) size first (C.waiting control.old) relay.old).control) }
    ensures ended { C.ended control.new ≡ C.ended control.old }
    ensures keeps { C.keeps control.old control.new }
    ensures relay { OnOk result (relay.new
        ≡ (batch C.frame_of (C.ended control.old) size first (C.waiting control.old) relay.old).lanes) }
{
    let mut outbox = begin_batch(alloc, first, size)?;
    let killed = outbox.fill(alloc, control, relay)?;
    let ended = control.closed() || relay.is_closed();
    Ok(judge(killed, outbox.drain(), ended))
}

/// Fills a batch for connection `conn`, which begins with the frame `first`, if there is one, from its control and its relay, until it has `size`
/// frames. Where the router holds no relay for the connection, no more comes.
///
/// `Err` only where memory runs out. The batch is given up with its connection then.
pub fn gather_for<P: PublicKey, C: Control>(
    alloc: Global,
    control: &mut C,
    router: &mut Actor<P>,
    conn: u64,
    first: Option<Bytes>,
    size: usize,
) -> Result<Gathered, AllocError>
    ensures value { IfOk result (λ g. g ≡ gathered_over C.frame_of (C.ended control.old) size first
        (C.waiting control.old) (relay_at P.cmp router.old conn)) }
    ensures control { OnOk result (C.waiting control.new ≡ control_over C.frame_of (C.ended control.old) size first
        (C.waiting control.old) (relay_at P.cmp router.old conn)) }
    ensures ended { C.ended control.new ≡ C.ended control.old }
    ensures keeps { C.keeps control.old control.new }
    ensures router { OnOk result (router.new ≡ router_over C.frame_of (C.ended control.old) size first
        (C.waiting control.old) P.cmp router.old conn (relay_at P.cmp router.old conn)) }
{
    match router.relay(conn) {
        Some(relay) => gather(alloc, control, relay, first, size),
        None => Ok(Gathered::Disconnected),
    }
}
