//! What the sending half of a connection takes and writes.
ghost use Rattle.std.specs.Prelude.{◌≡◌, ◌≤◌, ◌+◌, ◌++◌, false, cond, if◌then◌else◌, length, take as first_of, IfOk, IfSome, OnOk, IsTrue};
ghost use Rattle.p2p_runtime.specs.Streams.{Rose};
ghost use Rattle.p2p_router.specs.Connections.{relay_at};
ghost use Rattle.p2p_lookup.specs.Sending.{ping_first, wrote, sent_as, sent_by, stage_by, with_stage, control_by, router_by, frames_in, written_in, send_fails};
ghost use Rattle.p2p_tracker_directory.specs.Reserved.{peer_of};
ghost use Rattle.p2p_lookup.specs.declared.peer.live.Stage.TheVariants as stage;
ghost use Rattle.p2p_lookup.specs.declared.peer.stepped.Stepped.TheVariants as stepped;

use super::live::{Live, Stage};
use super::receiving::ended;
use super::{Error, Limits, Mailbox, Stepped};
use bytes::Bytes;
use p2p_base::{List, PublicKey};
use p2p_flow_connection as connection;
use p2p_peer_shared::{Gathered, gather_for, write_frames};
use p2p_router::Actor;
use p2p_runtime::Link;
use p2p_wire::Message;
use std::alloc::{AllocError, Global};

// The ping with which a batch begins, where one is due.
fn first_ping(alloc: Global, due: bool) -> Result<Option<Bytes>, AllocError>
    ensures { IfOk result (λ f. f ≡ ping_first due) }
{
    if !due {
        return Ok(None);
    }
    Ok(Some(Message::Ping.encode(alloc)?))
}

// Writes a batch to a link.
fn write_batch<P: PublicKey, L: Link>(
    alloc: Global,
    link: &mut L,
    ping: bool,
    frames: List<Bytes>,
) -> Result<Stepped<P>, AllocError>
    ensures stepped { IfOk result (λ s. s ≡ wrote ping frames (written_in s)) }
    ensures in_flight { IfOk result (λ s. L.in_flight link.new ≡ L.in_flight link.old
        ++ first_of (written_in s) (frames_in s)) }
    ensures within { IfOk result (λ s. written_in s ≤ length (frames_in s)) }
    ensures fault { IfOk result (λ s. IsTrue (send_fails s) → Rose (L.faults_of link.old) (L.faults_of link.new)) }
    ensures no_fault { IfOk result (λ s. send_fails s ≡ false → L.faults_of link.new ≡ L.faults_of link.old) }
    ensures count { L.faults_of link.old ≤ L.faults_of link.new }
    ensures told { IfOk result (λ s. IfSome (L.write_fails link.old) (λ b. written_in s ≡ cond b 0 (length (frames_in s)))) }
    ensures waiting { L.waiting link.new ≡ L.waiting link.old }
{
    let written = write_frames(alloc, link, frames.as_slice())?;
    if written == frames.len() {
        return Ok(Stepped::Sent { ping, frames });
    }
    Ok(Stepped::Ended {
        error: Error::SendFailed,
        frames,
        written,
    })
}

impl<P: PublicKey> Live<P> {
    // Takes the first ready input of the sending half.
    pub(crate) fn send<L: Link>(
        &mut self,
        alloc: Global,
        conn: u64,
        limits: Limits,
        control: &mut Mailbox,
        link: &mut L,
        router: &mut Actor<P>,
        now: u64,
    ) -> Result<Stepped<P>, AllocError>
        ensures stepped { IfOk result (λ s. s
            ≡ sent_by self.old.stage (peer_of self.old.reservation) limits.send_batch_size control.old
            (relay_at P.cmp router.old conn) now (written_in s)) }
        ensures live { OnOk result (self.new ≡ with_stage self.old
            (stage_by self.old.stage limits.ping_frequency (relay_at P.cmp router.old conn) now)) }
        ensures control { OnOk result (control.new
            ≡ control_by self.old.stage limits.send_batch_size control.old (relay_at P.cmp router.old conn) now) }
        ensures router { OnOk result (router.new
            ≡ router_by P.cmp self.old.stage limits.send_batch_size control.old router.old conn
            (relay_at P.cmp router.old conn) now) }
        ensures in_flight { IfOk result (λ s. L.in_flight link.new ≡ L.in_flight link.old
            ++ first_of (written_in s) (frames_in s)) }
        ensures within { IfOk result (λ s. written_in s ≤ length (frames_in s)) }
        ensures fault { IfOk result (λ s. IsTrue (send_fails s) → Rose (L.faults_of link.old) (L.faults_of link.new)) }
        ensures no_fault { IfOk result (λ s. send_fails s ≡ false → L.faults_of link.new ≡ L.faults_of link.old) }
        ensures count { L.faults_of link.old ≤ L.faults_of link.new }
        ensures told { IfOk result (λ s. IfSome (L.write_fails link.old) (λ b. written_in s ≡ cond b 0 (length (frames_in s)))) }
        ensures waiting { L.waiting link.new ≡ L.waiting link.old }
    {
        match self.stage {
            Stage::New => {
                self.stage = Stage::Waiting;
                Ok(Stepped::Started)
            }
            Stage::Waiting => Ok(self.take_answer(router.has_relay(conn), limits, now)),
            Stage::Running(ping_at) => {
                let due = ping_at <= now as u128;
                self.stage = Stage::Running(next_ping(due, ping_at, limits, now));
                let peer = *self.reservation.metadata().public_key();
                let size = limits.send_batch_size;
                let first = first_ping(alloc, due)?;
                let gathered = gather_for(alloc, control, router, conn, first, size)?;
                send_gathered(alloc, link, peer, due, gathered)
            }
        }
    }

    // Takes the router's answer, where it is there.
    fn take_answer(&mut self, answered: bool, limits: Limits, now: u64) -> Stepped<P>
        ensures stepped { result ≡ (if answered then stepped.Running else stepped.Idle) }
        ensures live { self.new ≡ with_stage self.old
            (if answered then stage.Running (now + limits.ping_frequency) else self.old.stage) }
    {
        if !answered {
            return Stepped::Idle;
        }
        self.stage = Stage::Running(now as u128 + limits.ping_frequency as u128);
        Stepped::Running
    }
}

// When the next ping is due.
fn next_ping(due: bool, ping_at: u128, limits: Limits, now: u64) -> u128
    ensures { result ≡ cond due (now + limits.ping_frequency) ping_at }
{
    if due {
        now as u128 + limits.ping_frequency as u128
    } else {
        ping_at
    }
}

// Does what there is to do for the sending half.
fn send_gathered<P: PublicKey, L: Link>(
    alloc: Global,
    link: &mut L,
    peer: P,
    due: bool,
    gathered: Gathered,
) -> Result<Stepped<P>, AllocError>
    ensures stepped { IfOk result (λ s. s ≡ sent_as peer due (written_in s) gathered) }
    ensures in_flight { IfOk result (λ s. L.in_flight link.new ≡ L.in_flight link.old
        ++ first_of (written_in s) (frames_in s)) }
    ensures within { IfOk result (λ s. written_in s ≤ length (frames_in s)) }
    ensures fault { IfOk result (λ s. IsTrue (send_fails s) → Rose (L.faults_of link.old) (L.faults_of link.new)) }
    ensures no_fault { IfOk result (λ s. send_fails s ≡ false → L.faults_of link.new ≡ L.faults_of link.old) }
    ensures count { L.faults_of link.old ≤ L.faults_of link.new }
    ensures told { IfOk result (λ s. IfSome (L.write_fails link.old) (λ b. written_in s ≡ cond b 0 (length (frames_in s)))) }
    ensures waiting { L.waiting link.new ≡ L.waiting link.old }
{
    match gathered {
        Gathered::Nothing => Ok(Stepped::Idle),
        Gathered::Killed => Ok(ended(alloc, Error::Connection(connection::Error::Killed(peer)))),
        Gathered::Disconnected => Ok(ended(
            alloc,
            Error::Connection(connection::Error::Disconnected),
        )),
        Gathered::Batch(frames) => write_batch(alloc, link, due, frames),
    }
}
