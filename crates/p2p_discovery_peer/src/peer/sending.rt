//! What the sending half of a connection takes and writes.
ghost use Rattle.std.specs.Prelude.{◌≡◌, ◌≤◌, ◌+◌, ◌++◌, false, true, length, take as first_of, IfOk, OnOk, IsTrue};
ghost use Rattle.p2p_runtime.specs.Streams.{Rose};
ghost use Rattle.p2p_router.specs.Connections.{relay_at};
ghost use Rattle.p2p_discovery_directory.specs.Reserved.{peer_of};
ghost use Rattle.p2p_discovery_directory.specs.Asking.{answer_of};
ghost use Rattle.p2p_discovery_peer.specs.Sending.{answered_as, wrote, sent_as, stage_answered, stage_greeted, stage_by, with_stage, way_by, greeting_of, greeted_as, sent_by, control_by, router_by, frames_in, written_in, send_fails};
ghost use Rattle.p2p_discovery_peer.specs.declared.peer.live.Stage.TheVariants as stage;

use super::live::{Live, Stage};
use super::receiving::ended;
use super::{Error, Limits, Mailbox, Stepped};
use bytes::Bytes;
use p2p_base::{List, PublicKey};
use p2p_discovery::{Info, Payload};
use p2p_discovery_directory::tracker::{self, Answer};
use p2p_flow_connection as connection;
use p2p_peer_shared::{Gathered, gather_for, write_frames};
use p2p_router::Actor;
use p2p_runtime::Link;
use std::alloc::{AllocError, Global};
use std::mem;

// Writes frames to a link: the greeting, or a batch.
fn write_batch<P: PublicKey, L: Link>(
    alloc: Global,
    link: &mut L,
    greets: bool,
    frames: List<Bytes>,
) -> Result<Stepped<P>, AllocError>
    ensures stepped { IfOk result (λ s. s ≡ wrote greets frames (written_in s)) }
    ensures in_flight { IfOk result (λ s. L.in_flight link.new ≡ L.in_flight link.old
        ++ first_of (written_in s) (frames_in s)) }
    ensures within { IfOk result (λ s. written_in s ≤ length (frames_in s)) }
    ensures fault { IfOk result (λ s. IsTrue (send_fails s) → Rose (L.faults_of link.old) (L.faults_of link.new)) }
    ensures no_fault { IfOk result (λ s. send_fails s ≡ false → L.faults_of link.new ≡ L.faults_of link.old) }
    ensures waiting { L.waiting link.new ≡ L.waiting link.old }
{
    let written = write_frames(alloc, link, frames.as_slice())?;
    if written < frames.len() {
        return Ok(Stepped::Ended {
            error: Error::SendFailed,
            frames,
            written,
        });
    }
    Ok(if greets {
        Stepped::Running { frames }
    } else {
        Stepped::Sent { frames }
    })
}

// Does what there is to do for the sending half.
fn send_gathered<P: PublicKey, L: Link>(
    alloc: Global,
    link: &mut L,
    peer: P,
    gathered: Gathered,
) -> Result<Stepped<P>, AllocError>
    ensures stepped { IfOk result (λ s. s ≡ sent_as peer (written_in s) gathered) }
    ensures in_flight { IfOk result (λ s. L.in_flight link.new ≡ L.in_flight link.old
        ++ first_of (written_in s) (frames_in s)) }
    ensures within { IfOk result (λ s. written_in s ≤ length (frames_in s)) }
    ensures fault { IfOk result (λ s. IsTrue (send_fails s) → Rose (L.faults_of link.old) (L.faults_of link.new)) }
    ensures no_fault { IfOk result (λ s. send_fails s ≡ false → L.faults_of link.new ≡ L.faults_of link.old) }
    ensures waiting { L.waiting link.new ≡ L.waiting link.old }
{
    match gathered {
        Gathered::Nothing => Ok(Stepped::Idle),
        Gathered::Killed => Ok(ended(alloc, Error::Connection(connection::Error::Killed(peer)))),
        Gathered::Disconnected => Ok(ended(
            alloc,
            Error::Connection(connection::Error::Disconnected),
        )),
        Gathered::Batch(frames) => write_batch(alloc, link, false, frames),
    }
}

// The frame with which a connection greets, alone.
fn greeting<P: PublicKey>(alloc: Global, info: Info<P>) -> Result<List<Bytes>, AllocError>
    ensures { IfOk result (λ frames. frames ≡ greeting_of P.bytes_of info) }
{
    let mut frames = List::empty(alloc);
    frames.push(Payload::Greeting(info).encode(alloc)?)?;
    Ok(frames)
}

impl<P: PublicKey> Live<P> {
    // Takes the first ready input of the sending half.
    pub(crate) fn send<L: Link>(
        &mut self,
        alloc: Global,
        conn: u64,
        limits: Limits,
        control: &mut Mailbox<P>,
        link: &mut L,
        router: &mut Actor<P>,
        way: &mut tracker::Mailbox<P>,
        now: u64,
    ) -> Result<Stepped<P>, AllocError>
        ensures stepped { IfOk result (λ s. s
            ≡ sent_by P.bytes_of self.old.stage (peer_of self.old.reservation) limits.send_batch_size control.old
            (answer_of way.old conn) (relay_at P.cmp router.old conn) now (written_in s)) }
        ensures live { OnOk result (self.new ≡ with_stage self.old (stage_by self.old.stage
            limits.gossip_bit_vec_frequency (answer_of way.old conn) (relay_at P.cmp router.old conn) now)) }
        ensures control { OnOk result (control.new ≡ control_by P.bytes_of self.old.stage limits.send_batch_size
            control.old (relay_at P.cmp router.old conn) now) }
        ensures router { OnOk result (router.new ≡ router_by P.bytes_of P.cmp self.old.stage limits.send_batch_size
            control.old router.old conn (relay_at P.cmp router.old conn) now) }
        ensures way { OnOk result (way.new ≡ way_by self.old.stage conn way.old) }
        ensures in_flight { IfOk result (λ s. L.in_flight link.new ≡ L.in_flight link.old
            ++ first_of (written_in s) (frames_in s)) }
        ensures within { IfOk result (λ s. written_in s ≤ length (frames_in s)) }
        ensures fault { IfOk result (λ s. IsTrue (send_fails s) → Rose (L.faults_of link.old) (L.faults_of link.new)) }
        ensures no_fault { IfOk result (λ s. send_fails s ≡ false → L.faults_of link.new ≡ L.faults_of link.old) }
        ensures waiting { L.waiting link.new ≡ L.waiting link.old }
    {
        match mem::replace(&mut self.stage, Stage::Asking) {
            Stage::New => Ok(Stepped::Started),
            Stage::Asking => Ok(self.take_answer(way.take_answer(conn))),
            Stage::Greeting(info) => self.greet(alloc, info, router.has_relay(conn), link, now),
            Stage::Running(due_at) => {
                self.run_on(alloc, conn, limits, due_at, control, link, router, now)
            }
        }
    }

    // Takes the tracker's answer, where it is there.
    fn take_answer(&mut self, answer: Option<Answer<P>>) -> Stepped<P>
        ensures stepped { result ≡ answered_as answer }
        ensures live { self.new ≡ with_stage self.old (stage_answered self.old.stage answer) }
    {
        match answer {
            None => Stepped::Idle,
            Some(Answer::NotEligible) => Stepped::NotEligible,
            Some(Answer::Greeting(info)) => {
                self.stage = Stage::Greeting(info);
                Stepped::Announced
            }
        }
    }

    // Greets, where the router has answered.
    fn greet<L: Link>(
        &mut self,
        alloc: Global,
        info: Info<P>,
        answered: bool,
        link: &mut L,
        now: u64,
    ) -> Result<Stepped<P>, AllocError>
        ensures stepped { IfOk result (λ s. s ≡ greeted_as P.bytes_of info answered (written_in s)) }
        ensures live { OnOk result (self.new ≡ with_stage self.old (stage_greeted info answered now)) }
        ensures in_flight { IfOk result (λ s. L.in_flight link.new ≡ L.in_flight link.old
            ++ first_of (written_in s) (frames_in s)) }
        ensures within { IfOk result (λ s. written_in s ≤ length (frames_in s)) }
        ensures fault { IfOk result (λ s. IsTrue (send_fails s) → Rose (L.faults_of link.old) (L.faults_of link.new)) }
        ensures no_fault { IfOk result (λ s. send_fails s ≡ false → L.faults_of link.new ≡ L.faults_of link.old) }
        ensures waiting { L.waiting link.new ≡ L.waiting link.old }
    {
        if !answered {
            self.stage = Stage::Greeting(info);
            return Ok(Stepped::Idle);
        }
        self.stage = Stage::Running(u128::from(now));
        let frames = greeting(alloc, info)?;
        write_batch(alloc, link, true, frames)
    }

    // Asks for a bit vector where one is due, and otherwise fills a batch and writes it.
    fn run_on<L: Link>(
        &mut self,
        alloc: Global,
        conn: u64,
        limits: Limits,
        due_at: u128,
        control: &mut Mailbox<P>,
        link: &mut L,
        router: &mut Actor<P>,
        now: u64,
    ) -> Result<Stepped<P>, AllocError>
        ensures stepped { IfOk result (λ s. s
            ≡ sent_by P.bytes_of (stage.Running due_at) (peer_of self.old.reservation) limits.send_batch_size control.old
            None (relay_at P.cmp router.old conn) now (written_in s)) }
        ensures live { OnOk result (self.new ≡ with_stage self.old (stage_by (stage.Running due_at)
            limits.gossip_bit_vec_frequency None (relay_at P.cmp router.old conn) now)) }
        ensures control { OnOk result (control.new ≡ control_by P.bytes_of (stage.Running due_at) limits.send_batch_size
            control.old (relay_at P.cmp router.old conn) now) }
        ensures router { OnOk result (router.new ≡ router_by P.bytes_of P.cmp (stage.Running due_at)
            limits.send_batch_size control.old router.old conn (relay_at P.cmp router.old conn) now) }
        ensures in_flight { IfOk result (λ s. L.in_flight link.new ≡ L.in_flight link.old
            ++ first_of (written_in s) (frames_in s)) }
        ensures within { IfOk result (λ s. written_in s ≤ length (frames_in s)) }
        ensures fault { IfOk result (λ s. IsTrue (send_fails s) → Rose (L.faults_of link.old) (L.faults_of link.new)) }
        ensures no_fault { IfOk result (λ s. send_fails s ≡ false → L.faults_of link.new ≡ L.faults_of link.old) }
        ensures waiting { L.waiting link.new ≡ L.waiting link.old }
    {
        if due_at <= u128::from(now) {
            self.stage = Stage::Running(
                u128::from(now) + u128::from(limits.gossip_bit_vec_frequency),
            );
            return Ok(Stepped::Asked);
        }
        self.stage = Stage::Running(due_at);
        let peer = *self.reservation.metadata().public_key();
        let size = limits.send_batch_size;
        let gathered = gather_for(alloc, control, router, conn, None, size)?;
        send_gathered(alloc, link, peer, gathered)
    }
}
