//! `Actor`, one connection: its two halves take one input a step.
ghost use Rattle.std.specs.Prelude.{◌≡◌, ◌≤◌, ◌++◌, ◌&&◌, [], cond, length, false, not, None, Some, take as first_of, IfOk, IfErr, IfSome, OnOk, OnErr, IsErr, IsTrue};
ghost use Rattle.std.specs.Borrow.{sem};
ghost use Rattle.p2p_runtime.specs.Streams.{Rose};
ghost use Rattle.p2p_tracker_directory.specs.Reserved.{peer_of};
ghost use Rattle.p2p_base.specs.Queue.{empty_queue, closed_queue};
ghost use Rattle.p2p_flow.specs.Lanes.{empty_lanes};
ghost use Rattle.p2p_lookup.specs.Beginning.{limits_of, IsNew};
ghost use Rattle.p2p_lookup.specs.Connection.{settled, waiting_after, told_to_router, told_to_tracker, desk_after, way_after, router_after};
ghost use Rattle.p2p_lookup.specs.Ready.{is_idle, sends, receives};
ghost use Rattle.p2p_lookup.specs.Receiving.{receive_answer, after_receive, arrived_then, receive_fails, heard_in, reads_from};
ghost use Rattle.p2p_lookup.specs.Sending.{send_answer, after_send, router_sent, written_in, frames_in, send_fails};
ghost use Rattle.p2p_peer_shared.specs.Beginning.{IsEmptyInbox};
ghost use Rattle.p2p_peer_shared.specs.Hearing.{left_waiting};
ghost use Rattle.p2p_peer_shared.specs.Routing.{put_to_router, with_closed};
ghost use Rattle.p2p_tracker_mailbox.specs.Mailboxes.{with_message_in};
ghost use Rattle.p2p_tracker_mailbox.specs.declared.message.Message.TheVariants as tracker_message;
ghost use Rattle.p2p_router.specs.declared.message.Message.TheVariants as router_message;

use super::live::{Live, Stage};
use super::{Config, Limits, Mailbox, Stepped};
use p2p_base::{NoRoom, PublicKey};
use p2p_flow_connection::{Inbounds, Inbox};
use p2p_peer_shared::{close_relay, half_quota, put_ready, put_release};
use p2p_router::{self as router, Messenger};
use p2p_runtime::{Link, RateLimiter};
use p2p_tracker_directory::Reservation;
use p2p_tracker_mailbox as tracker;
use std::alloc::{AllocError, Global};
use std::marker::Model;

/// One connection: what tells it to end, what it holds, and how far it is.
///
/// Ports `Actor` of commonware-p2p's peer. Its two tasks are two steps of one value, and what they use is lent to each step.
#[derive(Drop)]
pub struct Actor<P> {
    conn: u64,
    limits: Limits,
    control: Mailbox,
    live: Option<Live<P>>,
    failed: bool,
}

impl<P> Model for Actor<P> {
    ghost use Rattle.std.specs.Prelude.{◌≤◌};
    ghost use Rattle.p2p_lookup.specs.Connection.{Connection};

    ghost Value = { Connection P };

    ghost view = { λ a. record {
      conn = a.conn;
      limits = a.limits;
      control = a.control;
      live = a.live;
      failed = a.failed;
    } };

    ghost invariant = { λ a. (1 ≤ a.limits.mailbox_size) × (1 ≤ a.limits.send_batch_size) };
}

// What a new connection has.
fn begin<P: PublicKey>(
    alloc: Global,
    cfg: Config,
) -> Result<(Limits, Mailbox, Inbox<P>), AllocError>
    requires { 1 ≤ cfg.mailbox_size }
    ensures limits { IfOk result (λ r. r.0 ≡ limits_of cfg) }
    ensures control { IfOk result (λ r. r.1 ≡ empty_queue cfg.mailbox_size) }
    ensures inbox { IfOk result (λ r. IsEmptyInbox cfg.channels r.2) }
{
    let limits = Limits {
        mailbox_size: cfg.mailbox_size,
        send_batch_size: cfg.send_batch_size,
        ping_frequency: cfg.ping_frequency,
        max_message_size: cfg.max_message_size,
    };
    let control = Mailbox::new(alloc, cfg.mailbox_size)?;
    let Config { channels, .. } = cfg;
    let inbox = Inbox::new(alloc, channels.into_inner())?;
    Ok((limits, control, inbox))
}

impl<P: PublicKey> Actor<P> {
    ghost use Rattle.p2p_lookup.specs.Lends.{lends_control};

    /// A connection with this number, which hasn't begun. Its first step of the sending half begins it.
    ///
    /// `NoRoom` hands the reservation back where there is no memory.
    ///
    /// Ports `Actor::new` of commonware-p2p's peer.
    pub fn new(
        alloc: Global,
        cfg: Config,
        conn: u64,
        reservation: Reservation<P>,
    ) -> Result<Actor<P>, NoRoom<Reservation<P>>>
        requires mailbox { 1 ≤ cfg.mailbox_size }
        requires batch { 1 ≤ cfg.send_batch_size }
        ensures actor { IfOk result (λ a. IsNew cfg conn reservation a) }
        ensures no_room { IfErr result (λ e. e.0 ≡ reservation) }
    {
        let pings = RateLimiter::new(half_quota(cfg.ping_frequency));
        let Ok((limits, control, inbox)) = begin(alloc, cfg) else {
            return Err(NoRoom(reservation));
        };
        let live = Some(Live {
            reservation,
            stage: Stage::New,
            inbox,
            pings,
            holds_ping: false,
        });
        Ok(Actor {
            conn,
            limits,
            control,
            live,
            failed: false,
        })
    }

    /// What tells the connection to end.
    pub fn control(&mut self) -> &mut Mailbox
        ensures* writes_back { sem 𝓛 (lends_control P.row self.entry result) }
        ensures value { result.now ≡ self.old.control }
    {
        &mut self.control
    }

    /// One step of the sending half, at the moment `now` in nanoseconds. It takes the first of these that is ready:
    ///
    /// 1. Its begin: it puts `Connect` for the tracker, and then `Ready` for the router.
    /// 2. The router's answer, which is there once the router has its relay: it runs then.
    /// 3. The deadline of a ping, a kill, a frame with priority, and one without. From these it fills a batch, and writes it to the link.
    ///    A kill that is met ends the connection, and nothing is written.
    ///
    /// Where the connection ends, its relay is closed, then its control, then its end of the link, with what waits there. Then it puts
    /// `Release` for the router, and gives its reservation back to the tracker. A connection that has ended has no input.
    ///
    /// The router, the messenger, which is bound, and the tracker's mailbox are those of its earlier steps.
    ///
    /// `Err` only where memory runs out. Each later step then answers so.
    ///
    /// Ports the sender of `Actor::run` of commonware-p2p's peer.
    pub fn send_step<L: Link>(
        &mut self,
        alloc: Global,
        link: &mut L,
        router: &mut router::Actor<P>,
        messenger: &mut Messenger<P>,
        way: &mut tracker::Mailbox<P>,
        now: u64,
    ) -> Result<Stepped<P>, AllocError>
        ensures stepped { IfOk result (λ s. s ≡ send_answer P.cmp self.old router.old now (written_in s)) }
        ensures idle { IfOk result (λ s. is_idle s ≡ not (sends P.cmp self.old router.old now)) }
        ensures actor { IfOk result (λ s. self.new ≡ after_send P.cmp self.old router.old now s) }
        ensures router { IfOk result (λ s. router.new ≡ router_sent P.cmp self.old router.old now s) }
        ensures messenger { IfOk result (λ s. messenger.new ≡ desk_after self.old s messenger.old) }
        ensures way { IfOk result (λ s. way.new ≡ way_after self.old s way.old) }
        ensures in_flight { IfOk result (λ s. L.in_flight link.new ≡ L.in_flight link.old
            ++ first_of (written_in s) (frames_in s)) }
        ensures waiting { IfOk result (λ s. L.waiting link.new ≡ waiting_after s (L.waiting link.old)) }
        ensures within { IfOk result (λ s. written_in s ≤ length (frames_in s)) }
        ensures fault { IfOk result (λ s. IsTrue (send_fails s) → Rose (L.faults_of link.old) (L.faults_of link.new)) }
        ensures no_fault { IfOk result (λ s. send_fails s ≡ false → L.faults_of link.new ≡ L.faults_of link.old) }
        ensures told { IfOk result (λ s. IfSome (L.write_fails link.old) (λ b. written_in s ≡ cond b 0 (length (frames_in s)))) }
        ensures memory { OnErr result (IsTrue self.new.failed) }
        ensures failed { IsTrue self.old.failed → IsErr result }
    {
        if self.failed {
            return Err(AllocError);
        }
        self.failed = true;
        let stepped = self.send(alloc, link, router, messenger, way, now)?;
        self.failed = false;
        Ok(stepped)
    }

    // The first ready input of the sending half.
    fn send<L: Link>(
        &mut self,
        alloc: Global,
        link: &mut L,
        router: &mut router::Actor<P>,
        messenger: &mut Messenger<P>,
        way: &mut tracker::Mailbox<P>,
        now: u64,
    ) -> Result<Stepped<P>, AllocError>
        ensures stepped { IfOk result (λ s. s ≡ send_answer P.cmp self.old router.old now (written_in s)) }
        ensures actor { IfOk result (λ s. self.new ≡ after_send P.cmp self.old router.old now s) }
        ensures router { IfOk result (λ s. router.new ≡ router_sent P.cmp self.old router.old now s) }
        ensures messenger { IfOk result (λ s. messenger.new ≡ desk_after self.old s messenger.old) }
        ensures way { IfOk result (λ s. way.new ≡ way_after self.old s way.old) }
        ensures in_flight { IfOk result (λ s. L.in_flight link.new ≡ L.in_flight link.old
            ++ first_of (written_in s) (frames_in s)) }
        ensures waiting { IfOk result (λ s. L.waiting link.new ≡ waiting_after s (L.waiting link.old)) }
        ensures within { IfOk result (λ s. written_in s ≤ length (frames_in s)) }
        ensures fault { IfOk result (λ s. IsTrue (send_fails s) → Rose (L.faults_of link.old) (L.faults_of link.new)) }
        ensures no_fault { IfOk result (λ s. send_fails s ≡ false → L.faults_of link.new ≡ L.faults_of link.old) }
        ensures told { IfOk result (λ s. IfSome (L.write_fails link.old) (λ b. written_in s ≡ cond b 0 (length (frames_in s)))) }
        ensures failed { self.new.failed ≡ self.old.failed }
    {
        let Some(mut live) = self.live.take() else {
            return Ok(Stepped::Idle);
        };
        let (conn, limits) = (self.conn, self.limits);
        let stepped = live.send(alloc, conn, limits, &mut self.control, link, router, now)?;
        self.settle(alloc, live, &stepped, link, router, messenger, way)?;
        Ok(stepped)
    }

    /// One step of the receiving half, at the moment `now` in nanoseconds. It takes the first of these that is ready, and only while the
    /// connection runs:
    ///
    /// 1. The message or ping that is held, once its quota admits it. While it is held, no later frame is taken.
    /// 2. A frame of the link, or its fault. A message goes into the mailbox of its channel, and a ping is dropped, as their quotas
    ///    admit them; otherwise it is held. A frame that isn't of the grammar, or names a channel that isn't registered, ends the
    ///    connection.
    ///
    /// Where the connection ends, it does what `send_step` does, and each channel of its quotas is registered in `inbounds`.
    ///
    /// `Err` only where memory runs out. Each later step then answers so.
    ///
    /// Ports the receiver of `Actor::run` of commonware-p2p's peer.
    pub fn recv_step<L: Link>(
        &mut self,
        alloc: Global,
        link: &mut L,
        inbounds: &mut Inbounds<P>,
        router: &mut router::Actor<P>,
        messenger: &mut Messenger<P>,
        way: &mut tracker::Mailbox<P>,
        now: u64,
    ) -> Result<Stepped<P>, AllocError>
        ensures stepped { IfOk result (λ s. s
            ≡ receive_answer self.old inbounds.old now (heard_in s (L.waiting link.old))) }
        ensures idle { IfOk result (λ s. is_idle s ≡ not (receives self.old now (heard_in s (L.waiting link.old)))) }
        ensures actor { IfOk result (λ s. self.new
            ≡ after_receive self.old inbounds.old now (heard_in s (L.waiting link.old)) s) }
        ensures inbounds { IfOk result (λ s. inbounds.new
            ≡ arrived_then self.old inbounds.old now (heard_in s (L.waiting link.old))) }
        ensures router { IfOk result (λ s. router.new ≡ router_after P.cmp s router.old self.old.conn) }
        ensures messenger { IfOk result (λ s. messenger.new ≡ desk_after self.old s messenger.old) }
        ensures way { IfOk result (λ s. way.new ≡ way_after self.old s way.old) }
        ensures in_flight { L.in_flight link.new ≡ L.in_flight link.old }
        ensures waiting { IfOk result (λ s. L.waiting link.new
            ≡ waiting_after s (left_waiting (reads_from self.old.live) (L.waiting link.old))) }
        ensures fault { IfOk result (λ s. IsTrue (receive_fails s) →
            Rose (L.faults_of link.old) (L.faults_of link.new)) }
        ensures no_fault { IfOk result (λ s. receive_fails s ≡ false → L.faults_of link.new ≡ L.faults_of link.old) }
        ensures told { IfOk result (λ s. IfSome (L.read_fails link.old) (λ b. receive_fails s ≡ (reads_from self.old.live && b))) }
        ensures memory { OnErr result (IsTrue self.new.failed) }
        ensures failed { IsTrue self.old.failed → IsErr result }
    {
        if self.failed {
            return Err(AllocError);
        }
        self.failed = true;
        let stepped = self.receive(alloc, link, inbounds, router, messenger, way, now)?;
        self.failed = false;
        Ok(stepped)
    }

    // The first ready input of the receiving half.
    fn receive<L: Link>(
        &mut self,
        alloc: Global,
        link: &mut L,
        inbounds: &mut Inbounds<P>,
        router: &mut router::Actor<P>,
        messenger: &mut Messenger<P>,
        way: &mut tracker::Mailbox<P>,
        now: u64,
    ) -> Result<Stepped<P>, AllocError>
        ensures stepped { IfOk result (λ s. s
            ≡ receive_answer self.old inbounds.old now (heard_in s (L.waiting link.old))) }
        ensures actor { IfOk result (λ s. self.new
            ≡ after_receive self.old inbounds.old now (heard_in s (L.waiting link.old)) s) }
        ensures inbounds { IfOk result (λ s. inbounds.new
            ≡ arrived_then self.old inbounds.old now (heard_in s (L.waiting link.old))) }
        ensures router { IfOk result (λ s. router.new ≡ router_after P.cmp s router.old self.old.conn) }
        ensures messenger { IfOk result (λ s. messenger.new ≡ desk_after self.old s messenger.old) }
        ensures way { IfOk result (λ s. way.new ≡ way_after self.old s way.old) }
        ensures in_flight { L.in_flight link.new ≡ L.in_flight link.old }
        ensures waiting { IfOk result (λ s. L.waiting link.new
            ≡ waiting_after s (left_waiting (reads_from self.old.live) (L.waiting link.old))) }
        ensures fault { IfOk result (λ s. IsTrue (receive_fails s) →
            Rose (L.faults_of link.old) (L.faults_of link.new)) }
        ensures no_fault { IfOk result (λ s. receive_fails s ≡ false → L.faults_of link.new ≡ L.faults_of link.old) }
        ensures told { IfOk result (λ s. IfSome (L.read_fails link.old) (λ b. receive_fails s ≡ (reads_from self.old.live && b))) }
        ensures failed { self.new.failed ≡ self.old.failed }
    {
        let Some(mut live) = self.live.take() else {
            return Ok(Stepped::Idle);
        };
        let stepped = live.receive(alloc, link, inbounds, self.limits.max_message_size, now)?;
        self.settle(alloc, live, &stepped, link, router, messenger, way)?;
        Ok(stepped)
    }

    // Puts what an answer says, and ends the connection where it says so.
    fn settle<L: Link>(
        &mut self,
        alloc: Global,
        live: Live<P>,
        stepped: &Stepped<P>,
        link: &mut L,
        router: &mut router::Actor<P>,
        messenger: &mut Messenger<P>,
        way: &mut tracker::Mailbox<P>,
    ) -> Result<(), AllocError>
        ensures actor { OnOk result (self.new ≡ settled self.old stepped.now self.old.control live) }
        ensures router { OnOk result (router.new ≡ router_after P.cmp stepped.now router.old self.old.conn) }
        ensures messenger { OnOk result (messenger.new
            ≡ told_to_router stepped.now (peer_of live.reservation) self.old.limits.mailbox_size self.old.conn
            messenger.old) }
        ensures way { OnOk result (way.new ≡ told_to_tracker self.old stepped.now live way.old) }
        ensures waiting { OnOk result (L.waiting link.new ≡ waiting_after stepped.now (L.waiting link.old)) }
        ensures in_flight { L.in_flight link.new ≡ L.in_flight link.old }
        ensures no_fault { L.faults_of link.new ≡ L.faults_of link.old }
        ensures failed { self.new.failed ≡ self.old.failed }
    {
        match stepped {
            Stepped::Ended { .. } => self.end(live, link, router, messenger, way),
            Stepped::Started => self.announce(alloc, live, messenger, way),
            _ => {
                self.live = Some(live);
                Ok(())
            }
        }
    }

    // Tells the tracker and the router that the connection begins.
    fn announce(
        &mut self,
        alloc: Global,
        live: Live<P>,
        messenger: &mut Messenger<P>,
        way: &mut tracker::Mailbox<P>,
    ) -> Result<(), AllocError>
        ensures actor { OnOk result (self.new ≡ record self.old { live = Some live }) }
        ensures messenger { OnOk result (messenger.new
            ≡ put_to_router messenger.old (router_message.Ready (peer_of live.reservation)
            (empty_lanes self.old.limits.mailbox_size) self.old.conn)) }
        ensures way { OnOk result (way.new ≡ with_message_in way.old
            (tracker_message.Connect (peer_of live.reservation) self.old.conn)) }
        ensures failed { self.new.failed ≡ self.old.failed }
    {
        let peer = *live.reservation.metadata().public_key();
        way.connect(peer, self.conn)?;
        put_ready(alloc, messenger, peer, self.limits.mailbox_size, self.conn)?;
        self.live = Some(live);
        Ok(())
    }

    // Ends the connection: what waits for it goes, and its peer is released.
    fn end<L: Link>(
        &mut self,
        live: Live<P>,
        link: &mut L,
        router: &mut router::Actor<P>,
        messenger: &mut Messenger<P>,
        way: &mut tracker::Mailbox<P>,
    ) -> Result<(), AllocError>
        ensures actor { OnOk result (self.new
            ≡ record self.old { control = closed_queue self.old.control; live = None }) }
        ensures router { OnOk result (router.new ≡ with_closed P.cmp router.old self.old.conn) }
        ensures messenger { OnOk result (messenger.new
            ≡ put_to_router messenger.old (router_message.Release (peer_of live.reservation))) }
        ensures way { OnOk result (way.new ≡ with_message_in way.old (tracker_message.Release live.reservation)) }
        ensures waiting { OnOk result (L.waiting link.new ≡ []) }
        ensures in_flight { L.in_flight link.new ≡ L.in_flight link.old }
        ensures no_fault { L.faults_of link.new ≡ L.faults_of link.old }
        ensures failed { self.new.failed ≡ self.old.failed }
    {
        close_relay(router, self.conn);
        self.control.close();
        self.live = None;
        link.close();
        let Live { reservation, .. } = live;
        put_release(messenger, *reservation.metadata().public_key())?;
        match way.release(reservation) {
            Ok(_) => Ok(()),
            Err(_) => Err(AllocError),
        }
    }
}
