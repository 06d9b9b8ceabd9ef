//! `Dialing`, the dialer of a node.
ghost use Rattle.std.specs.Prelude.{◌≡◌, [], None, Some, true, ◌&&◌, IfOk, OnOk};
ghost use Rattle.p2p_log_rules.specs.Valid.{is_quota};
ghost use Rattle.p2p_net_queues.specs.Tables as table;
ghost use Rattle.p2p_net_queues.specs.Tables.{kept_with};
ghost use Rattle.p2p_net_gates.specs.Attempts.{dialed_key, link_at, Tries, Resolves, AnswersDial, Finishes, has_ended};
ghost use Rattle.p2p_net_gates.specs.Dialing.{gates_of, no_dialing, started, asked_item, is_answer as answer_test, begun_by, Steps};

use crate::attempt::{RunningAttempt, Tried};
use p2p_address::SocketAddr;
use p2p_base::{Key, List};
use p2p_gates::{AttemptItem, Config as GatesConfig, Dialer, Input, Outcome, Put, Stepped};
use p2p_log::{Config, Item, Rate, Reply};
use p2p_log_rules::Row;
use p2p_net_queues::{Table, Turn, only};
use p2p_runtime::Quota;
use p2p_tracker_mailbox::Mailbox;
use std::alloc::{AllocError, Global};

/// The dialer of a node, once the node has started, and the attempts that it has begun and that have not ended, by the events
/// that began them.
pub struct Dialing {
    /// The dialer.
    pub actor: Option<Dialer<Key>>,
    /// The attempts.
    pub attempts: Table<RunningAttempt>,
}

impl Drop for Dialing {
    fn drop(self) {
        let Dialing {
            actor: _actor,
            attempts: _attempts,
        } = self;
    }
}

/// What a dialer did in a step.
#[derive(Drop)]
pub struct Dialed {
    /// Whether it took the oldest of its answers.
    pub took: bool,
    /// What it asked the tracker.
    pub asked: Option<Item>,
}

/// The quota of a rate that admits something.
fn quota(rate: Rate) -> Quota
    requires { is_quota rate ≡ true }
    ensures { result ≡ record { burst = rate.burst; period = rate.period } }
{
    Quota::new(rate.burst, rate.period).unwrap()
}

/// What the gates of a node are told, of a configuration that fits.
pub fn gates_config(config: &Config) -> GatesConfig
    requires per_ip { is_quota config.now.allowed_handshake_rate_per_ip ≡ true }
    requires per_subnet { is_quota config.now.allowed_handshake_rate_per_subnet ≡ true }
    ensures { result ≡ gates_of config.now }
{
    GatesConfig {
        allow_private_ips: config.allow_private_ips,
        bypass_ip_check: config.bypass_ip_check,
        max_concurrent_handshakes: config.max_concurrent_handshakes,
        allowed_handshake_rate_per_ip: quota(config.allowed_handshake_rate_per_ip),
        allowed_handshake_rate_per_subnet: quota(config.allowed_handshake_rate_per_subnet),
        handshake_timeout: config.handshake_timeout,
        dial_timeout: config.dial_timeout,
        dial_frequency: config.dial_frequency,
        peer_connection_cooldown: config.peer_connection_cooldown,
    }
}

/// What a dialer asked, as an item of its tracker's mailbox.
fn asked(put: Option<Put<Key>>) -> Option<Item>
    ensures { result ≡ asked_item put }
{
    match put {
        Some(Put::Dialable) => Some(Item::AskDialable),
        Some(Put::Dial { public_key }) => Some(Item::AskDial(public_key)),
        _ => None,
    }
}

/// Whether a step took an answer.
fn is_answer(took: Input) -> bool
    ensures { result ≡ answer_test took }
{
    match took {
        Input::Answer => true,
        _ => false,
    }
}

impl Dialing {
    /// Nobody dials yet.
    pub fn new(alloc: Global) -> Dialing
        ensures { result ≡ no_dialing }
    {
        Dialing {
            actor: None,
            attempts: Table::new(alloc),
        }
    }

    /// A dialer begins, at the moment `at`.
    pub fn start(&mut self, alloc: Global, config: &Config, at: u64)
        requires per_ip { is_quota config.now.allowed_handshake_rate_per_ip ≡ true }
        requires per_subnet { is_quota config.now.allowed_handshake_rate_per_subnet ≡ true }
        ensures { self.new ≡ started config.now at self.old }
    {
        let gates = gates_config(config);
        self.actor = Some(Dialer::new(alloc, gates, at));
    }

    /// One step of the dialer, whose answers wait in its tracker's mailbox, at the moment `at`. A grant begins an attempt of
    /// this name. `None` where no input was ready.
    ///
    /// `Err` only where there is no memory.
    pub fn step(
        &mut self,
        alloc: Global,
        name: u64,
        way: &mut Mailbox<Key>,
        at: u64,
        seed: u64,
    ) -> Result<Option<Dialed>, AllocError>
        ensures { IfOk result (λ o. Steps self.old.actor name at seed self.old self.new way.old way.new o) }
    {
        let Some(actor) = &mut self.actor else {
            return Ok(None);
        };
        match actor.step(way, name, at, seed)? {
            Stepped::Idle => Ok(None),
            Stepped::Served {
                took,
                put,
                outcome,
                ..
            } => {
                self.begin(alloc, name, outcome)?;
                Ok(Some(Dialed {
                    took: is_answer(took),
                    asked: asked(put),
                }))
            }
        }
    }

    /// Keeps the attempt that a step began, if it began one.
    fn begin(&mut self, alloc: Global, name: u64, outcome: Outcome<Key>) -> Result<(), AllocError>
        ensures { OnOk result (self.new ≡ record self.old { attempts = begun_by outcome name self.old.attempts }) }
    {
        match outcome {
            Outcome::Dialed(attempt) => {
                let running = RunningAttempt::new(alloc, attempt);
                Ok(self.attempts.insert(name, running)?)
            }
            _ => Ok(()),
        }
    }

    /// One step of the attempt of this name, which gives its reservation back into its tracker's mailbox where it ends.
    ///
    /// `Err` only where there is no memory. The attempt may then be dropped, and its node goes no further.
    pub fn attempt(
        &mut self,
        alloc: Global,
        name: u64,
        way: &mut Mailbox<Key>,
        at: u64,
        seed: u64,
    ) -> Result<Tried, AllocError>
        ensures tries { IfOk result (λ t. Tries (table.at self.old.attempts name) name at seed self.old.attempts self.new.attempts way.old way.new t) }
        ensures actor { OnOk result (self.new.actor ≡ self.old.actor) }
    {
        let Some(mut running) = self.attempts.remove(name) else {
            return Ok(Tried {
                row: only(alloc, Reply::Gone),
                released: None,
                ready: None,
            });
        };
        let tried = running.step(alloc, way, at, seed)?;
        self.keep(name, running)?;
        Ok(tried)
    }

    /// Keeps an attempt, unless it has ended.
    fn keep(&mut self, name: u64, running: RunningAttempt) -> Result<(), AllocError>
        ensures { OnOk result (self.new ≡ record self.old { attempts = kept_with (has_ended running.actor) name running self.old.attempts }) }
    {
        if !running.actor.has_ended() {
            self.attempts.insert(name, running)?;
        }
        Ok(())
    }

    /// The attempt of this name is told the addresses that its peer's name stands for.
    ///
    /// `Err` only where there is no memory. The attempt may then be dropped, and its node goes no further.
    pub fn resolve(
        &mut self,
        turn: Turn,
        name: u64,
        addresses: &List<SocketAddr>,
    ) -> Result<Row, AllocError>
        ensures resolves { IfOk result (λ r. Resolves (table.at self.old.attempts name) turn.entry turn.node name addresses.now self.old.attempts self.new.attempts r) }
        ensures actor { OnOk result (self.new.actor ≡ self.old.actor) }
    {
        let Some(mut running) = self.attempts.remove(name) else {
            return Ok(only(turn.alloc, Reply::Gone));
        };
        let row = running.resolve(turn, name, addresses)?;
        self.attempts.insert(name, running)?;
        Ok(row)
    }

    /// The dial of the attempt of this name is answered, with a link or a refusal.
    ///
    /// `Err` only where there is no memory. The attempt may then be dropped, and its node goes no further.
    pub fn answer_dial(&mut self, turn: Turn, name: u64, links: bool) -> Result<Row, AllocError>
        ensures answers { IfOk result (λ r. AnswersDial (table.at self.old.attempts name) turn.entry turn.node name links self.old.attempts self.new.attempts r) }
        ensures actor { OnOk result (self.new.actor ≡ self.old.actor) }
    {
        let Some(mut running) = self.attempts.remove(name) else {
            return Ok(only(turn.alloc, Reply::Gone));
        };
        let row = running.answer_dial(turn, name, links)?;
        self.attempts.insert(name, running)?;
        Ok(row)
    }

    /// The key of the attempt of this name, where it stands.
    pub fn dialed_key(&self, attempt: u64) -> Option<Key>
        ensures { result ≡ dialed_key (table.at self.now.attempts attempt) }
    {
        let running = self.attempts.find(attempt)?;
        running.actor.public_key()
    }

    /// The link of which the attempt of this name has the dialing end, where it stands and has one.
    pub fn link(&self, attempt: u64) -> Option<u64>
        ensures { result ≡ link_at (table.at self.now.attempts attempt) }
    {
        let running = self.attempts.find(attempt)?;
        running.link
    }

    /// The attempt of this name, where it stands, is told whether the keys were exchanged over its link.
    ///
    /// `Err` only where there is no memory. The attempt may then be dropped, and its node goes no further.
    pub fn finish(
        &mut self,
        turn: Turn,
        attempt: u64,
        ok: bool,
        row: &mut Row,
    ) -> Result<(), AllocError>
        ensures finishes { OnOk result (
            Finishes (table.at self.old.attempts attempt) turn.entry turn.node attempt ok
            self.old.attempts self.new.attempts row.old row.new) }
        ensures actor { OnOk result (self.new.actor ≡ self.old.actor) }
    {
        let Some(mut running) = self.attempts.remove(attempt) else {
            return Ok(());
        };
        let told = AttemptItem::Finished(ok);
        running.tell(turn, attempt, told, Item::Finished(ok), row)?;
        self.attempts.insert(attempt, running)?;
        Ok(())
    }
}
