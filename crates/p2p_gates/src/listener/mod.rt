//! `Listener`, who takes arrivals through the gates.
ghost use Rattle.std.specs.Prelude.{◌≡◌, ℕ, ◌<◌, ◌+◌, ◌∷◌, ◌++◌, max, true, false, [], Some, None, IfOk, OnOk, IfSome, IsErr, OnErr, drop};
ghost use Rattle.std.specs.BTreeSet.{IsFromIterResult};
ghost use Rattle.p2p_address.specs.declared.ip.IpAddr.{IpAddr as Address};
ghost use Rattle.p2p_runtime.specs.QuotaPlaces.{Places};
ghost use Rattle.p2p_gates.specs.Gates.{has_place, rules_of, reply_to, known_after, places_after};
ghost use Rattle.p2p_tracker_calls.specs.Gates.{Known, is_registered, nothing_known, limited_reply, turned_away, charged_by};
ghost use Rattle.p2p_tracker_calls.specs.Quotas.{verdict};
ghost use Rattle.p2p_gates.specs.Listening.{StandsFor, with_arrival, with_rest, new_listener};
ghost use Rattle.p2p_gates.specs.ListenerSteps.{Passes, Receives, IsStepOf};
ghost use Rattle.p2p_gates.specs.ListenerTurns.{stepped_by, way_by, refused_over};
ghost use Rattle.p2p_gates.specs.Quotas.{KeepsRates, rates_of, IsCounted};
ghost use Rattle.p2p_gates.specs.Counting.{CountsFrom};
ghost use Rattle.p2p_gates.specs.Stepping.{gone_on};
ghost use Rattle.p2p_gates.specs.declared.stepped.Input.TheVariants as input;
ghost use Rattle.p2p_tracker_calls.specs.declared.gates.Reply.TheVariants as reply;

mod quotas;

use crate::arrival::Arrival;
use crate::config::Config;
use crate::handshake::Handshake;
use crate::stepped::{Input, Left, Outcome, Put, Stepped};
use p2p_address::{IpAddr, SocketAddr, is_global};
use p2p_base::{Deque, PublicKey};
use p2p_runtime::Limiter;
use p2p_tracker_calls::gates::Reply;
use p2p_tracker_mailbox::Mailbox;
use quotas::Quotas;
use std::alloc::{AllocError, Global};
use std::collections::BTreeSet;
use std::marker::Model;

/// Takes arrivals through the gates, in the order in which they came, and begins a handshake for each that none
/// refuses.
///
/// The gates are, in order: whether the address is global, or others may connect; whether it is one that the listener
/// was told of, or that isn't looked at; the quotas of its address and of its subnet, each of which is charged where it
/// doesn't refuse; and the places of handshakes. The cost of an arrival grows with the logarithm of the addresses that
/// are kept.
///
/// Ports `Actor` of commonware-p2p's listener.
pub struct Listener<P> {
    alloc: Global,
    allow_private_ips: bool,
    bypass_ip_check: bool,
    handshake_timeout: u64,
    arrivals: Deque<Arrival<P>>,
    registered: BTreeSet<IpAddr>,
    quotas: Quotas,
    places: Limiter,
    has_failed: bool,
}

impl<P: Drop> Drop for Listener<P> {
    fn drop(self) {
        let Listener {
            alloc: _alloc,
            allow_private_ips: _allow_private_ips,
            bypass_ip_check: _bypass_ip_check,
            handshake_timeout: _handshake_timeout,
            arrivals: _arrivals,
            registered: _registered,
            quotas: _quotas,
            places: _places,
            has_failed: _has_failed,
        } = self;
    }
}

impl<P> Model for Listener<P> {
    ghost use Rattle.p2p_gates.specs.Listening.{Listening};

    ghost Value = { Listening P };

    ghost view = { λ l. record {
      allow_private_ips = l.allow_private_ips;
      bypass_ip_check = l.bypass_ip_check;
      handshake_timeout = l.handshake_timeout;
      arrivals = l.arrivals;
      registered = l.registered.keys;
      quotas = l.quotas;
      places = l.places;
      has_failed = l.has_failed;
    } };
}

// The set of these.
fn set_of<K: Ord + Copy>(alloc: Global, items: &[K]) -> Result<BTreeSet<K>, AllocError>
    ensures { IfOk result (λ s. IsFromIterResult K.cmp items.now s) }
{
    items.iter().copied().collect(alloc)
}

// These addresses, in order.
fn in_order(alloc: Global, addresses: &[IpAddr]) -> Result<BTreeSet<IpAddr>, AllocError>
    ensures { IfOk result (λ s. (ip : Address) → is_registered s.keys ip ≡ is_registered addresses.now ip) }
{
    Ok(set_of(alloc, addresses)?)
}

// Whether an address stands among these.
fn is_registered(addresses: &BTreeSet<IpAddr>, ip: &IpAddr) -> bool
    ensures { result ≡ is_registered addresses.now.keys ip.now }
{
    addresses.contains(ip)
}

impl<P: PublicKey> Listener<P> {
    /// A listener that was told of no address, for which no arrival waits.
    ///
    /// `Err` only where memory runs out.
    pub fn new(alloc: Global, cfg: Config) -> Result<Listener<P>, AllocError>
        ensures listener { IfOk result (λ l. l ≡ new_listener cfg l.quotas) }
        ensures stands { IfOk result (λ l. StandsFor l nothing_known) }
        ensures ip_rate { IfOk result (λ l. l.quotas.addresses.rate ≡ cfg.allowed_handshake_rate_per_ip) }
        ensures subnet_rate { IfOk result (λ l. l.quotas.subnets.rate ≡ cfg.allowed_handshake_rate_per_subnet) }
    {
        let quotas = Quotas::new(
            alloc,
            cfg.allowed_handshake_rate_per_ip,
            cfg.allowed_handshake_rate_per_subnet,
        );
        Ok(Listener {
            alloc,
            allow_private_ips: cfg.allow_private_ips,
            bypass_ip_check: cfg.bypass_ip_check,
            handshake_timeout: cfg.handshake_timeout,
            arrivals: Deque::new(alloc),
            registered: BTreeSet::new(alloc),
            quotas,
            places: Limiter::new(cfg.max_concurrent_handshakes),
            has_failed: false,
        })
    }

    /// Puts an arrival behind those that wait: a peer with this key connects from there over this link.
    ///
    /// `Err` only where memory runs out, and nothing changes then.
    pub fn arrive(&mut self, from: SocketAddr, key: P, link: u64) -> Result<(), AllocError>
        ensures after { OnOk result
            (self.new ≡ with_arrival self.old (record { from = from; key = key; link = link })) }
        ensures memory { OnErr result (self.new ≡ self.old) }
    {
        self.arrivals.push(Arrival { from, key, link })
    }

    /// Takes all arrivals that wait, the oldest first.
    pub fn take_arrivals(&mut self) -> Deque<Arrival<P>>
        ensures arrivals { result ≡ self.old.arrivals }
        ensures after { self.new ≡ record self.old { arrivals = [] } }
    {
        self.arrivals.take_all(self.alloc)
    }

    /// Frees the place of a handshake that has ended. It takes no memory. A step that began a handshake has taken one.
    pub fn ended(&mut self)
        requires { 0 < self.old.places.held }
        ensures held { self.new.places.held + 1 ≡ self.old.places.held }
        ensures max { self.new.places.max ≡ self.old.places.max }
        ensures rest { self.new ≡ record self.old { places = self.new.places } }
    {
        self.places.release();
    }

    /// Takes the addresses that the tracker told, if it did. Otherwise takes the oldest arrival through the gates. One
    /// that is admitted begins a handshake of the name `name`, which no earlier step was given.
    ///
    /// `Err` only where memory runs out. Each later step then answers so.
    pub fn step(
        &mut self,
        way: &mut Mailbox<P>,
        name: u64,
        now: u64,
    ) -> Result<Stepped<P>, AllocError>
        ensures step { IfOk result (λ s. IsStepOf self.old way.old name now s self.new way.new) }
        ensures memory { OnErr result (self.new.has_failed ≡ true) }
        ensures failed { self.old.has_failed ≡ true → IsErr result }
    {
        if self.has_failed {
            return Err(AllocError);
        }
        match self.work(way, name, now) {
            Ok(stepped) => Ok(stepped),
            Err(_) => {
                self.has_failed = true;
                Err(AllocError)
            }
        }
    }

    // What a step does.
    fn work(&mut self, way: &mut Mailbox<P>, name: u64, now: u64) -> Result<Stepped<P>, AllocError>
        ensures step { IfOk result (λ s. IsStepOf self.old way.old name now s self.new way.new) }
    {
        match way.heard.take() {
            Some(addresses) => self.register(addresses.as_slice()),
            None => self.receive(way, name, now),
        }
    }

    // Keeps the addresses that peers may come from.
    fn register(&mut self, addresses: &[IpAddr]) -> Result<Stepped<P>, AllocError>
        ensures answer { IfOk result (λ s. s ≡ gone_on input.Update None) }
        ensures stands { (k : Known) → StandsFor self.old k
            → OnOk result (StandsFor self.new (record k { addresses = addresses.now })) }
        ensures after { self.new ≡ record self.old { registered = self.new.registered } }
    {
        self.registered = in_order(self.alloc, addresses)?;
        Ok(Stepped::goes_on(Input::Update, None))
    }

    // Takes the oldest arrival through the gates, if there is one.
    fn receive(
        &mut self,
        way: &mut Mailbox<P>,
        name: u64,
        now: u64,
    ) -> Result<Stepped<P>, AllocError>
        ensures step { IfOk result (λ s. Receives self.old way.old name now s self.new way.new) }
    {
        match self.arrivals.pop() {
            Some(arrival) => self.pass(way, name, now, arrival),
            None => Ok(Stepped::Idle),
        }
    }

    // Takes an arrival through the gates.
    fn pass(
        &mut self,
        way: &mut Mailbox<P>,
        name: u64,
        now: u64,
        arrival: Arrival<P>,
    ) -> Result<Stepped<P>, AllocError>
        ensures step { IfOk result (λ s. Passes self.old way.old name now arrival s self.new way.new) }
    {
        let reply = self.judge(&arrival.from.ip, now)?;
        self.tell(way, name, now, arrival, reply)
    }

    // What the gates tell an arrival from `ip`: the first that refuses it, or that none does. It takes a place where
    // none does.
    fn judge(&mut self, ip: &IpAddr, now: u64) -> Result<Reply, AllocError>
        ensures reply { (k : Known) → StandsFor self.old k → IfOk result (λ r. r ≡ reply_to self.old k ip.now now) }
        ensures stands { (k : Known) → StandsFor self.old k
            → OnOk result (StandsFor self.new (known_after self.old k ip.now now)) }
        ensures places { IfOk result (λ r. self.new.places ≡ places_after r self.old.places) }
        ensures arrivals { self.new.arrivals ≡ self.old.arrivals }
        ensures rest { self.new ≡ with_rest self.old self.new }
        ensures rates { KeepsRates self.old.quotas self.new.quotas }
        ensures quotas { OnOk result (CountsFrom self.old self.new.quotas ip.now) }
    {
        match self.turn_away(ip) {
            Some(reply) => Ok(reply),
            None => self.limit(ip, now),
        }
    }

    // The first of the gates before the quotas that refuses an arrival from `ip`, where one does.
    fn turn_away(&self, ip: &IpAddr) -> Option<Reply>
        ensures now { result ≡ turned_away (rules_of self.now) self.now.registered ip.now }
        ensures first { (k : Known) → StandsFor self.now k → result ≡ turned_away (rules_of self.now) k.addresses ip.now }
        ensures placeless { (p : Places) → IfSome result (λ r. places_after r p ≡ p) }
    {
        if !self.allow_private_ips && !is_global(ip) {
            return Some(Reply::Private);
        }
        if !self.bypass_ip_check && !is_registered(&self.registered, ip) {
            return Some(Reply::Unregistered);
        }
        None
    }

    // What the quotas and the places tell an arrival from `ip`. It takes a place where neither refuses it.
    fn limit(&mut self, ip: &IpAddr, now: u64) -> Result<Reply, AllocError>
        ensures reply { (k : Known) → StandsFor self.old k → IfOk result (λ r. r
            ≡ limited_reply (verdict (rates_of self.old.quotas) k.passed ip.now (max k.latest now)) (has_place self.old.places)) }
        ensures stands { (k : Known) → StandsFor self.old k
            → OnOk result (StandsFor self.new (charged_by (rules_of self.old) k ip.now now)) }
        ensures places { IfOk result (λ r. self.new.places ≡ places_after r self.old.places) }
        ensures arrivals { self.new.arrivals ≡ self.old.arrivals }
        ensures rest { self.new ≡ with_rest self.old self.new }
        ensures rates { KeepsRates self.old.quotas self.new.quotas }
        ensures quotas { OnOk result (IsCounted self.old.quotas self.new.quotas ip.now) }
    {
        let (ip, subnet) = self.quotas.check(ip, now)?;
        if ip || subnet {
            return Ok(Reply::Limited { ip, subnet });
        }
        if !self.places.try_acquire() {
            return Ok(Reply::TooMany);
        }
        Ok(Reply::Admitted)
    }

    // Begins the handshake of an arrival that was admitted. Any other goes no further.
    fn tell(
        &self,
        way: &mut Mailbox<P>,
        name: u64,
        now: u64,
        arrival: Arrival<P>,
        reply: Reply,
    ) -> Result<Stepped<P>, AllocError>
        ensures answer { IfOk result (λ s. s ≡ stepped_by reply name arrival self.now.handshake_timeout now) }
        ensures way { OnOk result (way.new ≡ way_by reply name arrival way.old) }
    {
        match reply {
            Reply::Admitted => self.begin(way, name, now, arrival),
            Reply::Private => Ok(refused(arrival.link, Reply::Private)),
            Reply::Unregistered => Ok(refused(arrival.link, Reply::Unregistered)),
            Reply::Limited { ip, subnet } => {
                Ok(refused(arrival.link, Reply::Limited { ip, subnet }))
            }
            Reply::TooMany => Ok(refused(arrival.link, Reply::TooMany)),
        }
    }

    // Begins a handshake, and asks for it whether the peer may connect.
    fn begin(
        &self,
        way: &mut Mailbox<P>,
        name: u64,
        now: u64,
        arrival: Arrival<P>,
    ) -> Result<Stepped<P>, AllocError>
        ensures answer { IfOk result (λ s. s ≡ stepped_by reply.Admitted name arrival self.now.handshake_timeout now) }
        ensures way { OnOk result (way.new ≡ way_by reply.Admitted name arrival way.old) }
    {
        let public_key = arrival.key;
        let source_ip = arrival.from.ip;
        way.handshakes.begin(name)?;
        way.acceptable(public_key, source_ip, name)?;
        let handshake = Handshake::new(name, arrival, self.handshake_timeout, now);
        Ok(Stepped::Served {
            took: Input::Arrival,
            put: Some(Put::Acceptable {
                public_key,
                source_ip,
                handshake: name,
            }),
            left: Left::Nothing,
            outcome: Outcome::Admitted(handshake),
        })
    }
}

// An arrival that was refused for this reason.
fn refused<P: PublicKey>(link: u64, reply: Reply) -> Stepped<P>
    ensures { result ≡ refused_over link reply }
{
    Stepped::Served {
        took: Input::Arrival,
        put: None,
        left: Left::Nothing,
        outcome: Outcome::Refused { link, reply },
    }
}
