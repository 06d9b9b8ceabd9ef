//! `Attempt`, a dial that was granted, until it ends.
ghost use Rattle.std.specs.Option.{option_map};
ghost use Rattle.std.specs.Prelude.{◌≡◌, ◌∷◌, ◌++◌, true, false, drop, min, ◌+◌, nat_le, [], not, IfOk, OnOk, OnErr, IsErr, is_some};
ghost use Rattle.p2p_tracker_directory.specs.Reserved.{peer_of};
ghost use Rattle.p2p_gates.specs.Attempting.{new_attempt, address_in};
ghost use Rattle.p2p_gates.specs.AttemptTurns.{may_be_dialed, chosen, with_item, ended_by, ready_by, gives_up, resolves, linked_at, waits, item_turn, attempt_turn};
ghost use Rattle.p2p_gates.specs.Stepping.{gone_on};
ghost use Rattle.p2p_gates.specs.declared.stepped.Left.TheVariants as left;
ghost use Rattle.p2p_gates.specs.declared.stepped.Stepped.TheVariants as stepped;
ghost use Rattle.p2p_gates.specs.declared.stepped.Input.TheVariants as input;

mod item;

use crate::config::Config;
use crate::stepped::{Input, Left, Outcome, Put, Stepped};
pub use item::AttemptItem;
use p2p_address::{Ingress, SocketAddr, resolve_filtered};
use p2p_base::{Deque, List, NoRoom, PublicKey};
use p2p_runtime::Draws;
use p2p_tracker_directory::Reservation;
use p2p_tracker_mailbox::Mailbox;
use std::alloc::{AllocError, Global};
use std::marker::Model;

/// A dial that was granted, until it ends: by a reservation that is ready to spawn, or without a connection.
///
/// It is told the addresses of its peer and chooses one, is told that it has a link, and waits until its keys are
/// exchanged.
///
/// Ports `Actor::dial_peer` of commonware-p2p's dialer.
pub struct Attempt<P> {
    alloc: Global,
    name: u64,
    reservation: Option<Reservation<P>>,
    ingress: Ingress,
    address: Option<SocketAddr>,
    deadline: u128,
    items: Deque<AttemptItem>,
    allow_private_ips: bool,
    handshake_timeout: u64,
    has_failed: bool,
}

impl<P: Drop> Drop for Attempt<P> {
    fn drop(self) {
        let Attempt {
            alloc: _alloc,
            name: _name,
            reservation: _reservation,
            ingress: _ingress,
            address: _address,
            deadline: _deadline,
            items: _items,
            allow_private_ips: _allow_private_ips,
            handshake_timeout: _handshake_timeout,
            has_failed: _has_failed,
        } = self;
    }
}

impl<P> Model for Attempt<P> {
    ghost use Rattle.p2p_gates.specs.Attempting.{Attempting};

    ghost Value = { Attempting P };

    ghost view = { λ a. record {
      name = a.name;
      reserved = a.reservation;
      ingress = a.ingress;
      address = a.address;
      deadline = a.deadline;
      items = a.items;
      allow_private_ips = a.allow_private_ips;
      handshake_timeout = a.handshake_timeout;
      has_failed = a.has_failed;
    } };
}

// The address of an ingress that needs no look-up.
fn address_in(ingress: &Ingress) -> Option<SocketAddr>
    ensures { result ≡ address_in ingress.now }
{
    match ingress {
        Ingress::Socket(socket) => Some(*socket),
        Ingress::Dns { .. } => None,
    }
}

// One of these addresses, drawn from the seed among those that may be dialed.
fn choose(
    alloc: Global,
    addresses: &[SocketAddr],
    private: bool,
    seed: u64,
) -> Result<Option<SocketAddr>, AllocError>
    ensures { IfOk result (λ s. s ≡ chosen (may_be_dialed private addresses.now) seed) }
{
    let addresses = resolve_filtered(alloc, addresses, private)?;
    if addresses.is_empty() {
        return Ok(None);
    }
    let place = Draws::new(seed).choice(addresses.len());
    Ok(Some(addresses[place]))
}

impl<P: PublicKey> Attempt<P> {
    // The attempt of a grant that was taken at the moment `now`.
    pub(crate) fn new(
        alloc: Global,
        name: u64,
        reservation: Reservation<P>,
        ingress: Ingress,
        cfg: &Config,
        now: u64,
    ) -> Attempt<P>
        ensures { result ≡ new_attempt name reservation ingress cfg.now now }
    {
        let address = address_in(&ingress);
        Attempt {
            alloc,
            name,
            reservation: Some(reservation),
            ingress,
            address,
            deadline: now as u128 + cfg.dial_timeout as u128,
            items: Deque::new(alloc),
            allow_private_ips: cfg.allow_private_ips,
            handshake_timeout: cfg.handshake_timeout,
            has_failed: false,
        }
    }

    /// Its name.
    pub fn name(&self) -> u64
        ensures { result ≡ self.now.name }
    {
        self.name
    }

    /// Where its peer is dialed.
    pub fn ingress(&self) -> &Ingress
        ensures { result.now ≡ self.now.ingress }
    {
        &self.ingress
    }

    /// The address that it dials: `None` until one is chosen.
    pub fn address(&self) -> Option<SocketAddr>
        ensures { result ≡ self.now.address }
    {
        self.address
    }

    /// The key of its peer: `None` once it has ended.
    pub fn public_key(&self) -> Option<P>
        ensures { result ≡ option_map peer_of self.now.reserved }
    {
        match &self.reservation {
            Some(reservation) => Some(*reservation.metadata().public_key()),
            None => None,
        }
    }

    /// Whether it has ended: each step is idle then, and what is put is dropped.
    pub fn has_ended(&self) -> bool
        ensures { result ≡ not (is_some self.now.reserved) }
    {
        self.reservation.is_none()
    }

    /// Puts an item behind what waits for it. Where it has ended, the item is dropped.
    ///
    /// `Err` only where memory runs out. The item is dropped then, and the attempt stays as it was.
    pub fn put(&mut self, item: AttemptItem) -> Result<(), AllocError>
        ensures after { OnOk result (self.new ≡ with_item self.old item) }
        ensures memory { OnErr result (self.new ≡ self.old) }
    {
        if self.reservation.is_some() {
            self.items.push(item)?;
        }
        Ok(())
    }

    /// Takes the oldest item that waits for it, and does what it says. Where none waits and its deadline has come, it
    /// ends.
    ///
    /// `seed` draws the address that is dialed. An attempt that has one keeps it. One that ends without a connection
    /// gives its reservation back.
    ///
    /// `Err` only where memory runs out. Each later step then answers so, and the attempt keeps its reservation.
    pub fn step(
        &mut self,
        way: &mut Mailbox<P>,
        now: u64,
        seed: u64,
    ) -> Result<Stepped<P>, AllocError>
        ensures answer { IfOk result (λ s. s ≡ (attempt_turn self.old way.old now seed).stepped) }
        ensures after { OnOk result (self.new ≡ (attempt_turn self.old way.old now seed).actor) }
        ensures way { OnOk result (way.new ≡ (attempt_turn self.old way.old now seed).way) }
        ensures kept { OnErr result (self.new.reserved ≡ self.old.reserved) }
        ensures memory { OnErr result (self.new.has_failed ≡ true) }
        ensures failed { self.old.has_failed ≡ true → IsErr result }
    {
        if self.has_failed {
            return Err(AllocError);
        }
        match self.work(way, now, seed) {
            Ok(stepped) => Ok(stepped),
            Err(_) => {
                self.has_failed = true;
                Err(AllocError)
            }
        }
    }

    // What a step does.
    fn work(&mut self, way: &mut Mailbox<P>, now: u64, seed: u64) -> Result<Stepped<P>, AllocError>
        ensures answer { IfOk result (λ s. s ≡ (attempt_turn self.old way.old now seed).stepped) }
        ensures after { OnOk result (self.new ≡ (attempt_turn self.old way.old now seed).actor) }
        ensures way { OnOk result (way.new ≡ (attempt_turn self.old way.old now seed).way) }
        ensures kept { OnErr result (self.new.reserved ≡ self.old.reserved) }
    {
        if self.reservation.is_none() {
            return Ok(Stepped::Idle);
        }
        match self.items.pop() {
            Some(item) => self.serve(way, item, now, seed),
            None => self.wait(way, now),
        }
    }

    // Ends where the deadline has come.
    fn wait(&mut self, way: &mut Mailbox<P>, now: u64) -> Result<Stepped<P>, AllocError>
        ensures answer { IfOk result (λ s. s ≡ (waits self.old way.old now).stepped) }
        ensures after { OnOk result (self.new ≡ (waits self.old way.old now).actor) }
        ensures way { OnOk result (way.new ≡ (waits self.old way.old now).way) }
        ensures kept { OnErr result (self.new.reserved ≡ self.old.reserved) }
    {
        if self.deadline <= now as u128 {
            self.give_up(way, Input::Deadline)
        } else {
            Ok(Stepped::Idle)
        }
    }

    // Does what an item says.
    fn serve(
        &mut self,
        way: &mut Mailbox<P>,
        item: AttemptItem,
        now: u64,
        seed: u64,
    ) -> Result<Stepped<P>, AllocError>
        ensures answer { IfOk result (λ s. s ≡ (item_turn item self.old way.old now seed).stepped) }
        ensures after { OnOk result (self.new ≡ (item_turn item self.old way.old now seed).actor) }
        ensures way { OnOk result (way.new ≡ (item_turn item self.old way.old now seed).way) }
        ensures kept { OnErr result (self.new.reserved ≡ self.old.reserved) }
    {
        match item {
            AttemptItem::Addresses(addresses) => self.resolve(way, addresses, seed),
            AttemptItem::Linked => Ok(self.link(now)),
            AttemptItem::Refused => self.give_up(way, Input::Item),
            AttemptItem::Finished(true) => Ok(self.finish()),
            AttemptItem::Finished(false) => self.give_up(way, Input::Item),
        }
    }

    // Chooses the address that is dialed, unless there is one.
    fn resolve(
        &mut self,
        way: &mut Mailbox<P>,
        addresses: List<SocketAddr>,
        seed: u64,
    ) -> Result<Stepped<P>, AllocError>
        ensures answer { IfOk result (λ s. s ≡ (resolves self.old.address addresses self.old way.old seed).stepped) }
        ensures after { OnOk result (self.new ≡ (resolves self.old.address addresses self.old way.old seed).actor) }
        ensures way { OnOk result (way.new ≡ (resolves self.old.address addresses self.old way.old seed).way) }
        ensures kept { OnErr result (self.new.reserved ≡ self.old.reserved) }
    {
        if self.address.is_some() {
            return Ok(Stepped::goes_on(Input::Item, None));
        }
        let chosen = choose(
            self.alloc,
            addresses.as_slice(),
            self.allow_private_ips,
            seed,
        )?;
        match chosen {
            Some(address) => Ok(self.dial(address)),
            None => self.give_up(way, Input::Item),
        }
    }

    // Dials this address.
    fn dial(&mut self, address: SocketAddr) -> Stepped<P>
        ensures answer { result ≡ gone_on input.Item None }
        ensures after { self.new ≡ record self.old { address = Some address } }
    {
        self.address = Some(address);
        Stepped::goes_on(Input::Item, None)
    }

    // Waits no longer than for the keys to be exchanged.
    fn link(&mut self, now: u64) -> Stepped<P>
        ensures answer { result ≡ gone_on input.Item None }
        ensures after { self.new ≡ linked_at now self.old }
    {
        let deadline = now as u128 + self.handshake_timeout as u128;
        self.deadline = self.deadline.min(deadline);
        Stepped::goes_on(Input::Item, None)
    }

    // Ends with the reservation.
    fn finish(&mut self) -> Stepped<P>
        ensures answer { result ≡ ready_by self.old.reserved self.old.items }
        ensures after { self.new ≡ ended_by self.old.reserved self.old }
    {
        match self.reservation.take() {
            Some(reservation) => self.end(Input::Item, None, Outcome::Ready(reservation)),
            None => Stepped::Idle,
        }
    }

    // Ends without a connection, and gives the reservation back.
    fn give_up(&mut self, way: &mut Mailbox<P>, took: Input) -> Result<Stepped<P>, AllocError>
        ensures answer { IfOk result (λ s. s ≡ (gives_up self.old.reserved took self.old way.old).stepped) }
        ensures after { OnOk result (self.new ≡ (gives_up self.old.reserved took self.old way.old).actor) }
        ensures way { OnOk result (way.new ≡ (gives_up self.old.reserved took self.old way.old).way) }
        ensures kept { OnErr result (self.new.reserved ≡ self.old.reserved) }
    {
        let Some(reservation) = self.reservation.take() else {
            return Ok(Stepped::Idle);
        };
        let metadata = *reservation.metadata();
        match way.release(reservation) {
            Ok(_) => Ok(self.end(took, Some(Put::Release { metadata }), Outcome::Ended)),
            Err(NoRoom(reservation)) => {
                self.reservation = Some(reservation);
                Err(AllocError)
            }
        }
    }

    // Drops what waits for it.
    fn end(&mut self, took: Input, put: Option<Put<P>>, outcome: Outcome<P>) -> Stepped<P>
        ensures answer { result ≡ stepped.Served took put (left.Attempt self.old.items) outcome }
        ensures after { self.new ≡ record self.old { items = [] } }
    {
        let items = self.items.take_all(self.alloc);
        Stepped::Served {
            took,
            put,
            left: Left::Attempt(items),
            outcome,
        }
    }
}
