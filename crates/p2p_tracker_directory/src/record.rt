//! `Record`, what is kept of a peer.
ghost use Rattle.std.specs.Prelude.{◌≡◌, ◌+◌, ◌<◌, ◌^◌, ◌&&◌, ◌||◌, nat_lt, not, true, false, IfOk};
ghost use Rattle.p2p_tracker_calls.specs.Lives.{same_address};
ghost use Rattle.p2p_tracker_directory.specs.Recorded.{fresh, is_inert, is_reserved, is_myself, differs, is_in_sets, is_eligible, updated, reserve_answer, reserved_by, connected, released, ingress_in, egress_in, is_outbound_target, has_valid_ingress, dials_from, is_deletable, dial_status, is_acceptable};
ghost use Rattle.p2p_tracker_directory.specs.Tracked.{gets_other};
ghost use Rattle.std.specs.Option.{option_copied};
ghost use Rattle.p2p_tracker_directory.specs.declared.record.Address.TheVariants as place;

use p2p_address::{Ingress, IpAddr};
use std::alloc::{AllocError, Global};
use std::marker::Model;

/// Where a peer is.
///
/// Ports `Address` of commonware-p2p's lookup tracker.
#[derive(Drop, PartialEq, Eq, Debug)]
pub enum Address {
    /// This node itself.
    Myself,
    /// Another peer, at this address.
    Known(p2p_address::Address),
}

impl Address {
    /// An equal address. `Err` only where memory runs out.
    pub fn try_clone(&self, alloc: Global) -> Result<Address, AllocError>
        ensures { IfOk result (λ a. a ≡ self.now) }
    {
        match self {
            Address::Myself => Ok(Address::Myself),
            Address::Known(known) => Ok(Address::Known(known.try_clone(alloc)?)),
        }
    }
}

/// Whether a peer is held.
///
/// Ports `Status` of commonware-p2p's lookup tracker.
#[derive(Clone, Copy, PartialEq, Eq, Debug)]
pub enum Status {
    /// It isn't.
    Inert,
    /// By a reservation.
    Reserved,
    /// By a connection.
    Active,
}

/// What asking a record for a reservation gives.
///
/// Ports `ReserveResult` of commonware-p2p's lookup tracker.
#[derive(Clone, Copy, PartialEq, Eq, Debug)]
pub enum ReserveResult {
    Reserved,
    /// The last grant was too short a time before.
    RateLimited,
    /// It is this node itself, or held.
    Unavailable,
}

/// Whether a peer is to be dialed.
///
/// Ports `DialStatus` of commonware-p2p's lookup tracker.
#[derive(Clone, Copy, PartialEq, Eq, Debug)]
pub enum DialStatus {
    Now,
    /// From this moment on, in nanoseconds.
    After(u128),
    /// It isn't, whatever the time.
    Unavailable,
}

/// What is kept of a peer. Moments are in nanoseconds.
///
/// Ports `Record` of commonware-p2p's lookup tracker.
#[derive(Drop, PartialEq, Eq, Debug)]
pub struct Record {
    address: Address,
    status: Status,
    primary: usize,
    secondary: usize,
    is_stale: bool,
    cool: u128,
    next_dial: u128,
}

impl Model for Record {
    ghost use Rattle.p2p_tracker_directory.specs.Recorded.{Recorded};

    ghost Value = { Recorded };

    ghost view = { λ r. record { address = r.address; status = r.status; primary = r.primary; secondary = r.secondary; is_stale = r.is_stale; cool = r.cool; next_dial = r.next_dial } };

    ghost inverse = { λ r. record { address = r.address; status = r.status; primary = r.primary; secondary = r.secondary; is_stale = r.is_stale; cool = r.cool; next_dial = r.next_dial } };
}

// Whether `known` is another address than `given`.
fn differs(known: &p2p_address::Address, given: &p2p_address::Address) -> bool
    ensures { result ≡ not (same_address known.now given.now) }
{
    known != given
}

impl Record {
    /// The record of another peer at this address, in no set and never granted.
    pub fn known(address: p2p_address::Address) -> Record
        ensures { result ≡ fresh (place.Known address) }
    {
        Record::at(Address::Known(address))
    }

    /// An equal record. `Err` only where memory runs out.
    pub fn try_clone(&self, alloc: Global) -> Result<Record, AllocError>
        ensures { IfOk result (λ r. r ≡ self.now) }
    {
        let address = self.address.try_clone(alloc)?;
        Ok(Record {
            address,
            status: self.status,
            primary: self.primary,
            secondary: self.secondary,
            is_stale: self.is_stale,
            cool: self.cool,
            next_dial: self.next_dial,
        })
    }

    /// The record of this node itself.
    pub fn myself() -> Record
        ensures { result ≡ fresh place.Myself }
    {
        Record::at(Address::Myself)
    }

    // A record in no set and never granted.
    pub(crate) fn at(address: Address) -> Record
        ensures { result ≡ fresh address }
    {
        Record {
            address,
            status: Status::Inert,
            primary: 0,
            secondary: 0,
            is_stale: false,
            cool: 0,
            next_dial: 0,
        }
    }

    /// Gives the peer another address. True exactly where it is another peer's and changed. A change while the peer is held
    /// leaves a mark.
    pub fn update(&mut self, address: p2p_address::Address) -> bool
        ensures changed { result ≡ differs self.old.address address }
        ensures after { self.new ≡ updated self.old address }
    {
        let changed = match &self.address {
            Address::Myself => return false,
            Address::Known(known) => differs(known, &address),
        };
        self.address = Address::Known(address);
        if self.is_reserved_or_connected() && changed {
            self.is_stale = true;
        }
        changed
    }

    /// Counts one more set in which the peer is primary.
    pub fn increment_primary(&mut self)
        requires { self.old.primary + 1 < 2 ^ 64 }
        ensures { self.new ≡ record self.old { primary = self.old.primary + 1 } }
    {
        self.primary += 1;
    }

    /// Counts one set less in which the peer is primary.
    pub fn decrement_primary(&mut self)
        requires { 0 < self.old.primary }
        ensures less { self.new.primary + 1 ≡ self.old.primary }
        ensures others { self.new ≡ record self.old { primary = self.new.primary } }
    {
        self.primary -= 1;
    }

    /// Counts one more set in which the peer is secondary.
    pub fn increment_secondary(&mut self)
        requires { self.old.secondary + 1 < 2 ^ 64 }
        ensures { self.new ≡ record self.old { secondary = self.old.secondary + 1 } }
    {
        self.secondary += 1;
    }

    /// Counts one set less in which the peer is secondary.
    pub fn decrement_secondary(&mut self)
        requires { 0 < self.old.secondary }
        ensures less { self.new.secondary + 1 ≡ self.old.secondary }
        ensures others { self.new ≡ record self.old { secondary = self.new.secondary } }
    {
        self.secondary -= 1;
    }

    /// Reserves the peer at the moment `now`, where it is another peer, not held, and `now` isn't before the last such
    /// moment plus its `interval`. The next dial waits for `interval` and `jitter`.
    pub fn reserve(&mut self, now: u64, interval: u64, jitter: u64) -> ReserveResult
        ensures answer { result ≡ reserve_answer self.old now }
        ensures after { self.new ≡ reserved_by result self.old now interval jitter }
    {
        if self.is_myself() || self.is_reserved_or_connected() {
            return ReserveResult::Unavailable;
        }
        let now = u128::from(now);
        if now < self.cool {
            return ReserveResult::RateLimited;
        }
        self.status = Status::Reserved;
        self.cool = now + u128::from(interval);
        self.next_dial = self.cool + u128::from(jitter);
        ReserveResult::Reserved
    }

    /// Begins a connection of a reserved peer. False exactly where its address changed since it was reserved, and then nothing
    /// changes.
    pub fn connect(&mut self) -> bool
        requires { is_reserved self.old.status ≡ true }
        ensures answer { result ≡ not self.old.is_stale }
        ensures after { self.new ≡ connected self.old }
    {
        if self.is_stale {
            return false;
        }
        self.status = Status::Active;
        true
    }

    /// Holds the peer no longer.
    pub fn release(&mut self)
        requires { is_inert self.old.status ≡ false }
        ensures { self.new ≡ released self.old }
    {
        self.status = Status::Inert;
        self.is_stale = false;
    }

    /// Whether this is another peer, which may be blocked.
    pub fn is_blockable(&self) -> bool
        ensures { result ≡ not (is_myself self.now.address) }
    {
        !self.is_myself()
    }

    fn is_myself(&self) -> bool
        ensures { result ≡ is_myself self.now.address }
    {
        match self.address {
            Address::Myself => true,
            Address::Known(_) => false,
        }
    }

    fn is_in_sets(&self) -> bool
        ensures { result ≡ is_in_sets self.now }
    {
        self.primary > 0 || self.secondary > 0
    }

    /// Whether the peer is held.
    pub fn is_reserved_or_connected(&self) -> bool
        ensures { result ≡ not (is_inert self.now.status) }
    {
        match self.status {
            Status::Inert => false,
            Status::Reserved => true,
            Status::Active => true,
        }
    }

    // Whether the peer is held by a reservation.
    pub(crate) fn is_reserved(&self) -> bool
        ensures { result ≡ is_reserved self.now.status }
    {
        match self.status {
            Status::Inert => false,
            Status::Reserved => true,
            Status::Active => false,
        }
    }

    // Whether the peer's address changed since it was granted.
    pub(crate) fn is_stale(&self) -> bool
        ensures { result ≡ self.now.is_stale }
    {
        self.is_stale
    }

    // Whether another address than the known one is given.
    pub(crate) fn gets_other(&self, given: Option<&p2p_address::Address>) -> bool
        ensures { result ≡ gets_other self.now.address (option_copied given.entry) }
    {
        match (&self.address, given) {
            (Address::Known(known), Some(given)) => differs(known, given),
            _ => false,
        }
    }

    /// Whether a connection of the peer must end: it is held, and its address changed since or it is eligible no longer.
    pub fn needs_teardown(&self) -> bool
        ensures { result ≡ (not (is_inert self.now.status) && (self.now.is_stale || not (is_eligible self.now))) }
    {
        self.is_reserved_or_connected() && (self.is_stale || !self.eligible())
    }

    /// In how many sets the peer is primary.
    pub fn primary_sets(&self) -> usize
        ensures { result ≡ self.now.primary }
    {
        self.primary
    }

    /// In how many sets the peer is secondary.
    pub fn secondary_sets(&self) -> usize
        ensures { result ≡ self.now.secondary }
    {
        self.secondary
    }

    /// Whether the peer is primary in a set, or this node itself.
    pub fn is_outbound_target(&self) -> bool
        ensures { result ≡ is_outbound_target self.now }
    {
        self.is_myself() || self.primary > 0
    }

    /// Whether the peer is to be dialed at the moment `now`, where `private` addresses and names (`dns`) may be dialed or not.
    pub fn dialable(&self, now: u64, private: bool, dns: bool) -> DialStatus
        ensures { result ≡ dial_status self.now now private dns }
    {
        if !self.is_outbound_target()
            || self.is_reserved_or_connected()
            || !self.has_valid_ingress(private, dns)
        {
            return DialStatus::Unavailable;
        }
        if u128::from(now) < self.next_dial {
            return DialStatus::After(self.next_dial);
        }
        DialStatus::Now
    }

    // The moment from which the peer is listed for a dial, if it may be dialed then.
    pub(crate) fn next_dial(&self) -> u128
        ensures { result ≡ self.now.next_dial }
    {
        self.next_dial
    }

    /// Whether the peer may be dialed at its address, where `private` addresses and names (`dns`) may be dialed or not.
    pub fn has_valid_ingress(&self, private: bool, dns: bool) -> bool
        ensures { result ≡ has_valid_ingress self.now.address private dns }
    {
        match &self.address {
            Address::Myself => false,
            Address::Known(p2p_address::Address::Symmetric(socket)) => {
                private || p2p_address::is_global(&socket.ip)
            }
            Address::Known(p2p_address::Address::Asymmetric { ingress, .. }) => {
                ingress.is_valid(private, dns)
            }
        }
    }

    /// Whether a connection that the peer began from `source` may be taken up: it is eligible and not held, and dials from
    /// there or `bypass` leaves that untested.
    pub fn acceptable(&self, source: IpAddr, bypass: bool) -> bool
        ensures { result ≡ is_acceptable self.now source bypass }
    {
        self.eligible() && !self.is_reserved_or_connected() && (bypass || self.dials_from(source))
    }

    fn dials_from(&self, source: IpAddr) -> bool
        ensures { result ≡ dials_from self.now.address source }
    {
        match &self.address {
            Address::Myself => false,
            Address::Known(address) => address.egress_ip() == source,
        }
    }

    /// Where the peer is dialed. `None` exactly for this node itself.
    pub fn ingress(&self, alloc: Global) -> Result<Option<Ingress>, AllocError>
        ensures { IfOk result (λ i. i ≡ ingress_in self.now.address) }
    {
        match &self.address {
            Address::Myself => Ok(None),
            Address::Known(address) => Ok(Some(address.ingress(alloc)?)),
        }
    }

    /// The IP address that the peer dials from. `None` exactly for this node itself.
    pub fn egress_ip(&self) -> Option<IpAddr>
        ensures { result ≡ egress_in self.now.address }
    {
        match &self.address {
            Address::Myself => None,
            Address::Known(address) => Some(address.egress_ip()),
        }
    }

    /// Whether nothing needs the record: it is another peer's, in no set and not held.
    pub fn deletable(&self) -> bool
        ensures { result ≡ is_deletable self.now }
    {
        !self.is_myself() && !self.is_in_sets() && !self.is_reserved_or_connected()
    }

    /// Whether this is another peer in a set.
    pub fn eligible(&self) -> bool
        ensures { result ≡ is_eligible self.now }
    {
        !self.is_myself() && self.is_in_sets()
    }
}
