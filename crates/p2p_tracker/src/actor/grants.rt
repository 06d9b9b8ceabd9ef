//! Reservations: their grant, the connection that they are for, and their return.
ghost use Rattle.p2p_tracker.specs.declared.stepped.Put.TheVariants as puts;
ghost use Rattle.p2p_tracker_mailbox.specs.Mailboxes.{runs_in};
ghost use Rattle.p2p_tracker_mailbox.specs.declared.mailbox.Mailbox.{Mailbox as Mailboxed};
ghost use Rattle.p2p_tracker_mailbox.specs.declared.message.Message.TheVariants as message;
ghost use Rattle.p2p_tracker.specs.Putting.{IsPut};
ghost use Rattle.p2p_tracker.specs.Following.{Follows};
ghost use Rattle.p2p_tracker.specs.Telling.{after_puts};
ghost use Rattle.std.specs.Prelude.{◌≡◌, ℕ, cond, List, Some, None, [], ◌∷◌, true, false, IfOk, OnOk};
ghost use Rattle.p2p_tracker_calls.specs.declared.call.Call.{Call};
ghost use Rattle.p2p_tracker_calls.specs.declared.call.Call.TheVariants as call;
ghost use Rattle.p2p_tracker_directory.specs.Stands.{StandsFor};
ghost use Rattle.std.specs.Map.{lookup};
ghost use Rattle.std.specs.BTreeMap.{is_at};
ghost use Rattle.p2p_tracker_calls.specs.Lives.{accepts};
ghost use Rattle.p2p_tracker_calls.specs.Allows.{allows_dial, allows_listen};
ghost use Rattle.p2p_tracker_directory.specs.Recorded.{is_reserved_in, is_held_or_unknown};
ghost use Rattle.p2p_tracker_directory.specs.Reserved.{peer_of};
ghost use Rattle.p2p_tracker_calls.specs.Jitter.{jitter_of};
ghost use Rattle.p2p_tracker.specs.Serving.{IsEligible};

use super::Actor;
use super::kills::{forget, keep};
use crate::{DialerAnswer, HandshakeItem, Mailbox, Metadata, Put, Reservation};
use p2p_address::{Ingress, IpAddr};
use p2p_base::{List, PublicKey};
use p2p_runtime::Draws;
use p2p_tracker_directory::Directory;
use std::alloc::AllocError;

impl<C: PublicKey> Actor<C> {
    // Answers a dial by a reservation, where it is granted.
    pub(super) fn dial(
        &mut self,
        way: &mut Mailbox<C>,
        now: u64,
        seed: u64,
        public_key: C,
    ) -> Result<List<Put<C>>, AllocError>
        ensures stands { IfOk result (λ p. (calls : List (Call C)) → StandsFor C.cmp self.old.directory calls → StandsFor C.cmp self.new.directory (call.Dial public_key now (jitter_of self.old.cooldown seed) (allows_dial C.cmp self.old.directory.rules calls public_key now) ∷ calls)) }
        ensures follows { IfOk result (λ p. (calls : List (Call C)) → Follows C.cmp self.old.directory self.old.controls calls
            → Follows C.cmp self.new.directory self.new.controls (call.Dial public_key now (jitter_of self.old.cooldown seed) (allows_dial C.cmp self.old.directory.rules calls public_key now) ∷ calls)) }
        ensures rules { OnOk result (self.new.directory.rules ≡ self.old.directory.rules) }
        ensures rest { self.new ≡ record self.old { directory = self.new.directory } }
        ensures desk { IfOk result (λ p. way.new ≡ after_puts p way.old) }
        ensures put { IfOk result (λ p. IsPut C.cmp self.old self.new way.old.desk.sets way.old.heard (runs_in way.old) now (message.Dial public_key) p) }
    {
        let jitter = self.jitter(seed);
        let granted = self.directory.dial(&public_key, now, jitter)?;
        let told = told_of_dial(&granted)?;
        way.answer_dialer(DialerAnswer::Dial(granted))?;
        Ok(self.only(Put::Dial(told))?)
    }

    // Answers a handshake by a reservation, where it is granted.
    pub(super) fn listen(
        &mut self,
        way: &mut Mailbox<C>,
        now: u64,
        seed: u64,
        public_key: C,
        source_ip: IpAddr,
        handshake: u64,
    ) -> Result<List<Put<C>>, AllocError>
        ensures stands { IfOk result (λ p. (calls : List (Call C)) → StandsFor C.cmp self.old.directory calls → StandsFor C.cmp self.new.directory (call.Listen public_key now (jitter_of self.old.cooldown seed) (allows_listen C.cmp self.old.directory.rules calls public_key source_ip now) ∷ calls)) }
        ensures follows { IfOk result (λ p. (calls : List (Call C)) → Follows C.cmp self.old.directory self.old.controls calls
            → Follows C.cmp self.new.directory self.new.controls (call.Listen public_key now (jitter_of self.old.cooldown seed) (allows_listen C.cmp self.old.directory.rules calls public_key source_ip now) ∷ calls)) }
        ensures rules { OnOk result (self.new.directory.rules ≡ self.old.directory.rules) }
        ensures rest { self.new ≡ record self.old { directory = self.new.directory } }
        ensures desk { IfOk result (λ p. way.new ≡ after_puts p way.old) }
        ensures put { IfOk result (λ p. IsPut C.cmp self.old self.new way.old.desk.sets way.old.heard (runs_in way.old) now (message.Listen public_key source_ip handshake) p) }
    {
        let jitter = self.jitter(seed);
        let reservation = self.directory.listen(&public_key, source_ip, now, jitter)?;
        let reserved = told_of_listen(&reservation);
        let runs = way.answer_handshake(handshake, HandshakeItem::Listen(reservation))?;
        let told = Put::Listen {
            handshake,
            reserved,
        };
        Ok(self.only_where(runs, told)?)
    }

    // How long after the cooldown a peer that is granted now is listed for a dial.
    fn jitter(&self, seed: u64) -> u64
        ensures { result ≡ jitter_of self.now.cooldown seed }
    {
        Draws::new(seed).random_range(self.cooldown / 2)
    }

    // Keeps the connection of a peer that is eligible and whose address hasn't changed since it was reserved. Kills any other.
    pub(super) fn connect(
        &mut self,
        now: u64,
        public_key: C,
        conn: u64,
    ) -> Result<List<Put<C>>, AllocError>
        requires { IsEligible C.cmp self.old.directory public_key now → is_reserved_in (lookup (is_at (C.cmp public_key)) self.old.directory.records) ≡ true }
        ensures stands { IfOk result (λ p. (calls : List (Call C)) → StandsFor C.cmp self.old.directory calls → StandsFor C.cmp self.new.directory (call.Connect public_key (Some now) conn ∷ calls)) }
        ensures follows { IfOk result (λ p. (calls : List (Call C)) → Follows C.cmp self.old.directory self.old.controls calls
            → Follows C.cmp self.new.directory self.new.controls (call.Connect public_key (Some now) conn ∷ calls)) }
        ensures rules { OnOk result (self.new.directory.rules ≡ self.old.directory.rules) }
        ensures rest { self.new ≡ record self.old { directory = self.new.directory; controls = self.new.controls } }
        ensures put { IfOk result (λ p. (calls : List (Call C)) → Follows C.cmp self.old.directory self.old.controls calls → p ≡ cond (accepts C.cmp self.old.directory.rules calls public_key (Some now)) [] (puts.Kill public_key conn ∷ [])) }
        ensures desk { IfOk result (λ p. (m : Mailboxed C) → after_puts p m ≡ m) }
    {
        if accept(&mut self.directory, now, &public_key) {
            keep(&mut self.controls, public_key, conn)?;
            return Ok(List::empty(self.alloc));
        }
        Ok(self.only(Put::Kill {
            peer: public_key,
            conn,
        })?)
    }

    // Takes a reservation back, and forgets the peer's connection.
    pub(super) fn release(&mut self, metadata: Metadata<C>) -> List<Put<C>>
        requires { is_held_or_unknown (lookup (is_at (C.cmp (peer_of metadata))) self.old.directory.records) ≡ true }
        ensures stands { (calls : List (Call C)) → StandsFor C.cmp self.old.directory calls → StandsFor C.cmp self.new.directory (call.Release (peer_of metadata) ∷ calls) }
        ensures follows { (calls : List (Call C)) → Follows C.cmp self.old.directory self.old.controls calls
            → Follows C.cmp self.new.directory self.new.controls (call.Release (peer_of metadata) ∷ calls) }
        ensures rules { self.new.directory.rules ≡ self.old.directory.rules }
        ensures rest { self.new ≡ record self.old { directory = self.new.directory; controls = self.new.controls } }
        ensures put { result ≡ [] }
    {
        forget(&mut self.controls, metadata.public_key());
        self.directory.release(&metadata);
        List::empty(self.alloc)
    }
}

// Begins the connection of a peer, where it may. True exactly where it did.
fn accept<C: PublicKey>(directory: &mut Directory<C>, now: u64, public_key: &C) -> bool
    requires { IsEligible C.cmp directory.old public_key.now now → is_reserved_in (lookup (is_at (C.cmp public_key.now)) directory.old.records) ≡ true }
    ensures answer { (calls : List (Call C)) → StandsFor C.cmp directory.old calls → result ≡ accepts C.cmp directory.old.rules calls public_key.now (Some now) }
    ensures rules { directory.new.rules ≡ directory.old.rules }
    ensures stands { (calls : List (Call C)) (conn : ℕ) → StandsFor C.cmp directory.old calls → StandsFor C.cmp directory.new (call.Connect public_key.now (Some now) conn ∷ calls) }
{
    if !directory.eligible(public_key, now) {
        return false;
    }
    directory.connect(public_key)
}

// Who is reserved by the grant of a dial, and where to dial.
fn told_of_dial<C: PublicKey>(
    granted: &Option<(Reservation<C>, Ingress)>,
) -> Result<Option<(Metadata<C>, Ingress)>, AllocError>
    ensures { IfOk result (λ o. o ≡ granted.now) }
{
    match granted {
        Some((reservation, ingress)) => {
            let ingress = ingress.clone()?;
            Ok(Some((*reservation.metadata(), ingress)))
        }
        None => Ok(None),
    }
}

// Who is reserved by the grant of a listen.
fn told_of_listen<C: PublicKey>(granted: &Option<Reservation<C>>) -> Option<Metadata<C>>
    ensures { result ≡ granted.now }
{
    match granted {
        Some(reservation) => Some(*reservation.metadata()),
        None => None,
    }
}
