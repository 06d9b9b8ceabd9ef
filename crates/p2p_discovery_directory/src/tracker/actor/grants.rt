//! Reservations: who is listed and granted, and their return.
ghost use Rattle.std.specs.Prelude.{◌≡◌, ◌||◌, true, not, IfOk};
ghost use Rattle.p2p_tracker_calls.specs.Jitter.{jitter_of};
ghost use Rattle.p2p_discovery_directory.specs.Reserved.{peer_of};
ghost use Rattle.p2p_discovery_directory.specs.Served.{IsServed};
ghost use Rattle.p2p_discovery_directory.specs.declared.tracker.message.Message.TheVariants as message;

use super::Put;
use super::telling::only;
use super::tracking::Tracking;
use crate::{DirectoryOf, Metadata};
use p2p_base::{List, PublicKey};
use p2p_runtime::Draws;
use std::alloc::AllocError;

impl<P: PublicKey, D: DirectoryOf<P> + Drop> Tracking<P, D> {
    // Answers whom to dial.
    pub(super) fn dialable(&self, now: u64, seed: u64) -> Result<List<Put<P>>, AllocError>
        ensures { IfOk result (λ p. IsServed D.answering D.is_eligible P.cmp now seed self.now self.now message.Dialable p) }
    {
        let list = self.directory.dialable(now)?;
        Ok(only(self.alloc, Put::Dialable(list))?)
    }

    // Answers a dial by a reservation, where it is granted.
    pub(super) fn dial(
        &mut self,
        now: u64,
        seed: u64,
        public_key: P,
    ) -> Result<List<Put<P>>, AllocError>
        ensures { IfOk result (λ p. IsServed D.answering D.is_eligible P.cmp now seed self.old self.new (message.Dial public_key) p) }
    {
        let wait = jitter(self.cooldown, seed);
        let granted = self.directory.dial(&public_key, now, wait)?;
        Ok(only(self.alloc, Put::Dial(granted))?)
    }

    // Answers whether a peer may connect.
    pub(super) fn acceptable(
        &self,
        now: u64,
        seed: u64,
        public_key: P,
        handshake: u64,
    ) -> Result<List<Put<P>>, AllocError>
        ensures { IfOk result (λ p. IsServed D.answering D.is_eligible P.cmp now seed self.now self.now (message.Acceptable public_key handshake) p) }
    {
        let is_free = self.directory.acceptable(&public_key, now);
        let put = Put::Acceptable {
            handshake,
            acceptable: is_free,
        };
        Ok(only(self.alloc, put)?)
    }

    // Answers a handshake by a reservation, where it is granted.
    pub(super) fn listen(
        &mut self,
        now: u64,
        seed: u64,
        public_key: P,
        handshake: u64,
    ) -> Result<List<Put<P>>, AllocError>
        ensures { IfOk result (λ p. IsServed D.answering D.is_eligible P.cmp now seed self.old self.new (message.Listen public_key handshake) p) }
    {
        let wait = jitter(self.cooldown, seed);
        let granted = self.directory.listen(&public_key, now, wait)?;
        let put = Put::Listen {
            handshake,
            reservation: granted,
        };
        Ok(only(self.alloc, put)?)
    }

    // Takes a reservation back, and forgets the peer's connection.
    pub(super) fn release(&mut self, now: u64, seed: u64, metadata: Metadata<P>) -> List<Put<P>>
        requires { (D.is_held self.old.directory (peer_of metadata) || not (D.has_record self.old.directory (peer_of metadata))) ≡ true }
        ensures { IsServed D.answering D.is_eligible P.cmp now seed self.old self.new (message.Release metadata) result }
    {
        self.controls.remove(metadata.public_key());
        self.directory.release(&metadata);
        List::empty(self.alloc)
    }
}

// How long after the cooldown a peer that is granted now is listed for a dial.
fn jitter(cooldown: u64, seed: u64) -> u64
    ensures { result ≡ jitter_of cooldown seed }
{
    Draws::new(seed).random_range(cooldown / 2)
}
