//! Connections that begin, ask for a bit vector, or bring one.
ghost use Rattle.std.specs.Prelude.{◌≡◌, [], ◌∷◌, true, IfOk, OnOk};
ghost use Rattle.std.specs.Option.{option_map};
ghost use Rattle.p2p_discovery_directory.specs.Putting.{told_of_bits};
ghost use Rattle.p2p_discovery_directory.specs.Served.{IsServed, without_control, after_bits};
ghost use Rattle.p2p_discovery_directory.specs.declared.tracker.message.Message.TheVariants as message;
ghost use Rattle.p2p_discovery_directory.specs.declared.tracker.put.Put.TheVariants as puts;

use super::Put;
use super::controls::standing;
use super::gossiping::{bits_put, gossip, peers_put};
use super::telling::only;
use super::tracking::Tracking;
use crate::DirectoryOf;
use crate::tracker::Answer;
use crate::tracker::standing::Standing;
use p2p_base::{List, PublicKey};
use p2p_discovery::{BitVec, Info};
use std::alloc::AllocError;

impl<P: PublicKey, D: DirectoryOf<P> + Drop> Tracking<P, D> {
    // Connects an eligible peer, keeps its connection, and answers that the own info. Any other may not connect.
    pub(super) fn connect(
        &mut self,
        now: u64,
        seed: u64,
        public_key: P,
        dialer: bool,
        conn: u64,
    ) -> Result<List<Put<P>>, AllocError>
        requires { D.is_eligible self.old.directory public_key now ≡ true → D.is_reserved self.old.directory public_key ≡ true }
        ensures { IfOk result (λ p. IsServed D.answering D.is_eligible P.cmp now seed self.old self.new (message.Connect public_key dialer conn) p) }
    {
        if !self.directory.eligible(&public_key, now) {
            let answer = Answer::NotEligible;
            return Ok(only(self.alloc, Put::Answer { conn, answer })?);
        }
        let answer = Answer::Greeting(self.own.try_clone(self.alloc)?);
        self.controls.insert(public_key, conn)?;
        self.directory.connect(&public_key, dialer);
        Ok(only(self.alloc, Put::Answer { conn, answer })?)
    }

    // Gives the connection of an eligible peer a bit vector, if there is one, and ends that of any other.
    pub(super) fn construct(
        &mut self,
        now: u64,
        seed: u64,
        public_key: P,
    ) -> Result<List<Put<P>>, AllocError>
        ensures { IfOk result (λ p. IsServed D.answering D.is_eligible P.cmp now seed self.old self.new (message.Construct public_key) p) }
    {
        let is_eligible = self.directory.eligible(&public_key, now);
        match standing(&self.controls, &public_key, is_eligible) {
            Standing::Unknown => Ok(List::empty(self.alloc)),
            Standing::Barred(conn) => Ok(self.end(public_key, conn)?),
            Standing::Kept(conn) => {
                let bits = self.directory.random_bit_vec(seed)?;
                Ok(bits_put(self.alloc, public_key, conn, bits)?)
            }
        }
    }

    // Gives the connection of an eligible peer some of the infos that its bit vector lacks, and ends it where that names no set of as many
    // keys. Ends that of any other.
    pub(super) fn bit_vec(
        &mut self,
        now: u64,
        seed: u64,
        public_key: P,
        bit_vec: BitVec,
    ) -> Result<List<Put<P>>, AllocError>
        ensures { IfOk result (λ p. IsServed D.answering D.is_eligible P.cmp now seed self.old self.new (message.BitVec public_key bit_vec) p) }
    {
        let is_eligible = self.directory.eligible(&public_key, now);
        match standing(&self.controls, &public_key, is_eligible) {
            Standing::Unknown => Ok(List::empty(self.alloc)),
            Standing::Barred(conn) => Ok(self.end(public_key, conn)?),
            Standing::Kept(conn) => {
                let infos = self.directory.infos(&bit_vec)?;
                Ok(self.tell(public_key, conn, seed, infos)?)
            }
        }
    }

    // Gives a connection some of these infos, and ends it where there are none to give.
    fn tell(
        &mut self,
        public_key: P,
        conn: u64,
        seed: u64,
        infos: Option<Vec<Info<P>>>,
    ) -> Result<List<Put<P>>, AllocError>
        ensures put { IfOk result (λ p. p ≡ told_of_bits public_key conn self.old.most seed (option_map (λ v. v.items) infos)) }
        ensures after { OnOk result (self.new ≡ after_bits P.cmp self.old public_key (option_map (λ v. v.items) infos)) }
    {
        let Some(infos) = infos else {
            return Ok(self.end(public_key, conn)?);
        };
        let told = gossip(self.most, seed, infos);
        Ok(peers_put(self.alloc, public_key, conn, told)?)
    }

    // Ends a connection, and forgets it.
    fn end(&mut self, public_key: P, conn: u64) -> Result<List<Put<P>>, AllocError>
        ensures put { IfOk result (λ p. p ≡ puts.Kill public_key conn ∷ []) }
        ensures after { OnOk result (self.new ≡ without_control P.cmp self.old public_key) }
    {
        let killed = Put::Kill {
            peer: public_key,
            conn,
        };
        let put = only(self.alloc, killed)?;
        self.controls.remove(&public_key);
        Ok(put)
    }

    // Tells the directory what peers say of themselves.
    pub(super) fn peers(&mut self, now: u64, seed: u64, peers: List<Info<P>>) -> List<Put<P>>
        ensures { IsServed D.answering D.is_eligible P.cmp now seed self.old self.new (message.Peers peers) result }
    {
        self.directory.update_peers(peers.into_inner());
        List::empty(self.alloc)
    }
}
