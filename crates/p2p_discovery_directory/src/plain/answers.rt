//! What a plain directory answers.
ghost use Rattle.std.specs.Prelude.{◌≡◌, ◌&&◌, ◌||◌, ◌∷◌, List, Some, None, true, false, not, is_some, IfOk, IfSome, IsTrue, OnOk, OnErr};
ghost use Rattle.std.specs.Option.{option_map, option_copied};
ghost use Rattle.std.specs.Map.{lookup};
ghost use Rattle.std.specs.BTreeMap.{is_at};
ghost use Rattle.p2p_tracker_calls.specs.declared.call.Call.{Call as LookupCall};
ghost use Rattle.p2p_tracker_calls.specs.declared.call.Call.TheVariants as asked;
ghost use Rattle.p2p_tracker_calls.specs.BlockedKeys.{blocked_keys};
ghost use Rattle.p2p_tracker_calls.specs.Blocks.{is_blockable};
ghost use Rattle.p2p_tracker_calls.specs.Kills.{killed_keys};
ghost use Rattle.p2p_tracker_calls.specs.Lives as lives;
ghost use Rattle.p2p_tracker_calls.specs.Named.{EqualKeysAreOne};
ghost use Rattle.p2p_tracker_calls.specs.Peers.{peers_of, latest_update};
ghost use Rattle.p2p_tracker_calls.specs.Sets.{is_above, is_among, accepted_sets, kept_sets, set_at};
ghost use Rattle.p2p_tracker_directory.specs.Reserved.{peer_of as lookup_peer_of};
ghost use Rattle.p2p_tracker_directory.specs.Stands.{StandsFor};
ghost use Rattle.p2p_discovery_directory.specs.declared.call.Call.{Call};
ghost use Rattle.p2p_discovery_directory.specs.declared.call.Call.TheVariants as call;
ghost use Rattle.p2p_discovery_directory.specs.Allows.{is_acceptable, allows_dial, allows_listen};
ghost use Rattle.p2p_discovery_directory.specs.AsLookup.{lookup_calls, placed};
ghost use Rattle.p2p_discovery_directory.specs.DialList.{dialable_keys, query_again_at};
ghost use Rattle.p2p_discovery_directory.specs.Gossip.{infos_of, random_bit_vec};
ghost use Rattle.p2p_discovery_directory.specs.Infos.{info_of};
ghost use Rattle.p2p_discovery_directory.specs.Plain.{Represents, SameTerms, info_in, info_at};
ghost use Rattle.p2p_discovery_directory.specs.Reserved.{peer_of};
ghost use Rattle.p2p_discovery_directory.specs.declared.metadata.Metadata.TheVariants as side;
ghost use Rattle.p2p_discovery_directory.specs.Tests.{holds, reserves, knows, admits, is_due_in};

use crate::plain::dialing::dialer_of;
use crate::plain::listing::{asks_again, listed};
use crate::plain::places::{Places, forget, forget_ended, make_places, take_up_each};
use crate::plain::placing::placed_peers;
use crate::{DirectoryOf, Metadata, PlainDirectory, Reservation};
use p2p_address::IpAddr;
use p2p_base::{List, PublicKey, Set};
use p2p_discovery::{BitVec, Info};
use p2p_flow::{AddressableTrackedPeers, PeerSetUpdate, TrackedPeers};
use p2p_runtime::Draws;
use p2p_tracker_directory::{Dialable, Directory, Metadata as LookupMetadata};
use std::alloc::AllocError;

// The IP address of which nothing is asked.
fn anywhere() -> IpAddr {
    IpAddr::V4([0, 0, 0, 0])
}

// The reservation of a peer that dialed, where it is granted.
fn listener_of<P: Copy>(peer: &P, granted: bool) -> Option<Reservation<P>>
    ensures granted { is_some result ≡ granted }
    ensures metadata { IfSome result (λ g. g ≡ side.Listener peer.now) }
{
    if granted {
        return Some(Reservation::new(Metadata::Listener(*peer)));
    }
    None
}

// What names the same peer to a directory of lookup, which looks at no side.
fn named<P: Copy>(metadata: &Metadata<P>) -> LookupMetadata<P>
    ensures { lookup_peer_of result ≡ peer_of metadata.now }
{
    LookupMetadata::Listener(*metadata.public_key())
}

// Takes in the peer set of an index, with a place for each of its peers. Places are made first, so that no set is taken in without them.
fn enter<P: PublicKey>(
    directory: &mut Directory<P>,
    places: &mut Places<P>,
    index: u64,
    peers: &TrackedPeers<P>,
    placed: AddressableTrackedPeers<P>,
) -> Result<Option<Set<P>>, AllocError>
    ensures accepted { IfOk result (λ o. (calls : List (LookupCall P)) → StandsFor P.cmp directory.old calls → is_some o ≡ is_above index (accepted_sets P.cmp calls)) }
    ensures killed { IfOk result (λ o. IfSome o (λ k. (calls : List (LookupCall P)) → EqualKeysAreOne P.cmp → StandsFor P.cmp directory.old calls
        → k ≡ killed_keys P.cmp directory.old.rules index placed.primary placed.secondary calls)) }
    ensures rules { directory.new.rules ≡ directory.old.rules }
    ensures stands { IfOk result (λ o. (calls : List (LookupCall P)) → StandsFor P.cmp directory.old calls
        → StandsFor P.cmp directory.new (asked.Track index placed.primary placed.secondary ∷ calls)) }
    ensures memory { OnErr result ((calls : List (LookupCall P)) → StandsFor P.cmp directory.old calls → StandsFor P.cmp directory.new calls) }
    ensures infos { (q : P) → info_in (lookup (is_at (P.cmp q)) places.new.entries) ≡ info_in (lookup (is_at (P.cmp q)) places.old.entries) }
    ensures kept { (q : P) → is_some (lookup (is_at (P.cmp q)) places.old.entries) ≡ true → is_some (lookup (is_at (P.cmp q)) places.new.entries) ≡ true }
    ensures made { OnOk result ((q : P) → (is_among P.cmp peers.now.primary q || is_among P.cmp peers.now.secondary q) ≡ true
        → is_some (lookup (is_at (P.cmp q)) places.new.entries) ≡ true) }
{
    make_places(places, peers.primary.as_slice())?;
    make_places(places, peers.secondary.as_slice())?;
    directory.track(index, placed)
}

impl<P: PublicKey> PlainDirectory<P> {
    // Takes in the peer set of an index, where it is accepted, and gives the peers to kill.
    fn take_in(&mut self, index: u64, peers: &TrackedPeers<P>) -> Result<Option<Set<P>>, AllocError>
        ensures accepted { IfOk result (λ o. (calls : List (Call P)) → Represents P.cmp self.old calls → is_some o ≡ is_above index (accepted_sets P.cmp (lookup_calls calls))) }
        ensures killed { IfOk result (λ o. IfSome o (λ k. (calls : List (Call P)) → EqualKeysAreOne P.cmp → Represents P.cmp self.old calls
            → k ≡ killed_keys P.cmp self.old.peers.rules index (placed peers.now.primary) (placed peers.now.secondary) (lookup_calls calls))) }
        ensures terms { SameTerms self.old self.new }
        ensures stands { IfOk result (λ o. (calls : List (Call P)) → Represents P.cmp self.old calls
            → Represents P.cmp self.new (call.Track index peers.now.primary peers.now.secondary ∷ calls)) }
        ensures memory { OnErr result ((calls : List (Call P)) → Represents P.cmp self.old calls → Represents P.cmp self.new calls) }
        ensures held { (q : P) → holds P.cmp self.new.peers q ≡ holds P.cmp self.old.peers q }
        ensures reserved { (q : P) → reserves P.cmp self.new.peers q ≡ reserves P.cmp self.old.peers q }
    {
        let placed = placed_peers(self.alloc, peers)?;
        let killed = enter(&mut self.peers, &mut self.places, index, peers, placed);
        forget(&mut self.places, &self.peers);
        killed
    }
}

impl<P: PublicKey> DirectoryOf<P> for PlainDirectory<P> {
    ghost use Rattle.p2p_discovery_directory.specs.PlainAnswering.{answering_of};
    ghost use Rattle.p2p_discovery_directory.specs.TestLaws.{held_is_known, reserved_is_held_too};

    ghost is_held = { λ d. holds P.cmp d.peers };

    ghost is_reserved = { λ d. reserves P.cmp d.peers };

    ghost has_record = { λ d. knows P.cmp d.peers };

    ghost is_eligible = { λ d. admits P.cmp d.peers };

    ghost has_due = { λ d. is_due_in P.cmp d.peers };

    ghost answering = { answering_of P.cmp };

    /// Takes in the peer set of an index. It is kept, and of those that were kept the oldest one is no longer where there were as many
    /// as are kept. A peer with both roles is primary. Gives the peers to kill: the held ones of the oldest set that are in no set then.
    ///
    /// `None` exactly where the index isn't above that of the last set that was accepted. `Err` only where memory runs out.
    fn track_given(
        &mut self,
        index: u64,
        given: &mut Option<TrackedPeers<P>>,
    ) -> Result<Option<Set<P>>, AllocError>
        requires { IsTrue (is_some given.old) }
        ensures accepted { IfOk result (λ o. (calls : List (Call P)) → Represents P.cmp self.old calls → is_some o ≡ is_above index (accepted_sets P.cmp (lookup_calls calls))) }
        ensures killed { IfOk result (λ o. IfSome o (λ k. IfSome given.old (λ peers. (calls : List (Call P)) → EqualKeysAreOne P.cmp → Represents P.cmp self.old calls
            → k ≡ killed_keys P.cmp self.old.peers.rules index (placed peers.primary) (placed peers.secondary) (lookup_calls calls)))) }
        ensures terms { SameTerms self.old self.new }
        ensures stands { IfOk result (λ o. IfSome given.old (λ peers. (calls : List (Call P)) → Represents P.cmp self.old calls
            → Represents P.cmp self.new (call.Track index peers.primary peers.secondary ∷ calls))) }
        ensures memory { OnErr result ((calls : List (Call P)) → Represents P.cmp self.old calls → Represents P.cmp self.new calls) }
        ensures held { (q : P) → holds P.cmp self.new.peers q ≡ holds P.cmp self.old.peers q }
        ensures reserved { (q : P) → reserves P.cmp self.new.peers q ≡ reserves P.cmp self.old.peers q }
    {
        let Some(peers) = given.take() else {
            unreachable!()
        };
        self.take_in(index, &peers)
    }

    /// Blocks a peer from the moment `now` on for the block's duration. True exactly where it is another's key and isn't blocked then.
    ///
    /// `Err` only where memory runs out, and then nothing has changed.
    fn block(&mut self, peer: &P, now: u64) -> Result<bool, AllocError>
        ensures answer { IfOk result (λ b. (calls : List (Call P)) → Represents P.cmp self.old calls → b ≡ is_blockable P.cmp self.old.peers.rules (lookup_calls calls) peer.now now) }
        ensures terms { SameTerms self.old self.new }
        ensures stands { IfOk result (λ b. (calls : List (Call P)) → Represents P.cmp self.old calls → Represents P.cmp self.new (call.Block peer.now now ∷ calls)) }
        ensures memory { OnErr result (self.new ≡ self.old) }
        ensures held { (q : P) → holds P.cmp self.new.peers q ≡ holds P.cmp self.old.peers q }
        ensures reserved { (q : P) → reserves P.cmp self.new.peers q ≡ reserves P.cmp self.old.peers q }
    {
        self.peers.block(peer, now)
    }

    /// Takes away the blocks that have ended at the moment `now`. True exactly where there was one.
    fn unblock_expired(&mut self, now: u64) -> bool
        ensures due { result ≡ true → (q : P) × (is_due_in P.cmp self.old.peers q now ≡ true) }
        ensures none_due { result ≡ false → (q : P) → is_due_in P.cmp self.old.peers q now ≡ false }
        ensures kept { result ≡ false → self.new ≡ self.old }
        ensures terms { SameTerms self.old self.new }
        ensures stands { (calls : List (Call P)) → Represents P.cmp self.old calls → Represents P.cmp self.new (call.UnblockExpired now ∷ calls) }
        ensures held { (q : P) → holds P.cmp self.new.peers q ≡ holds P.cmp self.old.peers q }
        ensures reserved { (q : P) → reserves P.cmp self.new.peers q ≡ reserves P.cmp self.old.peers q }
    {
        self.peers.unblock_expired(now)
    }

    /// The peers that are blocked at the moment `now`, also those that are in no set. `Err` only where memory runs out.
    fn blocked_peers(&self, now: u64) -> Result<Set<P>, AllocError>
        ensures { IfOk result (λ r. (calls : List (Call P)) → EqualKeysAreOne P.cmp → Represents P.cmp self.now calls
            → r ≡ blocked_keys P.cmp self.now.peers.rules (lookup_calls calls) now) }
    {
        self.peers.blocked_peers(now)
    }

    /// Whether `peer` may connect at the moment `now`: it is another's key, in a set that is kept, and not blocked.
    fn eligible(&self, peer: &P, now: u64) -> bool
        ensures value { result ≡ admits P.cmp self.now.peers peer.now now }
        ensures exactly { (calls : List (Call P)) → Represents P.cmp self.now calls → result ≡ lives.is_eligible P.cmp self.now.peers.rules (lookup_calls calls) peer.now now }
    {
        self.peers.eligible(peer, now)
    }

    /// Whether a connection that `peer` began may be taken up at the moment `now`, from whatever address it came. Whether it has waited
    /// since its last grant is left to `listen`.
    fn acceptable(&self, peer: &P, now: u64) -> bool
        ensures { (calls : List (Call P)) → Represents P.cmp self.now calls → result ≡ is_acceptable P.cmp self.now.peers.rules calls peer.now now }
    {
        self.peers.acceptable(peer, anywhere(), now)
    }

    /// Asks for a reservation to dial `peer` at the moment `now`, where it said that it is dialed. The peer is then listed for a dial after
    /// the cooldown and `jitter`.
    ///
    /// `None` exactly where the peer isn't eligible, is held, was granted less than the cooldown before, is primary in no set, or no info
    /// is kept of it whose ingress may be dialed. `Err` only where memory runs out, and then nothing has changed.
    fn dial(
        &mut self,
        peer: &P,
        now: u64,
        jitter: u64,
    ) -> Result<Option<Reservation<P>>, AllocError>
        ensures granted { IfOk result (λ o. (calls : List (Call P)) → Represents P.cmp self.old calls → is_some o ≡ allows_dial P.cmp self.old.peers.rules self.old.own calls peer.now now) }
        ensures refused { IfOk result (λ o. holds P.cmp self.old.peers peer.now ≡ true → o ≡ None) }
        ensures metadata { IfOk result (λ o. IfSome o (λ g. peer_of g ≡ peer.now)) }
        ensures ingress { IfOk result (λ o. IfSome o (λ g. (calls : List (Call P)) → Represents P.cmp self.old calls
            → option_map (λ i. side.Dialer peer.now i.ingress) (info_of P.cmp self.old.peers.rules self.old.own calls peer.now) ≡ Some g)) }
        ensures terms { SameTerms self.old self.new }
        ensures stands { IfOk result (λ o. (calls : List (Call P)) → Represents P.cmp self.old calls
            → Represents P.cmp self.new (call.Dial peer.now now jitter (is_some o) ∷ calls)) }
        ensures held { IfOk result (λ o. (q : P) → holds P.cmp self.new.peers q ≡ (holds P.cmp self.old.peers q || (is_some o && is_at (P.cmp peer.now) q))) }
        ensures reserved { IfOk result (λ o. (q : P) → reserves P.cmp self.new.peers q ≡ (reserves P.cmp self.old.peers q || (is_some o && is_at (P.cmp peer.now) q))) }
        ensures memory { OnErr result (self.new ≡ self.old) }
    {
        let found = self.dialed_at(peer)?;
        let Some(ingress) = found else {
            return Ok(None);
        };
        let granted = self.peers.listen(peer, anywhere(), now, jitter)?;
        Ok(dialer_of(peer, ingress, granted.is_some()))
    }

    /// Asks for a reservation for `peer`, which dialed, at the moment `now`. The peer is then listed for a dial after the cooldown and
    /// `jitter`.
    ///
    /// `None` exactly where the peer isn't eligible, is held, or was granted less than the cooldown before. `Err` only where memory runs
    /// out, and then nothing has changed.
    fn listen(
        &mut self,
        peer: &P,
        now: u64,
        jitter: u64,
    ) -> Result<Option<Reservation<P>>, AllocError>
        ensures granted { IfOk result (λ o. (calls : List (Call P)) → Represents P.cmp self.old calls → is_some o ≡ allows_listen P.cmp self.old.peers.rules self.old.own calls peer.now now) }
        ensures refused { IfOk result (λ o. holds P.cmp self.old.peers peer.now ≡ true → o ≡ None) }
        ensures metadata { IfOk result (λ o. IfSome o (λ g. g ≡ side.Listener peer.now)) }
        ensures terms { SameTerms self.old self.new }
        ensures stands { IfOk result (λ o. (calls : List (Call P)) → Represents P.cmp self.old calls
            → Represents P.cmp self.new (call.Listen peer.now now jitter (is_some o) ∷ calls)) }
        ensures held { IfOk result (λ o. (q : P) → holds P.cmp self.new.peers q ≡ (holds P.cmp self.old.peers q || (is_some o && is_at (P.cmp peer.now) q))) }
        ensures reserved { IfOk result (λ o. (q : P) → reserves P.cmp self.new.peers q ≡ (reserves P.cmp self.old.peers q || (is_some o && is_at (P.cmp peer.now) q))) }
        ensures memory { OnErr result (self.new ≡ self.old) }
    {
        let granted = self.peers.listen(peer, anywhere(), now, jitter)?;
        Ok(listener_of(peer, granted.is_some()))
    }

    /// The peers to dial at the moment `now`, in key order, and when to ask again: the least moment at which a peer that waits for its next
    /// dial alone is listed, or at which the block of a peer that has a record ends.
    ///
    /// `Err` only where memory runs out.
    fn dialable(&self, now: u64) -> Result<Dialable<P>, AllocError>
        ensures { IfOk result (λ r. (calls : List (Call P)) → EqualKeysAreOne P.cmp → Represents P.cmp self.now calls
            → r ≡ record {
              peers = dialable_keys P.cmp self.now.peers.rules self.now.own calls now;
              next_query_at = query_again_at P.cmp self.now.peers.rules self.now.own calls now;
            }) }
    {
        let peers = listed(self.alloc, &self.peers, &self.places, now)?;
        Ok(Dialable {
            peers: List::new(peers),
            next_query_at: asks_again(&self.peers, &self.places, now),
        })
    }

    /// Begins the connection of a reserved `peer`, whichever side dialed.
    fn connect(&mut self, peer: &P, dialer: bool)
        requires { reserves P.cmp self.old.peers peer.now ≡ true }
        ensures terms { SameTerms self.old self.new }
        ensures stands { (calls : List (Call P)) → Represents P.cmp self.old calls → Represents P.cmp self.new (call.Connect peer.now ∷ calls) }
        ensures held { (q : P) → holds P.cmp self.new.peers q ≡ holds P.cmp self.old.peers q }
        ensures reserved { (q : P) → reserves P.cmp self.new.peers q ≡ (reserves P.cmp self.old.peers q && not (is_at (P.cmp peer.now) q)) }
    {
        let _ = dialer;
        let _ = self.peers.connect(peer);
    }

    /// Takes back the reservation of a peer, which is held or has no record. It forgets a peer that is then in no set, but for a block.
    fn release(&mut self, metadata: &Metadata<P>)
        requires { (holds P.cmp self.old.peers (peer_of metadata.now) || not (knows P.cmp self.old.peers (peer_of metadata.now))) ≡ true }
        ensures terms { SameTerms self.old self.new }
        ensures stands { (calls : List (Call P)) → Represents P.cmp self.old calls → Represents P.cmp self.new (call.Release (peer_of metadata.now) ∷ calls) }
        ensures held { (q : P) → holds P.cmp self.new.peers q ≡ (holds P.cmp self.old.peers q && not (is_at (P.cmp (peer_of metadata.now)) q)) }
        ensures reserved { (q : P) → reserves P.cmp self.new.peers q ≡ (reserves P.cmp self.old.peers q && not (is_at (P.cmp (peer_of metadata.now)) q)) }
    {
        let held = named(metadata);
        self.peers.release(&held);
        let peer = metadata.public_key();
        forget_ended(&mut self.places, &self.peers, peer);
    }

    /// The peers of the set of an index. `None` exactly where no set of that index is kept. `Err` only where memory runs out.
    fn get_peer_set(&self, index: u64) -> Result<Option<TrackedPeers<P>>, AllocError>
        ensures { IfOk result (λ r. (calls : List (Call P)) → Represents P.cmp self.now calls
            → r ≡ option_map peers_of (set_at index (kept_sets P.cmp self.now.peers.rules (lookup_calls calls)))) }
    {
        self.peers.get_peer_set(index)
    }

    /// The newest of the sets that are kept, its index, and the peers of all of them. `None` exactly where none is kept. `Err` only
    /// where memory runs out.
    fn latest_update(&self) -> Result<Option<PeerSetUpdate<P>>, AllocError>
        ensures { IfOk result (λ r. (calls : List (Call P)) → EqualKeysAreOne P.cmp → Represents P.cmp self.now calls
            → r ≡ latest_update P.cmp self.now.peers.rules (lookup_calls calls)) }
    {
        self.peers.latest_update()
    }

    /// Where `peer` is dialed, as it said itself: of the own key the info that the directory was made with, and of another one the newest that
    /// it was told since the peer has a record. `None` exactly where none is kept.
    fn info(&self, peer: &P) -> Option<&Info<P>>
        ensures value { option_copied result ≡ info_at P.cmp self.now peer.now }
        ensures exactly { (calls : List (Call P)) → Represents P.cmp self.now calls → option_copied result ≡ info_of P.cmp self.now.peers.rules self.now.own calls peer.now }
    {
        self.kept(peer)
    }

    /// What a peer is told that knows these of a set: what is kept of the keys whose bit isn't set, in their order. The keys are those of
    /// both roles together, in their order. `None` exactly where a set of that index is kept and has another number of keys; of a set that
    /// isn't kept nothing is told.
    ///
    /// `Err` only where memory runs out.
    fn infos(&self, bits: &BitVec) -> Result<Option<Vec<Info<P>>>, AllocError>
        ensures { IfOk result (λ o. (calls : List (Call P)) → Represents P.cmp self.now calls
            → option_map (λ v. v.items) o ≡ infos_of P.cmp self.now.peers.rules self.now.own calls bits.now.index bits.now.bits) }
    {
        let Some(peers) = self.peers.get_peer_set(bits.index)? else {
            return Ok(Some(Vec::new(self.alloc)));
        };
        let keys = peers.union(self.alloc)?;
        if bits.bits.as_slice().len() != keys.as_slice().len() {
            return Ok(None);
        }
        let told = self.unknown(bits.bits.as_slice(), keys.as_slice())?;
        Ok(Some(told))
    }

    /// Of which peers of one of the kept sets is known where they are dialed. The seed draws the set, among all in the order of their
    /// indices: it is the one at the place that `Draws::choice` gives of a new `Draws`. `None` exactly where no set is kept.
    ///
    /// `Err` only where memory runs out.
    fn random_bit_vec(&self, seed: u64) -> Result<Option<BitVec>, AllocError>
        ensures { IfOk result (λ o. (calls : List (Call P)) → Represents P.cmp self.now calls → o ≡ random_bit_vec P.cmp self.now.peers.rules self.now.own calls seed) }
    {
        let count = self.peers.set_count();
        if count == 0 {
            return Ok(None);
        }
        let place = Draws::new(seed).choice(count);
        match self.peers.set_index(count - 1 - place) {
            Some(index) => self.bit_vec_of(index),
            None => Ok(None),
        }
    }

    /// Keeps, in their order, each of these infos whose peer is another one that has a record, and of whom none as new is kept. The others
    /// are dropped. It takes no memory.
    fn update_peers(&mut self, infos: Vec<Info<P>>)
        ensures terms { SameTerms self.old self.new }
        ensures stands { (calls : List (Call P)) → Represents P.cmp self.old calls → Represents P.cmp self.new (call.UpdatePeers infos.items ∷ calls) }
        ensures held { (q : P) → holds P.cmp self.new.peers q ≡ holds P.cmp self.old.peers q }
        ensures reserved { (q : P) → reserves P.cmp self.new.peers q ≡ reserves P.cmp self.old.peers q }
    {
        take_up_each(&mut self.places, infos);
    }

    ghost held_has_record = { λ d. held_is_known P.cmp d.peers };

    ghost reserved_is_held = { λ d. reserved_is_held_too P.cmp d.peers };
}
