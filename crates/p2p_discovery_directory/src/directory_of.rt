//! `DirectoryOf`, what a directory of discovery must answer.
ghost use Rattle.std.specs.Prelude.{◌≡◌, ℕ, ◌&&◌, ◌||◌, Bool, None, true, false, not, is_some, IfOk, IfSome, IsTrue, OnErr};
ghost use Rattle.std.specs.Option.{option_map};
ghost use Rattle.std.specs.BTreeMap.{is_at};
ghost use Rattle.p2p_discovery_directory.specs.Answering.{Answering};
ghost use Rattle.p2p_discovery_directory.specs.Reserved.{peer_of};
ghost use Rattle.p2p_discovery_directory.specs.declared.call.Call.TheVariants as call;
ghost use Rattle.p2p_discovery_directory.specs.declared.metadata.Metadata.TheVariants as side;

use crate::{Metadata, Reservation};
use p2p_base::{PublicKey, Set};
use p2p_discovery::{BitVec, Info};
use p2p_flow::{PeerSetUpdate, TrackedPeers};
use p2p_tracker_directory::Dialable;
use std::alloc::AllocError;

/// Which peers are tracked, held and blocked, as the tracker of a discovered network asks it.
///
/// Moments and jitters are in nanoseconds. Nothing but what is said here is promised of a directory: a `dial` or a
/// `listen` of a held peer is refused, one that is granted makes its peer held and reserved, `connect` ends reserved, `release` ends held
/// and reserved, and no other call changes either.
pub trait DirectoryOf<P: PublicKey> {
    // Whether a key is held.
    ghost is_held: { Self → P → Bool };

    // Whether a key is reserved: held, and its connection hasn't begun.
    ghost is_reserved: { Self → P → Bool };

    // Whether a key has a record.
    ghost has_record: { Self → P → Bool };

    // Whether a key is eligible at a moment.
    ghost is_eligible: { Self → P → ℕ → Bool };

    // Whether a block of a key is due at a moment.
    ghost has_due: { Self → P → ℕ → Bool };

    // What it answers, and what each call makes of it.
    ghost answering: { Answering Self P };

    /// Does `track` for the set that is handed in, and takes it out: this is what an implementation writes, of which the kit makes no
    /// proof where it takes a set by value.
    fn track_given(
        &mut self,
        index: u64,
        given: &mut Option<TrackedPeers<P>>,
    ) -> Result<Option<Set<P>>, AllocError>
        requires { IsTrue (is_some given.old) }
        ensures accepted { IfOk result (λ o. answering.takes_in self.old index (is_some o)) }
        ensures killed { IfOk result (λ o. IfSome o (λ k. IfSome given.old (λ peers. answering.kills self.old index peers k))) }
        ensures stands { IfOk result (λ o. IfSome given.old (λ peers. answering.becomes self.old (call.Track index peers.primary peers.secondary) self.new)) }
        ensures held { (q : P) → is_held self.new q ≡ is_held self.old q }
        ensures reserved { (q : P) → is_reserved self.new q ≡ is_reserved self.old q };

    /// Blocks a peer from the moment `now` on. True exactly where that took effect.
    ///
    /// `Err` only where memory runs out.
    fn block(&mut self, peer: &P, now: u64) -> Result<bool, AllocError>
        ensures answer { IfOk result (λ b. answering.blocks self.old peer.now now b) }
        ensures stands { IfOk result (λ b. answering.becomes self.old (call.Block peer.now now) self.new) }
        ensures held { (q : P) → is_held self.new q ≡ is_held self.old q }
        ensures reserved { (q : P) → is_reserved self.new q ≡ is_reserved self.old q };

    /// Takes away the blocks that are due at the moment `now`. True exactly where there was one.
    fn unblock_expired(&mut self, now: u64) -> bool
        ensures due { result ≡ true → (q : P) × (has_due self.old q now ≡ true) }
        ensures none_due { result ≡ false → (q : P) → has_due self.old q now ≡ false }
        ensures kept { result ≡ false → self.new ≡ self.old }
        ensures stands { answering.becomes self.old (call.UnblockExpired now) self.new }
        ensures held { (q : P) → is_held self.new q ≡ is_held self.old q }
        ensures reserved { (q : P) → is_reserved self.new q ≡ is_reserved self.old q };

    /// The peers that are blocked at the moment `now`. `Err` only where memory runs out.
    fn blocked_peers(&self, now: u64) -> Result<Set<P>, AllocError>
        ensures { IfOk result (λ r. answering.blocked self.now now r) };

    /// Whether a peer may connect at the moment `now`.
    fn eligible(&self, peer: &P, now: u64) -> bool
        ensures { result ≡ is_eligible self.now peer.now now };

    /// Whether a connection that a peer began may be taken up at the moment `now`. Whether it has waited since its last grant is left
    /// to `listen`.
    fn acceptable(&self, peer: &P, now: u64) -> bool
        ensures { answering.accepts self.now peer.now now result };

    /// Asks for a reservation to dial a peer, at the moment `now`. `None` where it is refused, as that of a held peer is. Where the peer is
    /// dialed the reservation tells.
    ///
    /// `Err` only where memory runs out, and then nothing has changed.
    fn dial(
        &mut self,
        peer: &P,
        now: u64,
        jitter: u64,
    ) -> Result<Option<Reservation<P>>, AllocError>
        ensures granted { IfOk result (λ o. answering.grants_dial self.old peer.now now (is_some o)) }
        ensures ingress { IfOk result (λ o. IfSome o (λ g. answering.dials self.old peer.now g)) }
        ensures stands { IfOk result (λ o. answering.becomes self.old (call.Dial peer.now now jitter (is_some o)) self.new) }
        ensures refused { IfOk result (λ o. is_held self.old peer.now ≡ true → o ≡ None) }
        ensures metadata { IfOk result (λ o. IfSome o (λ g. peer_of g ≡ peer.now)) }
        ensures held { IfOk result (λ o. (q : P) → is_held self.new q ≡ (is_held self.old q || (is_some o && is_at (P.cmp peer.now) q))) }
        ensures reserved { IfOk result (λ o. (q : P) → is_reserved self.new q ≡ (is_reserved self.old q || (is_some o && is_at (P.cmp peer.now) q))) }
        ensures memory { OnErr result (self.new ≡ self.old) };

    /// Asks for a reservation for a peer that dialed, at the moment `now`. `None` where it is refused, as that of a held peer is.
    ///
    /// `Err` only where memory runs out, and then nothing has changed.
    fn listen(
        &mut self,
        peer: &P,
        now: u64,
        jitter: u64,
    ) -> Result<Option<Reservation<P>>, AllocError>
        ensures granted { IfOk result (λ o. answering.grants_listen self.old peer.now now (is_some o)) }
        ensures stands { IfOk result (λ o. answering.becomes self.old (call.Listen peer.now now jitter (is_some o)) self.new) }
        ensures refused { IfOk result (λ o. is_held self.old peer.now ≡ true → o ≡ None) }
        ensures metadata { IfOk result (λ o. IfSome o (λ g. g ≡ side.Listener peer.now)) }
        ensures held { IfOk result (λ o. (q : P) → is_held self.new q ≡ (is_held self.old q || (is_some o && is_at (P.cmp peer.now) q))) }
        ensures reserved { IfOk result (λ o. (q : P) → is_reserved self.new q ≡ (is_reserved self.old q || (is_some o && is_at (P.cmp peer.now) q))) }
        ensures memory { OnErr result (self.new ≡ self.old) };

    /// The peers to dial at the moment `now`, in key order, and when to ask again. `Err` only where memory runs out.
    fn dialable(&self, now: u64) -> Result<Dialable<P>, AllocError>
        ensures { IfOk result (λ r. answering.lists self.now now r) };

    /// Begins the connection of a reserved peer; `dialer` tells that this node dialed it.
    fn connect(&mut self, peer: &P, dialer: bool)
        requires { is_reserved self.old peer.now ≡ true }
        ensures stands { answering.becomes self.old (call.Connect peer.now) self.new }
        ensures held { (q : P) → is_held self.new q ≡ is_held self.old q }
        ensures reserved { (q : P) → is_reserved self.new q ≡ (is_reserved self.old q && not (is_at (P.cmp peer.now) q)) };

    /// Takes back the reservation of a peer that is held, or has no record.
    fn release(&mut self, metadata: &Metadata<P>)
        requires { (is_held self.old (peer_of metadata.now) || not (has_record self.old (peer_of metadata.now))) ≡ true }
        ensures stands { answering.becomes self.old (call.Release (peer_of metadata.now)) self.new }
        ensures held { (q : P) → is_held self.new q ≡ (is_held self.old q && not (is_at (P.cmp (peer_of metadata.now)) q)) }
        ensures reserved { (q : P) → is_reserved self.new q ≡ (is_reserved self.old q && not (is_at (P.cmp (peer_of metadata.now)) q)) };

    /// The peers of the set of an index. `None` where no set of that index is kept. `Err` only where memory runs out.
    fn get_peer_set(&self, index: u64) -> Result<Option<TrackedPeers<P>>, AllocError>
        ensures { IfOk result (λ r. answering.peer_set self.now index r) };

    /// The newest of the sets that are kept, its index, and the peers of all of them. `None` where none is kept. `Err` only where
    /// memory runs out.
    fn latest_update(&self) -> Result<Option<PeerSetUpdate<P>>, AllocError>
        ensures { IfOk result (λ r. answering.update self.now r) };

    /// Where a peer is dialed, as it said itself, as far as the directory keeps that. `None` exactly where it keeps no info of the peer.
    fn info(&self, peer: &P) -> Option<&Info<P>>;

    /// What a peer is told that knows these of a set: nothing of a set that isn't kept, and `None` where the set has another number of keys.
    ///
    /// `Err` only where memory runs out.
    fn infos(&self, bits: &BitVec) -> Result<Option<Vec<Info<P>>>, AllocError>
        ensures { IfOk result (λ o. answering.infos self.now bits.now (option_map (λ v. v.items) o)) };

    /// Of which peers of one of the kept sets is known where they are dialed; the seed draws the set. `None` exactly where there is none.
    ///
    /// `Err` only where memory runs out.
    fn random_bit_vec(&self, seed: u64) -> Result<Option<BitVec>, AllocError>
        ensures { IfOk result (λ o. answering.bit_vec self.now seed o) };

    /// Tells where peers are dialed, as they said themselves. Which of these infos are kept is the directory's own.
    fn update_peers(&mut self, infos: Vec<Info<P>>)
        ensures stands { answering.becomes self.old (call.UpdatePeers infos.items) self.new }
        ensures held { (q : P) → is_held self.new q ≡ is_held self.old q }
        ensures reserved { (q : P) → is_reserved self.new q ≡ is_reserved self.old q };

    // A held key has a record.
    ghost held_has_record: { (directory : Self) (q : P) → is_held directory q ≡ true → has_record directory q ≡ true };

    // A reserved key is held.
    ghost reserved_is_held: { (directory : Self) (q : P) → is_reserved directory q ≡ true → is_held directory q ≡ true };

    /// Hands in the peer set of an index, and gives the peers to kill. `None` where the set isn't accepted.
    ///
    /// `Err` only where memory runs out, and then the set counts as never handed in.
    final fn track(
        &mut self,
        index: u64,
        peers: TrackedPeers<P>,
    ) -> Result<Option<Set<P>>, AllocError>
        ensures accepted { IfOk result (λ o. answering.takes_in self.old index (is_some o)) }
        ensures killed { IfOk result (λ o. IfSome o (λ k. answering.kills self.old index peers k)) }
        ensures stands { IfOk result (λ o. answering.becomes self.old (call.Track index peers.primary peers.secondary) self.new) }
        ensures held { (q : P) → is_held self.new q ≡ is_held self.old q }
        ensures reserved { (q : P) → is_reserved self.new q ≡ is_reserved self.old q }
    {
        let mut given = Some(peers);
        self.track_given(index, &mut given)
    }
}
