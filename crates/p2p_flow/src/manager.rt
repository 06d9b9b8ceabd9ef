//! `Manager` and `AddressableManager`, which say who is in the peer sets.
ghost use Rattle.std.specs.Prelude.{◌≡◌, ◌<◌, ◌≤◌, ℕ, List, IfOk, IfSome, IsTrue, OnOk, OnErr, is_some};
ghost use Rattle.std.specs.Map.{keys_of};
ghost use Rattle.p2p_address.specs.declared.peer.Address.{Address as Where};
ghost use Rattle.p2p_flow.specs.SetSize.{set_size, IfTooLarge};
ghost use Rattle.p2p_flow.specs.declared.addressable.AddressableTrackedPeers.{AddressableTrackedPeers as Addressed};
ghost use Rattle.p2p_flow.specs.declared.tracked.TrackedPeers.{TrackedPeers as Tracked};

use crate::{AddressableTrackedPeers, Provider, TrackError, TrackedPeers};
use p2p_address::Address;
use p2p_base::{Feedback, Map};
use std::alloc::{AllocError, Global};

/// Says which keys are in the peer sets, where addresses aren't told.
///
/// The kit makes no proof of an implementation that takes a set by value, so an implementation gets it in an `Option` and users hand
/// it in by value.
///
/// Ports `Manager` of commonware-p2p.
pub trait Manager: Provider {
    // The key of the node itself.
    ghost local: { Self → Self.PublicKey };

    // How many distinct keys a set may have, the local one counted.
    ghost most: { Self → ℕ };

    // The way after a peer set was handed in.
    ghost after_track: { Self → Self.Way → ℕ → Tracked Self.PublicKey → Self.Way };

    /// Does `track` for the set that is handed in, and takes it out: this is what an implementation writes.
    fn track_given(
        &mut self,
        alloc: Global,
        way: &mut Self::Way,
        id: u64,
        given: &mut Option<TrackedPeers<Self::PublicKey>>,
    ) -> Result<Feedback, TrackError>
        requires serves { Self.serves self.old way.old }
        requires given { IsTrue (is_some given.old) }
        ensures told { IfOk result (λ f. f ≡ Self.told self.old way.old) }
        ensures fits { OnOk result (IfSome given.old (λ peers. set_size Self.PublicKey.cmp (local self.old) peers.primary peers.secondary ≤ most self.old)) }
        ensures too_large { IfTooLarge result (λ count limit. limit < count) }
        ensures count { IfTooLarge result (λ count limit. IfSome given.old (λ peers. count ≡ set_size Self.PublicKey.cmp (local self.old) peers.primary peers.secondary)) }
        ensures limit { IfTooLarge result (λ count limit. limit ≡ most self.old) }
        ensures after { OnOk result (IfSome given.old (λ peers. way.new ≡ after_track self.old way.old id peers)) }
        ensures provided { Self.provided self.new way.new ≡ Self.provided self.old way.old }
        ensures unchanged { OnErr result (way.new ≡ way.old) }
        ensures serves { Self.serves self.new way.new }
        ensures same { self.new ≡ self.old };

    /// Asks that the peers of the set with the index `id` be tracked. Tells what became of the message.
    ///
    /// Indices must ascend, and a key in both roles is primary. `PeerSetTooLarge` comes exactly where the set has too many keys, and
    /// `Memory` where memory runs out. In both cases nothing has changed.
    final fn track(
        &mut self,
        alloc: Global,
        way: &mut Self::Way,
        id: u64,
        peers: TrackedPeers<Self::PublicKey>,
    ) -> Result<Feedback, TrackError>
        requires { Self.serves self.old way.old }
        ensures told { IfOk result (λ f. f ≡ Self.told self.old way.old) }
        ensures fits { OnOk result (set_size Self.PublicKey.cmp (local self.old) peers.primary peers.secondary ≤ most self.old) }
        ensures too_large { IfTooLarge result (λ count limit. limit < count) }
        ensures count { IfTooLarge result (λ count limit. count ≡ set_size Self.PublicKey.cmp (local self.old) peers.primary peers.secondary) }
        ensures limit { IfTooLarge result (λ count limit. limit ≡ most self.old) }
        ensures after { OnOk result (way.new ≡ after_track self.old way.old id peers) }
        ensures provided { Self.provided self.new way.new ≡ Self.provided self.old way.old }
        ensures unchanged { OnErr result (way.new ≡ way.old) }
        ensures serves { Self.serves self.new way.new }
        ensures same { self.new ≡ self.old }
    {
        let mut given = Some(peers);
        self.track_given(alloc, way, id, &mut given)
    }
}

/// Says which keys are in the peer sets, and where these peers are.
///
/// As with `Manager`, an implementation gets what is handed in in an `Option`.
///
/// Ports `AddressableManager` of commonware-p2p.
pub trait AddressableManager: Provider {
    // The key of the node itself.
    ghost local: { Self → Self.PublicKey };

    // How many distinct keys a set may have, the local one counted.
    ghost most: { Self → ℕ };

    // The way after a peer set was handed in.
    ghost after_track: { Self → Self.Way → ℕ → Addressed Self.PublicKey → Self.Way };

    // The way after addresses were handed in.
    ghost after_overwrite: { Self → Self.Way → List (Self.PublicKey × Where) → Self.Way };

    /// Does `track` for the set that is handed in, and takes it out: this is what an implementation writes.
    fn track_given(
        &mut self,
        alloc: Global,
        way: &mut Self::Way,
        id: u64,
        given: &mut Option<AddressableTrackedPeers<Self::PublicKey>>,
    ) -> Result<Feedback, TrackError>
        requires serves { Self.serves self.old way.old }
        requires given { IsTrue (is_some given.old) }
        ensures told { IfOk result (λ f. f ≡ Self.told self.old way.old) }
        ensures fits { OnOk result (IfSome given.old (λ peers. set_size Self.PublicKey.cmp (local self.old) (keys_of peers.primary) (keys_of peers.secondary) ≤ most self.old)) }
        ensures too_large { IfTooLarge result (λ count limit. limit < count) }
        ensures count { IfTooLarge result (λ count limit. IfSome given.old (λ peers. count ≡ set_size Self.PublicKey.cmp (local self.old) (keys_of peers.primary) (keys_of peers.secondary))) }
        ensures limit { IfTooLarge result (λ count limit. limit ≡ most self.old) }
        ensures after { OnOk result (IfSome given.old (λ peers. way.new ≡ after_track self.old way.old id peers)) }
        ensures provided { Self.provided self.new way.new ≡ Self.provided self.old way.old }
        ensures unchanged { OnErr result (way.new ≡ way.old) }
        ensures serves { Self.serves self.new way.new }
        ensures same { self.new ≡ self.old };

    /// Asks that the peers of the set with the index `id` be tracked. Tells what became of the message.
    ///
    /// Indices must ascend, and a key in both roles is primary. `PeerSetTooLarge` comes exactly where the set has too many keys, and
    /// `Memory` where memory runs out. In both cases nothing has changed.
    final fn track(
        &mut self,
        alloc: Global,
        way: &mut Self::Way,
        id: u64,
        peers: AddressableTrackedPeers<Self::PublicKey>,
    ) -> Result<Feedback, TrackError>
        requires { Self.serves self.old way.old }
        ensures told { IfOk result (λ f. f ≡ Self.told self.old way.old) }
        ensures fits { OnOk result (set_size Self.PublicKey.cmp (local self.old) (keys_of peers.primary) (keys_of peers.secondary) ≤ most self.old) }
        ensures too_large { IfTooLarge result (λ count limit. limit < count) }
        ensures count { IfTooLarge result (λ count limit. count ≡ set_size Self.PublicKey.cmp (local self.old) (keys_of peers.primary) (keys_of peers.secondary)) }
        ensures limit { IfTooLarge result (λ count limit. limit ≡ most self.old) }
        ensures after { OnOk result (way.new ≡ after_track self.old way.old id peers) }
        ensures provided { Self.provided self.new way.new ≡ Self.provided self.old way.old }
        ensures unchanged { OnErr result (way.new ≡ way.old) }
        ensures serves { Self.serves self.new way.new }
        ensures same { self.new ≡ self.old }
    {
        let mut given = Some(peers);
        self.track_given(alloc, way, id, &mut given)
    }

    /// Does `overwrite` for the addresses that are handed in, and takes them out: this is what an implementation writes.
    fn overwrite_given(
        &mut self,
        alloc: Global,
        way: &mut Self::Way,
        given: &mut Option<Map<Self::PublicKey, Address>>,
    ) -> Result<Feedback, AllocError>
        requires serves { Self.serves self.old way.old }
        requires given { IsTrue (is_some given.old) }
        ensures told { IfOk result (λ f. f ≡ Self.told self.old way.old) }
        ensures after { OnOk result (IfSome given.old (λ peers. way.new ≡ after_overwrite self.old way.old peers)) }
        ensures provided { Self.provided self.new way.new ≡ Self.provided self.old way.old }
        ensures memory { OnErr result (way.new ≡ way.old) }
        ensures serves { Self.serves self.new way.new }
        ensures same { self.new ≡ self.old };

    /// Asks that these peers get these addresses, in each set that is tracked. Tells what became of the message.
    ///
    /// A peer whose address changes is disconnected. `Err` only where memory runs out; nothing has changed then.
    final fn overwrite(
        &mut self,
        alloc: Global,
        way: &mut Self::Way,
        peers: Map<Self::PublicKey, Address>,
    ) -> Result<Feedback, AllocError>
        requires { Self.serves self.old way.old }
        ensures told { IfOk result (λ f. f ≡ Self.told self.old way.old) }
        ensures after { OnOk result (way.new ≡ after_overwrite self.old way.old peers) }
        ensures provided { Self.provided self.new way.new ≡ Self.provided self.old way.old }
        ensures memory { OnErr result (way.new ≡ way.old) }
        ensures serves { Self.serves self.new way.new }
        ensures same { self.new ≡ self.old }
    {
        let mut given = Some(peers);
        self.overwrite_given(alloc, way, &mut given)
    }
}
