//! `TrackedPeers`, the keys of a peer set in their two roles.
ghost use Rattle.std.specs.Prelude.{◌≡◌, [], ◌++◌, IfOk};
ghost use Rattle.p2p_base.specs.Sorted.{sorted_once};

use p2p_base::{PublicKey, Set};
use std::alloc::{AllocError, Global};

/// The peers of a set: the primary ones, and the secondary ones.
///
/// A key may stand in both roles. Whoever tracks such a set keeps it as primary alone.
///
/// Ports `TrackedPeers` of commonware-p2p.
#[derive(Drop, PartialEq, Eq, Debug)]
pub struct TrackedPeers<P: PublicKey> {
    /// The peers that a policy for primary peers admits.
    pub primary: Set<P>,
    /// The peers that a policy for secondary peers admits.
    pub secondary: Set<P>,
}

impl<P: PublicKey> TrackedPeers<P> {
    /// These primary and these secondary peers.
    ///
    /// Ports `TrackedPeers::new` of commonware-p2p.
    pub fn new(primary: Set<P>, secondary: Set<P>) -> TrackedPeers<P>
        ensures primary { result.primary ≡ primary }
        ensures secondary { result.secondary ≡ secondary }
    {
        TrackedPeers { primary, secondary }
    }

    /// These primary peers, and no secondary one.
    ///
    /// Ports `TrackedPeers::primary` of commonware-p2p, and its `From<Set<P>>`.
    pub fn primary(alloc: Global, primary: Set<P>) -> TrackedPeers<P>
        ensures primary { result.primary ≡ primary }
        ensures secondary { result.secondary ≡ [] }
    {
        TrackedPeers::new(primary, Set::empty(alloc))
    }

    /// No peer in either role.
    ///
    /// Ports `TrackedPeers::default` of commonware-p2p.
    pub fn empty(alloc: Global) -> TrackedPeers<P>
        ensures primary { result.primary ≡ [] }
        ensures secondary { result.secondary ≡ [] }
    {
        TrackedPeers::primary(alloc, Set::empty(alloc))
    }

    /// The keys of both roles, each of them once.
    ///
    /// `Err` only where memory runs out; the peers are dropped then.
    ///
    /// Ports `TrackedPeers::union` of commonware-p2p.
    pub fn union(self, alloc: Global) -> Result<Set<P>, AllocError>
        ensures { IfOk result (λ s. s ≡ sorted_once P.cmp (self.primary ++ self.secondary)) }
    {
        let mut keys = Vec::from_slice(alloc, self.primary.as_slice())?;
        keys.extend_from_slice(self.secondary.as_slice())?;
        Set::from_iter_dedup(keys)
    }

    /// Equal peers. `Err` only where memory runs out.
    pub fn try_clone(&self) -> Result<TrackedPeers<P>, AllocError>
        ensures { IfOk result (λ peers. peers ≡ self.now) }
    {
        let primary = self.primary.try_clone()?;
        let secondary = self.secondary.try_clone()?;
        Ok(TrackedPeers { primary, secondary })
    }
}
