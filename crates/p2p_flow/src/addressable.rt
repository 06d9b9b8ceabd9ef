//! `AddressableTrackedPeers`, the addresses of a peer set in its two roles.
ghost use Rattle.std.specs.Prelude.{◌≡◌, [], IfOk};

use p2p_address::Address;
use p2p_base::{Map, PublicKey};
use std::alloc::{AllocError, Global};

/// The peers of a set with their addresses: the primary ones, and the secondary ones.
///
/// A key may stand in both roles. Whoever tracks such a set keeps it as primary alone.
///
/// Ports `AddressableTrackedPeers` of commonware-p2p.
#[derive(Drop, PartialEq, Eq, Debug)]
pub struct AddressableTrackedPeers<P: PublicKey> {
    /// The addresses of the peers that a policy for primary peers admits.
    pub primary: Map<P, Address>,
    /// The addresses of the peers that a policy for secondary peers admits.
    pub secondary: Map<P, Address>,
}

impl<P: PublicKey> AddressableTrackedPeers<P> {
    /// These primary and these secondary peers.
    ///
    /// Ports `AddressableTrackedPeers::new` of commonware-p2p.
    pub fn new(primary: Map<P, Address>, secondary: Map<P, Address>) -> AddressableTrackedPeers<P>
        ensures primary { result.primary ≡ primary }
        ensures secondary { result.secondary ≡ secondary }
    {
        AddressableTrackedPeers { primary, secondary }
    }

    /// These primary peers, and no secondary one. It takes no memory.
    ///
    /// Ports `AddressableTrackedPeers::primary` of commonware-p2p, and its `From<Map<P, Address>>`.
    pub fn primary(alloc: Global, primary: Map<P, Address>) -> AddressableTrackedPeers<P>
        ensures primary { result.primary ≡ primary }
        ensures secondary { result.secondary ≡ [] }
    {
        AddressableTrackedPeers::new(primary, Map::empty(alloc))
    }

    /// Equal peers. `Err` only where memory runs out.
    pub fn try_clone(&self) -> Result<AddressableTrackedPeers<P>, AllocError>
        ensures { IfOk result (λ peers. peers ≡ self.now) }
    {
        let primary = self.primary.clone()?;
        let secondary = self.secondary.clone()?;
        Ok(AddressableTrackedPeers { primary, secondary })
    }
}
