//! `AttemptItem`, what an attempt is told.
ghost use Rattle.std.specs.Prelude.{◌≡◌, IfOk};

use p2p_address::SocketAddr;
use p2p_base::List;
use std::alloc::{AllocError, Global};

/// What an attempt is told.
#[derive(Drop, PartialEq, Eq, Debug)]
pub enum AttemptItem {
    /// The addresses that its peer's name stands for.
    Addresses(List<SocketAddr>),
    /// It has a link to its peer.
    Linked,
    /// There is no link to its peer.
    Refused,
    /// Whether the keys were exchanged.
    Finished(bool),
}

impl AttemptItem {
    /// An equal item. `Err` only where memory runs out.
    pub fn try_clone(&self, alloc: Global) -> Result<AttemptItem, AllocError>
        ensures { IfOk result (λ item. item ≡ self.now) }
    {
        match self {
            AttemptItem::Addresses(addresses) => {
                let copy = addresses.try_clone(alloc)?;
                Ok(AttemptItem::Addresses(copy))
            }
            AttemptItem::Linked => Ok(AttemptItem::Linked),
            AttemptItem::Refused => Ok(AttemptItem::Refused),
            AttemptItem::Finished(ok) => Ok(AttemptItem::Finished(*ok)),
        }
    }
}
