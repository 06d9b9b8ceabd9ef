//! The plain data that senders and receivers speak of.
ghost use Rattle.std.specs.Prelude.{◌≡◌, IfOk};

use bytes::Bytes;
use p2p_base::List;
use std::alloc::{AllocError, Global};

/// The number of a channel.
///
/// Ports `Channel` of commonware-p2p.
pub type Channel = u64;

/// A message and the key of its sender.
///
/// Ports `Message` of commonware-p2p.
pub type Message<P> = (P, Bytes);

/// To whom a message goes.
///
/// Ports `Recipients` of commonware-p2p.
#[derive(Drop, PartialEq, Eq, Debug)]
pub enum Recipients<P> {
    /// To every peer that is connected.
    All,
    /// To these peers, in order. A key that stands twice gets it twice.
    Some(List<P>),
    /// To one peer.
    One(P),
}

impl<P: Copy> Recipients<P> {
    /// Equal recipients. `Err` only where memory runs out.
    pub fn try_clone(&self, alloc: Global) -> Result<Recipients<P>, AllocError>
        ensures { IfOk result (λ r. r ≡ self.now) }
    {
        match self {
            Recipients::All => Ok(Recipients::All),
            Recipients::Some(peers) => {
                let copy = peers.try_clone(alloc)?;
                Ok(Recipients::Some(copy))
            }
            Recipients::One(peer) => Ok(Recipients::One(*peer)),
        }
    }
}

/// What asking for something that may not be there yet gives.
#[derive(Drop, PartialEq, Eq, Debug)]
pub enum Polled<T> {
    /// It is there.
    Ready(T),
    /// It isn't there yet.
    Pending,
}
