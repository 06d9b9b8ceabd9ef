//! `Reservation`, the right to connect with a peer.
ghost use Rattle.std.specs.Prelude.{◌≡◌};

use crate::Metadata;
use std::marker::Model;

/// The right to connect with a peer, which a directory gave.
///
/// Ports `Reservation` of commonware-p2p's discovery tracker. It isn't given back where it is dropped: the directory's `release`
/// takes it back.
#[derive(Drop)]
pub struct Reservation<P> {
    metadata: Metadata<P>,
}

impl<P> Model for Reservation<P> {
    ghost use Rattle.p2p_discovery_directory.specs.declared.metadata.Metadata.{Metadata as Reserved};

    ghost Value = { Reserved P };

    ghost view = { λ r. r.metadata };
}

impl<P> Reservation<P> {
    /// The reservation of a peer that was just granted.
    pub fn new(metadata: Metadata<P>) -> Reservation<P>
        ensures { result ≡ metadata }
    {
        Reservation { metadata }
    }

    /// The peer, and which side began.
    pub fn metadata(&self) -> &Metadata<P>
        ensures { result.now ≡ self.now }
    {
        &self.metadata
    }

    /// The same, of which no reservation is left.
    pub fn into_metadata(self) -> Metadata<P>
        ensures { result ≡ self }
    {
        let Reservation { metadata } = self;
        metadata
    }
}
