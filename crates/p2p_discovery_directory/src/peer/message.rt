//! `Message`, what a connection is told.
use p2p_base::{Keep, List, PublicKey, UnreliablePolicy};
use p2p_discovery::{BitVec, Info};

/// What a connection is told. A full mailbox refuses what is to be sent; a kill always enters, and clears the overflow.
///
/// Ports `Message` of commonware-p2p's discovery peer.
#[derive(Drop, PartialEq, Eq, Debug)]
pub enum Message<P> {
    /// It is to send this bit vector.
    BitVec(BitVec),
    /// It is to send these infos.
    Peers(List<Info<P>>),
    /// It is to end.
    Kill,
}

impl<P: PublicKey> UnreliablePolicy for Message<P> {
    ghost use Rattle.p2p_discovery_directory.specs.Telling.{keep_of_told};

    ghost keep_of = { keep_of_told };

    fn keep(&self) -> Keep {
        match self {
            Message::BitVec(_) => Keep::Refuse,
            Message::Peers(_) => Keep::Refuse,
            Message::Kill => Keep::Replace,
        }
    }
}
