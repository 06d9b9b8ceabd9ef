//! What connections are told of peers: how much of it, and in which message.
ghost use Rattle.std.specs.Prelude.{◌≡◌, IfOk};
ghost use Rattle.p2p_discovery_directory.specs.Putting as told;

use super::Put;
use super::telling::only;
use p2p_base::{List, PublicKey};
use p2p_discovery::{BitVec, Info};
use p2p_runtime::Draws;
use std::alloc::{AllocError, Global};

// So many of these infos, which the seed draws where there are more.
pub(super) fn gossip<P: PublicKey>(most: usize, seed: u64, infos: Vec<Info<P>>) -> List<Info<P>>
    ensures { result ≡ told.gossip most seed infos.items }
{
    let mut infos = infos;
    if infos.len() > most {
        Draws::new(seed).shuffle(infos.as_mut_slice());
        infos.truncate(most);
    }
    List::new(infos)
}

// The bit vector that a connection is to send, if there is one.
pub(super) fn bits_put<P: PublicKey>(
    alloc: Global,
    peer: P,
    conn: u64,
    bits: Option<BitVec>,
) -> Result<List<Put<P>>, AllocError>
    ensures { IfOk result (λ p. p ≡ told.bits_put peer conn bits) }
{
    match bits {
        Some(bit_vec) => only(
            alloc,
            Put::BitVec {
                peer,
                conn,
                bit_vec,
            },
        ),
        None => Ok(List::empty(alloc)),
    }
}

// The infos that a connection is to send, if there are any.
pub(super) fn peers_put<P: PublicKey>(
    alloc: Global,
    peer: P,
    conn: u64,
    infos: List<Info<P>>,
) -> Result<List<Put<P>>, AllocError>
    ensures { IfOk result (λ p. p ≡ told.peers_put peer conn infos) }
{
    if infos.is_empty() {
        return Ok(List::empty(alloc));
    }
    only(alloc, Put::Peers { peer, conn, infos })
}
