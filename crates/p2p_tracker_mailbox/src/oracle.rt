//! `OracleOf`, which asks the tracker.
ghost use Rattle.std.specs.Prelude.{◌≡◌};

use crate::{DeskOf, OracleMessage};
use p2p_base::{Feedback, PublicKey, Set};
use p2p_flow::{Blocker, Ended, PeerSetUpdate, Polled, Provider, TrackedPeers};
use std::alloc::{AllocError, Global};
use std::marker::PhantomData;

/// Says which peers are in the peer sets, asks for these sets, and blocks peers.
///
/// It is a name, whose copies are alike: all that is asked stands at the desk of the mailbox of its tracker, whose messages are of the
/// kind `M`.
///
/// Ports `Oracle` of commonware-p2p, which its lookup and its discovery have each.
#[derive(PartialEq, Eq, Debug)]
pub struct OracleOf<P, M> {
    pub(crate) local: P,
    pub(crate) max_peers_per_set: usize,
    of: PhantomData<M>,
}

impl<P: Copy, M> Clone for OracleOf<P, M> {
    ghost is_clone = { λ o copy. copy ≡ o };

    fn clone(&self) -> Result<OracleOf<P, M>, AllocError> {
        Ok(OracleOf {
            local: self.local,
            max_peers_per_set: self.max_peers_per_set,
            of: PhantomData,
        })
    }
}

impl<P: Copy, M> Copy for OracleOf<P, M> {}

impl<P: PublicKey, M> OracleOf<P, M> {
    /// The oracle of the node with the key `local`, whose peer sets have at most `max_peers_per_set` distinct keys, `local`
    /// counted.
    pub fn new(local: P, max_peers_per_set: usize) -> OracleOf<P, M>
        ensures local { result.local ≡ local }
        ensures most { result.max_peers_per_set ≡ max_peers_per_set }
    {
        OracleOf {
            local,
            max_peers_per_set,
            of: PhantomData,
        }
    }
}

impl<P: PublicKey, M: OracleMessage<PublicKey = P>> Provider for OracleOf<P, M> {
    ghost use Rattle.p2p_tracker_mailbox.specs.Desk.{provided_by, told_of, asked_by, answer_taken, subscribed_by, update_taken};
    ghost use Rattle.p2p_tracker_mailbox.specs.OracleLaws.{closed_once_ended as told_closed};

    type PublicKey = P;

    type Way = DeskOf<P, M>;

    ghost serves = { λ _ _. Unit {0} };

    ghost provided = { λ _ d. provided_by d };

    ghost told = { λ _ d. told_of d };

    ghost after_peer_set = { λ _ d index. asked_by M.asks d index };

    ghost after_poll_peer_set = { λ _ d n. answer_taken d n };

    ghost after_subscribe = { λ _ d. subscribed_by M.subscribes d };

    ghost after_poll_update = { λ _ d n. update_taken d n };

    fn peer_set(
        &mut self,
        alloc: Global,
        way: &mut DeskOf<P, M>,
        id: u64,
    ) -> Result<(u64, Feedback), AllocError> {
        let _ = alloc;
        way.ask(id)
    }

    fn poll_peer_set(
        &mut self,
        way: &mut DeskOf<P, M>,
        ticket: u64,
    ) -> Polled<Option<TrackedPeers<P>>> {
        way.take_answer(ticket)
    }

    fn subscribe(
        &mut self,
        alloc: Global,
        way: &mut DeskOf<P, M>,
    ) -> Result<(u64, Feedback), AllocError> {
        let _ = alloc;
        way.subscribe()
    }

    fn poll_update(
        &mut self,
        way: &mut DeskOf<P, M>,
        ticket: u64,
    ) -> Result<Polled<PeerSetUpdate<P>>, Ended> {
        if let Some(update) = way.take_update(ticket) {
            return Ok(Polled::Ready(update));
        }
        if way.is_closed() {
            return Err(Ended);
        }
        Ok(Polled::Pending)
    }

    ghost closed_once_ended = { λ _ d _. told_closed d };
}

impl<P: PublicKey, M: OracleMessage<PublicKey = P>> Blocker for OracleOf<P, M> {
    ghost use Rattle.p2p_tracker_mailbox.specs.Desk.{blocking_by, told_of, with_message, blocked_subscribed_by, set_taken};
    ghost use Rattle.p2p_tracker_mailbox.specs.OracleLaws.{closed_once_ended as told_closed};

    type PublicKey = P;

    type Way = DeskOf<P, M>;

    ghost serves = { λ _ _. Unit {0} };

    ghost blocking = { λ _ d. blocking_by d };

    ghost told = { λ _ d. told_of d };

    ghost after_block = { λ _ d peer. with_message d (M.blocks peer) };

    ghost after_blocked = { λ _ d. blocked_subscribed_by M.subscribes_blocked d };

    ghost after_poll_blocked = { λ _ d n. set_taken d n };

    fn block(
        &mut self,
        alloc: Global,
        way: &mut DeskOf<P, M>,
        peer: P,
    ) -> Result<Feedback, AllocError> {
        let _ = alloc;
        way.tell(M::block(peer))
    }

    fn blocked(
        &mut self,
        alloc: Global,
        way: &mut DeskOf<P, M>,
    ) -> Result<(u64, Feedback), AllocError> {
        let _ = alloc;
        way.subscribe_blocked()
    }

    fn poll_blocked(
        &mut self,
        way: &mut DeskOf<P, M>,
        ticket: u64,
    ) -> Result<Polled<Set<P>>, Ended> {
        if let Some(set) = way.take_set(ticket) {
            return Ok(Polled::Ready(set));
        }
        if way.is_closed() {
            return Err(Ended);
        }
        Ok(Polled::Pending)
    }

    ghost closed_once_ended = { λ _ d _. told_closed d };
}
