//! What the tracker answers those who asked by an oracle.
ghost use Rattle.std.specs.Prelude.{◌≡◌, OnOk, OnErr};
ghost use Rattle.p2p_tracker_mailbox.specs.Desk.{answered_at, with_update, set_of, with_set};

use super::DeskOf;
use crate::OracleMessage;
use crate::waiting::put_for;
use p2p_base::{PublicKey, Set};
use p2p_flow::{PeerSetUpdate, TrackedPeers};
use std::alloc::AllocError;

impl<P: PublicKey, M: OracleMessage<PublicKey = P>> DeskOf<P, M> {
    /// Answers a question for a peer set: by the peers of the set, or by `None` where no set has the index that was asked for.
    ///
    /// A question has one answer: where it was answered or given up before, or was never asked, this answer is dropped.
    pub fn answer_peer_set(
        &mut self,
        access: &M::Access,
        ticket: u64,
        peers: Option<TrackedPeers<P>>,
    )
        ensures { self.new ≡ answered_at self.old ticket peers }
    {
        let _ = access;
        let place = ticket as usize;
        if place < self.questions.len() {
            self.questions[place].answer(peers);
        }
    }

    /// Puts an update for a subscription, behind those that wait for it. Where there is no such subscription it is dropped.
    ///
    /// `Err` only where memory runs out. The update is dropped then, and the desk stays as it was.
    pub fn put_update(
        &mut self,
        access: &M::Access,
        ticket: u64,
        update: PeerSetUpdate<P>,
    ) -> Result<(), AllocError>
        ensures after { OnOk result (self.new ≡ with_update self.old ticket update) }
        ensures memory { OnErr result (self.new ≡ self.old) }
    {
        let _ = access;
        put_for(&mut self.updates, ticket, update)?;
        Ok(())
    }

    /// Puts a set of blocked keys for a subscription, and hands out the one that makes way for it. Where there is no such
    /// subscription the set is dropped. It takes no memory.
    pub fn put_blocked(&mut self, access: &M::Access, ticket: u64, set: Set<P>) -> Option<Set<P>>
        ensures value { result ≡ set_of self.old ticket }
        ensures after { self.new ≡ with_set self.old ticket set }
    {
        let _ = access;
        let place = ticket as usize;
        if place < self.sets.len() {
            self.sets[place].replace(set)
        } else {
            None
        }
    }
}
