//! How an oracle says who is in the peer sets.
ghost use Rattle.std.specs.Prelude.{◌≡◌, ◌≤◌, ◌<◌, OnOk};
ghost use Rattle.p2p_flow.specs.SetSize.{set_size, IfTooLarge};

use crate::set_size::set_size;
use crate::{DeskOf, Message, OracleOf, RegisterMessage};
use p2p_address::Address;
use p2p_base::{Feedback, Map, PublicKey};
use p2p_flow::{AddressableManager, AddressableTrackedPeers, Manager, TrackError, TrackedPeers};
use std::alloc::{AllocError, Global};

impl<P: PublicKey, M> OracleOf<P, M> {
    // Tests whether a set with these peers has few enough keys. `PeerSetTooLarge` comes exactly where it has too many.
    fn fit(&self, alloc: Global, primary: &[P], secondary: &[P]) -> Result<(), TrackError>
        ensures fits { OnOk result (set_size P.cmp self.now.local primary.now secondary.now ≤ self.now.max_peers_per_set) }
        ensures too_large { IfTooLarge result (λ count limit. limit < count) }
        ensures count { IfTooLarge result (λ count limit. count ≡ set_size P.cmp self.now.local primary.now secondary.now) }
        ensures limit { IfTooLarge result (λ count limit. limit ≡ self.now.max_peers_per_set) }
    {
        let count = set_size(alloc, self.local, primary, secondary)?;
        let limit = self.max_peers_per_set;
        if count > limit {
            return Err(TrackError::PeerSetTooLarge { count, limit });
        }
        Ok(())
    }
}

impl<P: PublicKey, M: RegisterMessage<PublicKey = P>> Manager for OracleOf<P, M> {
    ghost use Rattle.p2p_tracker_mailbox.specs.Desk.{with_message};

    ghost local = { λ o. o.local };

    ghost most = { λ o. o.max_peers_per_set };

    ghost after_track = { λ _ d index peers. with_message d (M.registers index peers) };

    fn track_given(
        &mut self,
        alloc: Global,
        way: &mut DeskOf<P, M>,
        id: u64,
        given: &mut Option<TrackedPeers<P>>,
    ) -> Result<Feedback, TrackError> {
        let Some(peers) = given.take() else {
            unreachable!()
        };
        self.fit(alloc, peers.primary.as_slice(), peers.secondary.as_slice())?;
        let mut fitting = Some(peers);
        let told = way.tell(M::register_given(id, &mut fitting))?;
        Ok(told)
    }
}

impl<P: PublicKey> AddressableManager for OracleOf<P, Message<P>> {
    ghost use Rattle.p2p_tracker_mailbox.specs.Desk.{with_message};
    ghost use Rattle.p2p_tracker_mailbox.specs.declared.message.Message.TheVariants as message;

    ghost local = { λ o. o.local };

    ghost most = { λ o. o.max_peers_per_set };

    ghost after_track = { λ _ d index peers. with_message d (message.Register index peers) };

    ghost after_overwrite = { λ _ d peers. with_message d (message.Overwrite peers) };

    fn track_given(
        &mut self,
        alloc: Global,
        way: &mut DeskOf<P, Message<P>>,
        id: u64,
        given: &mut Option<AddressableTrackedPeers<P>>,
    ) -> Result<Feedback, TrackError> {
        let Some(peers) = given.take() else {
            unreachable!()
        };
        self.fit(alloc, peers.primary.keys(), peers.secondary.keys())?;
        let told = way.tell(Message::Register { index: id, peers })?;
        Ok(told)
    }

    fn overwrite_given(
        &mut self,
        alloc: Global,
        way: &mut DeskOf<P, Message<P>>,
        given: &mut Option<Map<P, Address>>,
    ) -> Result<Feedback, AllocError> {
        let _ = alloc;
        let Some(peers) = given.take() else {
            unreachable!()
        };
        way.tell(Message::Overwrite { peers })
    }
}
