//! `Running`, a node of a discovered network that has started.
use crate::spawner;
use p2p_base::PublicKey;
use p2p_discovery::types::InfoVerifier;
use p2p_discovery_directory::tracker;
use p2p_flow_connection::Inbounds;
use p2p_flow_senders::Way;
use p2p_router::{self as router, Messenger};

/// The actors of a node that has started, and where what they are told and asked waits. Whoever runs it steps them, and moves what the
/// tracker puts.
///
/// It stands for the tasks that commonware-p2p's `Network::run` begins, without its listener and dialer.
pub struct Running<P: PublicKey, D> {
    /// What waits for the tracker; its desk is lent to the oracle.
    pub tracker_way: tracker::Mailbox<P>,
    /// What the senders of the channels are lent, with the messenger that the router's steps are lent.
    pub way: Way<P, Messenger<P>>,
    /// What the receivers of the channels are lent.
    pub inbounds: Inbounds<P>,
    /// The tracker.
    pub tracker: tracker::Actor<P, D>,
    /// The router.
    pub router: router::Actor<P>,
    /// The spawner.
    pub spawner: spawner::Actor<P>,
    /// What waits for the spawner.
    pub spawner_way: spawner::Mailbox<P>,
    /// What tells which infos are believed; the steps of connections are lent it.
    pub infos: InfoVerifier<P>,
}

impl<P: PublicKey, D: Drop> Drop for Running<P, D> {
    fn drop(self) {
        let Running {
            tracker_way: _tracker_way,
            way: _way,
            inbounds: _inbounds,
            tracker: _tracker,
            router: _router,
            spawner: _spawner,
            spawner_way: _spawner_way,
            infos: _infos,
        } = self;
    }
}
