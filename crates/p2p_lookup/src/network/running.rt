//! `Running`, a node of a network of lookup that has started.
use crate::spawner;
use p2p_base::PublicKey;
use p2p_flow_connection::Inbounds;
use p2p_flow_senders::Way;
use p2p_gates::{Dialer, Listener};
use p2p_router::{self as router, Messenger};
use p2p_tracker as tracker;

/// The actors of a node that has started, and where what they are told and asked waits. Whoever runs it steps them, makes links, moves
/// what the tracker puts for connections, and gives what the gates made ready to the spawner.
///
/// It stands for the tasks that commonware-p2p's `Network::run` begins.
pub struct Running<P: PublicKey> {
    /// What waits for the tracker, and what it answered the gates; its desk is lent to the oracle.
    pub tracker_way: tracker::Mailbox<P>,
    /// What the senders of the channels are lent, with the messenger that the steps of the router and of connections are lent.
    pub way: Way<P, Messenger<P>>,
    /// What the receivers of the channels are lent.
    pub inbounds: Inbounds<P>,
    /// The tracker.
    pub tracker: tracker::Actor<P>,
    /// The router.
    pub router: router::Actor<P>,
    /// The listener.
    pub listener: Listener<P>,
    /// The dialer.
    pub dialer: Dialer<P>,
    /// The spawner.
    pub spawner: spawner::Actor<P>,
    /// What waits for the spawner.
    pub spawner_way: spawner::Mailbox<P>,
}

impl<P: PublicKey> Drop for Running<P> {
    fn drop(self) {
        let Running {
            tracker_way: _tracker_way,
            way: _way,
            inbounds: _inbounds,
            tracker: _tracker,
            router: _router,
            listener: _listener,
            dialer: _dialer,
            spawner: _spawner,
            spawner_way: _spawner_way,
        } = self;
    }
}
