//! `Link`, what the router holds of one peer.
ghost use Rattle.std.specs.Prelude.{◌≡◌};
ghost use Rattle.std.specs.Borrow.{sem};
ghost use Rattle.p2p_router.specs.Lends.{lends_relay};

use p2p_flow::Relay;
use p2p_wire::EncodedData;

/// The connection of a peer, and its relay.
#[derive(Drop)]
pub struct Link {
    /// The connection.
    pub conn: u64,
    /// What waits for it.
    pub relay: Relay<EncodedData>,
}

impl Link {
    // The relay.
    pub(crate) fn relay(&mut self) -> &mut Relay<EncodedData>
        ensures* writes_back { sem 𝓛 (lends_relay self.entry result) }
        ensures value { result.now ≡ self.old.relay }
    {
        &mut self.relay
    }
}
