//! `PlainDirectory`, a directory of discovery over one of lookup.
ghost use Rattle.std.specs.Prelude.{◌≡◌, ◌||◌, [], true, false, not, IfOk};
ghost use Rattle.p2p_tracker_calls.specs.Rules.{rules_of};
ghost use Rattle.p2p_discovery_directory.specs.Plain.{Represents};
ghost use Rattle.p2p_discovery_directory.specs.Tests.{holds, reserves, knows};

mod answers;
mod dialing;
mod gossiping;
mod listing;
mod places;
mod placing;

use p2p_base::PublicKey;
use p2p_discovery::Info;
use p2p_tracker_calls::Config;
use p2p_tracker_directory::Directory;
use places::Places;
use std::alloc::{AllocError, Global};
use std::collections::BTreeMap;
use std::marker::Model;

/// Which peers are tracked, held and blocked, in a network whose peers tell each other where they are dialed, and what they told. It is
/// answerable to the list of the calls so far.
///
/// It asks a directory of lookup, in which each peer has one address that never changes, and which tests no address from which a peer
/// dials.
pub struct PlainDirectory<P: PublicKey> {
    peers: Directory<P>,
    own: Info<P>,
    places: Places<P>,
    alloc: Global,
}

impl<P: PublicKey> Drop for PlainDirectory<P> {
    fn drop(self) {
        let PlainDirectory {
            peers: _peers,
            own: _own,
            places: _places,
            alloc: _alloc,
        } = self;
    }
}

impl<P: PublicKey> Model for PlainDirectory<P> {
    ghost use Rattle.p2p_discovery_directory.specs.Plain.{Plain, IsPlain};

    ghost Value = { Plain P };

    ghost view = { λ d. record { peers = d.peers; own = d.own; places = d.places.entries } };

    ghost invariant = { λ d. IsPlain P.cmp (record { peers = d.peers; own = d.own; places = d.places.entries }) };
}

impl<P: PublicKey> PlainDirectory<P> {
    /// A directory that knows of no peer but the one of `own`, of which that info is kept for good. `cfg.bypass_ip_check` isn't looked at.
    ///
    /// `Err` only where memory runs out.
    pub fn new(alloc: Global, own: Info<P>, cfg: Config) -> Result<PlainDirectory<P>, AllocError>
        ensures rules { IfOk result (λ d. d.peers.rules ≡ record (rules_of own.public_key cfg) { bypass = true }) }
        ensures own { IfOk result (λ d. d.own ≡ own) }
        ensures stands { IfOk result (λ d. Represents P.cmp d []) }
        ensures none_held { IfOk result (λ d. (q : P) → holds P.cmp d.peers q ≡ false) }
    {
        let untested = Config {
            bypass_ip_check: true,
            ..cfg
        };
        let peers = Directory::init(alloc, own.public_key, untested)?;
        Ok(PlainDirectory {
            peers,
            own,
            places: BTreeMap::new(alloc),
            alloc,
        })
    }

    /// Whether `connect` may be called for this peer: it is reserved, and its connection hasn't begun.
    pub fn may_connect(&self, peer: &P) -> bool
        ensures { result ≡ reserves P.cmp self.now.peers peer.now }
    {
        self.peers.may_connect(peer)
    }

    /// Whether `release` may be called for this peer: it is held, or has no record.
    pub fn may_release(&self, peer: &P) -> bool
        ensures { result ≡ (holds P.cmp self.now.peers peer.now || not (knows P.cmp self.now.peers peer.now)) }
    {
        self.peers.may_release(peer)
    }
}
