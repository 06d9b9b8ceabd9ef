//! Whether a message that has a condition may be taken.
ghost use Rattle.std.specs.Prelude.{◌≡◌, ◌||◌, ℕ, true, false, IfSome};
ghost use Rattle.std.specs.Map.{lookup};
ghost use Rattle.std.specs.BTreeMap.{is_at};
ghost use Rattle.p2p_tracker_directory.specs.Recorded.{is_reserved_in, is_held_or_unknown};
ghost use Rattle.p2p_tracker_mailbox.specs.Desk.{next_message};
ghost use Rattle.p2p_tracker.specs.Serving.{IsQuietIn, MayTake, is_allowed, is_next_allowed};

use super::Actor;
use crate::{Mailbox, Message};
use p2p_base::PublicKey;

impl<C: PublicKey> Actor<C> {
    /// Whether `step` may be called, at whatever moment: the oldest message of the mailbox isn't a connect of a peer that isn't reserved,
    /// nor a release of one that is known and not held. It takes nothing.
    ///
    /// Such a message comes only of a caller that announces a connection without a reservation, or gives one back twice. `step` could
    /// still be called where it only kills such a connection, or takes away blocks that have ended, but this doesn't tell.
    #[tactic(auto, using(crate::proofs::Allowed::may_take_by))]
    pub fn may_step(&self, way: &Mailbox<C>) -> bool
        ensures value { result ≡ (self.now.has_failed || is_next_allowed C.cmp self.now.directory (next_message way.now.desk)) }
        ensures may_take { result ≡ true → (now : ℕ) → self.now.has_failed ≡ false → IsQuietIn C.cmp self.now.directory now
            → IfSome (next_message way.now.desk) (λ m. MayTake C.cmp self.now.directory m now) }
    {
        self.has_failed || self.allows_next(way)
    }

    // Whether a step may take the oldest message at whatever moment, if there is one.
    fn allows_next(&self, way: &Mailbox<C>) -> bool
        ensures { result ≡ is_next_allowed C.cmp self.now.directory (next_message way.now.desk) }
    {
        match way.oldest() {
            Some(message) => self.allows(message),
            None => true,
        }
    }

    // Whether a step may take this message at whatever moment.
    fn allows(&self, message: &Message<C>) -> bool
        ensures { result ≡ is_allowed C.cmp self.now.directory message.now }
    {
        match message {
            Message::Connect { public_key, .. } => self.may_connect(public_key),
            Message::Release { metadata } => self.may_release(metadata.public_key()),
            Message::Register { .. }
            | Message::Overwrite { .. }
            | Message::PeerSet { .. }
            | Message::Subscribe { .. }
            | Message::Block { .. }
            | Message::SubscribeBlocked { .. }
            | Message::Dialable
            | Message::Dial { .. }
            | Message::Acceptable { .. }
            | Message::Listen { .. } => true,
        }
    }

    /// Whether a step may take the connect of this peer: it is reserved, and its connection hasn't begun.
    pub fn may_connect(&self, peer: &C) -> bool
        ensures { result ≡ is_reserved_in (lookup (is_at (C.cmp peer.now)) self.now.directory.records) }
    {
        self.directory.may_connect(peer)
    }

    /// Whether a step may take the release of this peer: it is held, or the tracker doesn't know of it.
    pub fn may_release(&self, peer: &C) -> bool
        ensures { result ≡ is_held_or_unknown (lookup (is_at (C.cmp peer.now)) self.now.directory.records) }
    {
        self.directory.may_release(peer)
    }
}
