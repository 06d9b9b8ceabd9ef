//! The release of a connection's key.
ghost use Rattle.std.specs.Prelude.{◌≡◌, ℕ, ◌++◌, ◌∷◌, [], None, OnOk, IsTrue, if◌then◌else◌};
ghost use Rattle.std.specs.Ordering.{nat_cmp, is_eq};
ghost use Rattle.std.specs.BTreeMap.{get};
ghost use Rattle.p2p_router.specs.Mailbox.{appended};
ghost use Rattle.p2p_router.specs.Messenger.{is_bound, in_mailbox};
ghost use Rattle.p2p_router.specs.Routing.{link_of};
ghost use Rattle.p2p_router.specs.declared.message.Message.TheVariants as message;
ghost use Rattle.p2p_net_router.specs.Ends.{closed_link, IsIdle};
ghost use Rattle.p2p_net_router.specs.Items.{key_cmp};
ghost use Rattle.p2p_net_router.specs.Stands.{StandsOver, HasPlaces, IsEnding};

use crate::{Name, Router};
use p2p_base::Key;
use p2p_log::{Item, Queue};
use p2p_net_queues::Turn;
use p2p_router::{Actor, Messenger};
use std::alloc::AllocError;

/// Closes a key's relay: what waits there goes, and nothing enters it any more.
pub fn close_relay(actor: &mut Actor<Key>, key: Key)
    ensures { actor.new ≡ record actor.old { links = closed_link (link_of key_cmp actor.old.links key) actor.old.links key } }
{
    match actor.relay_of(&key) {
        None => {}
        Some(relay) => relay.close(),
    }
}

/// Tells the router's mailbox that the connection of a key is gone.
fn tell_release(messenger: &mut Messenger<Key>, key: Key) -> Result<(), AllocError>
    requires { IsTrue (is_bound messenger.old.binding) }
    ensures { OnOk result (messenger.new ≡ record messenger.old { binding = in_mailbox (λ q. appended q (message.Release key)) messenger.old.binding }) }
{
    let Some(mailbox) = messenger.mailbox() else {
        unreachable!()
    };
    mailbox.release(key)?;
    Ok(())
}

impl Router {
    /// Ends a connection that is known with this key, and of which no frame waits: its relay is closed, it is known no more,
    /// and the router is told that its key is free. The put of that place names the message.
    ///
    /// `Err` only where there is no memory. The router may then have done a part of it, and its node goes no further.
    pub fn release(&mut self, turn: Turn, place: u64, conn: u64, key: Key) -> Result<(), AllocError>
        requires bound { IsTrue (is_bound self.old.messenger.binding) }
        ensures peers { OnOk result ((c : ℕ) → get nat_cmp self.new.peers c ≡ (if is_eq (nat_cmp conn c) then None else get nat_cmp self.old.peers c)) }
        ensures rest { OnOk result (self.new
            ≡ record self.old { messenger = self.new.messenger; actor = record self.old.actor { links = self.new.actor.links }; peers = self.new.peers; names = self.new.names }) }
        ensures over { OnOk result ((configs : _) (log : _) (e : _) (items : _) → StandsOver configs log self.old items → IsIdle self.old items conn key
            → IsEnding configs log e self.old.number conn key
            → StandsOver configs (log ++ e ∷ []) self.new
            (items ++ record { entry = turn.entry; place = place; queue = Queue.Router self.old.number; item = Item.Release key } ∷ [])) }
        ensures bound { OnOk result (IsTrue (is_bound self.new.messenger.binding)) }
        ensures places { OnOk result ((places : _) → HasPlaces places self.old.messenger.binding → HasPlaces places self.new.messenger.binding) }
    {
        close_relay(&mut self.actor, key);
        tell_release(&mut self.messenger, key)?;
        let _ = self.peers.remove(&conn);
        let queue = Queue::Router(self.number);
        let name = Name {
            entry: turn.entry,
            place,
            tag: None,
        };
        self.names.push(turn.alloc, queue, name)?;
        Ok(())
    }
}
