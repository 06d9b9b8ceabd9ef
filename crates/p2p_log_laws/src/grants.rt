//! A key's grants go by turns, and what its connections say comes in their order.
ghost use Rattle.std.specs.Prelude.{List, Option, ℕ};
ghost use Rattle.p2p_base.specs.declared.key.Key.{Key};
ghost use Rattle.p2p_log.specs.declared.config.Config.{Config};
ghost use Rattle.p2p_log.specs.declared.event.Event.{Event};
ghost use Rattle.p2p_log.specs.declared.entry.Entry.{Entry};
ghost use Rattle.p2p_log.specs.declared.item.Envelope.{Envelope};
ghost use Rattle.p2p_log.specs.declared.queue.Queue.{Queue};
ghost use Rattle.p2p_log_rules.specs.Lawful.{IsLawful};
ghost use Rattle.p2p_log_laws.specs.Grants.{Granting, EachIsTurn, GrantsAlternate, HasOneHolder, EachIsReleased, NewestLives};
ghost use Rattle.p2p_log_laws.specs.NodeGrants.{granting};
ghost use Rattle.p2p_log_laws.specs.Leaving.{LeaveInOrder, ArePutAlive, OlderLeaveFirst};

/// States of the grants of a key at a node, whatever entries make them, that they and the releases that are taken go by
/// turns; that a key that is held has one holder or one release that waits, and another none; that each grant is held or
/// was released; and that of its connections only the newest lives. It does nothing.
pub fn grants_take_turns()
    ensures alternate { (g : Granting) (log : List Entry) → EachIsTurn g log → GrantsAlternate g log }
    ensures holder { (g : Granting) (log : List Entry) → EachIsTurn g log → HasOneHolder g log }
    ensures released { (g : Granting) (log : List Entry) → EachIsTurn g log → EachIsReleased g log }
    ensures newest { (g : Granting) (log : List Entry) → EachIsTurn g log → NewestLives g log }
{}

/// States of the grants of a key at a node of the network, where the node's tracker grants it to the node's dialer or to a
/// handshake: they and the releases that the tracker takes go by turns; a key that is held is held by one thing, an answer that
/// waits for the dialer or for a handshake, an attempt, a message that waits for the spawner or a connection that this made and
/// that has not ended, or one release of it waits for the tracker, and nothing holds another; and each grant is held or was released. It does nothing.
pub fn node_grants()
    ensures alternate { (configs : List Config) (script : List Event) (log : List Entry) (n : ℕ) (key : Key) → IsLawful configs script log → GrantsAlternate (granting configs n key) log }
    ensures holder { (configs : List Config) (script : List Event) (log : List Entry) (n : ℕ) (key : Key) → IsLawful configs script log → HasOneHolder (granting configs n key) log }
    ensures released { (configs : List Config) (script : List Event) (log : List Entry) (n : ℕ) (key : Key) → IsLawful configs script log → EachIsReleased (granting configs n key) log }
{}

/// States that items leave a queue in the order in which they were put there; and that what connections of a key put in a
/// queue while they live leaves it in the order of the connections, so that no release of an old connection comes late. It
/// does nothing.
pub fn queues_keep_order()
    ensures leave { (configs : List Config) (script : List Event) (log : List Entry) → IsLawful configs script log → LeaveInOrder log }
    ensures older { (configs : List Config) (script : List Event) (log : List Entry) (g : Granting) (q : Queue) (conn_of : Envelope → Option ℕ)
        → IsLawful configs script log → EachIsTurn g log → ArePutAlive g log q conn_of → OlderLeaveFirst log q conn_of }
{}
