//! A connection leads to the peer that is reserved for it, and is the only one that does until it ends.
ghost use Rattle.std.specs.Prelude.{List};
ghost use Rattle.p2p_log.specs.declared.config.Config.{Config};
ghost use Rattle.p2p_log.specs.declared.event.Event.{Event};
ghost use Rattle.p2p_log.specs.declared.entry.Entry.{Entry};
ghost use Rattle.p2p_log_rules.specs.Lawful.{IsLawful};
ghost use Rattle.p2p_log_laws.specs.Leading.{ConnectionsAreOne, ConnectionsLead, EndsMeet};

/// States that each connection that a node's spawner made goes over a link of which the node has one end, as it dialed or was
/// dialed, and that the key that is reserved for it is that of the node at the other end; that a node has one connection over a
/// link, ever, and that of two with one key the older has ended before the newer is made; and that at the other end of its link
/// is the one of the other node with its key. It does nothing.
pub fn connections_lead_to_their_peers()
    ensures leads { (configs : List Config) (script : List Event) (log : List Entry) → IsLawful configs script log → ConnectionsLead configs log }
    ensures once { (configs : List Config) (script : List Event) (log : List Entry) → IsLawful configs script log → ConnectionsAreOne log }
    ensures ends { (configs : List Config) (script : List Event) (log : List Entry) → IsLawful configs script log → EndsMeet configs log }
{}
