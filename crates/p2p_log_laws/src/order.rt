//! Copies that go over one link are delivered in the order in which they were accepted, and those of an older connection first.
ghost use Rattle.std.specs.Prelude.{List};
ghost use Rattle.p2p_log.specs.declared.config.Config.{Config};
ghost use Rattle.p2p_log.specs.declared.event.Event.{Event};
ghost use Rattle.p2p_log.specs.declared.entry.Entry.{Entry};
ghost use Rattle.p2p_log_rules.specs.Lawful.{IsLawful};
ghost use Rattle.p2p_log_laws.specs.Order.{AreDeliveredInOrderOverOne, AreDeliveredInOrderOfConnections, EachWentOver};

/// States that of two copies of one sender, on one channel with one priority, that went over one link and were read from one
/// queue, the one accepted first is delivered first; that what came by an older connection of the two is delivered before what
/// came by a newer one; and that what is delivered went over a link from its sender to its reader. It does nothing.
pub fn delivered_in_order()
    ensures link { (configs : List Config) (script : List Event) (log : List Entry) → IsLawful configs script log → AreDeliveredInOrderOverOne configs log }
    ensures connections { (configs : List Config) (script : List Event) (log : List Entry) → IsLawful configs script log → AreDeliveredInOrderOfConnections configs log }
    ensures connection { (configs : List Config) (script : List Event) (log : List Entry) → IsLawful configs script log → EachWentOver configs log }
{}
