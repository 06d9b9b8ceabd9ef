//! A connection begins with a key that is reserved.
ghost use Rattle.std.specs.Prelude.{List};
ghost use Rattle.p2p_log.specs.declared.config.Config.{Config};
ghost use Rattle.p2p_log.specs.declared.event.Event.{Event};
ghost use Rattle.p2p_log.specs.declared.entry.Entry.{Entry};
ghost use Rattle.p2p_log_rules.specs.Lawful.{IsLawful};
ghost use Rattle.p2p_log_laws.specs.Beginning.{EachBeginsReserved};

/// States that, where the next thing that a node's tracker is to hear is that a connection begins, the key of that connection
/// is reserved, and no connection with it was accepted since it was. It does nothing.
pub fn connections_begin_reserved()
    ensures { (configs : List Config) (script : List Event) (log : List Entry) → IsLawful configs script log → EachBeginsReserved configs log }
{}
