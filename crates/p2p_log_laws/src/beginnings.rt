//! A lawful log was lawful at each earlier moment.
ghost use Rattle.std.specs.Prelude.{List};
ghost use Rattle.p2p_log.specs.declared.config.Config.{Config};
ghost use Rattle.p2p_log.specs.declared.event.Event.{Event};
ghost use Rattle.p2p_log.specs.declared.entry.Entry.{Entry};
ghost use Rattle.p2p_log_rules.specs.Lawful.{IsLawful};
ghost use Rattle.p2p_log_laws.specs.Beginnings.{EachBeginningIsLawful};

/// States that the first entries of a lawful log are the lawful log of as many first events of its script, so that each law that
/// speaks of a log as it is at its end speaks of every moment of it. It does nothing.
pub fn beginnings_are_lawful()
    ensures { (configs : List Config) (script : List Event) (log : List Entry) → IsLawful configs script log → EachBeginningIsLawful configs log }
{}
