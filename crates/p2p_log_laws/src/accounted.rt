//! All laws of a lawful log, in one.
ghost use Rattle.std.specs.Prelude.{List};
ghost use Rattle.p2p_log.specs.declared.config.Config.{Config};
ghost use Rattle.p2p_log.specs.declared.event.Event.{Event};
ghost use Rattle.p2p_log.specs.declared.entry.Entry.{Entry};
ghost use Rattle.p2p_log_rules.specs.Lawful.{IsLawful};
ghost use Rattle.p2p_log_laws.specs.Accounted.{IsAccounted};

/// States that each of the laws that `IsAccounted` names holds of each lawful log. It does nothing.
pub fn lawful_logs_are_accounted()
    ensures { (configs : List Config) (script : List Event) (log : List Entry) → IsLawful configs script log → IsAccounted configs log }
{}
