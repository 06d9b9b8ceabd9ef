//! Each copy of an accepted send has one end.
ghost use Rattle.std.specs.Prelude.{List};
ghost use Rattle.p2p_log.specs.declared.config.Config.{Config};
ghost use Rattle.p2p_log.specs.declared.event.Event.{Event};
ghost use Rattle.p2p_log.specs.declared.entry.Entry.{Entry};
ghost use Rattle.p2p_log_rules.specs.Lawful.{IsLawful};
ghost use Rattle.p2p_log_laws.specs.OneEnd.{EachEndsOnce, EachHasOneEnd, NothingElseEnds};

/// States that each copy of an accepted send stands in one queue and has not ended, or stands in none and has ended
/// once, and that nothing carries or ends any other copy. It does nothing.
pub fn one_end()
    ensures balance { (configs : List Config) (script : List Event) (log : List Entry) → IsLawful configs script log → EachEndsOnce log }
    ensures copies { (configs : List Config) (script : List Event) (log : List Entry) → IsLawful configs script log → EachHasOneEnd log }
    ensures nothing_else { (configs : List Config) (script : List Event) (log : List Entry) → IsLawful configs script log → NothingElseEnds log }
{}
