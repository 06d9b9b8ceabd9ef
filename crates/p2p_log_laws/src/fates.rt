//! Each copy has one fate, and it is true.
ghost use Rattle.std.specs.Prelude.{List};
ghost use Rattle.p2p_log.specs.declared.config.Config.{Config};
ghost use Rattle.p2p_log.specs.declared.event.Event.{Event};
ghost use Rattle.p2p_log.specs.declared.entry.Entry.{Entry};
ghost use Rattle.p2p_log_rules.specs.Lawful.{IsLawful};
ghost use Rattle.p2p_log_laws.specs.Fates.{EachHasFate, WaitingIsTrue, DroppedIsTrue, DeliveredIsTrue};

/// States that the copies of accepted sends have fates, and no others; that a copy's fate is a queue exactly where what
/// carries it stands there; that it is a cause and an entry exactly where that entry drops it so; and that it is a queue
/// and an entry exactly where that entry reads it from the queue. It does nothing.
pub fn fates_are_true()
    ensures known { (configs : List Config) (script : List Event) (log : List Entry) → IsLawful configs script log → EachHasFate log }
    ensures waiting { (configs : List Config) (script : List Event) (log : List Entry) → IsLawful configs script log → WaitingIsTrue log }
    ensures dropped { (configs : List Config) (script : List Event) (log : List Entry) → IsLawful configs script log → DroppedIsTrue log }
    ensures delivered { (configs : List Config) (script : List Event) (log : List Entry) → IsLawful configs script log → DeliveredIsTrue log }
{}
