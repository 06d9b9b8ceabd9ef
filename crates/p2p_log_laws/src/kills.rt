//! Each kill shows its cause, which came since the grant of the key.
ghost use Rattle.std.specs.Prelude.{List};
ghost use Rattle.p2p_log.specs.declared.config.Config.{Config};
ghost use Rattle.p2p_log.specs.declared.event.Event.{Event};
ghost use Rattle.p2p_log.specs.declared.entry.Entry.{Entry};
ghost use Rattle.p2p_log_rules.specs.Lawful.{IsLawful};
ghost use Rattle.p2p_log_laws.specs.KilledSince.{EachKillHasItsCause};
ghost use Rattle.p2p_log_laws.specs.Kills.{EachKillShowsItsCause};

/// States that each entry that puts a kill of a connection is of a step of that node's tracker, which took what ends the
/// connection: the call of a block of the key for which it is kept, of an accepted set that evicts that key or changes its
/// address, or of an overwrite that changes it; or the connection's own beginning, with a key for which none is accepted
/// at that moment. It does nothing.
pub fn each_kill_shows_its_cause()
    ensures { (configs : List Config) (script : List Event) (log : List Entry) → IsLawful configs script log → EachKillShowsItsCause configs log }
{}

/// States that a kill of a connection stands only where its cause came since the grant of the connection's key: the key is held,
/// and since it was granted the node's tracker took a block of it, an accepted set that gave it another address or left it in no
/// set, or an overwrite that gave it another address. Where the tracker kills a connection that begins, since none is accepted
/// with its key, such a cause came before that. It does nothing.
pub fn each_kill_has_its_cause()
    ensures { (configs : List Config) (script : List Event) (log : List Entry) → IsLawful configs script log → EachKillHasItsCause configs log }
{}
