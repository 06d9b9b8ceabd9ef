//! What holds a key gives it back as it ends.
ghost use Rattle.std.specs.Prelude.{List};
ghost use Rattle.p2p_log.specs.declared.config.Config.{Config};
ghost use Rattle.p2p_log.specs.declared.event.Event.{Event};
ghost use Rattle.p2p_log.specs.declared.entry.Entry.{Entry};
ghost use Rattle.p2p_log_rules.specs.Lawful.{IsLawful};
ghost use Rattle.p2p_log_laws.specs.Releasing.{EachIsReleasedAsItEnds};

/// States that the release of each grant stands in the entry in which its holder ended: an entry before which something held a
/// key at a node, and after which nothing does, puts one release of the key for the node's tracker; and an entry that puts one is
/// such an entry. It does nothing.
pub fn holders_release_as_they_end()
    ensures { (configs : List Config) (script : List Event) (log : List Entry) → IsLawful configs script log → EachIsReleasedAsItEnds configs log }
{}
