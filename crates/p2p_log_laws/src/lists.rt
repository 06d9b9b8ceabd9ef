//! Channels are told of the peers that are connected.
ghost use Rattle.std.specs.Prelude.{List};
ghost use Rattle.p2p_log.specs.declared.config.Config.{Config};
ghost use Rattle.p2p_log.specs.declared.event.Event.{Event};
ghost use Rattle.p2p_log.specs.declared.entry.Entry.{Entry};
ghost use Rattle.p2p_log_rules.specs.Lawful.{IsLawful};
ghost use Rattle.p2p_log_laws.specs.Listed.{ListsAreCurrent};

/// States that the newest list that a channel was told of, to which a message for all is offered, has the peers to which its
/// node's router has a connection, once the router took the channel's subscription; and that before it was told of none. It does
/// nothing.
pub fn lists_are_current()
    ensures { (configs : List Config) (script : List Event) (log : List Entry) → IsLawful configs script log → ListsAreCurrent log }
{}
