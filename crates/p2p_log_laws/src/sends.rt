//! Each message is for those whom its channel's quota admits.
ghost use Rattle.std.specs.Prelude.{List};
ghost use Rattle.p2p_log.specs.declared.config.Config.{Config};
ghost use Rattle.p2p_log.specs.declared.event.Event.{Event};
ghost use Rattle.p2p_log.specs.declared.entry.Entry.{Entry};
ghost use Rattle.p2p_log_rules.specs.Lawful.{IsLawful};
ghost use Rattle.p2p_log_laws.specs.Admitted.{EachIsAdmitted, ChecksAreAdmitted, EachIsChecked, ChecksAreSpentOnce};

/// States that each send is accepted for exactly those of the keys that it is offered to that its channel's quota admits at its
/// moment, in their order, given what it admitted before; and that it is for nobody instead only where the channel is not
/// registered, the message too long, or the router's mailbox full. It does nothing.
pub fn sends_are_admitted()
    ensures { (configs : List Config) (script : List Event) (log : List Entry) → IsLawful configs script log → EachIsAdmitted configs log }
{}

/// States that a check that waits for its message has exactly those keys that its channel's quota admitted at its moment, in
/// their order; that a message to those whom a check admitted is accepted for exactly these, or for nobody where it is too long,
/// the router's mailbox is full, or the check waits no more; and that no two messages are accepted for one check. It does nothing.
pub fn checks_are_spent()
    ensures admitted { (configs : List Config) (script : List Event) (log : List Entry) → IsLawful configs script log → ChecksAreAdmitted log }
    ensures checked { (configs : List Config) (script : List Event) (log : List Entry) → IsLawful configs script log → EachIsChecked configs log }
    ensures once { (configs : List Config) (script : List Event) (log : List Entry) → IsLawful configs script log → ChecksAreSpentOnce log }
{}
