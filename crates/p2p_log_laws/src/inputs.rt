//! A step of an actor is what that makes of its first input.
ghost use Rattle.std.specs.Prelude.{List};
ghost use Rattle.p2p_log.specs.declared.config.Config.{Config};
ghost use Rattle.p2p_log.specs.declared.event.Event.{Event};
ghost use Rattle.p2p_log.specs.declared.entry.Entry.{Entry};
ghost use Rattle.p2p_log_rules.specs.Lawful.{IsLawful};
ghost use Rattle.p2p_log_laws.specs.Idling.{EachStepServesFirst};

/// States that the entry of each step of an actor is what that makes of the first of its inputs that is ready, and that it is gone exactly where
/// that actor does not act, as its node has not started or has stopped, or it has ended, and of the others idle exactly where none of its inputs
/// is ready. It does nothing.
pub fn steps_serve_their_first_input()
    ensures { (configs : List Config) (script : List Event) (log : List Entry) → IsLawful configs script log → EachStepServesFirst configs log }
{}
