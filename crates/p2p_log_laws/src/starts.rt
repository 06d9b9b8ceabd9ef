//! A start puts the subscriptions that waited for it.
ghost use Rattle.std.specs.Prelude.{List};
ghost use Rattle.p2p_log.specs.declared.config.Config.{Config};
ghost use Rattle.p2p_log.specs.declared.event.Event.{Event};
ghost use Rattle.p2p_log.specs.declared.entry.Entry.{Entry};
ghost use Rattle.p2p_log_rules.specs.Lawful.{IsLawful};
ghost use Rattle.p2p_log_laws.specs.Subscribing.{EachRegistersOnce, EachStartSettles, EachStartSubscribes};

/// States that a start that is accepted puts the subscription of each channel that was registered at its node before it, once for
/// each registration and in the order of these, and puts nothing else; and that where what was asked is valid no channel is registered
/// twice at a node, so that each subscription is put exactly once, and none once its node has started. It does nothing.
pub fn starts_subscribe()
    ensures puts { (configs : List Config) (script : List Event) (log : List Entry) → IsLawful configs script log → EachStartSubscribes log }
    ensures once { (configs : List Config) (script : List Event) (log : List Entry) → IsLawful configs script log → EachRegistersOnce configs log }
    ensures settled { (configs : List Config) (script : List Event) (log : List Entry) → IsLawful configs script log → EachStartSettles configs log }
{}
