//! Each drop shows its cause.
ghost use Rattle.std.specs.Prelude.{List};
ghost use Rattle.p2p_log.specs.declared.config.Config.{Config};
ghost use Rattle.p2p_log.specs.declared.event.Event.{Event};
ghost use Rattle.p2p_log.specs.declared.entry.Entry.{Entry};
ghost use Rattle.p2p_log_rules.specs.Lawful.{IsLawful};
ghost use Rattle.p2p_log_laws.specs.Causes.{EachDropShowsItsCause};

/// States that each entry that drops a copy shows the cause there: the sending node had not started; the router had no
/// connection to the copy's key; the queue of that connection, or of the copy's channel, was full; that connection had ended;
/// the entry ends the connection with which the copy stood, or drops the end of a link towards which its frame was in flight;
/// the frame is neither a message nor a ping within the limit, or its channel is not registered; the channel's reader was dropped;
/// the entry cuts the link over which its frame was in flight; or it stops the node with whose queues the copy ends. It does nothing.
pub fn each_drop_shows_its_cause()
    ensures { (configs : List Config) (script : List Event) (log : List Entry) → IsLawful configs script log → EachDropShowsItsCause configs log }
{}
