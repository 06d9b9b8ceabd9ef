//! What is delivered was sent, and is read.
ghost use Rattle.std.specs.Prelude.{List};
ghost use Rattle.p2p_log.specs.declared.config.Config.{Config};
ghost use Rattle.p2p_log.specs.declared.event.Event.{Event};
ghost use Rattle.p2p_log.specs.declared.entry.Entry.{Entry};
ghost use Rattle.p2p_log_rules.specs.Lawful.{IsLawful};
ghost use Rattle.p2p_log_laws.specs.Delivered.{EachIsDelivery, EachDeliveredIsRead};

/// States that each message that a reader takes from a queue is a copy of an accepted send on the queue's channel, with
/// the bytes of which the reader is given these, for the reader's key and from the key of the one who sent it, and that
/// the copy ends by it as delivered; and that each entry that ends a copy as delivered is of an act that reads, takes the
/// oldest item of the queue that it reads, and replies what a reader is told of it. It does nothing.
pub fn only_sent_is_delivered()
    ensures sent { (configs : List Config) (script : List Event) (log : List Entry) → IsLawful configs script log → EachIsDelivery configs log }
    ensures read { (configs : List Config) (script : List Event) (log : List Entry) → IsLawful configs script log → EachDeliveredIsRead configs log }
{}
