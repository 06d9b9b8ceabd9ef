//! Logs that were written out by hand are lawful.
ghost use Rattle.std.specs.Prelude.{◌≡◌, [], ◌∷◌, ◌++◌, Some};
ghost use Rattle.p2p_log.specs.declared.end.Cause.TheVariants as cause;
ghost use Rattle.p2p_log.specs.declared.queue.Queue.TheVariants as queue;
ghost use Rattle.p2p_log.specs.declared.report.Fate.TheVariants as fate;
ghost use Rattle.p2p_log.specs.Fates.{fate_of};
ghost use Rattle.p2p_log_rules.specs.Effect.{effect};
ghost use Rattle.p2p_log_rules.specs.Lawful.{IsLawful};
ghost use Rattle.p2p_log_laws.specs.ClosedPath.{message_waits, message_left, closed_once, nobody_reads, message_comes, reader_leaves, message_late};
ghost use Rattle.p2p_log_laws.specs.PlainPath.{two_nodes, delivery, delivery_begins, list_overwritten};
ghost use Rattle.p2p_log_laws.specs.Worked.{one_node, script_of, drop_before_start, drop_without_connection};

/// States of logs that were written out by hand that they are lawful for their scripts, and what became of the copy in
/// each: a delivery over a connection that a dial brought about, on whose way a list of peers is overwritten, and two drops.
/// A wrong definition of what an event comes to is so seen at an example. It does nothing.
pub fn worked_rows()
    ensures delivery { IsLawful two_nodes (script_of delivery) delivery }
    ensures delivered { fate_of delivery (36, 0) ≡ Some (fate.Delivered (queue.Channel 1 7) 40) }
    ensures overwritten { effect two_nodes delivery_begins list_overwritten.event ≡ list_overwritten }
    ensures before_start { IsLawful one_node (script_of drop_before_start) drop_before_start }
    ensures unbound { fate_of drop_before_start (1, 0) ≡ Some (fate.Dropped cause.Unbound 1) }
    ensures without_connection { IsLawful one_node (script_of drop_without_connection) drop_without_connection }
    ensures not_connected { fate_of drop_without_connection (2, 0) ≡ Some (fate.Dropped cause.NoConnection 4) }
{}

/// States what becomes of the message of that delivery where its reader is dropped: once it waits, and before it comes. It does
/// nothing.
pub fn closed_rows()
    ensures left { effect two_nodes message_waits message_left.event ≡ message_left }
    ensures once { effect two_nodes (message_waits ++ message_left ∷ []) closed_once.event ≡ closed_once }
    ensures unread { effect two_nodes (message_waits ++ message_left ∷ []) nobody_reads.event ≡ nobody_reads }
    ensures leaves { effect two_nodes message_comes reader_leaves.event ≡ reader_leaves }
    ensures late { effect two_nodes (message_comes ++ reader_leaves ∷ []) message_late.event ≡ message_late }
{}
