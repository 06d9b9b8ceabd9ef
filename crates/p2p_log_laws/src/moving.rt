//! Laws of what any act may move: a row that ends many items, and copies that go along many queues.
ghost use Rattle.p2p_log_laws.specs.BulkEnds.{NothingIsLeft, OthersAreLeft, EachStillEndsOnce};
ghost use Rattle.p2p_log_laws.specs.Flow.{FlowKeepsOrder};

/// States of a row that ends all that stands in some queues, each item before its copies, that nothing is left there, that
/// other queues stay as they were, and that each copy still has one end or one item that carries it. It does nothing.
pub fn bulk_ends_are_whole()
    ensures left { NothingIsLeft }
    ensures others { OthersAreLeft }
    ensures balance { EachStillEndsOnce }
{}

/// States that copies that go from queue to queue, and may skip a queue where nothing stands afterwards, stay in their
/// order. It does nothing.
pub fn flow_keeps_order()
    ensures { FlowKeepsOrder }
{}
