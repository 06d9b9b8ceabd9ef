//! `Access`, which a mailbox alone has to its desk.

/// What a mailbox shows the desk of a tracker of lookup, so as to put any message there, take it and answer.
pub struct Access(pub(crate) ());
