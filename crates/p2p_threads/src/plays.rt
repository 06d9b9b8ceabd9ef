//! What each step on the table tells, and how views are cut and joined.
ghost use Rattle.p2p_threads.specs.Steps.{opened, entered, measured, raised, left, checked};

use crate::board::{Cell, Sight};
use crate::served::Served;
use atomic_table::{Join, Play, Split};
use std::marker::PhantomData;

/// The first seat took the empty slot, and learned the table.
pub(crate) struct Open;

impl<O, C, R> Play<Option<Cell<O, C, R>>, Sight<O, C, R>> for Open {
    ghost then = { opened };
}

/// The bar was passed.
pub(crate) struct Enter;

impl<O, C, R> Play<Option<Cell<O, C, R>>, Sight<O, C, R>> for Enter {
    ghost then = { entered };
}

/// The length was read, and the slot taken.
pub(crate) struct Measure<T> {
    of: PhantomData<T>,
}

impl<T: Served> Play<Option<Cell<T, T::Call, T::Reply>>, Sight<T, T::Call, T::Reply>>
    for Measure<T> {
    ghost then = { measured T.reply T.next };
}

/// The length was raised, by the call in hand.
pub(crate) struct Raise;

impl<O, C, R> Play<Option<Cell<O, C, R>>, Sight<O, C, R>> for Raise {
    ghost then = { raised };
}

/// The slot was given back, and the bar left.
pub(crate) struct Leave;

impl<O, C, R> Play<Option<Cell<O, C, R>>, Sight<O, C, R>> for Leave {
    ghost then = { left };
}

/// What was joined was held against the history.
pub(crate) struct Check;

impl<O, C, R> Play<Option<Cell<O, C, R>>, Sight<O, C, R>> for Check {
    ghost then = { checked };
}

/// A seat was split off, for a further pass or for the slot.
pub(crate) struct Cut;

impl<O, C, R> Split<Sight<O, C, R>> for Cut {
    ghost use Rattle.p2p_threads.specs.Turns.{watcher};

    ghost left = { λ v. v };

    ghost right = { watcher };
}

/// A seat was joined, of another pass or of the slot.
pub(crate) struct Merge;

impl<O, C, R> Join<Sight<O, C, R>> for Merge {
    ghost use Rattle.p2p_threads.specs.Turns.{merged, spent};

    ghost both = { merged };

    ghost spent = { spent };
}
