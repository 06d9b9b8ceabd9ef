//! The table that the threads share: its words, its slot, and what each seat knows.
use crate::served::Served;
use atomic_table::{Badge, Seat, Shared, Table, TableRule};
use std::alloc::Global;
use std::collections::LinkedList;
use std::marker::{Model, PhantomData};
use std::snapshot::Snapshot;

/// 1 while a seat is inside.
pub(crate) const BUSY: usize = 0;

/// How many calls the history has.
pub(crate) const LENGTH: usize = 1;

/// What the slot holds: the object, the calls that were made of it, and a seat that has seen them.
#[derive(Drop)]
pub struct Cell<O, C, R> {
    pub object: O,
    pub history: Vec<(C, R)>,
    /// Blank where it was joined into the seat of a caller.
    pub seat: Badge<Sight<O, C, R>>,
}

/// Which table it is, in what a seat knows. No value of it is made.
pub struct Name {
    of: PhantomData<()>,
}

impl Model for Name {
    ghost use Rattle.std.specs.Prelude.{[]};
    ghost use Rattle.atomic_table.specs.Seated.{TableId, table_id_coded};

    ghost Value = { TableId };

    ghost coded = { table_id_coded };

    ghost view = { λ _. record { words = 0; slots = 0; views_name = 0; atom = 0; block = 0; offset = 0; slot_names = [] } };
}

/// What a seat at the table knows. No value of it is made.
pub struct Sight<O, C, R> {
    /// The object before the first call.
    pub first: Option<O>,
    /// The table itself, once the seat knows it.
    pub table: Option<Name>,
    pub inside: bool,
    /// The length that was read inside.
    pub kept: Option<u64>,
    /// A beginning of the history.
    pub seen: LinkedList<(C, R)>,
    /// A beginning that a joined seat had seen.
    pub told: LinkedList<(C, R)>,
    /// The calls that were made, with their places.
    pub made: LinkedList<(u64, (C, R))>,
}

pub struct Turnstile<T> {
    of: PhantomData<T>,
}

impl<T: Served> TableRule<
    Option<Cell<T, T::Call, T::Reply>>,
    Sight<T, T::Call, T::Reply>,
    Snapshot<T>,
> for Turnstile<T> {
    ghost use Rattle.p2p_threads.specs.Turns.{Ruled, founding};

    ghost holds = { λ o. Ruled T.reply T.next o.value };

    ghost first = { λ o. founding o.value };
}

pub(crate) type Slot<T> = Option<Cell<T, <T as Served>::Call, <T as Served>::Reply>>;

pub(crate) type Known<T> = Sight<T, <T as Served>::Call, <T as Served>::Reply>;

pub(crate) type Place<T> = Seat<Slot<T>, Known<T>>;

pub(crate) type Board<T> = Table<Slot<T>, Known<T>, Snapshot<T>, Turnstile<T>, Global>;

pub(crate) type Stage<T> = Shared<Slot<T>, Known<T>, Snapshot<T>, Turnstile<T>>;
