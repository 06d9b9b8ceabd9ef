//! The steps of one seat at the table.
ghost use Rattle.std.specs.Prelude.{◌≡◌, ◌+◌, ◌<◌, ◌≤◌, ◌^◌, false, true, [], ◌∷◌, ◌++◌, length, IfOk, OnErr, Some, None};
ghost use mathlib.Core.List.{IsPrefix};
ghost use Rattle.p2p_threads.specs.History.{IsEachOnce};
ghost use Rattle.p2p_threads.specs.Seats.{IsSeatAt, KnowsTable, IsOutside, CanGive, CanRaise, CanLeave, Called, Watched, Back};
ghost use Rattle.p2p_threads.specs.Steps.{Inside, Taken};
ghost use Rattle.p2p_threads.specs.Turns.{founding, naming, entering, keeping, learning, recording, leaving, settled};

use crate::board::{BUSY, Cell, LENGTH, Place, Stage};
use crate::plays::{Check, Cut, Enter, Leave, Measure, Merge, Open, Raise};
use crate::served::Served;
use atomic_table::Badge;
use std::alloc::{AllocError, Global};
use std::sync::Wait;
use std::thread::yield_now;

impl<T: Served> Cell<T, T::Call, T::Reply> {
    // Makes one call. Want of memory changes neither the object nor the history.
    fn serve(&mut self, alloc: Global, call: T::Call) -> Result<T::Reply, AllocError>
        ensures reply { IfOk result (λ r. r ≡ T.reply self.old.object call) }
        ensures object { IfOk result (λ r. self.new.object ≡ T.next self.old.object call) }
        ensures history { IfOk result (λ r. self.new.history.items ≡ self.old.history.items ++ (call, r) ∷ []) }
        ensures refused { OnErr result ((self.new.object ≡ self.old.object) × (self.new.history.items ≡ self.old.history.items)) }
        ensures fits { length self.new.history.items < 2 ^ 64 }
    {
        self.history.reserve(1)?;
        let reply = self.object.serve(alloc, call)?;
        self.history.push_reserved((call, reply));
        Ok(reply)
    }
}

// Waits at the bar.
fn enter<T: Served, R: Wait>(rt: &R, table: &Stage<T>, seat: &mut Place<T>)
    requires seat { IsSeatAt table.now.table_id seat.old }
    requires knows { KnowsTable table.now.table_id seat.old }
    requires outside { IsOutside seat.old }
    ensures seat { IsSeatAt table.now.table_id seat.new × (seat.new.id ≡ seat.old.id) }
    ensures view { seat.new.me ≡ (entering seat.old.me.0, seat.old.me.1) }
{
    for _ in rt.forever() {
        if table.compare_exchange::<Enter>(seat, BUSY, 0, 1) == 0 {
            return;
        }
        yield_now();
    }
    unreachable!()
}

// Reads the length, which is the place of the next call. The slot is the seat's from then on.
fn measure<T: Served>(table: &Stage<T>, seat: &mut Place<T>) -> u64
    requires seat { IsSeatAt table.now.table_id seat.old }
    requires knows { KnowsTable table.now.table_id seat.old }
    requires inside { (seat.old.me.0.inside ≡ true) × (seat.old.me.0.kept ≡ None) }
    ensures seat { IsSeatAt table.now.table_id seat.new × (seat.new.id ≡ seat.old.id) }
    ensures taken { (c : _) × Taken T.reply T.next seat.old.me result seat.new.me c }
{
    table.load::<Measure<T>>(seat, LENGTH)
}

/// Waits at the bar, reads the length, and takes what the slot holds.
pub(crate) fn take<T: Served, R: Wait>(
    rt: &R,
    table: &Stage<T>,
    seat: &mut Place<T>,
) -> (u64, Cell<T, T::Call, T::Reply>)
    requires seat { IsSeatAt table.now.table_id seat.old }
    requires knows { KnowsTable table.now.table_id seat.old }
    requires outside { IsOutside seat.old }
    ensures seat { IsSeatAt table.now.table_id seat.new × (seat.new.id ≡ seat.old.id) }
    ensures view { seat.new.me ≡ (keeping (entering seat.old.me.0) result.0, (0, None) ∷ []) }
    ensures length { result.0 ≡ length result.1.history.items }
    ensures inside { Inside T.reply T.next seat.old.me.0 result.1 }
{
    enter(rt, table, seat);
    let length = measure(table, seat);
    let Some(cell) = table.exchange(seat, 0, None) else {
        unreachable!()
    };
    (length, cell)
}

/// Joins the slot's seat, with which all of the history was seen.
pub(crate) fn learn<T: Served>(
    table: &Stage<T>,
    seat: &mut Place<T>,
    cell: Cell<T, T::Call, T::Reply>,
) -> Cell<T, T::Call, T::Reply>
    requires seat { IsSeatAt table.now.table_id seat.old }
    requires knows { KnowsTable table.now.table_id seat.old }
    requires cell { Inside T.reply T.next seat.old.me.0 cell }
    ensures seat { IsSeatAt table.now.table_id seat.new × (seat.new.id ≡ seat.old.id) }
    ensures view { seat.new.me ≡ (learning seat.old.me.0 cell.history.items, seat.old.me.1) }
    ensures same { (result.object ≡ cell.object) × (result.history.items ≡ cell.history.items) }
{
    let Cell {
        object,
        history,
        seat: other,
    } = cell;
    table.join_seat::<Merge>(seat, other.into_seat());
    Cell {
        object,
        history,
        seat: Badge::blank(),
    }
}

// Raises the length by the call. The step finds it in the cell, which is in the slot for that time.
fn raise<T: Served>(
    table: &Stage<T>,
    seat: &mut Place<T>,
    cell: Cell<T, T::Call, T::Reply>,
    call: T::Call,
    reply: T::Reply,
) -> Cell<T, T::Call, T::Reply>
    requires seat { IsSeatAt table.now.table_id seat.old }
    requires knows { KnowsTable table.now.table_id seat.old }
    requires hand { seat.old.me.1 ≡ (0, None) ∷ [] }
    requires call { CanRaise T.reply T.next seat.old.me.0 cell (call, reply) }
    ensures seat { IsSeatAt table.now.table_id seat.new × (seat.new.id ≡ seat.old.id) }
    ensures view { seat.new.me ≡ (recording seat.old.me.0 (call, reply), (0, None) ∷ []) }
    ensures same { result ≡ cell }
{
    let _entry = (call, reply);
    table.exchange(seat, 0, Some(cell));
    table.fetch_add::<Raise>(seat, LENGTH, 1);
    let Some(cell) = table.exchange(seat, 0, None) else {
        unreachable!()
    };
    cell
}

// Gives the slot back, and leaves.
fn leave<T: Served>(table: &Stage<T>, seat: &mut Place<T>)
    requires seat { IsSeatAt table.now.table_id seat.old }
    requires cell { CanLeave T.reply T.next seat.old.me }
    ensures seat { IsSeatAt table.now.table_id seat.new × (seat.new.id ≡ seat.old.id) }
    ensures view { seat.new.me ≡ (leaving seat.old.me.0, []) }
{
    table.store::<Leave>(seat, BUSY, 0);
}

/// Splits off a seat for the slot, gives the slot back, and leaves.
pub(crate) fn give_back<T: Served>(
    table: &Stage<T>,
    seat: &mut Place<T>,
    cell: Cell<T, T::Call, T::Reply>,
)
    requires seat { IsSeatAt table.now.table_id seat.old }
    requires knows { KnowsTable table.now.table_id seat.old }
    requires hand { seat.old.me.1 ≡ (0, None) ∷ [] }
    requires cell { CanGive T.reply T.next seat.old.me.0 cell }
    ensures seat { IsSeatAt table.now.table_id seat.new × (seat.new.id ≡ seat.old.id) }
    ensures view { seat.new.me ≡ (leaving seat.old.me.0, []) }
{
    let Cell {
        object,
        history,
        seat: _,
    } = cell;
    let other = table.split_seat::<Cut>(seat).into_badge();
    table.exchange(
        seat,
        0,
        Some(Cell {
            object,
            history,
            seat: other,
        }),
    );
    leave(table, seat);
}

/// Fills the slot. From then on the seat knows its table.
pub(crate) fn open<T: Served>(table: &Stage<T>, seat: &mut Place<T>, object: T, alloc: Global)
    requires seat { IsSeatAt table.now.table_id seat.old }
    requires first { seat.old.me ≡ (founding object, []) }
    ensures seat { IsSeatAt table.now.table_id seat.new × (seat.new.id ≡ seat.old.id) }
    ensures view { seat.new.me ≡ (leaving (naming (founding object) table.now.table_id), []) }
{
    let other = table.split_seat::<Cut>(seat).into_badge();
    let cell = Some(Cell {
        object,
        history: Vec::new(alloc),
        seat: other,
    });
    table.compare_exchange_with::<Open>(seat, BUSY, 1, 1, &cell);
    table.exchange(seat, 0, cell);
    leave(table, seat);
}

/// Makes one call, and answers its place.
pub(crate) fn turn<T: Served, R: Wait>(
    rt: &R,
    table: &Stage<T>,
    seat: &mut Place<T>,
    alloc: Global,
    call: T::Call,
) -> Result<(u64, T::Reply), AllocError>
    requires seat { IsSeatAt table.now.table_id seat.old }
    requires knows { KnowsTable table.now.table_id seat.old }
    requires outside { IsOutside seat.old }
    requires first { (o : T) × (seat.old.me.0.first ≡ Some o) }
    ensures seat { IsSeatAt table.now.table_id seat.new × (seat.new.id ≡ seat.old.id) }
    ensures back { Back T.reply T.next seat.old.me seat.new.me }
    ensures called { IfOk result (λ r. Called seat.old.me seat.new.me r.0 (call, r.1)) }
    ensures refused { OnErr result (Watched seat.old.me seat.new.me) }
{
    let (place, cell) = take(rt, table, seat);
    let mut cell = learn(table, seat, cell);
    let served = cell.serve(alloc, call);
    let Ok(reply) = served else {
        give_back(table, seat, cell);
        return Err(AllocError);
    };
    let cell = raise(table, seat, cell, call, reply);
    give_back(table, seat, cell);
    Ok((place, reply))
}

/// Holds what was joined against the history. The history is at least as long as the answer.
pub(crate) fn check<T: Served>(table: &Stage<T>, seat: &mut Place<T>) -> u64
    requires seat { IsSeatAt table.now.table_id seat.old }
    ensures seat { IsSeatAt table.now.table_id seat.new × (seat.new.id ≡ seat.old.id) }
    ensures view { seat.new.me ≡ (settled seat.old.me.0, seat.old.me.1) }
    ensures told { length seat.old.me.0.told ≤ length seat.old.me.0.seen → IsPrefix seat.old.me.0.told seat.old.me.0.seen }
    ensures once { IsEachOnce seat.old.me.0.made }
    ensures length { length seat.old.me.0.seen ≤ result }
{
    table.load::<Check>(seat, LENGTH)
}
