//! The shared object, and what a caller of it carries.
ghost use Rattle.std.specs.Prelude.{◌≡◌, ℕ, ◌+◌, ◌<◌, ◌≤◌, [], ◌∷◌, ◌++◌, length, vec_len, slice_get, Some, IfOk, IfErr, OnErr, IsOk};
ghost use mathlib.Core.List.{IsPrefix};
ghost use Rattle.p2p_threads.specs.Account.{IsMadeBy, IsAlike};
ghost use Rattle.p2p_threads.specs.History.{after, Replays, longer, IsEachOnce, entry_at};

use crate::board::{Board, Cell, Place};
use crate::plays::{Cut, Merge};
use crate::served::Served;
use crate::steps::{check, give_back, learn, open, take, turn};
use atomic_table::Table;
use std::alloc::{AllocError, Global};
use std::marker::Model;
use std::snapshot::Snapshot;
use std::sync::Wait;

/// An object that threads share. Its calls stand in one history.
#[derive(Drop)]
pub struct Shared<T: Served> {
    board: Board<T>,
    alloc: Global,
}

impl<T: Served> Model for Shared<T> {
    ghost use Rattle.std.specs.Prelude.{◌≡◌};
    ghost use Rattle.p2p_threads.specs.Account.{Origin};

    ghost Value = { Origin T };

    ghost view = { λ s. record { table = s.board.shared.table_id; first = s.board.shared.key.value } };

    ghost invariant = { λ s. (s.board.shared.table_id.words ≡ 2) × (s.board.shared.table_id.slots ≡ 1) };
}

/// What one caller knows of a shared object: a beginning of the history, and the calls that it made.
#[derive(Drop)]
pub struct Pass<T: Served> {
    seat: Place<T>,
    calls: u64,
}

impl<T: Served> Model for Pass<T> {
    ghost use Rattle.p2p_threads.specs.Account.{Account};
    ghost use Rattle.p2p_threads.specs.Seats.{IsPass};

    ghost Value = { Account T T.Call T.Reply };

    ghost view = { λ p. record { table = p.seat.table_id; first = p.seat.me.0.first; seen = p.seat.me.0.seen; made = p.seat.me.0.made } };

    ghost invariant = { λ p. IsPass p.seat.table_id p.seat.me p.calls };
}

/// The history has more calls than were made with the pass. Both come back.
#[derive(Drop)]
pub struct Out<T: Served>(pub Shared<T>, pub Pass<T>);

impl<T: Served> Shared<T> {
    /// Shares an object, and gives the first pass.
    pub fn new(alloc: Global, object: T) -> Result<(Shared<T>, Pass<T>), AllocError>
        ensures object { IfOk result (λ r. r.0.first ≡ object) }
        ensures own { IfOk result (λ r. IsMadeBy r.0 r.1) }
        ensures blank { IfOk result (λ r. (r.1.seen ≡ []) × (r.1.made ≡ [])) }
    {
        let first = Snapshot::of(&object);
        let (board, mut seat) = Table::vacant(alloc, &[1, 0], 1, &first)?;
        open(&board.shared, &mut seat, object, alloc);
        Ok((Shared { board, alloc }, Pass { seat, calls: 0 }))
    }

    /// Makes one call, and answers its place in the history and the reply. It waits until no other call is served.
    /// Want of memory leaves the object and the history as they were.
    pub fn call(
        &self,
        rt: &impl Wait,
        pass: &mut Pass<T>,
        call: T::Call,
    ) -> Result<(u64, T::Reply), AllocError>
        requires own { IsMadeBy self.now pass.old }
        ensures own { IsAlike pass.old pass.new }
        ensures begins { IsPrefix pass.old.seen pass.new.seen }
        ensures replays { Replays T.reply T.next self.now.first pass.new.seen }
        ensures place { IfOk result (λ r. (length pass.old.seen ≤ r.0) × (length pass.new.seen ≡ r.0 + 1)) }
        ensures stands { IfOk result (λ r. slice_get pass.new.seen r.0 ≡ Some (call, r.1)) }
        ensures made { IfOk result (λ r. pass.new.made ≡ pass.old.made ++ (r.0, (call, r.1)) ∷ []) }
        ensures refused { OnErr result (pass.new.made ≡ pass.old.made) }
    {
        let (place, reply) = turn(rt, &self.board.shared, &mut pass.seat, self.alloc, call)?;
        pass.calls += 1;
        Ok((place, reply))
    }

    /// A further pass, which has seen as much and made nothing. It takes no memory.
    pub fn split(&self, pass: &mut Pass<T>) -> Result<Pass<T>, AllocError>
        requires own { IsMadeBy self.now pass.old }
        ensures same { pass.new ≡ pass.old }
        ensures own { IfOk result (λ p. IsAlike pass.old p) }
        ensures blank { IfOk result (λ p. (p.seen ≡ pass.old.seen) × (p.made ≡ [])) }
        ensures succeeds { IsOk result }
    {
        let seat = self.board.shared.split_seat::<Cut>(&mut pass.seat);
        Ok(Pass { seat, calls: 0 })
    }

    /// Joins a pass into another, which has then made the calls of both.
    pub fn join(&self, into: &mut Pass<T>, pass: Pass<T>)
        requires into { IsMadeBy self.now into.old }
        requires own { IsMadeBy self.now pass }
        ensures own { IsAlike into.old into.new }
        ensures seen { into.new.seen ≡ longer into.old.seen pass.seen }
        ensures begins { IsPrefix into.old.seen into.new.seen × IsPrefix pass.seen into.new.seen }
        ensures made { into.new.made ≡ into.old.made ++ pass.made }
        ensures once { IsEachOnce into.new.made }
    {
        let Pass { seat, calls } = pass;
        self.board.shared.join_seat::<Merge>(&mut into.seat, seat);
        check(&self.board.shared, &mut into.seat);
        into.calls += calls;
    }

    /// Ends the sharing, and gives the object and its history. It waits until no call is served, and takes no memory.
    /// The answer is `Out` exactly where the history has more calls than were made with the pass and those joined into it.
    pub fn close(
        self,
        rt: &impl Wait,
        pass: Pass<T>,
    ) -> Result<(T, Vec<(T::Call, T::Reply)>), Out<T>>
        requires own { IsMadeBy self pass }
        ensures object { IfOk result (λ r. r.0 ≡ after T.reply T.next self.first r.1.items) }
        ensures replays { IfOk result (λ r. Replays T.reply T.next self.first r.1.items) }
        ensures seen { IfOk result (λ r. IsPrefix pass.seen r.1.items) }
        ensures made { IfOk result (λ r. (p : ℕ) → entry_at pass.made p ≡ slice_get r.1.items p) }
        ensures whole { IfOk result (λ r. vec_len r.1 ≤ length pass.made) }
        ensures same { IfErr result (λ o. (o.0 ≡ self) × IsAlike pass o.1 × (o.1.made ≡ pass.made)) }
        ensures history { IfErr result (λ o. IsPrefix pass.seen o.1.seen × Replays T.reply T.next self.first o.1.seen) }
        ensures more { IfErr result (λ o. length pass.made < length o.1.seen) }
    {
        let Pass { mut seat, calls } = pass;
        let (length, cell) = take(rt, &self.board.shared, &mut seat);
        if calls < length {
            let cell = learn(&self.board.shared, &mut seat, cell);
            give_back(&self.board.shared, &mut seat, cell);
            return Err(Out(self, Pass { seat, calls }));
        }
        let Cell {
            object,
            history,
            seat: _,
        } = cell;
        Ok((object, history))
    }
}
