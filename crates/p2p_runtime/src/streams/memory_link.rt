//! One end of a link in memory.
ghost use Rattle.std.specs.Prelude.{◌≡◌, ◌∷◌, ◌++◌, [], drop, slice_get, true, IfErr, OnOk, OnErr};

use super::{Failed, Link, LinkFault};
use bytes::Bytes;
use p2p_base::NoRoom;
use std::alloc::Global;
use std::collections::VecDeque;
use std::marker::Model;

/// One end of a link in memory, whose other end is played by calls of this type.
#[derive(Drop, Debug)]
pub struct MemoryLink {
    waiting: VecDeque<Bytes>,
    in_flight: VecDeque<Bytes>,
    cut: bool,
    alone: bool,
    faults: u64,
}

impl Model for MemoryLink {
    ghost use Rattle.p2p_runtime.specs.Ends.{End};

    ghost Value = { End };

    ghost view = { λ l. record { waiting = l.waiting.items; in_flight = l.in_flight.items; cut = l.cut; alone = l.alone; faults = l.faults } };
}

impl MemoryLink {
    ghost use Rattle.std.specs.Prelude.{false};

    /// An open link on which nothing waits.
    pub fn new(alloc: Global) -> MemoryLink
        ensures { result ≡ record { waiting = []; in_flight = []; cut = false; alone = false; faults = 0 } }
    {
        MemoryLink {
            waiting: VecDeque::new(alloc),
            in_flight: VecDeque::new(alloc),
            cut: false,
            alone: false,
            faults: 0,
        }
    }

    /// The other end writes a frame. `NoRoom` hands it back where there is no memory for it.
    pub fn arrive(&mut self, frame: Bytes) -> Result<(), NoRoom<Bytes>>
        ensures ok { OnOk result (self.new ≡ record self.old { waiting = self.old.waiting ++ frame ∷ [] }) }
        ensures err { IfErr result (λ e. (e.0 ≡ frame) × (self.new ≡ self.old)) }
    {
        match self.waiting.push_back(frame) {
            Ok(()) => Ok(()),
            Err(failed) => Err(NoRoom(failed.value)),
        }
    }

    /// The other end reads a frame, where one is in flight.
    pub fn depart(&mut self) -> Option<Bytes>
        ensures frame { result ≡ slice_get self.old.in_flight 0 }
        ensures rest { self.new ≡ record self.old { in_flight = drop 1 self.old.in_flight } }
    {
        self.in_flight.pop_front()
    }

    /// The link is cut. A close of this side cuts it too.
    pub fn cut(&mut self)
        ensures { self.new ≡ record self.old { cut = true } }
    {
        self.cut = true;
    }

    /// The other end is dropped. What waits here can still be read.
    pub fn leave(&mut self)
        ensures { self.new ≡ record self.old { alone = true } }
    {
        self.alone = true;
    }
}

impl Link for MemoryLink {
    ghost use Rattle.std.specs.Prelude.{Some, refl};
    ghost use Rattle.std.proofs.Common.{◌∙◌};
    ghost use Rattle.p2p_runtime.specs.Ends.{write_breaks, read_breaks, KeepsEnd};

    ghost faults_of = { λ l. l.faults };

    ghost waiting = { λ l. l.waiting };

    ghost in_flight = { λ l. l.in_flight };

    ghost write_fails = { λ l. Some (write_breaks l) };

    ghost read_fails = { λ l. Some (read_breaks l) };

    ghost keeps = { KeepsEnd };

    fn write(&mut self, _alloc: Global, frame: Bytes) -> Result<(), LinkFault> {
        if self.cut || self.alone {
            self.faults = self.faults.saturating_add(1);
            return Err(LinkFault::Failed);
        }
        match self.in_flight.push_back(frame) {
            Ok(()) => Ok(()),
            Err(_) => Err(LinkFault::Memory),
        }
    }

    fn read(&mut self) -> Result<Option<Bytes>, Failed> {
        if self.cut || (self.alone && self.waiting.is_empty()) {
            self.faults = self.faults.saturating_add(1);
            return Err(Failed);
        }
        Ok(self.waiting.pop_front())
    }

    fn close(&mut self) {
        self.waiting.clear();
        self.cut = true;
    }

    ghost keeps_itself = { λ l. (refl, refl) };

    ghost keeps_on = { λ l m n h k. (k.0 ∙ h.0, k.1 ∙ h.1) };
}
