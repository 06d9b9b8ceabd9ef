//! What stands in the queues.
ghost use Rattle.std.specs.Prelude.{◌≡◌, ℕ, ◌++◌, ◌∷◌, [], drop, length, slice_get, OnOk, if◌then◌else◌};
ghost use Rattle.std.specs.Option.{option_copied};
ghost use Rattle.p2p_log.specs.QueueCode.{same_queue};
ghost use Rattle.p2p_net_queues.specs.Board.{held, items_in};

use p2p_log::Queue;
use std::alloc::{AllocError, Global};
use std::collections::{BTreeMap, VecDeque};

/// What stands in queues, by queue, the oldest first.
#[derive(Drop)]
pub struct Board<T> {
    pub lines: BTreeMap<Queue, VecDeque<T>>,
}

impl<T: Drop> Board<T> {
    /// Empty queues.
    pub fn new(alloc: Global) -> Board<T>
        ensures { (q : _) → held result q ≡ [] }
    {
        Board {
            lines: BTreeMap::new(alloc),
        }
    }

    /// Puts an item last in a queue.
    pub fn push(&mut self, alloc: Global, queue: Queue, x: T) -> Result<(), AllocError>
        ensures { OnOk result ((q : _) → held self.new q ≡ held self.old q ++ (if same_queue queue q then x ∷ [] else [])) }
    {
        match self.lines.get_mut(&queue) {
            Some(line) => {
                line.push_back(x)?;
                Ok(())
            }
            None => {
                let mut line = VecDeque::new(alloc);
                line.push_back(x)?;
                self.lines.insert(queue, line)?;
                Ok(())
            }
        }
    }

    /// Takes the oldest item of a queue.
    pub fn pop(&mut self, queue: Queue) -> Option<T>
        ensures first { result ≡ slice_get (held self.old queue) 0 }
        ensures rest { (q : _) → held self.new q ≡ (if same_queue queue q then drop 1 (held self.old q) else held self.old q) }
    {
        match self.lines.get_mut(&queue) {
            Some(line) => line.pop_front(),
            None => None,
        }
    }

    /// Takes all items of a queue, the oldest first.
    pub fn take_all(&mut self, queue: Queue) -> Option<VecDeque<T>>
        ensures all { items_in result ≡ held self.old queue }
        ensures rest { (q : _) → held self.new q ≡ (if same_queue queue q then [] else held self.old q) }
    {
        self.lines.remove(&queue)
    }

    /// The oldest item of a queue.
    pub fn front(&self, queue: Queue) -> Option<&T>
        ensures { option_copied result ≡ slice_get (held self.now queue) 0 }
    {
        match self.lines.get(&queue) {
            Some(line) => line.front(),
            None => None,
        }
    }

    /// How many items a queue holds.
    pub fn len(&self, queue: Queue) -> usize
        ensures { result ≡ length (held self.now queue) }
    {
        match self.lines.get(&queue) {
            Some(line) => line.len(),
            None => 0,
        }
    }
}
