//! `Places`, keys at their places in order.
ghost use Rattle.std.specs.Prelude.{◌≡◌, ◌+◌, ◌^◌, ◌<◌, [], ◌∷◌, None, true, length, slice_get, is_some, OnOk, OnErr};
ghost use Rattle.std.specs.List.{list_any};
ghost use Rattle.std.specs.List.Sorted.{IsStrictlySortedBy};
ghost use Rattle.std.specs.Option.{option_cmp};
ghost use Rattle.std.specs.BTreeMap.{is_at};
ghost use Rattle.std.specs.BTreeSet.{insert_key};
ghost use Rattle.p2p_tracker_calls.specs.Sets.{how_many};
ghost use Rattle.p2p_tracker_directory.specs.Placed.{by_place, is_passed, without, moved};
ghost use Rattle.p2p_tracker_directory.specs.declared.places.mark.Mark.TheVariants as mark;

mod mark;
mod node;

use mark::Mark;
use node::{Node, count, cut, get, join, rank};
use std::alloc::{AllocError, Global};
use std::marker::Model;

// Keys, each at a place or at none, in the order of their places, those of none first, and of equal places in that of the keys. Each
// call takes logarithmic time. Only `enter` takes memory.
#[derive(Drop)]
pub(crate) struct Places<A: Ord + Copy, K: Ord + Copy> {
    root: Option<Box<Node<(Option<A>, K)>>>,
    // How many entries were ever made, from which the weight of the next one is mixed.
    made: u64,
}

impl<A: Ord + Copy, K: Ord + Copy> Model for Places<A, K> {
    ghost use Rattle.std.specs.Prelude.{List as Seq, Option as Maybe};
    ghost use Rattle.std.specs.List.Sorted.{IsStrictlySortedBy};
    ghost use Rattle.p2p_tracker_directory.specs.Linked.{listed};
    ghost use Rattle.p2p_tracker_directory.specs.Placed.{by_place};

    ghost Value = { Seq (Maybe A × K) };

    ghost view = { λ p. listed p.root };

    ghost invariant = { λ p. IsStrictlySortedBy (by_place A.cmp K.cmp) (listed p.root) };
}

// Numbers of which each bit hangs on each bit of the one given: so no order in which keys come makes the tree deep.
fn mixed(number: u64) -> u64 {
    let spread = number.wrapping_add(1).wrapping_mul(0x9e37_79b9_7f4a_7c15);
    let first = (spread ^ (spread >> 30)).wrapping_mul(0xbf58_476d_1ce4_e5b9);
    let second = (first ^ (first >> 27)).wrapping_mul(0x94d0_49bb_1331_11eb);
    second ^ (second >> 31)
}

impl<A: Ord + Copy, K: Ord + Copy> Places<A, K> {
    // No keys, which takes no memory.
    pub(crate) fn new() -> Places<A, K>
        ensures { result ≡ [] }
    {
        Places {
            root: None,
            made: 0,
        }
    }

    // The entry at a place in the order. `None` exactly where there are no more than `at`.
    pub(crate) fn get(&self, at: usize) -> Option<(Option<A>, K)>
        ensures entry { result ≡ slice_get self.now at }
        ensures ordered { IsStrictlySortedBy (by_place A.cmp K.cmp) self.now }
    {
        get(&self.root, at)
    }

    // How many keys have this place, one below it, or none.
    pub(crate) fn through(&self, place: Option<A>) -> usize
        ensures rank { result ≡ how_many (is_passed A.cmp K.cmp (mark.Through place)) self.now }
        ensures ordered { IsStrictlySortedBy (by_place A.cmp K.cmp) self.now }
    {
        rank(&self.root, &Mark::Through(place))
    }

    // How many keys there are.
    pub(crate) fn len(&self) -> usize
        ensures len { result ≡ length self.now }
        ensures ordered { IsStrictlySortedBy (by_place A.cmp K.cmp) self.now }
    {
        count(&self.root)
    }

    // How many keys have this place.
    pub(crate) fn count(&self, place: Option<A>) -> usize
        ensures { result ≡ how_many (λ e. is_at (option_cmp A.cmp place) e.0) self.now }
    {
        self.through(place) - rank(&self.root, &Mark::Below(place))
    }

    // Puts an entry in, in a node of its own, unless it is there.
    fn put(&mut self, node: Box<Node<(Option<A>, K)>>, place: Option<A>, key: K)
        requires alone { node.value ≡ (place, key) ∷ [] }
        requires fits { length self.old + 1 < 2 ^ 64 }
        ensures { self.new ≡ insert_key (by_place A.cmp K.cmp) self.old (place, key) }
    {
        let at = rank(&self.root, &Mark::Before(place, key));
        let end = rank(&self.root, &Mark::Upto(place, key));
        if end > at {
            return;
        }
        let (first, others) = cut(self.root.take(), at);
        self.root = join(join(first, Some(node)), others);
    }

    // Takes an entry out, with its node, if it is there.
    fn take(&mut self, place: Option<A>, key: K) -> Option<Box<Node<(Option<A>, K)>>>
        ensures found { is_some result ≡ list_any (is_at (by_place A.cmp K.cmp (place, key))) self.old }
        ensures others { self.new ≡ without A.cmp K.cmp (place, key) self.old }
        ensures less { is_some result ≡ true → length self.new + 1 ≡ length self.old }
        ensures fits { length self.old < 2 ^ 64 }
    {
        let at = rank(&self.root, &Mark::Before(place, key));
        let end = rank(&self.root, &Mark::Upto(place, key));
        if end <= at {
            return None;
        }
        let (first, rest) = cut(self.root.take(), at);
        let (found, others) = cut(rest, 1);
        self.root = join(first, others);
        found
    }

    // Takes a key in that has no place, unless it is there. `Err` only where memory runs out, and then nothing changes.
    pub(crate) fn enter(&mut self, alloc: Global, key: K) -> Result<(), AllocError>
        ensures entered { OnOk result (self.new ≡ insert_key (by_place A.cmp K.cmp) self.old (None, key)) }
        ensures memory { OnErr result (self.new ≡ self.old) }
    {
        if count(&self.root) == usize::MAX {
            return Err(AllocError);
        }
        let node = Node::alone(alloc, (None, key), mixed(self.made))?;
        self.made = self.made.wrapping_add(1);
        self.put(node, None, key);
        Ok(())
    }

    // Lets a key go that has this place, if it is there.
    pub(crate) fn leave(&mut self, key: K, place: Option<A>)
        ensures { self.new ≡ without A.cmp K.cmp (place, key) self.old }
    {
        self.take(place, key);
    }

    // Moves a key from one place to another, where it has the first. It takes no memory.
    pub(crate) fn shift(&mut self, key: K, from: Option<A>, to: Option<A>)
        ensures { self.new ≡ moved A.cmp K.cmp (from, key) (to, key) self.old }
    {
        let Some(mut node) = self.take(from, key) else {
            return;
        };
        node.turn_into((to, key));
        self.put(node, to, key);
    }
}
