//! A list in a tree, each part of which is found and moved in logarithmic time.
ghost use Rattle.std.specs.Prelude.{◌≡◌, ◌+◌, ◌^◌, ◌<◌, ◌≤◌, ◌++◌, ◌∷◌, [], length, take, drop, slice_get, IfOk};
ghost use Rattle.std.specs.List.Sorted.{IsStrictlySortedBy};
ghost use Rattle.p2p_tracker_calls.specs.Sets.{how_many};
ghost use Rattle.p2p_tracker_directory.specs.Placed.{by_place, is_passed};
ghost use Rattle.p2p_tracker_directory.specs.Linked.{listed};

use crate::places::mark::Mark;
use std::alloc::{AllocError, Global};
use std::marker::Model;

// A tree, seen as its items in order. A node stands above those of lower weight, and weights are mixed, so that the tree is flat.
#[derive(Drop)]
pub(crate) struct Node<T> {
    left: Option<Box<Node<T>>>,
    item: T,
    right: Option<Box<Node<T>>>,
    len: usize,
    weight: u64,
}

impl<T> Model for Node<T> {
    ghost use Rattle.std.specs.Prelude.{◌≡◌, ◌∷◌, ◌++◌, List as Seq, length};
    ghost use Rattle.p2p_tracker_directory.specs.Linked.{listed};
    ghost use Rattle.std.proofs.Common.{arith, length-append};

    ghost Value = { Seq T };

    ghost view = { λ n. listed n.left ++ n.item ∷ listed n.right };

    ghost invariant = { λ n. n.len ≡ length (listed n.left ++ n.item ∷ listed n.right) };

    ghost size = { length };

    ghost size_decreases = { λ n h. Prim.grind (arith, length-append) };
}

// How many items there are.
pub(crate) fn count<T>(link: &Option<Box<Node<T>>>) -> usize
    ensures { result ≡ length (listed link.now) }
{
    match link {
        Some(node) => node.len,
        None => 0,
    }
}

// The items of the one, and then those of the other.
pub(crate) fn join<T: Drop>(
    first: Option<Box<Node<T>>>,
    second: Option<Box<Node<T>>>,
) -> Option<Box<Node<T>>>
    requires { length (listed first) + length (listed second) < 2 ^ 64 }
    ensures { listed result ≡ listed first ++ listed second }
{
    let Some(mut one) = first else {
        return second;
    };
    let Some(mut other) = second else {
        return Some(one);
    };
    if one.weight < other.weight {
        let node = &mut *other;
        node.left = join(Some(one), node.left.take());
        node.len = count(&node.left) + 1 + count(&node.right);
        Some(other)
    } else {
        let node = &mut *one;
        node.right = join(node.right.take(), Some(other));
        node.len = count(&node.left) + 1 + count(&node.right);
        Some(one)
    }
}

// The first items, as many as `at`, and the others.
pub(crate) fn cut<T: Drop>(
    link: Option<Box<Node<T>>>,
    at: usize,
) -> (Option<Box<Node<T>>>, Option<Box<Node<T>>>)
    ensures first { listed result.0 ≡ take at (listed link) }
    ensures others { listed result.1 ≡ drop at (listed link) }
{
    let Some(mut top) = link else {
        return (None, None);
    };
    let node = &mut *top;
    let before = count(&node.left);
    if at <= before {
        let (first, others) = cut(node.left.take(), at);
        node.left = others;
        node.len = count(&node.left) + 1 + count(&node.right);
        (first, Some(top))
    } else {
        let (first, others) = cut(node.right.take(), at - before - 1);
        node.right = first;
        node.len = count(&node.left) + 1 + count(&node.right);
        (Some(top), others)
    }
}

// The item at a place in the order.
pub(crate) fn get<T: Copy>(link: &Option<Box<Node<T>>>, at: usize) -> Option<T>
    ensures { result ≡ slice_get (listed link.now) at }
{
    let Some(top) = link else {
        return None;
    };
    let node: &Node<T> = top;
    let before = count(&node.left);
    if at < before {
        return get(&node.left, at);
    }
    if at == before {
        return Some(node.item);
    }
    get(&node.right, at - before - 1)
}

// How many entries, of some in order, come before what the mark names.
pub(crate) fn rank<A: Ord, K: Ord>(
    link: &Option<Box<Node<(Option<A>, K)>>>,
    mark: &Mark<A, K>,
) -> usize
    ensures most { result ≤ length (listed link.now) }
    ensures fits { length (listed link.now) < 2 ^ 64 }
    ensures rank { IsStrictlySortedBy (by_place A.cmp K.cmp) (listed link.now) → result ≡ how_many (is_passed A.cmp K.cmp mark.now) (listed link.now) }
{
    let Some(top) = link else {
        return 0;
    };
    let all = count(link);
    let node: &Node<(Option<A>, K)> = top;
    if mark.is_passed(&node.item) {
        return all - count(&node.right) + rank(&node.right, mark);
    }
    rank(&node.left, mark)
}

impl<T: Drop> Node<T> {
    // A tree of one item.
    pub(crate) fn alone(alloc: Global, item: T, weight: u64) -> Result<Box<Node<T>>, AllocError>
        ensures { IfOk result (λ b. b.value ≡ item ∷ []) }
    {
        let node = Box::new(
            alloc,
            Node {
                left: None,
                item,
                right: None,
                len: 1,
                weight,
            },
        )?;
        Ok(node)
    }

    // Puts another item in place of all, which takes no memory.
    pub(crate) fn turn_into(&mut self, item: T)
        ensures { self.new ≡ item ∷ [] }
    {
        self.left = None;
        self.right = None;
        self.len = 1;
        self.item = item;
    }
}
