//! What is taken of a shared mailbox.
ghost use Rattle.std.specs.Prelude.{◌≡◌, Bool, ◌++◌, filter};
ghost use mathlib.Core.List.{IsPrefix};
ghost use Rattle.p2p_base.specs.Queue.{Queue};
ghost use Rattle.p2p_threads.specs.Takes.{Calls, NeverReplaces, ReplaysOn, accepted_in, taken_in, left_after};

use p2p_base::UnreliablePolicy;

/// States of each history of a mailbox whose messages never replace the overflow: what the takes gave, in order, and then
/// what is left, is what the mailbox held at first and then what it accepted, in order. So what was taken begins that, and
/// what was taken of some of the messages, such as those of one sender, begins what was held and accepted of them. It
/// does nothing.
pub fn taken_in_order<T: UnreliablePolicy>()
    ensures left { (q : Queue T) (h : Calls T) → NeverReplaces T.keep_of → ReplaysOn T.keep_of q h
        → q.items ++ accepted_in h ≡ taken_in h ++ (left_after T.keep_of q h).items }
    ensures taken { (q : Queue T) (h : Calls T) → NeverReplaces T.keep_of → ReplaysOn T.keep_of q h
        → IsPrefix (taken_in h) (q.items ++ accepted_in h) }
    ensures each { (q : Queue T) (h : Calls T) (is_of : T → Bool) → NeverReplaces T.keep_of → ReplaysOn T.keep_of q h
        → IsPrefix (filter is_of (taken_in h)) (filter is_of (q.items ++ accepted_in h)) }
{}
