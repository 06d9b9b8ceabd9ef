//! The keys whose connections are kept.
ghost use Rattle.std.specs.Prelude.{List};
ghost use Rattle.p2p_tracker_calls.specs.declared.call.Call.{Call};
ghost use Rattle.p2p_tracker_calls.specs.Rules.{Rules};
ghost use Rattle.p2p_tracker_calls.specs.Keeping.{KeptKeysAreEligible, NoKeptKeyIsStale, ConnectsStayPast};
ghost use Rattle.p2p_tracker_calls.specs.KeptAfter.{IsKeptAfter};

use p2p_base::PublicKey;

/// States that a key whose connection is kept is eligible at each moment that no connect comes after, and isn't stale. It
/// does nothing.
pub fn kept_keys_are_eligible<P: PublicKey>()
    ensures eligible { KeptKeysAreEligible P.cmp }
    ensures not_stale { NoKeptKeyIsStale P.cmp }
    ensures past { ConnectsStayPast P }
{}

/// States whose connection is kept after one more call: who connects, until it is released or blocked, or is stale or in no
/// set after a call. It does nothing.
pub fn kept_after_each_call<P: PublicKey>()
    ensures { (rules : Rules P) (calls : List (Call P)) (q : P) → IsKeptAfter P.cmp rules calls q }
{}
