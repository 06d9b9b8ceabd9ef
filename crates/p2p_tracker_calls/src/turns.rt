//! The grants and releases of a key come by turns.
ghost use Rattle.p2p_tracker_calls.specs.Granted.{DialsGrantNoneHeld, ListensGrantNoneHeld};
ghost use Rattle.p2p_tracker_calls.specs.Turns.{GrantsAndReleasesAlternate, IsHeldByLastTurn};

use p2p_base::PublicKey;

/// States that the grants of a key and the releases that end a hold of it alternate, and a grant is first, where no call
/// granted a key that was held; and that a key is held exactly where the newest of these is a grant. It does nothing.
pub fn grants_and_releases_alternate<P: PublicKey>()
    ensures alternate { GrantsAndReleasesAlternate P.cmp }
    ensures held { IsHeldByLastTurn P.cmp }
{}

/// States that a dial and a listen that are answered as the rules allow grant no key that is held. It does nothing.
pub fn allowed_grants_are_of_none_held<P: PublicKey>()
    ensures dial { DialsGrantNoneHeld P.cmp }
    ensures listen { ListensGrantNoneHeld P.cmp }
{}
