//! What a directory knows of where peers are dialed.
ghost use Rattle.p2p_discovery_directory.specs.Laws.{NewestIsKept, OnlyWhatWasToldIsKept, IsKeptWithTheRecord, IsForgottenWithTheRecord, OwnIsKeptForGood, KnowsAll};

use p2p_base::PublicKey;

/// States that of a peer that has a record the newest info is kept of those that it was told since, and no other; that it is kept as
/// long as the record, and forgotten with it; and that the own info is kept for good. It does nothing.
pub fn infos_are_kept_with_the_record<P: PublicKey>()
    ensures newest { NewestIsKept P.cmp }
    ensures told { OnlyWhatWasToldIsKept P.cmp }
    ensures kept { IsKeptWithTheRecord P.cmp }
    ensures forgotten { IsForgottenWithTheRecord P.cmp }
    ensures own { OwnIsKeptForGood P.cmp }
{}

/// States that a peer whose bit vector has the bits of a directory's own is told nothing by it. It does nothing.
pub fn who_knows_all_is_told_nothing<P: PublicKey>()
    ensures { KnowsAll P.cmp }
{}
