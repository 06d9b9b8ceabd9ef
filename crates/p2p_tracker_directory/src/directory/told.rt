//! What a directory tells without memory.
ghost use Rattle.std.specs.Prelude.{◌≡◌, true, length, List, Some, IfSome};
ghost use Rattle.p2p_tracker_calls.specs.DialList.{comes_by, query_again_at};
ghost use Rattle.p2p_tracker_calls.specs.Lists.{next_query};
ghost use Rattle.p2p_tracker_calls.specs.Named.{EqualKeysAreOne};
ghost use Rattle.p2p_tracker_calls.specs.declared.call.Call.{Call};
ghost use Rattle.p2p_tracker_directory.specs.Stands.{StandsFor};
ghost use Rattle.p2p_tracker_directory.specs.Told.{query_in, listenable_count_in, keys_from};

use crate::Directory;
use crate::directory::dials::next_query;
use crate::directory::listens::count_of;
use p2p_address::IpAddr;
use p2p_base::PublicKey;

impl<C: PublicKey> Directory<C> {
    /// How many eligible peers dial from `ip` at the moment `now`. It takes no memory.
    pub fn listenable_count(&self, ip: &IpAddr, now: u64) -> usize
        ensures value { result ≡ listenable_count_in C.cmp self.now ip.now now }
        ensures exactly { (calls : List (Call C)) → EqualKeysAreOne C.cmp → StandsFor C.cmp self.now calls
            → result ≡ length (keys_from C.cmp self.now.rules calls ip.now now) }
    {
        self.records.stand_in_order();
        count_of(&self.records, &self.blocks, ip, now)
    }

    /// When to ask for the peers to dial again, as `dialable` tells it at the moment `now`. It takes no memory.
    pub fn next_query_at(&self, now: u64) -> Option<u128>
        ensures next { (calls : List (Call C)) → StandsFor C.cmp self.now calls
            → IfSome result (λ n. (q : C) × (next_query C.cmp self.now.rules calls q now ≡ Some n)) }
        ensures least { (calls : List (Call C)) → StandsFor C.cmp self.now calls
            → (q : C) → IfSome (next_query C.cmp self.now.rules calls q now) (λ t. comes_by result t ≡ true) }
        ensures value { result ≡ query_in C.cmp self.now now }
        ensures exactly { (calls : List (Call C)) → EqualKeysAreOne C.cmp → StandsFor C.cmp self.now calls
            → result ≡ query_again_at C.cmp self.now.rules calls now }
    {
        self.records.stand_in_order();
        next_query(&self.records, &self.blocks, now)
    }
}
