//! `Mark`, up to where entries are counted.
ghost use Rattle.std.specs.Prelude.{◌≡◌};
ghost use Rattle.p2p_tracker_directory.specs.Placed.{is_passed};

// Up to where entries are counted.
#[derive(Drop)]
pub(crate) enum Mark<A, K> {
    // Those whose place is below this one.
    Below(Option<A>),
    // Those whose place isn't above this one.
    Through(Option<A>),
    // Those before a key at its place.
    Before(Option<A>, K),
    // Those, and the key itself.
    Upto(Option<A>, K),
}

impl<A: Ord, K: Ord> Mark<A, K> {
    // Whether the entry comes before what the mark names.
    pub(crate) fn is_passed(&self, entry: &(Option<A>, K)) -> bool
        ensures { result ≡ is_passed A.cmp K.cmp self.now entry.now }
    {
        match self {
            Mark::Below(place) => entry.0.cmp(place).is_lt(),
            Mark::Through(place) => entry.0.cmp(place).is_le(),
            Mark::Before(place, key) => entry.0.cmp(place).then(entry.1.cmp(key)).is_lt(),
            Mark::Upto(place, key) => entry.0.cmp(place).then(entry.1.cmp(key)).is_le(),
        }
    }
}
