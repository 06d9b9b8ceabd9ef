//! Sets, maps and priority sets: each call once.
use p2p_base::{Key, Map, PrioritySet, PublicKey, Set, SetError};
use std::alloc::{AllocError, Global};

// The set of these keys, none of them twice, through the bound alone.
fn set_of<P: PublicKey>(alloc: Global, keys: &[P]) -> Result<Set<P>, SetError> {
    Set::try_from(Vec::from_slice(alloc, keys)?)
}

// Whether a set of keys that were given twice has each once, in order, and finds one of them and no other; and whether it equals its
// copies, and the set of the same keys in another order, and not an empty one.
fn set(alloc: Global) -> Result<[bool; 6], SetError> {
    let keys = [Key(5), Key(2), Key(9), Key(5), Key(2)];
    let set = Set::from_iter_dedup(Vec::from_slice(alloc, &keys)?)?;
    let ordered = set.as_slice() == [Key(2), Key(5), Key(9)].as_slice();
    let told = (set.len(), set.is_empty()) == (3, false);
    let found = (set.position(&Key(5)), set.position(&Key(6))) == (Some(1), None);
    let copied = (set.clone()? == set, set.try_clone()? == set) == (true, true);
    let same = set_of(alloc, &[Key(9), Key(2), Key(5)])? == set;
    let apart = Set::empty(alloc) != set;
    Ok([ordered, told, found, copied, same, apart])
}

#[test]
fn a_set_goes_through_its_calls(rt: HostRuntime) {
    assert!(rt; set(rt.alloc()) == Ok([true; 6]));
    let repeated = [Key(1), Key(2), Key(3), Key(3)];
    assert!(rt; set_of(rt.alloc(), &repeated).err() == Some(SetError::Duplicate));
}

// The map of these pairs, no key twice.
fn map_of(alloc: Global, pairs: &[(Key, char)]) -> Result<Map<Key, char>, SetError> {
    Map::try_from(Vec::from_slice(alloc, pairs)?)
}

// Whether a map has its keys in order, with their values in the same places, and finds one of them and no other; and whether it equals
// its copy and not an empty one, and gives its keys.
fn map(alloc: Global) -> Result<[bool; 7], SetError> {
    let map = map_of(alloc, &[(Key(5), 'b'), (Key(2), 'a')])?;
    let keys = map.keys() == [Key(2), Key(5)].as_slice();
    let values = map.values() == ['a', 'b'].as_slice();
    let told = (map.len(), map.is_empty()) == (2, false);
    let found = (map.position(&Key(5)), map.get(&Key(5)).copied()) == (Some(1), Some('b'));
    let missed = (map.position(&Key(1)), map.get(&Key(1)).copied()) == (None, None);
    let compared = (map.clone()? == map, Map::empty(alloc) == map) == (true, false);
    let given = map.into_keys().as_slice() == [Key(2), Key(5)].as_slice();
    Ok([keys, values, told, found, missed, compared, given])
}

#[test]
fn a_map_goes_through_its_calls(rt: HostRuntime) {
    assert!(rt; map(rt.alloc()) == Ok([true; 7]));
    let repeated = [(Key(5), 'b'), (Key(2), 'a'), (Key(5), 'b')];
    assert!(rt; map_of(rt.alloc(), &repeated).err() == Some(SetError::Duplicate));
}

// Five moments of four keys, one of which is put twice.
const MOMENTS: [(u64, u128); 5] = [(7, 40), (3, 20), (9, 20), (1, 30), (7, 10)];

// The priority set of these moments.
fn moments(alloc: Global) -> Result<PrioritySet<Key>, AllocError> {
    let mut set = PrioritySet::new(alloc);
    for (key, at) in MOMENTS {
        set.put(Key(key), at)?;
    }
    Ok(set)
}

// Whether it has the later moment of the key that was put twice, and none of another, and sees the least one; and what it gives, the
// least first.
fn popped(alloc: Global) -> Result<([bool; 3], [Option<(Key, u128)>; 5]), AllocError> {
    let mut set = moments(alloc)?;
    let latest = set.get(&Key(7)) == Some(10);
    let missed = set.get(&Key(8)).is_none();
    let least = set.peek() == Some((Key(7), 10));
    let given = [set.pop(), set.pop(), set.pop(), set.pop(), set.pop()];
    Ok(([latest, missed, least], given))
}

#[test]
fn a_priority_set_gives_the_least_moment(rt: HostRuntime) {
    let given = [
        Some((Key(7), 10)),
        Some((Key(3), 20)),
        Some((Key(9), 20)),
        Some((Key(1), 30)),
        None,
    ];
    assert!(rt; popped(rt.alloc()) == Ok(([true; 3], given)));
}
