//! Texts, lists and keys: each call once.
use p2p_base::{Key, List, PublicKey, Text};
use std::alloc::{AllocError, Global};

// Whether a text of one letter says so, it equals its copies and not an empty one, and it gives its letter.
fn text(alloc: Global) -> Result<[bool; 6], AllocError> {
    let text = Text::from_str(alloc, "a")?;
    let empty = Text::new(String::new(alloc));
    let cloned = text.clone()? == text;
    let copied = text.try_clone(alloc)? == text;
    let told = (
        text.as_str() == "a",
        (text.len(), text.is_empty()) == (1, false),
    );
    let apart = empty != text && empty.is_empty();
    let given = text.into_inner().as_str() == "a";
    Ok([cloned, copied, told.0, told.1, apart, given])
}

#[test]
fn a_text_goes_through_its_calls(rt: HostRuntime) {
    assert!(rt; text(rt.alloc()) == Ok([true; 6]));
}

// Whether a list of two keys says so, it equals its copies and not a longer one, and it gives its keys.
fn list(alloc: Global) -> Result<[bool; 6], AllocError> {
    let list = List::from_slice(alloc, &[Key(1), Key(2)])?;
    let cloned = list.clone()? == list;
    let mut longer = list.try_clone(alloc)?;
    let copied = longer == list;
    longer.push(Key(3))?;
    let apart = longer != list && longer.as_slice() == [Key(1), Key(2), Key(3)].as_slice();
    let told = (list.len(), list.is_empty()) == (2, false);
    let empty = List::<Key>::empty(alloc).is_empty();
    let given = List::new(list.into_inner()).len() == 2;
    Ok([cloned, copied, apart, told, empty, given])
}

#[test]
fn a_list_goes_through_its_calls(rt: HostRuntime) {
    assert!(rt; list(rt.alloc()) == Ok([true; 6]));
}

// The bytes of the key 300, the high one first.
const BYTES: [u8; 8] = [0, 0, 0, 0, 0, 0, 1, 44];

// Whether the key 300 is written as these bytes, through the bound alone.
fn is_written<P: PublicKey>(alloc: Global, key: P, bytes: &[u8]) -> Result<bool, AllocError> {
    Ok(key.to_bytes(alloc)?.as_slice() == bytes)
}

#[test]
fn a_key_has_eight_bytes_high_byte_first(rt: HostRuntime) {
    assert!(rt; is_written(rt.alloc(), Key(300), &BYTES) == Ok(true));
    let found = [Key::from_bytes(&BYTES), Key::from_bytes(&BYTES[1..])];
    assert!(rt; found == [Some(Key(300)), None]);
}
