//! Maps of many keys.

use indexmap::IndexMap;
use json5::{Deserializer, Result, from_str};
use std::alloc::Global;
use std::collections::{BTreeMap, HashMap};
use std::fmt::Write;
use std::hash::RandomState;
use std::test::Fail;

/// An object of so many members, whose keys all differ.
fn object(alloc: Global, count: u32) -> Result<String> {
    let mut text = String::from_str(alloc, "{")?;
    for n in 0..count {
        write!(text, "key{n}:{n},")?;
    }
    text.push('}')?;
    Ok(text)
}

/// How many members each of the three maps holds after it was read from the text.
fn counts(alloc: Global, text: &str) -> Result<(usize, usize, usize)> {
    let sorted: BTreeMap<&str, u32> = from_str(alloc, text)?;
    let in_turn: IndexMap<&str, u32> = from_str(alloc, text)?;
    let hashed: HashMap<&str, u32> = from_str(alloc, text)?;
    Ok((sorted.len(), in_turn.len(), hashed.len()))
}

#[test]
fn maps_of_10_000_keys_are_read(rt: HostRuntime) -> std::result::Result<(), Fail> {
    let text = object(rt.alloc(), 10_000)?;
    assert!(rt; counts(rt.alloc(), text.as_str())? == (10_000, 10_000, 10_000));
    Ok(())
}

/// The members of the text in a map whose seed is the caller's.
fn read_with_seed(
    alloc: Global,
    seed: RandomState,
    text: &str,
) -> Result<HashMap<String, u32, RandomState>> {
    let mut de = Deserializer::from_str(alloc, text);
    let mut pairs = de.deserialize_map()?;
    let mut map = HashMap::with_hasher(alloc, seed);
    while let Some(key) = pairs.next_key::<String>()? {
        let value = pairs.next_value::<u32>()?;
        map.insert(key, value)?;
    }
    pairs.end()?;
    de.end()?;
    Ok(map)
}

#[test]
fn pairs_are_put_into_a_map_with_a_seed(rt: HostRuntime) -> std::result::Result<(), Fail> {
    let seed = RandomState::new(&rt)?;
    let map = read_with_seed(rt.alloc(), seed, "{a: 1, b: 2, a: 3}")?;
    assert!(rt; map.len() == 2 && map.get("a") == Some(&3) && map.get("b") == Some(&2));
    Ok(())
}
