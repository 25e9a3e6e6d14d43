//! Decimals that are cloned, and texts that are borrowed and owned.

use json5::{CowStr, Decimal, Result, from_str};
use std::alloc::Global;
use std::cmp::Ordering;
use std::hash::{DefaultHasher, Hash, Hasher};
use std::test::Fail;

fn hash_of<T: Hash>(value: &T) -> u64 {
    let mut state = DefaultHasher::new();
    value.hash(&mut state);
    state.finish()
}

/// Whether the clone of a decimal is equal to it, and hashes alike.
fn clones_alike(alloc: Global, text: &str) -> Result<bool> {
    let decimal = from_str::<Decimal>(alloc, text)?;
    let copy = decimal.clone(alloc)?;
    Ok(copy == decimal && hash_of(&copy) == hash_of(&decimal))
}

#[test]
fn clones_of_decimals_are_alike(rt: HostRuntime) -> std::result::Result<(), Fail> {
    for text in ["-1.50", "-Infinity", "-NaN", "-0."] {
        assert!(rt; clones_alike(rt.alloc(), text)?, "{text}");
    }
    Ok(())
}

/// A borrowed and an owned text are equal, order alike and hash alike.
#[test]
fn borrowed_and_owned_texts_compare_alike(rt: HostRuntime) -> std::result::Result<(), Fail> {
    let borrowed = CowStr::Borrowed("key");
    let owned = CowStr::Owned(String::from_str(rt.alloc(), "key")?);
    let later = CowStr::Borrowed("kez");
    assert!(rt; borrowed == owned && owned.as_str() == "key");
    assert!(rt; hash_of(&borrowed) == hash_of(&owned));
    assert!(rt; later.cmp(&owned) == Ordering::Greater);
    Ok(())
}
