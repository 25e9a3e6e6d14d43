//! Keys of every type, written: bare where they are names, else as texts.

use json5::{Decimal, Result, SerializeKey, Serializer, from_str};
use std::alloc::Global;
use std::test::Fail;

/// Whether an object that has a member for each of the keys is written so.
fn are_written<A: SerializeKey, B: SerializeKey, C: SerializeKey, D: SerializeKey, E: SerializeKey>(
    alloc: Global,
    keys: (&A, &B, &C, &D, &E),
    wanted: &[u8],
) -> Result<bool> {
    let mut ser = Serializer::new(Vec::new(alloc));
    let mut object = ser.serialize_map(Some(5))?;
    object.serialize_entry(keys.0, &0u8)?;
    object.serialize_entry(keys.1, &0u8)?;
    object.serialize_entry(keys.2, &0u8)?;
    object.serialize_entry(keys.3, &0u8)?;
    object.serialize_entry(keys.4, &0u8)?;
    object.end()?;
    Ok(ser.into_inner().as_slice() == wanted)
}

const SIGNED: &[u8] = b"{\n  \"-1\": 0,\n  \"-1\": 0,\n  \"-1\": 0,\n  \"-1\": 0,\n  \"-1\": 0,\n}";

const UNSIGNED: &[u8] = b"{\n  \"7\": 0,\n  \"7\": 0,\n  \"7\": 0,\n  \"7\": 0,\n  \"7\": 0,\n}";

fn integers_are_texts(alloc: Global) -> Result<bool> {
    let signed = (&-1i8, &-1i16, &-1i32, &-1i64, &-1i128);
    let unsigned = (&7u8, &7u16, &7u32, &7u64, &7u128);
    Ok(are_written(alloc, signed, SIGNED)? && are_written(alloc, unsigned, UNSIGNED)?)
}

const DECIMALS: &[u8] =
    b"{\n  \"1.5\": 0,\n  Infinity: 0,\n  \"-Infinity\": 0,\n  NaN: 0,\n  null: 0,\n}";

fn decimals_are_written(alloc: Global) -> Result<bool> {
    let finite = from_str::<Decimal>(alloc, "1.5")?;
    let (positive, negative) = (Decimal::infinity(false), Decimal::infinity(true));
    let nan = Decimal::nan(false);
    are_written(alloc, (&finite, &positive, &negative, &nan, &()), DECIMALS)
}

const NAMES: &str = "{\n  true: 0,\n  τ: 0,\n  \"∞\": 0,\n  '\"': 0,\n  a_1: 0,\n}";

const TEXTS: &[u8] =
    b"{\n  \"\": 0,\n  \"it's \\\"x\\\"\": 0,\n  \"5\": 0,\n  \"5\": 0,\n  \"a b\": 0,\n}";

fn names_are_bare(alloc: Global) -> Result<bool> {
    let names = (&true, &'τ', &'∞', &'"', &&"a_1");
    let texts = (&"", &"it's \"x\"", &Some(5), &Some(Some(5)), &Some("a b"));
    Ok(are_written(alloc, names, NAMES.as_bytes())? && are_written(alloc, texts, TEXTS)?)
}

#[test]
fn keys_of_every_type_are_written(rt: HostRuntime) -> std::result::Result<(), Fail> {
    assert!(rt; integers_are_texts(rt.alloc())?);
    assert!(rt; decimals_are_written(rt.alloc())?);
    assert!(rt; names_are_bare(rt.alloc())?);
    Ok(())
}
