//! Writers that fail at each of their calls in turn.

use crate::writers::{Failure, Slow, failed_write};
use indexmap::IndexMap;
use json5::{
    ByteBuf, Error, ErrorCode, Result, Serialize, Serializer, Value, from_str, to_string, to_writer,
};
use std::alloc::Global;
use std::test::Fail;
use test_own_types::{Id, Reminder};

/// Whether a writer was given just so many bytes of the text, one a call, and no call after the one that failed.
pub(crate) fn was_stopped(slow: &Slow, text: &[u8], count: usize) -> bool {
    match text.get(..count) {
        Some(given) => slow.was_given(given, given.len() + 1),
        None => false,
    }
}

/// Whether a writer that takes one byte a call and fails after so many is a failed write, and was stopped there.
fn stops_after<T: Serialize>(
    alloc: Global,
    value: &T,
    text: &[u8],
    count: usize,
    failure: Failure,
) -> bool {
    let mut slow = Slow::failing(alloc, 1, count, failure);
    let failed = to_writer(&mut slow, value) == Err(failed_write());
    failed && was_stopped(&slow, text, count)
}

/// Whether that is so at each of its calls, and a writer that doesn't fail gets the text whole, a byte a call.
fn stops_anywhere<T: Serialize>(alloc: Global, value: &T, text: &str) -> bool {
    let text = text.as_bytes();
    for count in 0..text.len() {
        if !stops_after(alloc, value, text, count, Failure::Interrupted)
            || !stops_after(alloc, value, text, count, Failure::TakesNothing)
        {
            return false;
        }
    }
    let mut slow = Slow::new(alloc, 1, usize::MAX);
    to_writer(&mut slow, value).is_ok() && slow.was_given(text, text.len())
}

/// What is written of a list of all kinds, of an object, of bytes as keys, which are bare where they begin with a letter, and of a
/// value of any kind.
const ALL_KINDS: &str = "\
[
  [
    null,
    [
      'a\"\\n',
      \"b'\",
    ],
    {
      weekly: [
        1,
        7,
      ],
    },
    \"00ff\",
  ],
  {
    \"7\": \"c\",
    \"16\": null,
  },
  {
    ab0c: 1,
    \"0c\": 2,
    \"\": 3,
  },
  {
    a: -7,
  },
]";

#[test]
fn a_value_of_all_kinds_stops_anywhere(rt: HostRuntime) -> std::result::Result<(), Fail> {
    let bytes = ByteBuf::from_vec(vec![in rt.alloc(); 0u8, 255]?);
    let list = ((), ["a\"\n", "b'"], Reminder::Weekly(1, 7), bytes);
    let ids: IndexMap<Option<Id>, Option<char>> = from_str(rt.alloc(), "{'7':'c','16':null}")?;
    let bytes: IndexMap<ByteBuf, u8> = from_str(rt.alloc(), "{ab0c:1,'0C':2,'':3}")?;
    let value: Value = from_str(rt.alloc(), "{a:-7}")?;
    assert!(rt; stops_anywhere(rt.alloc(), &(&list, ids, bytes, value), ALL_KINDS));
    Ok(())
}

/// Writes an object and a list in it, member by member.
fn write_by_hand(ser: &mut Serializer<Slow>) -> Result<()> {
    let mut object = ser.serialize_map(None)?;
    object.serialize_entry(&"a", &[0u8; 0])?;
    object.serialize_key(&"b c")?;
    object.serialize_value(&[true])?;
    object.end()
}

const BY_HAND: &[u8] = b"{\n  a: [],\n  \"b c\": [\n    true,\n  ],\n}";

/// Whether a serializer over a writer that fails after so many bytes refuses with a failed write, and then with `Failed`, and
/// gives back a writer that was stopped there.
fn stops_by_hand(alloc: Global, count: usize, failure: Failure) -> bool {
    let mut ser = Serializer::new(Slow::failing(alloc, 1, count, failure));
    let stopped = write_by_hand(&mut ser) == Err(failed_write());
    let refused = ser.serialize_unit() == Err(Error::new(ErrorCode::Failed));
    let slow = ser.into_inner();
    stopped && refused && was_stopped(&slow, BY_HAND, count)
}

#[test]
fn a_collection_stops_anywhere(rt: HostRuntime) {
    for count in 0..BY_HAND.len() {
        let interrupted = stops_by_hand(rt.alloc(), count, Failure::Interrupted);
        let took_nothing = stops_by_hand(rt.alloc(), count, Failure::TakesNothing);
        assert!(rt; interrupted && took_nothing, "at {count}");
    }
}

/// Whether a collection whose write failed refuses each later call with `Failed`.
fn refuses_after_a_failed_write(ser: &mut Serializer<Slow>) -> Result<bool> {
    let failed = Err(Error::new(ErrorCode::Failed));
    let mut object = ser.serialize_map(None)?;
    let stopped = object.serialize_entry(&"a", &1u8) == Err(failed_write());
    let again = object.serialize_entry(&"b", &2u8) == failed;
    Ok(stopped && again && object.end() == failed)
}

#[test]
fn a_collection_stays_failed(rt: HostRuntime) -> std::result::Result<(), Fail> {
    let mut ser = Serializer::new(Slow::new(rt.alloc(), 1, 5));
    assert!(rt; refuses_after_a_failed_write(&mut ser)?);
    let slow = ser.into_inner();
    assert!(rt; was_stopped(&slow, b"{\n  a: 1", 5));
    Ok(())
}

#[test]
fn a_long_list_stops_late(rt: HostRuntime) -> std::result::Result<(), Fail> {
    let mut list = Vec::new(rt.alloc());
    for n in 0..10_000u32 {
        list.push(n)?;
    }
    let text = to_string(rt.alloc(), &list)?;
    let bytes = text.as_bytes();
    assert!(rt; stops_after(rt.alloc(), &list, bytes, 50_000, Failure::Interrupted));
    assert!(rt; stops_after(rt.alloc(), &list, bytes, 50_001, Failure::TakesNothing));
    Ok(())
}
