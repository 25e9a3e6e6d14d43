//! Calls of one writer, one after another: `writing unit_struct map(key,value,end)`; and a writer that fails.
//!
//! The calls in brackets are those of the collection that the call opens. It is dropped where the last of them isn't `end`, and
//! leaked where that is `leak`.

use crate::call_results::{Answer, Printed, by_message, push_answer, shown, unknown};
use crate::call_spelling::{Opened, by_name, walk};
use crate::own_keys::{NewtypeStructKey, NoKey, UnitStructKey};
use crate::writers::{Given, held};
use json5::{Serialize, SerializeCollection, Serializer, Value, from_str, to_writer};
use std::alloc::Global;
use std::collections::BTreeMap;

type Collection<'a> = SerializeCollection<'a, Vec<u8>>;

/// What each call returns, and then what the writer holds.
pub fn writing(alloc: Global, names: &str) -> Answer {
    let mut ser = Serializer::new(Vec::new(alloc));
    let mut answers = String::new(alloc);
    for name in names.split_whitespace() {
        match name.split_once('(') {
            Some((opening, steps)) => open(&mut ser, opening, steps, alloc, &mut answers),
            None => push_answer(alloc, call(&mut ser, name, alloc), &mut answers),
        }?;
    }
    push_answer(alloc, held(alloc, ser.into_inner()), &mut answers)?;
    Ok(answers)
}

fn call(ser: &mut Serializer<Vec<u8>>, name: &str, alloc: Global) -> Answer {
    match name {
        "unit_struct" => shown(alloc, ser.serialize_unit_struct("Unit")),
        "newtype_struct" => shown(alloc, ser.serialize_newtype_struct("Newtype", &true)),
        _ => unknown(alloc),
    }
}

/// Opens a list or an object, and makes the calls of its collection.
fn open(
    ser: &mut Serializer<Vec<u8>>,
    opening: &str,
    steps: &str,
    alloc: Global,
    answers: &mut String,
) -> Printed<()> {
    match opening {
        "tuple_struct" => walk(ser.serialize_tuple_struct("Pair", 2), steps, alloc, answers),
        "tuple_variant" => {
            let opened = ser.serialize_tuple_variant("Kind", 0, "Pair", 2);
            walk(opened, steps, alloc, answers)
        }
        "struct_variant" => {
            let opened = ser.serialize_struct_variant("Kind", 1, "Fields", 1);
            walk(opened, steps, alloc, answers)
        }
        _ => walk(ser.serialize_map(None), steps, alloc, answers),
    }
}

impl Opened for Collection<'_> {
    fn call(&mut self, name: &str, alloc: Global) -> Answer {
        by_name!(name;
            0 "is_list" => shown(alloc, Ok(self.is_list())),
            1 "key_pending" => shown(alloc, Ok(self.key_pending())),
            2 "element" => element(self, alloc),
            3 "value" => value(self, &1u8, alloc),
            4 "value:no_key" => no_key_value(self, alloc);
            member(self, name, alloc)
        )
    }

    fn finish(self, alloc: Global) -> Answer {
        if self.key_pending() {
            return unknown(alloc);
        }
        shown(alloc, self.end())
    }
}

fn element(collection: &mut Collection<'_>, alloc: Global) -> Answer {
    if !collection.is_list() {
        return unknown(alloc);
    }
    shown(alloc, collection.serialize_element(&1u8))
}

fn value<T: Serialize>(collection: &mut Collection<'_>, value: &T, alloc: Global) -> Answer {
    if !collection.key_pending() {
        return unknown(alloc);
    }
    shown(alloc, collection.serialize_value(value))
}

/// Writes an object as the value, whose only key can't be written.
fn no_key_value(collection: &mut Collection<'_>, alloc: Global) -> Answer {
    let mut object = BTreeMap::new(alloc);
    object.insert(None::<bool>, 1u8)?;
    value(collection, &object, alloc)
}

/// Calls that begin a member.
fn member(collection: &mut Collection<'_>, name: &str, alloc: Global) -> Answer {
    if collection.is_list() || collection.key_pending() {
        return unknown(alloc);
    }
    let written = by_name!(name;
        0 "entry" => collection.serialize_entry(&"b", &2u8),
        1 "field" => collection.serialize_field("c", &3u8),
        2 "key" => collection.serialize_key(&"a"),
        3 "key:unit_struct" => collection.serialize_key(&UnitStructKey),
        4 "key:newtype_struct" => collection.serialize_key(&NewtypeStructKey);
        collection.serialize_key(&NoKey { call: name })
    );
    shown(alloc, written)
}

/// What `to_writer` returns for the text's value over a writer that fails at this call, and then what the writer holds.
pub fn stops(alloc: Global, call: &str, text: &str) -> Answer {
    let value = from_str::<Value>(alloc, text)?;
    let mut writer = Given::failing_at(alloc, call.parse::<usize>().unwrap_or(1));
    let written = to_writer(&mut writer, &value);
    let mut answers = by_message(alloc, shown(alloc, written))?;
    push_answer(alloc, writer.held(alloc), &mut answers)?;
    Ok(answers)
}
