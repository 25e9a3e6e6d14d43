//! Reading a text as a type, and writing what was read.

use crate::call_results::{Answer, Any, Digits, push_answer, shown, unknown};
use crate::call_spelling::by_type;
use crate::own_enums::{E, F};
use crate::own_structs::{Config, Letters, Person};
use crate::writes::{write, write_within};
use indexmap::IndexMap;
use json5::{
    ByteBuf, CowStr, Decimal, Deserialize, Deserializer, Error, IgnoredAny, Limit, Result,
    Serialize, Value, ValueRef, from_str, from_str_within,
};
use std::alloc::Global;
use std::collections::{BTreeMap, HashMap};
use std::fmt::Debug;

/// What is asked of a type.
#[derive(Clone, Copy)]
pub enum Asked {
    /// The value that is read.
    Read,
    /// The value that is read within a limit.
    Within(Limit),
    /// What is written of the value that is read.
    Write,
    /// What is written of it within a limit.
    Written(Limit),
}

/// The answer of a type that isn't written.
fn read_as<'de, T: Deserialize<&'de str> + Debug>(
    alloc: Global,
    asked: Asked,
    text: &'de str,
) -> Answer {
    match asked {
        Asked::Read => shown(alloc, from_str::<T>(alloc, text)),
        Asked::Within(limit) => shown(alloc, from_str_within::<T>(alloc, limit, text)),
        _ => unknown(alloc),
    }
}

/// The answer of a type that is written too.
fn ask<'de, T: Deserialize<&'de str> + Serialize + Debug>(
    alloc: Global,
    asked: Asked,
    text: &'de str,
) -> Answer {
    match asked {
        Asked::Write => write(alloc, &from_str::<T>(alloc, text)?),
        Asked::Written(limit) => write_within(alloc, limit, &from_str::<T>(alloc, text)?),
        _ => read_as::<T>(alloc, asked, text),
    }
}

/// What reading the text as each of the types with these names gives; ` and ` separates the names.
pub fn read_each(alloc: Global, names: &str, text: &str) -> Answer {
    let mut answers = String::new(alloc);
    for name in names.split(" and ") {
        push_answer(alloc, answer(alloc, Asked::Read, name, text), &mut answers)?;
    }
    Ok(answers)
}

/// What is asked of the type with this name.
pub fn answer(alloc: Global, asked: Asked, name: &str, text: &str) -> Answer {
    match name {
        "Decimal" => of_decimal(alloc, asked, text),
        "Value" => of_value(alloc, asked, text),
        "ValueRef" => of_value_ref(alloc, asked, text),
        _ => of_scalar(alloc, asked, name, text),
    }
}

fn of_decimal(alloc: Global, asked: Asked, text: &str) -> Answer {
    match asked {
        Asked::Read => shown(alloc, from_str(alloc, text).map(Digits)),
        _ => ask::<Decimal>(alloc, asked, text),
    }
}

fn of_value(alloc: Global, asked: Asked, text: &str) -> Answer {
    match asked {
        Asked::Read => same(
            alloc,
            from_str(alloc, text),
            ValueRef::from_str(alloc, text),
        ),
        Asked::Within(limit) => same(
            alloc,
            from_str_within(alloc, limit, text),
            ValueRef::from_str_within(alloc, limit, text),
        ),
        Asked::Write => alike(
            alloc,
            ask::<Value>(alloc, Asked::Write, text),
            written(alloc, text),
        ),
        Asked::Written(limit) => alike(
            alloc,
            ask::<Value>(alloc, Asked::Written(limit), text),
            written_within(alloc, limit, text),
        ),
    }
}

/// The answer of a value. What borrows its texts has to give the same.
fn same(alloc: Global, read: Result<Value>, borrowed: Result<ValueRef<'_>>) -> Answer {
    let answer = shown(alloc, read.map(Any));
    alike(alloc, answer, shown(alloc, owned(alloc, borrowed).map(Any)))
}

/// The answer of a value, if that of what borrows its texts is the same.
fn alike(alloc: Global, answer: Answer, borrowed: Answer) -> Answer {
    if answer == borrowed {
        return answer;
    }
    Err(Error::custom(alloc, "a ValueRef gives something else")?)
}

/// What is written of what borrows its texts.
fn written(alloc: Global, text: &str) -> Answer {
    write(alloc, &ValueRef::from_str(alloc, text)?)
}

fn written_within(alloc: Global, limit: Limit, text: &str) -> Answer {
    write_within(alloc, limit, &ValueRef::from_str(alloc, text)?)
}

fn owned(alloc: Global, borrowed: Result<ValueRef<'_>>) -> Result<Value> {
    borrowed?.to_owned(alloc)
}

/// Shows which texts are borrowed.
fn of_value_ref(alloc: Global, asked: Asked, text: &str) -> Answer {
    match asked {
        Asked::Read => shown(alloc, ValueRef::from_str(alloc, text)),
        Asked::Within(limit) => shown(alloc, ValueRef::from_str_within(alloc, limit, text)),
        _ => unknown(alloc),
    }
}

fn of_scalar(alloc: Global, asked: Asked, name: &str, text: &str) -> Answer {
    by_type!(name, ask(alloc, asked, text);
        0 "u8" => u8, 1 "u16" => u16, 2 "u32" => u32, 3 "u64" => u64, 4 "u128" => u128,
        5 "i8" => i8, 6 "i16" => i16, 7 "i32" => i32, 8 "i64" => i64, 9 "i128" => i128,
        10 "usize" => usize, 11 "isize" => isize, 12 "()" => (), 13 "bool" => bool,
        14 "char" => char, 15 "&str" => &str, 16 "CowStr" => CowStr, 17 "String" => String,
        18 "ByteBuf" => ByteBuf, 19 "Config" => Config, 20 "E" => E, 21 "F" => F;
        of_list(alloc, asked, name, text)
    )
}

fn of_list(alloc: Global, asked: Asked, name: &str, text: &str) -> Answer {
    by_type!(name, ask(alloc, asked, text);
        0 "Vec<i32>" => Vec<i32>, 1 "Vec<char>" => Vec<char>, 2 "Vec<()>" => Vec<()>,
        3 "Vec<&str>" => Vec<&str>, 4 "Vec<[u8; 2]>" => Vec<[u8; 2]>,
        5 "Vec<Vec<i32>>" => Vec<Vec<i32>>, 6 "Vec<Option<&str>>" => Vec<Option<&str>>,
        7 "Vec<(u8, u8, u8, u8)>" => Vec<(u8, u8, u8, u8)>, 8 "Vec<(i32,)>" => Vec<(i32,)>,
        9 "Option<bool>" => Option<bool>, 10 "Option<Option<bool>>" => Option<Option<bool>>,
        11 "Option<(i32,)>" => Option<(i32,)>, 12 "[i32; 0]" => [i32; 0],
        13 "[char; 1]" => [char; 1], 14 "[i32; 2]" => [i32; 2], 15 "[i32; 3]" => [i32; 3],
        16 "[bool; 0]" => [bool; 0], 17 "(i32,)" => (i32,), 18 "(i32, i32)" => (i32, i32),
        19 "(i32, i32, i32)" => (i32, i32, i32), 20 "(char, i32, &str)" => (char, i32, &str),
        21 "(u8, bool, u8, bool)" => (u8, bool, u8, bool);
        of_map(alloc, asked, name, text)
    )
}

fn of_map(alloc: Global, asked: Asked, name: &str, text: &str) -> Answer {
    by_type!(name, ask(alloc, asked, text);
        0 "BTreeMap<String, u8>" => BTreeMap<String, u8>,
        1 "BTreeMap<&str, u8>" => BTreeMap<&str, u8>,
        2 "BTreeMap<u8, String>" => BTreeMap<u8, String>,
        3 "BTreeMap<bool, u8>" => BTreeMap<bool, u8>,
        4 "BTreeMap<CowStr, u8>" => BTreeMap<CowStr, u8>,
        5 "BTreeMap<char, u8>" => BTreeMap<char, u8>,
        6 "BTreeMap<ByteBuf, u8>" => BTreeMap<ByteBuf, u8>,
        7 "BTreeMap<F, i32>" => BTreeMap<F, i32>,
        8 "BTreeMap<String, i32>" => BTreeMap<String, i32>,
        9 "BTreeMap<String, String>" => BTreeMap<String, String>,
        10 "BTreeMap<&str, &str>" => BTreeMap<&str, &str>,
        11 "BTreeMap<usize, isize>" => BTreeMap<usize, isize>,
        12 "IndexMap<String, u8>" => IndexMap<String, u8>,
        13 "IndexMap<CowStr, u8>" => IndexMap<CowStr, u8>,
        14 "IndexMap<Decimal, u8>" => IndexMap<Decimal, u8>;
        of_read(alloc, asked, name, text)
    )
}

/// Types that aren't written.
fn of_read(alloc: Global, asked: Asked, name: &str, text: &str) -> Answer {
    by_type!(name, read_as(alloc, asked, text);
        0 "IgnoredAny" => IgnoredAny, 1 "Person" => Person, 2 "Letters" => Letters,
        3 "HashMap<F, i32>" => HashMap<F, i32>, 4 "HashMap<(), i32>" => HashMap<(), i32>,
        5 "HashMap<i32, i32>" => HashMap<i32, i32>, 6 "HashMap<bool, i32>" => HashMap<bool, i32>,
        7 "HashMap<CowStr, u8>" => HashMap<CowStr, u8>,
        8 "HashMap<String, u32>" => HashMap<String, u32>,
        9 "HashMap<ByteBuf, i32>" => HashMap<ByteBuf, i32>,
        10 "HashMap<Option<char>, i32>" => HashMap<Option<char>, i32>;
        unknown(alloc)
    )
}

/// The place of the text among the variants, which commas separate.
pub fn read_variant(alloc: Global, variants: &str, text: &str) -> Answer {
    let mut names = Vec::new(alloc);
    for name in variants.split_terminator(',') {
        names.push(name)?;
    }
    let mut de = Deserializer::from_str(alloc, text);
    let place = de.deserialize_variant(names.as_slice())?;
    de.end()?;
    shown(alloc, Ok(place))
}
