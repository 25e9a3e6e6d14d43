//! The answers by the name of a type.

use crate::hand::*;
use crate::own::{Blob, Bytes, Raw};
use json5_read::read_document;
use json5_serde::from_reader;
use json5_serde_read::{from_str, from_str_owned};
use json5_serde_write::{to_string, to_writer};
use json5_types::error::{Error, Result};
use json5_types::nesting::Limit;
use serde::{Deserialize, DeserializeOwned, Serialize};
use std::alloc::Global;
use std::borrow::CowStr;
use std::collections::BTreeMap;

/// The words of a text, each after a blank: what is written has a line for each member.
fn words(alloc: Global, text: &str) -> Result<String> {
    let mut words = String::new(alloc);
    for word in text.split_whitespace() {
        words.push(' ')?;
        words.push_str(word)?;
    }
    Ok(words)
}

/// What is written of what is read.
pub(crate) fn again<'a, T: Deserialize<'a> + Serialize>(
    alloc: Global,
    text: &'a str,
) -> Result<String> {
    let value = from_str::<T>(alloc, text)?;
    words(alloc, to_string(alloc, &value)?.as_str())
}

/// The same of a type that borrows nothing, if the text that is written reads back: what is written of that is the same
/// text.
pub(crate) fn back<T: DeserializeOwned + Serialize>(alloc: Global, text: &str) -> Result<String> {
    let value = from_str_owned::<T>(alloc, Limit::full(), text)?;
    let written = to_string(alloc, &value)?;
    let second = from_reader::<T, _>(alloc, Limit::full(), &mut written.as_bytes())?;
    let mut output = Vec::new(alloc);
    to_writer(alloc, &mut output, &second)?;
    if output.as_slice() != written.as_bytes() {
        return words(alloc, "it doesn't read back");
    }
    words(alloc, written.as_str())
}

/// That it is read.
fn read<'a, T: Deserialize<'a>>(alloc: Global, text: &'a str) -> Result<String> {
    let _ = from_str::<T>(alloc, text)?;
    words(alloc, "read")
}

/// What is written of steps that are sent.
fn sent(alloc: Global, steps: &str, goes_on: bool) -> Result<String> {
    words(alloc, to_string(alloc, &Sent { steps, goes_on })?.as_str())
}

/// The text of a value as it stands.
fn raw(alloc: Global, text: &str) -> Result<String> {
    let value = from_str::<Raw>(alloc, text)?;
    words(alloc, value.0)
}

/// Whether a type that passes over any value refuses what json5_format refuses, and with the same fault.
fn same(alloc: Global, text: &str) -> Result<String> {
    let here = from_str::<Skip>(alloc, text).err();
    let there = read_document(alloc, text).err();
    if here == there {
        return words(alloc, "same");
    }
    Err(here.or(there).unwrap())
}

/// What a row answers.
pub fn answer(alloc: Global, name: &str, line: &str) -> Result<String> {
    let text = line.replace(alloc, "␤", "\n")?;
    let text = text.as_str();
    match name {
        "()" => back::<()>(alloc, text),
        "bool" => back::<bool>(alloc, text),
        "f64" => back::<f64>(alloc, text),
        "f32" => back::<f32>(alloc, text),
        "u8" => back::<u8>(alloc, text),
        "i64" => back::<i64>(alloc, text),
        "u64" => back::<u64>(alloc, text),
        "u128" => back::<u128>(alloc, text),
        "i128" => back::<i128>(alloc, text),
        "&str" => again::<&str>(alloc, text),
        "char" => back::<char>(alloc, text),
        "String" => back::<String>(alloc, text),
        "CowStr" => again::<CowStr>(alloc, text),
        "Bytes" => again::<Bytes>(alloc, text),
        "Blob" => read::<Blob>(alloc, text),
        "Raw" => raw(alloc, text),
        _ => collections(alloc, name, text),
    }
}

fn collections(alloc: Global, name: &str, text: &str) -> Result<String> {
    match name {
        "Vec<i32>" => back::<Vec<i32>>(alloc, text),
        "Vec<Vec<i32>>" => back::<Vec<Vec<i32>>>(alloc, text),
        "(i32, i32)" => back::<(i32, i32)>(alloc, text),
        "(char, i32, &str)" => again::<(char, i32, &str)>(alloc, text),
        "Option<bool>" => back::<Option<bool>>(alloc, text),
        "BTreeMap<&str, usize>" => again::<BTreeMap<&str, usize>>(alloc, text),
        "BTreeMap<String, u8>" => back::<BTreeMap<String, u8>>(alloc, text),
        "BTreeMap<u8, &str>" => again::<BTreeMap<u8, &str>>(alloc, text),
        "BTreeMap<bool, &str>" => again::<BTreeMap<bool, &str>>(alloc, text),
        "BTreeMap<(), &str>" => again::<BTreeMap<(), &str>>(alloc, text),
        "BTreeMap<Option<char>, u8>" => again::<BTreeMap<Option<char>, u8>>(alloc, text),
        _ => by_hand(alloc, name, text),
    }
}

fn by_hand(alloc: Global, name: &str, text: &str) -> Result<String> {
    match name {
        "same" => same(alloc, text),
        "Skip" => read::<Skip>(alloc, text),
        "Called" => read::<Called>(alloc, text),
        "Sent" => sent(alloc, text, false),
        "Tried" => sent(alloc, text, true),
        _ => Err(Error::custom(alloc, "no such type")?),
    }
}
