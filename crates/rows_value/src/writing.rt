//! Calls that write a value in a layout, write a literal, read bytes, and find places in texts.

use crate::answers::{Answer, by_message, unknown};
use crate::literals::literal;
use crate::places::place;
use crate::reading::read;
use crate::short::Short;
use json5::{
    Layout, Result, Value, from_str, shown, to_json, to_json_compact, to_json_in, to_json_writer,
    to_json_writer_in, to_string_in, to_vec_in, to_writer_in,
};
use std::alloc::{AllocError, Global};

/// Whether the call of the row with this name gives what the row says. A name is a number and the call, and a row an
/// object.
pub(crate) fn said(
    alloc: Global,
    name: &str,
    text: &str,
) -> std::result::Result<String, AllocError> {
    let row: Value = match from_str(alloc, text) {
        Ok(row) => row,
        Err(error) => return format!(in alloc; "{name}: {error}"),
    };
    let (_, call) = name.split_once(' ').unwrap_or(("", name));
    let given = by_message(alloc, given(alloc, call, &row))?;
    if given.as_str() == text_of(&row, "gives") {
        format!(in alloc; "{name}: right")
    } else {
        format!(in alloc; "{name}: WRONG: {given:?}")
    }
}

/// The text of this name in a row.
pub(crate) fn text_of<'r>(row: &'r Value, name: &str) -> &'r str {
    row.get(name).and_then(Value::as_str).unwrap_or("")
}

/// The number of this name in a row.
pub(crate) fn count_of(row: &Value, name: &str) -> Option<usize> {
    let count = row.get(name)?.as_u64()?;
    usize::try_from(count).ok()
}

/// What the call gives.
fn given(alloc: Global, call: &str, row: &Value) -> Answer {
    match call {
        "offset" | "utf16" => place(alloc, call, row),
        "bytes" | "reader" => read(alloc, call, row),
        "literal" => literal(alloc, row),
        _ => written(alloc, call, row),
    }
}

/// What is written of the row's value.
fn written(alloc: Global, call: &str, row: &Value) -> Answer {
    let value = value_of(alloc, row)?;
    let layout = layout_of(row);
    match call {
        "string" => to_string_in(alloc, layout, &value),
        "vec" => text(alloc, to_vec_in(alloc, layout, &value)?),
        "json" => to_json(alloc, &value),
        "json_compact" => to_json_compact(alloc, &value),
        "json_in" => to_json_in(alloc, layout, &value),
        "shown" => Ok(format!(in alloc; "{}", shown(&value))?),
        _ => to_short(alloc, call, row, &value),
    }
}

/// What a writer with room for so many bytes holds after the call, and what the call said.
fn to_short(alloc: Global, call: &str, row: &Value, value: &Value) -> Answer {
    let layout = layout_of(row);
    let mut writer = Short::new(alloc, count_of(row, "room").unwrap_or(1000));
    let result = match call {
        "writer" => to_writer_in(&mut writer, layout, value),
        "json_writer" => to_json_writer(alloc, &mut writer, value),
        "json_writer_in" => to_json_writer_in(alloc, &mut writer, layout, value),
        _ => return unknown(alloc),
    };
    let held = text(alloc, writer.into_bytes())?;
    match result {
        Ok(()) => Ok(held),
        Err(error) => Ok(format!(in alloc; "{held}; {error}")?),
    }
}

/// The row's value, within so many arrays.
fn value_of(alloc: Global, row: &Value) -> Result<Value> {
    let mut value = match row.get("value") {
        Some(value) => value.clone(alloc)?,
        None => Value::Null,
    };
    for _ in 0..count_of(row, "within").unwrap_or(0) {
        let mut items = Vec::new(alloc);
        items.push(value)?;
        value = Value::Array(items);
    }
    Ok(value)
}

fn layout_of(row: &Value) -> Layout {
    match text_of(row, "layout") {
        "compact" => Layout::compact(),
        "tabs" => Layout::tabbed(),
        "spaces" => {
            let spaces = count_of(row, "spaces").unwrap_or(0);
            Layout::indented(u8::try_from(spaces).unwrap_or(0))
        }
        _ => Layout::expanded(),
    }
}

fn text(alloc: Global, bytes: Vec<u8>) -> Answer {
    match String::from_utf8(bytes) {
        Ok(text) => Ok(text),
        Err(_) => Ok(String::from_str(alloc, "not UTF-8")?),
    }
}
