//! Values that are written.

use crate::answers::{Answer, found, unknown};
use crate::values::Row;
use json5::{
    Error, Layout, Result, Value, from_str, is_json, shown, to_json, to_json_compact, to_json_in,
    to_json_writer_in, to_string_in, to_vec_in, to_writer_in,
};
use std::alloc::Global;

/// Writes the value.
pub fn answer(alloc: Global, row: Row<'_>, value: &Value) -> Answer {
    match row.call {
        "is_json" => found(alloc, Some(is_json(value))),
        "shown" => Ok(format!(in alloc; "{}", shown(value))?),
        "to_json" => read_again(alloc, value, to_json(alloc, value)?),
        "to_json_compact" => read_again(alloc, value, to_json_compact(alloc, value)?),
        "to_json_in" => json_in(alloc, row.words, value),
        _ => match row.words.split_once(' ') {
            Some(("json", words)) => json_in(alloc, words, value),
            _ => text_in(alloc, row.words, value),
        },
    }
}

/// The text in a layout, if a writer and bytes get the same.
fn text_in(alloc: Global, name: &str, value: &Value) -> Answer {
    let layout = layout_of(alloc, name)?;
    let text = to_string_in(alloc, layout, value)?;
    let bytes = to_vec_in(alloc, layout, value)?;
    let mut written = Vec::new(alloc);
    to_writer_in(&mut written, layout, value)?;
    if bytes.as_slice() != text.as_bytes() || written.as_slice() != text.as_bytes() {
        return unknown(alloc);
    }
    read_again(alloc, value, text)
}

/// The same of JSON.
fn json_in(alloc: Global, name: &str, value: &Value) -> Answer {
    let layout = layout_of(alloc, name)?;
    let text = to_json_in(alloc, layout, value)?;
    let mut written = Vec::new(alloc);
    to_json_writer_in(alloc, &mut written, layout, value)?;
    if written.as_slice() != text.as_bytes() {
        return unknown(alloc);
    }
    read_again(alloc, value, text)
}

/// The layout with this name: `expanded`, `tabbed`, `compact`, or `indented` and a number.
fn layout_of(alloc: Global, name: &str) -> Result<Layout> {
    match name.split_once(' ') {
        Some(("indented", spaces)) => Ok(Layout::indented(spaces.parse().unwrap_or(0))),
        _ => plain_layout(alloc, name),
    }
}

fn plain_layout(alloc: Global, name: &str) -> Result<Layout> {
    match name {
        "expanded" => Ok(Layout::expanded()),
        "tabbed" => Ok(Layout::tabbed()),
        "compact" => Ok(Layout::compact()),
        _ => Err(Error::custom(alloc, "no such layout")?),
    }
}

/// The text, if it reads back as the same value.
fn read_again(alloc: Global, value: &Value, text: String) -> Answer {
    let again: Value = from_str(alloc, text.as_str())?;
    if again == *value {
        Ok(text)
    } else {
        unknown(alloc)
    }
}
