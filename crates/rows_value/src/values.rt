//! Calls that work with a `Value`.

use crate::answers::{Answer, wrapped};
use crate::{bytes, changes, finds, kinds, makes, refs, texts};
use std::alloc::Global;

/// A row: its call, the words that follow the call's name, the value, and what follows that: a key, and another text.
#[derive(Clone, Copy)]
pub struct Row<'r> {
    pub call: &'r str,
    pub words: &'r str,
    pub value: &'r str,
    pub rest: &'r str,
    pub key: &'r str,
    pub other: &'r str,
}

/// What the row's call returns.
pub fn answer(alloc: Global, line: &str) -> Answer {
    let (call, rest) = line.split_once('|').unwrap_or((line, ""));
    let (call, words) = call.split_once(' ').unwrap_or((call, ""));
    let (value, rest) = rest.split_once('|').unwrap_or((rest, ""));
    let (key, other) = rest.split_once('|').unwrap_or((rest, ""));
    let row = Row {
        call,
        words,
        value,
        rest,
        key,
        other,
    };
    answer_of(alloc, row)
}

/// Makes the call.
fn answer_of(alloc: Global, row: Row<'_>) -> Answer {
    match row.call {
        "from" | "text" => makes::answer(alloc, row),
        "from_slice" | "text_of_bytes" | "read_text" => bytes::answer(alloc, row),
        _ => answer_of_value(alloc, row),
    }
}

/// Makes the call of a value.
fn answer_of_value(alloc: Global, row: Row<'_>) -> Answer {
    let value = json5::from_str(alloc, row.value)?;
    match row.call {
        "is" | "as_u128" | "as_i128" => kinds::answer(alloc, row, &value),
        "hash" => finds::answer(alloc, row, &value),
        "len" | "as_u64" | "as_i64" => {
            refs::same(alloc, row, &value, kinds::answer(alloc, row, &value))
        }
        "get" | "get_at" | "pointer" | "entries" => {
            refs::same(alloc, row, &value, finds::answer(alloc, row, &value))
        }
        "deeper" => texts::answer(alloc, row, &wrapped(alloc, value)?),
        "to_string_in" | "to_json" | "to_json_compact" | "to_json_in" | "is_json" | "shown" =>
            texts::answer(alloc, row, &value),
        _ => changes::answer(alloc, row, value),
    }
}
