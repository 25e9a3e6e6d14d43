//! Rows, and the calls that each names.

use crate::answers::{by_code, by_message};
use crate::{distinct, fields, numbers, values, writing};
use std::alloc::{AllocError, Global};

/// Whether the line is a row: neither blank nor a comment.
pub fn is_row(line: &str) -> bool {
    !line.is_empty() && !line.starts_with('#')
}

/// The line of stdout for a row. A row of `writing` has its own answer, and one of `distinct` is answered as its text.
pub fn answered(alloc: Global, row: &str) -> Result<String, AllocError> {
    let (call, text) = row.split_once('|').unwrap_or((row, ""));
    if let Some(name) = call.strip_prefix("writing ") {
        return writing::said(alloc, name, text);
    }
    let asked = if call == "distinct" { text } else { row };
    let answer = answer_of(alloc, row, call, text)?;
    format!(in alloc; "{asked} => {answer}")
}

/// What the row's call returns.
fn answer_of(alloc: Global, row: &str, call: &str, text: &str) -> Result<String, AllocError> {
    match call {
        "as_f64" | "parse" | "compare" | "from_f64" | "from_whole" => {
            by_message(alloc, numbers::answer(alloc, call, text))
        }
        "prefixes" | "only" | "both" | "long" | "defaults" | "labels" | "reminder" | "size" => {
            by_message(alloc, fields::answer(alloc, call, text))
        }
        "distinct" => by_message(alloc, distinct::answer(alloc, text)),
        _ => match call.strip_prefix("own ") {
            Some(name) => by_message(alloc, fields::own(alloc, name, text)),
            None => by_code(alloc, values::answer(alloc, row)),
        },
    }
}
