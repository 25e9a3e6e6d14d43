//! Places in texts.

use crate::answers::Answer;
use crate::writing::{count_of, text_of};
use json5::{InText, Position, Value};
use std::alloc::Global;

/// Where the row's position is in its text.
pub(crate) fn place(alloc: Global, call: &str, row: &Value) -> Answer {
    let text = text_of(row, "text");
    let position = Position {
        line: count_of(row, "line").unwrap_or(0),
        column: count_of(row, "column").unwrap_or(0),
    };
    let found = if call == "utf16" {
        position.utf16_column(text)
    } else {
        position.offset_in(text)
    };
    match found {
        Some(count) => Ok(format!(in alloc; "{count}")?),
        None => Ok(String::from_str(alloc, "none")?),
    }
}
