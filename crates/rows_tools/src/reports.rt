//! Rows of reports.

use crate::kinds::shown_of;
use crate::outcomes::Outcome;
use crate::rows::text_of;
use json5_types::error::Error;
use json5_types::value::Value;
use std::alloc::{AllocError, Global};

/// What comes of the row's fault.
pub(crate) fn outcome_of(alloc: Global, base: &str, row: &Value) -> Outcome {
    match other_shown(alloc, base, row) {
        Ok(None) => Outcome::Wanted,
        Ok(Some(other)) => Outcome::Other(other),
        Err(_) => Outcome::NoMemory,
    }
}

/// What is printed of the row, if that isn't what the row has.
fn other_shown(alloc: Global, base: &str, row: &Value) -> Result<Option<String>, Error> {
    let text = text_of_row(alloc, base, row)?;
    let shown = shown_of(alloc, row, text.as_str())?;
    if shown.as_str() == lines_in(alloc, row)?.as_str() {
        return Ok(None);
    }
    Ok(Some(shown))
}

/// The text of a row: its own, or the common one with a part changed.
fn text_of_row(alloc: Global, base: &str, row: &Value) -> Result<String, AllocError> {
    let (old, new) = (text_of(row, "old"), text_of(row, "new"));
    match base.split_once(old) {
        Some((before, after)) if !old.is_empty() => format!(in alloc; "{before}{new}{after}"),
        _ => String::from_str(alloc, text_of(row, "text")),
    }
}

/// The report of a row, line by line.
fn lines_in(alloc: Global, row: &Value) -> Result<String, AllocError> {
    let mut lines = String::new(alloc);
    let Some(Value::Array(items)) = row.get("report") else {
        return Ok(lines);
    };
    for item in items {
        if let Value::String(line) = item {
            if !lines.is_empty() {
                lines.push('\n')?;
            }
            lines.push_str(line.as_str())?;
        }
    }
    Ok(lines)
}
