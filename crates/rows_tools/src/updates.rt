//! Rows of settings that are put back into their text, and of what is made for their users.

use crate::outcomes::{Outcome, said};
use crate::rows::{text_of, wanted_of};
use json5_edit::EditError;
use json5_read::read_document;
use json5_settings::{page, sample, schema, update};
use json5_types::error::Result;
use json5_types::value::Value;
use std::alloc::Global;

/// What comes of the row's text.
pub(crate) fn outcome_of(alloc: Global, row: &Value) -> Outcome {
    let wanted = wanted_of(row);
    if row.get("value").is_some() {
        return told(alloc, row);
    }
    match updated(alloc, row) {
        Ok(made) if made.as_str() == wanted => Outcome::Wanted,
        Ok(made) => Outcome::Other(made),
        Err(error) => said(wanted, format!(in alloc; "{error}").ok()),
    }
}

/// What comes of the row's value and its comments.
fn told(alloc: Global, row: &Value) -> Outcome {
    let wanted = wanted_of(row);
    match made_of(alloc, row) {
        Ok(made) if made.as_str() == wanted => Outcome::Wanted,
        Ok(made) => Outcome::Other(made),
        Err(error) => said(wanted, format!(in alloc; "{error}").ok()),
    }
}

/// A file to begin with, or the page or schema that the row asks for.
fn made_of(alloc: Global, row: &Value) -> json5_edit::Result<String> {
    let mut comments = Vec::new(alloc);
    if let Some(texts) = row.get("comments") {
        for (path, words) in texts.entries() {
            if let Value::String(words) = words {
                let Ok(()) = comments.push((path.as_str(), words.as_str())) else {
                    return Err(EditError::NoMemory);
                };
            }
        }
    }
    let value = match read_document(alloc, text_of(row, "value")) {
        Ok(value) => value,
        Err(error) => return Err(EditError::of_text(error)),
    };
    match text_of(row, "as") {
        "page" => page(alloc, &value, comments.as_slice()),
        "schema" => schema(alloc, &value, comments.as_slice()),
        _ => sample(alloc, &value, comments.as_slice()),
    }
}

/// The row's text, in which what was `old` has become `new`.
fn updated(alloc: Global, row: &Value) -> Result<String> {
    let old = read_document(alloc, text_of(row, "old"))?;
    let new = read_document(alloc, text_of(row, "new"))?;
    update(alloc, text_of(row, "before"), &old, &new)
}
