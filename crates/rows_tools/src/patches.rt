//! Rows of patches.

use crate::outcomes::{Outcome, said};
use crate::rows::{text_of, wanted_of};
use json5_edit_values::patch::{Patch, apply_patch, merge_patch};
use json5_types::value::Value;
use std::alloc::Global;

/// What comes of the row's patch.
pub(crate) fn outcome_of(alloc: Global, row: &Value) -> Outcome {
    let text = text_of(row, "before");
    match row.get("merge") {
        Some(patch) => match merge_patch(alloc, text, patch) {
            Ok(made) => made_of(row, made),
            Err(error) => said(wanted_of(row), format!(in alloc; "{error}").ok()),
        },
        None => applied(alloc, row, text),
    }
}

fn applied(alloc: Global, row: &Value, text: &str) -> Outcome {
    let wanted = wanted_of(row);
    let patch = match Patch::parse(alloc, text_of(row, "edits")) {
        Ok(patch) => patch,
        Err(error) => return said(wanted, format!(in alloc; "{error}").ok()),
    };
    match apply_patch(alloc, text, &patch) {
        Ok(made) => made_of(row, made),
        Err(error) => said(wanted, format!(in alloc; "{error}").ok()),
    }
}

fn made_of(row: &Value, made: String) -> Outcome {
    if made.as_str() == wanted_of(row) {
        Outcome::Wanted
    } else {
        Outcome::Other(made)
    }
}
