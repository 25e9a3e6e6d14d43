//! A text edited until it means a value.

ghost use Rattle.std.specs.Prelude.{IfOk, IsTrue, string_bytes};
ghost use Rattle.std.specs.Str.{chars};
ghost use Rattle.json5_types.specs.ValueMeanings.{value_of};
ghost use Rattle.json5_settings.specs.Stacks.{Means};

use crate::edits::edited;
use crate::members::is_refused;
use json5_edit::EditError;
use json5_read::read_document;
use json5_styles::{Layout, to_string_in};
use json5_types::error::Result;
use json5_types::value::Value;
use std::alloc::{AllocError, Global};

/// The text with the wanted value, edited where that differs from what it had before; else the value written anew.
pub(crate) fn rewritten(alloc: Global, text: &str, before: &Value, wanted: &Value) -> Result<String>
    ensures { IfOk result (λ made. Means (chars (string_bytes made)) (value_of wanted.now)) }
{
    let Some(made) = by_edits(alloc, text, before, wanted)? else {
        return to_string_in(alloc, Layout::expanded(), wanted);
    };
    if means(alloc, made.as_str(), wanted)? {
        return Ok(made);
    }
    to_string_in(alloc, Layout::expanded(), wanted)
}

/// The text that the edits make, if they come to an end.
fn by_edits(
    alloc: Global,
    text: &str,
    before: &Value,
    wanted: &Value,
) -> std::result::Result<Option<String>, AllocError> {
    match edited(alloc, text, before, wanted) {
        Ok(made) => Ok(Some(made)),
        Err(EditError::NoMemory) => Err(AllocError),
        Err(_error) => Ok(None),
    }
}

/// Whether the text is a document that means this value.
pub(crate) fn means(
    alloc: Global,
    text: &str,
    value: &Value,
) -> std::result::Result<bool, AllocError>
    ensures { IfOk result (λ is. IsTrue is → Means (chars text.now) (value_of value.now)) }
{
    match read_document(alloc, text) {
        Ok(read) => Ok(read == *value),
        Err(error) => is_refused(error),
    }
}
