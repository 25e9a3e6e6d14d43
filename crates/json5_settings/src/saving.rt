//! Settings put back into the file that a person keeps.

ghost use Rattle.std.specs.Prelude.{IfOk, IfErr, Some, string_bytes};
ghost use Rattle.std.specs.Str.{chars};
ghost use Rattle.json5_types.specs.ValueMeanings.{value_of};
ghost use Rattle.json5_settings.specs.Stacks.{Means};
ghost use Rattle.json5_settings.specs.Follows.{followed, RefusesUpdate, Updates};

use crate::follow::followed;
use crate::rewriting::rewritten;
use json5_read::read_document;
use json5_types::ErrorCode;
use json5_types::error::{Error, Result};
use json5_types::value::Value;
use std::alloc::Global;

/// Returns the text with what a program changed: `old` is the value of its settings as they were read, and `new` as they
/// are now. A member that is the same in both stays as the text has it, also where that has another value or none. One
/// that differs becomes as `new` has it, in objects member by member; and one goes that `old` has and `new` lacks. An
/// array becomes so element by element where all three have one length, and else that of `new`, of which the elements
/// that are the same stay. Comments and blanks elsewhere stay.
///
/// The value of a derived type is `json5_serde::to_value`, that of any other `from_str` of what `to_string` writes.
///
/// ```text
/// let old = to_value(alloc, &settings)?;
/// settings.port = 8080;
/// update(alloc, "{ port: 80 } // web", &old, &to_value(alloc, &settings)?)?    // { port: 8080 } // web
/// ```
///
/// It takes time in the length of the text for each change. If the edits came to another value, all would be written anew.
///
/// # Errors
///
/// - As reading the text as a value, with a position in it.
/// - `TooDeep`, without a position, where more than 128 brackets are open at once in `new`.
/// - `OutOfMemory`, without a position, where a request for memory was refused.
pub fn update(alloc: Global, text: &str, old: &Value, new: &Value) -> Result<String>
    ensures updated { IfOk result (λ made. Updates (value_of old.now) (value_of new.now) (chars text.now) (chars (string_bytes made))) }
    ensures refused { IfErr result (RefusesUpdate (value_of new.now) (chars text.now)) }
{
    let before = read_document(alloc, text)?;
    if !new.fits() {
        return Err(Error::new(ErrorCode::TooDeep));
    }
    match rewritten_as(alloc, text, &before, old, new) {
        Ok(made) => Ok(made),
        Err(_) => Err(Error::new(ErrorCode::OutOfMemory)),
    }
}

/// The text that had the value before, with what became of it. Neither is nested too deep.
fn rewritten_as(
    alloc: Global,
    text: &str,
    before: &Value,
    old: &Value,
    new: &Value,
) -> Result<String>
    ensures { IfOk result (λ made. Means (chars (string_bytes made)) (followed (Some (value_of old.now)) (value_of new.now) (Some (value_of before.now)))) }
{
    let wanted = followed(alloc, Some(old), new, Some(before))?;
    rewritten(alloc, text, before, &wanted)
}
