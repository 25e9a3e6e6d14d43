//! How a value is spelled where it goes.

ghost use Rattle.std.specs.Prelude.{IfOk, IfErr, string_bytes};
ghost use Rattle.std.specs.Str.{chars};
ghost use Rattle.json5_edit_values.specs.Refusals.{RefusesWriting};
ghost use Rattle.json5_edit_values.specs.Spelled.{Spells};
ghost use Rattle.json5_write.specs.Out.{Out, written_text};
ghost use Rattle.json5_write.specs.WholeOutputs.{RefusesToString};

use crate::json::spelled_like;
use crate::laid_out::laid_out;
use crate::seats::Goes;
use json5_edit::{EditError, Result, Step};
use json5_ser::{Serialize, to_string};
use json5_styles::Layout;
use json5_types::ErrorCode;
use json5_types::error::Error;
use std::alloc::Global;

/// The value, laid out for where it goes: as JSON in a plain text, if JSON has it, else as json5 writes it.
pub(crate) fn spelled<T: Serialize>(
    alloc: Global,
    value: &T,
    text: &str,
    path: &[Step<'_>],
    goes: Goes,
    layout: Option<Layout>,
) -> Result<String>
    ensures value { IfOk result (λ new. Spells (T.tree value.now) text.now (chars (string_bytes new))) }
    ensures refused { IfErr result (RefusesWriting (written_text (T.tree value.now))) }
{
    let written = match to_string(alloc, value) {
        Ok(written) => written,
        Err(error) => return Err(unwritten(error)),
    };
    let alike = spelled_like(alloc, text, written)?;
    Ok(laid_out(alloc, text, path, goes, layout, alike)?)
}

/// Why the value can't be written.
fn unwritten(error: Error) -> EditError
    ensures { (o : Out) → RefusesToString o error → RefusesWriting o result }
{
    match error.code() {
        Some(ErrorCode::OutOfMemory) => EditError::NoMemory,
        _ => EditError::Value(error),
    }
}
