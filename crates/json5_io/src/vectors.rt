//! Texts that are written as bytes.

ghost use Rattle.std.specs.Prelude.{IfOk, IfErr, vec_items};
ghost use Rattle.std.specs.Str.{chars};
ghost use Rattle.json5_grammar.specs.Language.Documents.{Doc, max_depth};
ghost use Rattle.json5_write.specs.EscapeFreeMarks.{marks};
ghost use Rattle.json5_write.specs.Out.{written_text};
ghost use Rattle.json5_write.specs.WholeOutputs.{IsText, RefusesToString};

use json5_ser::{Serialize, to_string};
use json5_types::error::Result;
use std::alloc::Global;

/// Returns the text of a value in bytes, as [`to_string`] returns it.
///
/// ```text
/// json5::to_vec(alloc, &8080u16)?    // b"8080"
/// ```
///
/// # Errors
///
/// As [`to_string`].
pub fn to_vec<T: Serialize>(alloc: Global, value: &T) -> Result<Vec<u8>>
    ensures whole { IfOk result (λ v. IsText (written_text (T.tree value.now)) (vec_items v)) }
    ensures reads_back { IfOk result (λ v. Doc max_depth (chars (vec_items v)) (marks (T.tree value.now))) }
    ensures refused { IfErr result (RefusesToString (written_text (T.tree value.now))) }
{
    let text = to_string(alloc, value)?;
    Ok(text.into_bytes())
}
