//! A written value as JSON, for texts that are plain.

ghost use Rattle.std.specs.Prelude.{IfOk, string_bytes};
ghost use Rattle.std.specs.Str.{chars};
ghost use Rattle.json5_edit_values.specs.Spelled.{MeansAlike, SpellsAlike};
ghost use Rattle.json5_grammar.specs.Language.Trees.{Tree};
ghost use Rattle.json5_grammar.specs.Language.Values.{Val};

use crate::laid_out::is_value;
use json5_lexemes::is_plain;
use json5_read::read_document;
use json5_styles::to_json;
use json5_types::ErrorCode;
use json5_types::error::{self, Error};
use std::alloc::{AllocError, Global};

/// The written value as the text is: as JSON, if that is plain and JSON has the value, else as it is.
pub(crate) fn spelled_like(alloc: Global, text: &str, written: String) -> Result<String, AllocError>
    ensures { (t : Tree) → Val (chars (string_bytes written)) t → IfOk result (λ new. SpellsAlike t text.now (chars (string_bytes new))) }
{
    if !is_plain(text) {
        return Ok(written);
    }
    if is_plain(written.as_str()) {
        return Ok(written);
    }
    match json_of(alloc, written.as_str()) {
        Ok(json) => Ok(json),
        Err(error) => match error.code() {
            Some(ErrorCode::OutOfMemory) => Err(AllocError),
            _ => Ok(written),
        },
    }
}

/// The written value as JSON.
fn json_of(alloc: Global, written: &str) -> error::Result<String>
    ensures { (t : Tree) → Val (chars written.now) t → IfOk result (λ json. MeansAlike t (chars (string_bytes json))) }
{
    let value = read_document(alloc, written)?;
    let json = to_json(alloc, &value)?;
    if is_value(alloc, json.as_str()) {
        return Ok(json);
    }
    Err(Error::new(ErrorCode::Failed))
}
