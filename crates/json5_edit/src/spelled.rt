//! How a key is spelled.

ghost use Rattle.std.specs.Prelude.{IfOk, string_bytes};
ghost use Rattle.std.specs.Str.{chars};
ghost use Rattle.json5_styles.specs.Json.{JsonString};
ghost use Rattle.json5_edit.specs.Pieces.{SpellsKey};

use crate::faults::{Result, lack};
use json5_styles::to_json_string;
use std::alloc::{AllocError, Global};

/// The key as JSON writes it: between double quotes.
pub(crate) fn json_key(alloc: Global, key: &str) -> Result<String, AllocError>
    ensures spelled { IfOk result (λ made. SpellsKey key.now (string_bytes made)) }
    ensures plain { IfOk result (λ made. JsonString (chars (string_bytes made))) }
{
    match to_json_string(alloc, key) {
        Ok(made) => Ok(made),
        Err(error) => Err(lack(error)),
    }
}
