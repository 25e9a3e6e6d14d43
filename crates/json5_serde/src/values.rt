//! What a `Value` holds, read as a type, and what a type sends as a `Value`. The text of one is read as the other.

ghost use Rattle.std.specs.Prelude.{◌≡◌, false, None, IfOk, IsErrAnd};
ghost use Rattle.json5_grammar.specs.declared.error_code.ErrorCode.TheVariants as codes;
ghost use Rattle.json5_types.specs.Errors.{code, SaysAt};
ghost use Rattle.json5_types.specs.ValueLookups.{fits};
ghost use Rattle.json5_types.specs.ValueMeanings.{value_of};
ghost use Rattle.json5_serde.specs.Values.{IsOfText};

use json5_serde_read::from_str_owned;
use json5_serde_write::to_string;
use json5_types::ErrorCode;
use json5_types::error::{Error, Result};
use json5_types::nesting::Limit;
use json5_types::value::Value;
use serde::{DeserializeOwned, Serialize};
use std::alloc::Global;

/// Reads a `T` from what a `Value` holds: it writes the value, and reads the text. So positions are those of that text.
///
/// ```text
/// let server: Server = json5_serde::from_value(alloc, &value)?;
/// ```
///
/// # Errors
///
/// - `TooDeep`, without a position, for a value with more than 128 brackets open at once.
/// - As [`from_str_owned`], with positions in the written text.
pub fn from_value<T: DeserializeOwned>(alloc: Global, value: &Value) -> Result<T>
    ensures { fits (value_of value.now) ≡ false → IsErrAnd result (SaysAt (code codes.TooDeep) None) }
{
    if !value.fits() {
        return Err(Error::new(ErrorCode::TooDeep));
    }
    let text = json5_ser::to_string(alloc, value)?;
    from_str_owned(alloc, Limit::full(), text.as_str())
}

/// Returns the value that a type sends: it writes the type, and reads the text. So it is what such a text means,
/// whatever `T` does.
///
/// ```text
/// let value = json5_serde::to_value(alloc, &server)?;    // an object of two members
/// ```
///
/// # Errors
///
/// As [`to_string`](json5_serde_write::to_string).
pub fn to_value<T: Serialize>(alloc: Global, value: &T) -> Result<Value>
    ensures { IfOk result (λ v. IsOfText (value_of v)) }
{
    let text = to_string(alloc, value)?;
    json5_de::from_str(alloc, text.as_str())
}
