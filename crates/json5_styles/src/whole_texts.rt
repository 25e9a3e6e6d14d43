//! Whole texts of values, in a layout.

ghost use Rattle.std.specs.Prelude.{◌≡◌, true, false, MatchResult, None, IsOk, IfOk, IfErr, string_bytes, vec_items};
ghost use Rattle.std.specs.Str.{chars};
ghost use Rattle.json5_grammar.specs.Language.Documents.{max_depth};
ghost use Rattle.json5_types.specs.Errors.{IsCustomAt, LacksMemory};
ghost use Rattle.json5_types.specs.ValueLookups.{fits};
ghost use Rattle.json5_types.specs.ValueMeanings.{value_of};
ghost use Rattle.json5_styles.specs.Layouts.{laid_in, laid_out, json_text};
ghost use Rattle.json5_styles.specs.JsonTexts.{json_string};
ghost use Rattle.json5_styles.specs.LaidBack.{HasNumbers, ReadsAs};
ghost use Rattle.json5_styles.specs.WholeTexts.{LaysOut, LaysOutAs, RefusesText, WritesJson};
ghost use Rattle.json5_styles.specs.declared.layout.Layout.TheVariants as layout;

use crate::json_values::{can_be_written, path_in};
use crate::layout::{Form, Layout, Spelling};
use crate::strings::put_string;
use crate::value::put_value;
use json5_types::ErrorCode;
use json5_types::error::{Error, Result};
use json5_types::nesting::Limit;
use json5_types::value::Value;
use json5_write::string_writer::StringWriter;
use json5_write::{Printer, text_of};
use std::alloc::Global;

/// The text of a value in a form.
fn text_in(alloc: Global, form: Form, value: &Value) -> Result<String>
    requires { fits (value_of value.now) ≡ true }
    ensures text { LaysOut (laid_in form 0 (value_of value.now)) (value_of value.now) result }
    ensures numbers { IsOk result → HasNumbers (value_of value.now) }
{
    let mut printer = Printer::within(StringWriter::new(alloc), Limit::full());
    let printed = put_value(value, &form, 0, &mut printer);
    text_of(printed, printer.into_inner().into_bytes())
}

/// Returns the text of a value in a layout. It reads back as the same value.
///
/// ```text
/// to_string_in(alloc, Layout::compact(), &value)?    // {a:[1,2]}
/// ```
///
/// # Errors
///
/// Neither has a position.
/// - `TooDeep` where more than 128 brackets are open at once in the value.
/// - `OutOfMemory` where a request for memory was refused.
pub fn to_string_in(alloc: Global, layout: Layout, value: &Value) -> Result<String>
    ensures text { LaysOut (laid_out layout (value_of value.now)) (value_of value.now) result }
    ensures reads_back { IfOk result (λ s. ReadsAs max_depth (chars (string_bytes s)) (value_of value.now)) }
{
    let spelling = Spelling::Json5;
    if !can_be_written(value, spelling) {
        return Err(Error::new(ErrorCode::TooDeep));
    }
    text_in(alloc, Form { spelling, layout }, value)
}

/// Returns the text of a value in a layout, in bytes. See [`to_string_in`].
///
/// ```text
/// to_vec_in(alloc, Layout::compact(), &value)?    // b"{a:[1,2]}"
/// ```
pub fn to_vec_in(alloc: Global, layout: Layout, value: &Value) -> Result<Vec<u8>>
    ensures { LaysOutAs vec_items (laid_out layout (value_of value.now)) (value_of value.now) result }
{
    let text = to_string_in(alloc, layout, value)?;
    Ok(text.into_bytes())
}

/// Returns a value as JSON (RFC 8259) in a layout: strings and keys are between double quotes, no comma is last, and a number has
/// every digit. A key that comes twice is written twice.
///
/// ```text
/// to_json_in(alloc, Layout::tabbed(), &value)?
/// ```
///
/// # Errors
///
/// None has a position.
/// - `TooDeep` where more than 128 brackets are open at once in the value.
/// - A custom fault for infinity and for not-a-number, which JSON hasn't: it names the first one's path.
/// - `OutOfMemory` where a request for memory was refused.
pub fn to_json_in(alloc: Global, layout: Layout, value: &Value) -> Result<String>
    ensures { WritesJson (json_text layout (value_of value.now)) (value_of value.now) result }
{
    let spelling = Spelling::Json;
    if !can_be_written(value, spelling) {
        return Err(json_fault(alloc, value));
    }
    text_in(alloc, Form { spelling, layout }, value)
}

/// Returns a value as JSON, with two spaces a level. See [`to_json_in`].
pub fn to_json(alloc: Global, value: &Value) -> Result<String>
    ensures { WritesJson (json_text (layout.Spaces 2) (value_of value.now)) (value_of value.now) result }
{
    to_json_in(alloc, Layout::expanded(), value)
}

/// Returns a value as JSON on one line. See [`to_json_in`].
pub fn to_json_compact(alloc: Global, value: &Value) -> Result<String>
    ensures { WritesJson (json_text layout.Compact (value_of value.now)) (value_of value.now) result }
{
    to_json_in(alloc, Layout::compact(), value)
}

/// Returns the text of a string as JSON, between double quotes. It is that of a key too.
///
/// ```text
/// to_json_string(alloc, "port")?    // "port", with the quotes
/// ```
///
/// # Errors
///
/// `OutOfMemory` where a request for memory was refused. It has no position.
pub fn to_json_string(alloc: Global, text: &str) -> Result<String>
    ensures spelled { IfOk result (λ s. chars (string_bytes s) ≡ json_string (chars text.now)) }
    ensures refused { IfErr result LacksMemory }
{
    let mut printer = Printer::within(StringWriter::new(alloc), Limit::full());
    let put = put_string(text, Spelling::Json, &mut printer);
    text_of(put, printer.into_inner().into_bytes())
}

/// Why a value can't be written as JSON.
#[cold]
#[inline(never)]
pub(crate) fn json_fault(alloc: Global, value: &Value) -> Error
    ensures { RefusesText (fits (value_of value.now)) false result }
{
    if !value.fits() {
        return Error::new(ErrorCode::TooDeep);
    }
    match no_json(alloc, value) {
        Ok(fault) => fault,
        Err(no_memory) => no_memory,
    }
}

/// The fault of a value that JSON hasn't.
fn no_json(alloc: Global, value: &Value) -> Result<Error>
    ensures { MatchResult result (IsCustomAt None) LacksMemory }
{
    let path = path_in(alloc, value)?;
    let place = match &path {
        Some(path) => path.as_str(),
        None => "",
    };
    if place.is_empty() {
        return Error::custom(alloc, "JSON has no infinity and no not-a-number");
    }
    let place = place.strip_prefix('.').unwrap_or(place);
    Error::custom(
        alloc,
        format_args!("JSON has no infinity and no not-a-number, at `{place}`"),
    )
}
