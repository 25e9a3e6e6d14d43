//! What is written of the value that a path leads to.

ghost use Rattle.std.specs.Prelude.{◌++◌, ◌∷◌, [], ◌≡◌, IfErr, IfOk, string_bytes};
ghost use Rattle.json5_edit.specs.Places.{IsValue};
ghost use Rattle.json5_edit.specs.declared.faults.EditError.TheVariants as edit_errors;
ghost use Rattle.json5_types.specs.ValueMeanings.{value_of};
ghost use Rattle.cli_edit.specs.Parts.{IsNoJson, IsShownAt, IsShownOf, RefusesShowing, RefusesShownOf, Shows, ShowsNone, kind_word};
ghost use Rattle.cli_edit.specs.declared.requests.View.TheVariants as views;
ghost use Rattle.cli_edit.specs.declared.trouble.TextTrouble.TheVariants as troubles;
ghost use Rattle.json5_grammar.specs.Language.Characters.{line_feed};
ghost use Rattle.json5_grammar.specs.Language.Documents.{max_depth};
ghost use Rattle.std.specs.Str.{chars};

use crate::requests::View;
use crate::trouble::TextTrouble;
use json5_edit::{EditError, Step, part_at};
use json5_read::read_document;
use json5_styles::to_json;
use json5_types::ErrorCode;
use json5_types::error::Error;
use json5_types::value::Value;
use std::alloc::{AllocError, Global};

/// What is written of the value that the steps lead to.
pub(crate) fn shown_at(
    alloc: Global,
    view: View,
    text: &str,
    steps: &[Step<'_>],
) -> Result<String, TextTrouble>
    ensures shown { IfOk result (λ made. IsShownAt view text.now steps.now (string_bytes made)) }
    ensures refused { IfErr result (RefusesShowing view text.now steps.now) }
{
    match part_at(alloc, text, steps) {
        Ok(part) => shown(alloc, view, part),
        Err(error) => Err(TextTrouble::Edit(error)),
    }
}

/// What is written of the value with this text.
fn shown(alloc: Global, view: View, part: &str) -> Result<String, TextTrouble>
    requires { IsValue max_depth (chars part.now) }
    ensures shown { IfOk result (λ made. IsShownOf view part.now (string_bytes made)) }
    ensures refused { IfErr result (RefusesShownOf view part.now) }
{
    match view {
        View::Nothing => return Ok(String::new(alloc)),
        View::Spelled => return line_of(alloc, part),
        _ => {}
    }
    match read_document(alloc, part) {
        Ok(value) => told(alloc, view, part, &value),
        Err(_) => Err(TextTrouble::Edit(EditError::NoMemory)),
    }
}

/// What is written of this value, which is spelled so.
fn told(alloc: Global, view: View, part: &str, value: &Value) -> Result<String, TextTrouble>
    ensures told { IfOk result (λ made. Shows view part.now (value_of value.now) (string_bytes made)) }
    ensures refused { IfErr result (ShowsNone view (value_of value.now)) }
{
    match view {
        View::Nothing => Ok(String::new(alloc)),
        View::Spelled => line_of(alloc, part),
        View::Json => match to_json(alloc, value) {
            Ok(json) => line_of(alloc, json.as_str()),
            Err(error) => Err(no_json(error)),
        },
        View::Content => match value.as_str() {
            Some(content) => line_of(alloc, content),
            None => line_of(alloc, part),
        },
        View::Keys => keys_of(alloc, value),
        View::Count => count_of(alloc, value),
        View::Kind => line_of(alloc, kind_name(value)),
    }
}

/// Why a value isn't written as JSON.
fn no_json(error: Error) -> TextTrouble
    ensures { IsNoJson error result }
{
    match error.code() {
        Some(ErrorCode::OutOfMemory) => TextTrouble::Edit(EditError::NoMemory),
        _ => TextTrouble::NoJson(error),
    }
}

/// The keys of an object, each with a line end.
fn keys_of(alloc: Global, value: &Value) -> Result<String, TextTrouble>
    ensures keys { IfOk result (λ made. Shows views.Keys [] (value_of value.now) (string_bytes made)) }
    ensures refused { IfErr result (ShowsNone views.Keys (value_of value.now)) }
{
    let Some(fields) = value.as_object() else {
        return Err(TextTrouble::Edit(EditError::NotObject));
    };
    let mut made = String::new(alloc);
    for field in fields {
        if push_line(&mut made, field.0.as_str()).is_err() {
            return Err(TextTrouble::Edit(EditError::NoMemory));
        }
    }
    Ok(made)
}

/// Appends the text and a line end.
fn push_line(made: &mut String, text: &str) -> Result<(), AllocError>
    ensures { IfOk result (λ _. string_bytes made.new ≡ string_bytes made.old ++ (text.now ++ line_feed ∷ [])) }
{
    made.push_str(text)?;
    made.push('\n')
}

/// How many elements or members there are, and a line end.
fn count_of(alloc: Global, value: &Value) -> Result<String, TextTrouble>
    ensures count { IfOk result (λ made. Shows views.Count [] (value_of value.now) (string_bytes made)) }
    ensures refused { IfErr result (ShowsNone views.Count (value_of value.now)) }
{
    let Some(count) = value.len() else {
        return Err(TextTrouble::Edit(EditError::NotArray));
    };
    match format!(in alloc; "{count}\n") {
        Ok(made) => Ok(made),
        Err(_) => Err(TextTrouble::Edit(EditError::NoMemory)),
    }
}

/// The name of a value's kind.
pub(crate) fn kind_name(value: &Value) -> &'static str
    ensures { result.now ≡ kind_word (value_of value.now) }
{
    match value {
        Value::Null => "null",
        Value::Bool(_) => "boolean",
        Value::Whole(_) => "number",
        Value::Decimal(_) => "number",
        Value::String(_) => "string",
        Value::Array(_) => "array",
        Value::Object(_) => "object",
    }
}

/// The text and a line end.
fn line_of(alloc: Global, text: &str) -> Result<String, TextTrouble>
    ensures ended { IfOk result (λ made. string_bytes made ≡ text.now ++ line_feed ∷ []) }
    ensures full { IfErr result (λ e. e ≡ troubles.Edit edit_errors.NoMemory) }
{
    let mut made = String::new(alloc);
    match push_line(&mut made, text) {
        Ok(()) => Ok(made),
        Err(_) => Err(TextTrouble::Edit(EditError::NoMemory)),
    }
}
