//! A JSON Schema of settings.

ghost use Rattle.std.specs.Prelude.{◌≡◌, IfOk, OnOk, string_bytes};
ghost use Rattle.std.specs.Str.{chars};
ghost use Rattle.json5_grammar.specs.Language.Documents.{max_depth};
ghost use Rattle.json5_styles.specs.Json.{JsonText};
ghost use Rattle.json5_styles.specs.LaidBack.{ReadsAs};
ghost use Rattle.json5_types.specs.ValueMeanings.{field, no_field, value_of, fields_view, items_view};
ghost use Rattle.json5_settings.specs.Schemas.{IsSchema, default_part, items_part, led, member_schemas, schema_of, schema_parts, text_in, type_of, words_at};

use crate::listed::{check_paths, path_to};
use crate::samples::spelled;
use json5_edit::{EditError, Result};
use json5_styles::{is_json, to_json};
use json5_types::error;
use json5_types::value::Value;
use std::alloc::{AllocError, Global};

/// The draft of JSON Schema that editors know.
pub(crate) const DRAFT: &str = "http://json-schema.org/draft-07/schema#";

/// Returns a JSON Schema of files with the settings of this value, for editors, which then complete and check them. It says
/// of each setting its type, its value as the default, and the words of its path. Other members are allowed. It is JSON,
/// two spaces a level.
///
/// ```text
/// schema(alloc, &layers.merged()?, &[("port", "Where it listens.")])?
/// ```
///
/// ```text
/// {
///   "$schema": "http://json-schema.org/draft-07/schema#",
///   "type": "object",
///   "properties": {
///     "port": {
///       "description": "Where it listens.",
///       "type": "integer",
///       "default": 80
///     }
///   }
/// }
/// ```
///
/// A path is spelled as `server.port`, or `routes[0].path`: an array's first element stands for all. The type of a whole
/// number is `integer`; where decimals may stand the default is `1.0`. A default that is null says nothing of the type.
///
/// # Errors
///
/// - `Nowhere` where a path leads to no member.
/// - `Text` with `TooDeep` where more than 128 brackets are open at once in the value or in its schema.
/// - `NoMemory` where a request for memory was refused.
pub fn schema(alloc: Global, value: &Value, comments: &[(&str, &str)]) -> Result<String>
    ensures { IfOk result (λ made. IsSchema comments.now (value_of value.now) (string_bytes made)) }
{
    spelled(alloc, value)?;
    check_paths(alloc, value, comments)?;
    match schema_text(alloc, comments, value) {
        Ok(made) => Ok(made),
        Err(error) => Err(EditError::of_text(error)),
    }
}

/// The schema as a text.
fn schema_text(alloc: Global, comments: &[(&str, &str)], value: &Value) -> error::Result<String>
    ensures is_json { IfOk result (λ s. JsonText (chars (string_bytes s))) }
    ensures reads_back { IfOk result (λ s. ReadsAs max_depth (chars (string_bytes s)) (schema_of comments.now (value_of value.now))) }
{
    let mut parts = parts_at(alloc, comments, "", value)?;
    put_in_front(alloc, &mut parts, "$schema", Some(DRAFT))?;
    to_json(alloc, &Value::Object(parts))
}

/// What a schema says of a value like this one, at the path.
#[cycle(schema)]
fn parts_at(
    alloc: Global,
    comments: &[(&str, &str)],
    at: &str,
    value: &Value,
) -> error::Result<Vec<(String, Value)>>
    ensures { IfOk result (λ parts. fields_view parts.items ≡ schema_parts comments.now at.now (value_of value.now)) }
{
    let mut parts = match value {
        Value::Array(items) => parts_of_first(alloc, comments, at, items)?,
        Value::Object(fields) => {
            let schemas = schemas_of(alloc, comments, at, fields)?;
            alone(alloc, "properties", Value::Object(schemas))?
        }
        Value::Null | Value::Bool(_) | Value::Whole(_) | Value::Decimal(_) | Value::String(_) =>
            part_of_default(alloc, value)?,
    };
    put_in_front(alloc, &mut parts, "type", type_of(value))?;
    put_in_front(alloc, &mut parts, "description", words_at(comments, at))?;
    Ok(parts)
}

/// What a schema says of the first element, which stands for all.
#[cycle(schema)]
fn parts_of_first(
    alloc: Global,
    comments: &[(&str, &str)],
    at: &str,
    items: &[Value],
) -> error::Result<Vec<(String, Value)>>
    ensures { IfOk result (λ parts. fields_view parts.items ≡ items_part comments.now at.now (items_view items.now)) }
{
    let Some((first, _)) = items.split_first() else {
        return Ok(Vec::new(alloc));
    };
    let path = format!(in alloc; "{at}[0]")?;
    let parts = parts_at(alloc, comments, path.as_str(), first)?;
    alone(alloc, "items", Value::Object(parts))
}

/// The schema of each member, under its key.
#[cycle(schema)]
fn schemas_of(
    alloc: Global,
    comments: &[(&str, &str)],
    at: &str,
    fields: &[(String, Value)],
) -> error::Result<Vec<(String, Value)>>
    ensures { IfOk result (λ s. fields_view s.items ≡ member_schemas comments.now at.now (fields_view fields.now)) }
{
    let mut schemas = Vec::with_capacity(alloc, fields.len())?;
    for (key, value) in fields {
        let path = path_to(alloc, at, key.as_str())?;
        let parts = parts_at(alloc, comments, path.as_str(), value)?;
        let key = String::from_str(alloc, key.as_str())?;
        schemas.push((key, Value::Object(parts)))?;
    }
    Ok(schemas)
}

/// The value as the default, if JSON has it.
fn part_of_default(alloc: Global, value: &Value) -> error::Result<Vec<(String, Value)>>
    ensures { IfOk result (λ parts. fields_view parts.items ≡ default_part (value_of value.now)) }
{
    if !is_json(value) {
        return Ok(Vec::new(alloc));
    }
    alone(alloc, "default", value.clone(alloc)?)
}

/// One member.
fn alone(alloc: Global, key: &str, value: Value) -> error::Result<Vec<(String, Value)>>
    ensures { IfOk result (λ parts. fields_view parts.items ≡ field (chars key.now) (value_of value) no_field) }
{
    let mut parts = Vec::new(alloc);
    parts.push((String::from_str(alloc, key)?, value))?;
    Ok(parts)
}

/// Puts a text before all others, if there is one.
fn put_in_front(
    alloc: Global,
    parts: &mut Vec<(String, Value)>,
    key: &str,
    text: Option<&str>,
) -> Result<(), AllocError>
    ensures { OnOk result (fields_view parts.new.items ≡ led (chars key.now) (text_in text.entry) (fields_view parts.old.items)) }
{
    if let Some(text) = text {
        let key = String::from_str(alloc, key)?;
        let text = String::from_str(alloc, text)?;
        parts.insert(0, (key, Value::String(text)))?;
    }
    Ok(())
}

/// The name of the value's type. Null may stand for a value of any type.
fn type_of(value: &Value) -> Option<&'static str>
    ensures { text_in result ≡ type_of (value_of value.now) }
{
    match value {
        Value::Null => None,
        Value::Bool(_) => Some("boolean"),
        Value::Whole(_) => Some("integer"),
        Value::Decimal(_) => Some("number"),
        Value::String(_) => Some("string"),
        Value::Array(_) => Some("array"),
        Value::Object(_) => Some("object"),
    }
}

/// The words for the path.
pub(crate) fn words_at<'c>(comments: &[(&str, &'c str)], at: &str) -> Option<&'c str>
    ensures { text_in result ≡ words_at comments.now at.now }
{
    for (path, words) in comments {
        if *path == at {
            return Some(*words);
        }
    }
    None
}
