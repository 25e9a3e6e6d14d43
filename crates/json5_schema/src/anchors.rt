//! Schemas that have a name, by `$anchor`, or by an `$id` of `#` and the name.

ghost use Rattle.std.specs.Prelude.{◌≡◌, if◌then◌else◌, None};
ghost use Rattle.json5_types.specs.ValueMeanings.{value_of, items_view, fields_view};
ghost use Rattle.json5_schema.specs.Conformance.{is_fragment, is_anchor, is_id, has_anchor, anchored, anchored_in, anchored_through, anchored_among, anchored_named, is_pointer, at_fragment, behind_sign};
ghost use Rattle.json5_schema.specs.Subschemas.{takes_schemas, takes_named};
ghost use Rattle.json5_schema.specs.Views.{part_view};

use crate::known::{takes_named, takes_schema, takes_schemas};
use crate::members::{find, unless_named};
use json5_types::value::Value;

/// Whether the text is `#` and the name.
fn is_fragment(text: &str, name: &str) -> bool
    ensures { result ≡ is_fragment name.now text.now }
{
    match text.as_bytes() {
        [b'#', path @ ..] => path == name.as_bytes(),
        _ => false,
    }
}

/// Whether it is the name.
fn is_anchor(argument: Option<&Value>, name: &str) -> bool
    ensures { result ≡ is_anchor name.now (part_view argument.entry) }
{
    match argument {
        Some(Value::String(text)) => text.as_str() == name,
        _ => false,
    }
}

/// Whether it is `#` and the name.
fn is_id(argument: Option<&Value>, name: &str) -> bool
    ensures { result ≡ is_id name.now (part_view argument.entry) }
{
    match argument {
        Some(Value::String(text)) => is_fragment(text.as_str(), name),
        _ => false,
    }
}

/// Whether the schema with these keywords has the name.
fn has_anchor(keywords: &[(String, Value)], name: &str) -> bool
    ensures { result ≡ has_anchor name.now (fields_view keywords.now) }
{
    is_anchor(find(keywords, "$anchor"), name) || is_id(find(keywords, "$id"), name)
}

/// The first schema with the name, of those in the schema.
#[cycle(anchored)]
fn anchored<'a>(schema: &'a Value, name: &str) -> Option<&'a Value>
    ensures { part_view result ≡ anchored name.now (value_of schema.now) }
{
    match schema {
        Value::Object(keywords) if has_anchor(keywords, name) => Some(schema),
        Value::Object(keywords) => anchored_in(keywords, name),
        _ => None,
    }
}

/// The same of those in the arguments of the keywords.
#[cycle(anchored)]
fn anchored_in<'a>(keywords: &'a [(String, Value)], name: &str) -> Option<&'a Value>
    ensures { part_view result ≡ anchored_in name.now (fields_view keywords.now) }
{
    for (index, keyword) in keywords.iter().enumerate() {
        let word = keyword.0.as_str();
        let through = anchored_through(word, &keyword.1, name);
        let found = unless_named(through, &keywords[index + 1..], word);
        if found.is_some() {
            return found;
        }
    }
    None
}

/// The same of those in the argument of a keyword.
#[cycle(anchored)]
fn anchored_through<'a>(word: &str, argument: &'a Value, name: &str) -> Option<&'a Value>
    ensures { part_view result ≡ anchored_through name.now word.now (value_of argument.now) }
{
    match argument {
        Value::Array(schemas) => anchored_elements(word, schemas, name),
        Value::Object(_) if takes_schema(word) => anchored(argument, name),
        Value::Object(schemas) => anchored_members(word, schemas, name),
        _ => None,
    }
}

/// The same of those in an array, if it is of schemas.
#[cycle(anchored)]
fn anchored_elements<'a>(word: &str, schemas: &'a [Value], name: &str) -> Option<&'a Value>
    ensures { part_view result ≡ (if takes_schemas word.now then anchored_among name.now (items_view schemas.now) else None) }
{
    if takes_schemas(word) {
        anchored_among(schemas, name)
    } else {
        None
    }
}

/// The same of those in an object, if it is of schemas.
#[cycle(anchored)]
fn anchored_members<'a>(word: &str, schemas: &'a [(String, Value)], name: &str) -> Option<&'a Value>
    ensures { part_view result ≡ (if takes_named word.now then anchored_named name.now (fields_view schemas.now) else None) }
{
    if takes_named(word) {
        anchored_named(schemas, name)
    } else {
        None
    }
}

/// The same of those in an array.
#[cycle(anchored)]
fn anchored_among<'a>(schemas: &'a [Value], name: &str) -> Option<&'a Value>
    ensures { part_view result ≡ anchored_among name.now (items_view schemas.now) }
{
    for schema in schemas {
        let found = anchored(schema, name);
        if found.is_some() {
            return found;
        }
    }
    None
}

/// The same of those in an object.
#[cycle(anchored)]
fn anchored_named<'a>(schemas: &'a [(String, Value)], name: &str) -> Option<&'a Value>
    ensures { part_view result ≡ anchored_named name.now (fields_view schemas.now) }
{
    for (index, schema) in schemas.iter().enumerate() {
        let here = anchored(&schema.1, name);
        let found = unless_named(here, &schemas[index + 1..], schema.0.as_str());
        if found.is_some() {
            return found;
        }
    }
    None
}

/// Whether it is a JSON pointer.
fn is_pointer(path: &str) -> bool
    ensures { result ≡ is_pointer path.now }
{
    match path.as_bytes() {
        [] => true,
        [first, ..] => *first == b'/',
    }
}

/// The value that a fragment means: one at a pointer, or the schema with a name.
pub fn at_fragment<'a>(root: &'a Value, path: &str) -> Option<&'a Value>
    ensures { part_view result ≡ at_fragment path.now (value_of root.now) }
{
    if is_pointer(path) {
        root.pointer(path)
    } else {
        anchored(root, path)
    }
}

/// The value that a reference with this text means.
pub fn target_by<'a>(root: &'a Value, text: &str) -> Option<&'a Value>
    ensures { part_view result ≡ behind_sign text.now (value_of root.now) }
{
    at_fragment(root, text.strip_prefix('#')?)
}
