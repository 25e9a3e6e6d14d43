//! Schemas that have no keyword but known ones.

ghost use Rattle.std.specs.Prelude.{◌≡◌, true, nat_eq, OnOk};
ghost use Rattle.std.specs.Cmp.Lexicographic.{pointwise};
ghost use Rattle.std.specs.List.{list_any};
ghost use Rattle.json5_types.specs.ValueMeanings.{array, object, value_of, items_view, fields_view};
ghost use Rattle.json5_schema.specs.Subschemas.{is_known, takes_schema, takes_schemas, takes_named, HasOnlyKeywords, IsKnownThrough, AllKnownAmong, AllKnownNamed};
ghost use Rattle.json5_schema.specs.Refusals.{IsFor, IsNoKeyword, RefusedFor};
ghost use Rattle.json5_schema.specs.RefusalSteps.{IsUnknownAmong, IsUnknownIn, IsUnknownNamed, IsUnknownThrough};

use crate::faults::{Problem, SchemaFault};
use crate::looking::{Looked, behind, fault};
use crate::near::nearest;
use json5_types::value::Value;
use std::alloc::Global;

/// The keywords of the drafts, and VS Code's words for its editor.
const KEYWORDS: [&str; 73] = [
    "$schema",
    "$id",
    "$ref",
    "$anchor",
    "$defs",
    "definitions",
    "$comment",
    "$vocabulary",
    "$dynamicRef",
    "$dynamicAnchor",
    "$recursiveRef",
    "$recursiveAnchor",
    "type",
    "enum",
    "const",
    "multipleOf",
    "maximum",
    "exclusiveMaximum",
    "minimum",
    "exclusiveMinimum",
    "maxLength",
    "minLength",
    "pattern",
    "maxItems",
    "minItems",
    "uniqueItems",
    "maxContains",
    "minContains",
    "maxProperties",
    "minProperties",
    "required",
    "dependentRequired",
    "allOf",
    "anyOf",
    "oneOf",
    "not",
    "if",
    "then",
    "else",
    "dependentSchemas",
    "dependencies",
    "prefixItems",
    "items",
    "additionalItems",
    "unevaluatedItems",
    "contains",
    "properties",
    "patternProperties",
    "additionalProperties",
    "unevaluatedProperties",
    "propertyNames",
    "title",
    "description",
    "default",
    "examples",
    "deprecated",
    "readOnly",
    "writeOnly",
    "format",
    "contentEncoding",
    "contentMediaType",
    "contentSchema",
    "markdownDescription",
    "enumDescriptions",
    "markdownEnumDescriptions",
    "defaultSnippets",
    "errorMessage",
    "patternErrorMessage",
    "deprecationMessage",
    "doNotSuggest",
    "suggestSortText",
    "allowComments",
    "allowTrailingCommas",
];

/// The keywords whose argument is a schema, or may be one.
const TAKING_SCHEMA: [&str; 12] = [
    "not",
    "if",
    "then",
    "else",
    "items",
    "additionalItems",
    "unevaluatedItems",
    "contains",
    "additionalProperties",
    "unevaluatedProperties",
    "propertyNames",
    "contentSchema",
];

/// Those whose argument is an array of schemas, or may be one.
const TAKING_SCHEMAS: [&str; 5] = ["allOf", "anyOf", "oneOf", "prefixItems", "items"];

/// Those whose argument is an object of schemas.
const TAKING_NAMED: [&str; 6] = [
    "properties",
    "patternProperties",
    "dependentSchemas",
    "dependencies",
    "$defs",
    "definitions",
];

/// Whether it is one of the names.
pub fn is_any(names: &[&str], name: &str) -> bool
    ensures { result ≡ list_any (λ known. pointwise nat_eq known.now name.now) names.now }
{
    for known in names {
        if *known == name {
            return true;
        }
    }
    false
}

/// Whether it is a keyword, or begins with `x-`.
fn is_known(name: &str) -> bool
    ensures { result ≡ is_known name.now }
{
    is_any(&KEYWORDS, name) || name.as_bytes().starts_with(b"x-")
}

/// Whether the argument of this keyword is a schema, or may be one.
pub fn takes_schema(name: &str) -> bool
    ensures { result ≡ takes_schema name.now }
{
    is_any(&TAKING_SCHEMA, name)
}

/// Whether it is an array of schemas, or may be one.
pub fn takes_schemas(name: &str) -> bool
    ensures { result ≡ takes_schemas name.now }
{
    is_any(&TAKING_SCHEMAS, name)
}

/// Whether it is an object of schemas.
pub fn takes_named(name: &str) -> bool
    ensures { result ≡ takes_named name.now }
{
    is_any(&TAKING_NAMED, name)
}

/// The fault of a name that is no keyword.
fn no_keyword(alloc: Global, name: &str, pointer: &str) -> SchemaFault
    ensures { IsFor IsNoKeyword result }
{
    match nearest(alloc, name, &KEYWORDS) {
        Ok(likeliest) => fault(alloc, pointer, Problem::NoKeyword(likeliest)),
        Err(error) => SchemaFault::from(error),
    }
}

/// Refuses a schema in which a keyword isn't known.
#[cycle(known)]
pub fn check_schema(alloc: Global, schema: &Value, pointer: &str) -> Looked<()>
    ensures known { OnOk result (HasOnlyKeywords (value_of schema.now)) }
    ensures unknown { RefusedFor (IsUnknownIn (value_of schema.now)) result }
{
    match schema {
        Value::Object(keywords) => check_keywords(alloc, keywords, pointer),
        _ => Ok(()),
    }
}

/// The same of an object with these keywords.
#[cycle(known)]
fn check_keywords(alloc: Global, keywords: &[(String, Value)], pointer: &str) -> Looked<()>
    ensures known { OnOk result (HasOnlyKeywords (object (fields_view keywords.now))) }
    ensures unknown { RefusedFor (IsUnknownIn (object (fields_view keywords.now))) result }
{
    for (name, argument) in keywords {
        check_keyword(alloc, name.as_str(), argument, pointer)?;
    }
    Ok(())
}

/// The same of a keyword with this name and this argument.
#[cycle(known)]
fn check_keyword(alloc: Global, name: &str, argument: &Value, pointer: &str) -> Looked<()>
    ensures known { OnOk result (IsKnownThrough name.now (value_of argument.now)) }
    ensures unknown { RefusedFor (IsUnknownThrough name.now (value_of argument.now)) result }
{
    let place = behind(alloc, pointer, name)?;
    if !is_known(name) {
        return Err(no_keyword(alloc, name, place.as_str()));
    }
    check_alone(alloc, name, argument, place.as_str())?;
    check_elements(alloc, name, argument, place.as_str())?;
    check_members(alloc, name, argument, place.as_str())
}

/// The same of the argument, if it is a schema.
#[cycle(known)]
fn check_alone(alloc: Global, name: &str, argument: &Value, pointer: &str) -> Looked<()>
    ensures known { OnOk result (takes_schema name.now ≡ true → HasOnlyKeywords (value_of argument.now)) }
    ensures unknown { RefusedFor (λ p. (takes_schema name.now ≡ true) × IsUnknownIn (value_of argument.now) p) result }
{
    if !takes_schema(name) {
        return Ok(());
    }
    check_schema(alloc, argument, pointer)
}

/// The same of its elements, if they are schemas.
#[cycle(known)]
fn check_elements(alloc: Global, name: &str, argument: &Value, pointer: &str) -> Looked<()>
    ensures known { OnOk result (takes_schemas name.now ≡ true → AllKnownAmong (value_of argument.now)) }
    ensures unknown { RefusedFor (λ p. (takes_schemas name.now ≡ true) × IsUnknownAmong (value_of argument.now) p) result }
{
    if !takes_schemas(name) {
        return Ok(());
    }
    match argument {
        Value::Array(schemas) => check_each(alloc, schemas, pointer),
        _ => Ok(()),
    }
}

/// The same of its members, if they are schemas.
#[cycle(known)]
fn check_members(alloc: Global, name: &str, argument: &Value, pointer: &str) -> Looked<()>
    ensures known { OnOk result (takes_named name.now ≡ true → AllKnownNamed (value_of argument.now)) }
    ensures unknown { RefusedFor (λ p. (takes_named name.now ≡ true) × IsUnknownNamed (value_of argument.now) p) result }
{
    if !takes_named(name) {
        return Ok(());
    }
    match argument {
        Value::Object(schemas) => check_named(alloc, schemas, pointer),
        _ => Ok(()),
    }
}

/// The same of each schema of an array.
#[cycle(known)]
fn check_each(alloc: Global, schemas: &[Value], pointer: &str) -> Looked<()>
    ensures known { OnOk result (AllKnownAmong (array (items_view schemas.now))) }
    ensures unknown { RefusedFor (IsUnknownAmong (array (items_view schemas.now))) result }
{
    for (index, schema) in schemas.iter().enumerate() {
        let place = format!(in alloc; "{pointer}/{index}")?;
        check_schema(alloc, schema, place.as_str())?;
    }
    Ok(())
}

/// The same of each schema of an object.
#[cycle(known)]
fn check_named(alloc: Global, schemas: &[(String, Value)], pointer: &str) -> Looked<()>
    ensures known { OnOk result (AllKnownNamed (object (fields_view schemas.now))) }
    ensures unknown { RefusedFor (IsUnknownNamed (object (fields_view schemas.now))) result }
{
    for (name, schema) in schemas {
        let place = behind(alloc, pointer, name.as_str())?;
        check_schema(alloc, schema, place.as_str())?;
    }
    Ok(())
}
