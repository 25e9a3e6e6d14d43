//! What a keyword applies a schema to by its name or its index.

ghost use Rattle.std.specs.Prelude.{◌≡◌, MatchResult, Some};
ghost use Rattle.std.specs.Str.{chars};
ghost use Rattle.json5_types.specs.Errors.{LacksMemory};
ghost use Rattle.json5_types.specs.ValueMeanings.{value_of, fields_view};
ghost use Rattle.json5_schema.specs.Conformance.{element_asked, evaluating_index, is_behind, is_in_place, reaches, reaches_item, speaks_of, takes_rest};
ghost use Rattle.json5_schema.specs.Views.{part_view, question_of, reaches_named};

use crate::asked::{Child, is_additional, is_matched_in, schemas_in_front};
use crate::keyword::Applicator;
use crate::limits::elements_len;
use crate::members::{find, is_named};
use crate::patterns::Pattern;
use json5_types::error::Result;
use json5_types::value::Value;
use std::alloc::Global;

/// Whether the schemas of the keyword are applied to the value itself, and count.
pub fn is_in_place(applicator: Applicator) -> bool
    ensures { result ≡ is_in_place applicator }
{
    match applicator {
        Applicator::AllOf => true,
        Applicator::AnyOf => true,
        Applicator::OneOf => true,
        Applicator::If => true,
        Applicator::DependentSchemas => true,
        Applicator::Dependencies => true,
        Applicator::Ref => true,
        _ => false,
    }
}

/// Whether the keyword applies a schema to the child by its name or its index.
pub fn reaches(
    alloc: Global,
    patterns: &[Pattern],
    keywords: &[(String, Value)],
    applicator: Applicator,
    argument: &Value,
    child: Child<'_>,
) -> Result<bool>
    ensures { MatchResult result (λ b. b ≡ reaches (fields_view keywords.now) applicator (value_of argument.now) (question_of child.entry)) LacksMemory }
{
    match child {
        Child::Name(name) => reaches_name(alloc, patterns, keywords, applicator, argument, name),
        Child::Index(index) => Ok(reaches_index(keywords, applicator, argument, index)),
    }
}

/// The same of a member.
fn reaches_name(
    alloc: Global,
    patterns: &[Pattern],
    keywords: &[(String, Value)],
    applicator: Applicator,
    argument: &Value,
    name: &str,
) -> Result<bool>
    ensures { MatchResult result (λ b. b ≡ reaches_named keywords.now applicator argument.now name.now) LacksMemory }
{
    match applicator {
        Applicator::Properties => Ok(has_property(argument, name)),
        Applicator::PatternProperties => is_matched_in(alloc, patterns, argument, name),
        Applicator::AdditionalProperties => is_additional(alloc, patterns, keywords, name),
        _ => Ok(false),
    }
}

/// Whether a schema of `properties` has this name.
fn has_property(properties: &Value, name: &str) -> bool
    ensures { result ≡ speaks_of (Some (value_of properties.now)) (chars name.now) }
{
    match properties {
        Value::Object(schemas) => is_named(schemas, name),
        _ => false,
    }
}

/// The same of an element.
fn reaches_index(
    keywords: &[(String, Value)],
    applicator: Applicator,
    argument: &Value,
    index: usize,
) -> bool
    ensures { result ≡ reaches (fields_view keywords.now) applicator (value_of argument.now) (evaluating_index index) }
{
    match applicator {
        Applicator::PrefixItems => index < schemas_in_front(Some(argument)),
        Applicator::Items => reaches_item(argument, find(keywords, "prefixItems"), index),
        Applicator::AdditionalItems => is_behind(find(keywords, "items"), index),
        _ => false,
    }
}

/// Whether `items` applies a schema to this element.
fn reaches_item(schema: &Value, prefix: Option<&Value>, index: usize) -> bool
    ensures { result ≡ reaches_item (value_of schema.now) (part_view prefix.entry) index }
{
    if schema.is_array() {
        return index < schemas_in_front(Some(schema));
    }
    schemas_in_front(prefix) <= index
}

/// Whether the element is behind those that this array of schemas is for.
fn is_behind(schemas: Option<&Value>, index: usize) -> bool
    ensures { result ≡ is_behind (part_view schemas.entry) index }
{
    match schemas {
        Some(Value::Array(schemas)) => elements_len(schemas) <= index,
        _ => false,
    }
}

/// Whether the keyword for what is left is there, which evaluates it.
pub fn takes_rest(keywords: &[(String, Value)], child: Child<'_>) -> bool
    ensures { result ≡ takes_rest (fields_view keywords.now) (question_of child.entry) }
{
    match child {
        Child::Name(_) => is_named(keywords, "unevaluatedProperties"),
        Child::Index(_) => is_named(keywords, "unevaluatedItems"),
    }
}

/// The element of the value that the child is.
pub fn element_at<'v>(value: &'v Value, child: Child<'_>) -> Option<&'v Value>
    ensures { part_view result ≡ element_asked (question_of child.entry) (value_of value.now) }
{
    match child {
        Child::Index(index) => value.get(index),
        Child::Name(_) => None,
    }
}
