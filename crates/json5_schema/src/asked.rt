//! What a keyword asks of a value: which schemas have to hold, of which parts.

ghost use Rattle.std.specs.Prelude.{Some, ◌≡◌, ◌∷◌, [], MatchResult, option_map, string_bytes};
ghost use lib.Chars.{codes};
ghost use Rattle.std.specs.Str.{chars};
ghost use Rattle.json5_types.specs.Errors.{LacksMemory};
ghost use Rattle.json5_types.specs.ValueMeanings.{value_of, items_view, fields_view};
ghost use Rattle.json5_schema.specs.Conformance.{each_schema, each_item, by_name, value_for, by_index, prefix_on, schemas_in_front, items_after, elements_after, items_on, additional_items_on, all_of_on, any_of_on, one_of_on, speaks_of, beside, is_matched, is_patterned, is_additional, latest, each_matched, of_pattern, by_pattern, patterns_on, each_additional, has_additional, additional_on, properties_on, is_dependent, dependent_schemas, dependent_on, dependencies_on, all_on, some_on, target_of, refers_on, asserts};
ghost use Rattle.json5_schema.specs.Views.{AsksFor, IsRefusal, PairsFor, members_view, pairs_asked, pairs_view, part_view, asked_view};

use crate::anchors::target_by;
use crate::equal::{has_distinct, is_in_enum};
use crate::formats::format_holds;
use crate::keyword::{Applicator, Assertion};
use crate::kind::is_of_type;
use crate::limits::{
    characters_in, count_at_least, count_at_most, elements_in, elements_len, is_at_most, is_below,
    names_in,
};
use crate::members::{
    Member, find, has_all_dependents, has_required, is_named, latest, unless_named,
};
use crate::multiples::is_multiple_of;
use crate::patterns::{Pattern, fits, is_matching};
use json5_numbers::same;
use json5_types::error::Result;
use json5_types::value::Value;
use std::alloc::Global;

/// A schema, and the value that it has to hold of.
#[derive(Clone, Copy)]
pub struct Pair<'a> {
    pub schema: &'a Value,
    pub value: &'a Value,
}

/// What a keyword asks of pairs.
#[derive(Drop)]
pub enum Asked<'a> {
    /// It is decided already.
    Settled(bool),
    /// Of these pairs at least so many, and at most so many, have to conform.
    Within(usize, usize, Vec<Pair<'a>>),
}

/// A member of an object, by its name, or an element of an array, by its index.
#[derive(Clone, Copy)]
pub enum Child<'a> {
    Name(&'a str),
    Index(usize),
}

/// Each of the schemas, on the value.
fn each_schema<'a>(alloc: Global, schemas: &'a [Value], value: &'a Value) -> Result<Vec<Pair<'a>>>
    ensures { PairsFor (each_schema (items_view schemas.now) (value_of value.now)) result }
{
    let mut pairs = Vec::with_capacity(alloc, schemas.len())?;
    for schema in schemas {
        pairs.push(Pair { schema, value })?;
    }
    Ok(pairs)
}

/// The schema, on each of the elements.
pub fn each_item<'a>(alloc: Global, schema: &'a Value, items: &'a [Value]) -> Result<Vec<Pair<'a>>>
    ensures { PairsFor (each_item (value_of schema.now) (items_view items.now)) result }
{
    let mut pairs = Vec::with_capacity(alloc, items.len())?;
    for value in items {
        pairs.push(Pair { schema, value })?;
    }
    Ok(pairs)
}

/// The schema of each property, on the member with its name, if there is one.
fn by_name<'a>(
    alloc: Global,
    properties: &'a [(String, Value)],
    members: &'a [(String, Value)],
) -> Result<Vec<Pair<'a>>>
    ensures { PairsFor (by_name (fields_view properties.now) (fields_view members.now)) result }
{
    let mut pairs = Vec::with_capacity(alloc, properties.len().min(members.len()))?;
    for (index, property) in properties.iter().enumerate() {
        if let Some(value) = value_for(property, &properties[index + 1..], members) {
            pairs.push(Pair {
                schema: &property.1,
                value,
            })?;
        }
    }
    Ok(pairs)
}

/// The member with the property's name, unless a later property has the name.
fn value_for<'a>(
    property: &(String, Value),
    after: &[(String, Value)],
    members: &'a [(String, Value)],
) -> Option<&'a Value>
    ensures { option_map (λ v. value_of v.now) result ≡ value_for (chars (string_bytes property.now.0)) (fields_view after.now) (fields_view members.now) }
{
    let key = property.0.as_str();
    unless_named(find(members, key), after, key)
}

/// All of the pairs.
fn all_of(pairs: Vec<Pair<'_>>) -> Asked<'_>
    ensures { asked_view result ≡ all_on (pairs_view pairs.entry.items) }
{
    let count = pairs.len();
    Asked::Within(count, count, pairs)
}

/// At least one of the pairs.
fn any_of(pairs: Vec<Pair<'_>>) -> Asked<'_>
    ensures { asked_view result ≡ some_on (pairs_view pairs.entry.items) }
{
    let count = pairs.len();
    Asked::Within(1, count, pairs)
}

/// The schema that a reference means.
pub fn target_of<'a>(root: &'a Value, reference: &Value) -> Option<&'a Value>
    ensures { option_map (λ v. value_of v.now) result ≡ target_of (value_of root.now) (value_of reference.now) }
{
    match reference {
        Value::String(text) => target_by(root, text.as_str()),
        _ => None,
    }
}

/// One pair.
fn one<'a>(alloc: Global, schema: &'a Value, value: &'a Value) -> Result<Vec<Pair<'a>>>
    ensures { PairsFor ((value_of schema.now, value_of value.now) ∷ []) result }
{
    let mut pairs = Vec::new(alloc);
    pairs.push(Pair { schema, value })?;
    Ok(pairs)
}

/// What `properties` asks.
fn properties_on<'a>(alloc: Global, properties: &'a Value, value: &'a Value) -> Result<Asked<'a>>
    ensures { AsksFor (properties_on (value_of properties.now) (value_of value.now)) result }
{
    match (properties, value) {
        (Value::Object(properties), Value::Object(members)) => Ok(all_of(by_name(
            alloc, properties, members,
        )?)),
        _ => Ok(Asked::Settled(true)),
    }
}

/// Whether `properties` speaks of the name.
fn speaks_of(keywords: &[(String, Value)], name: &str) -> bool
    ensures { result ≡ speaks_of (beside (codes "properties") (fields_view keywords.now)) (chars name.now) }
{
    match find(keywords, "properties") {
        Some(Value::Object(properties)) => is_named(properties, name),
        _ => false,
    }
}

/// Whether some of the patterns matches the name.
fn is_matched(
    alloc: Global,
    patterns: &[Pattern],
    schemas: &[(String, Value)],
    name: &str,
) -> Result<bool>
    ensures { MatchResult result (λ b. b ≡ is_matched (fields_view schemas.now) (chars name.now)) LacksMemory }
{
    for (pattern, _) in schemas {
        if fits(alloc, patterns, pattern.as_str(), name)? {
            return Ok(true);
        }
    }
    Ok(false)
}

/// Whether `patternProperties` speaks of the name.
fn is_patterned(
    alloc: Global,
    patterns: &[Pattern],
    keywords: &[(String, Value)],
    name: &str,
) -> Result<bool>
    ensures { MatchResult result (λ b. b ≡ is_patterned (beside (codes "patternProperties") (fields_view keywords.now)) (chars name.now)) LacksMemory }
{
    match find(keywords, "patternProperties") {
        Some(schemas) => is_matched_in(alloc, patterns, schemas, name),
        None => Ok(false),
    }
}

/// Whether one of the patterns that this has schemas for matches the name.
pub fn is_matched_in(
    alloc: Global,
    patterns: &[Pattern],
    schemas: &Value,
    name: &str,
) -> Result<bool>
    ensures { MatchResult result (λ b. b ≡ is_patterned (Some (value_of schemas.now)) (chars name.now)) LacksMemory }
{
    match schemas {
        Value::Object(schemas) => is_matched(alloc, patterns, schemas, name),
        _ => Ok(false),
    }
}

/// Whether neither `properties` nor `patternProperties` speaks of the name.
pub fn is_additional(
    alloc: Global,
    patterns: &[Pattern],
    keywords: &[(String, Value)],
    name: &str,
) -> Result<bool>
    ensures { MatchResult result (λ b. b ≡ is_additional (fields_view keywords.now) (chars name.now)) LacksMemory }
{
    if speaks_of(keywords, name) {
        return Ok(false);
    }
    Ok(!is_patterned(alloc, patterns, keywords, name)?)
}

/// The schema, on each of the additional members.
fn each_additional<'a>(
    alloc: Global,
    patterns: &[Pattern],
    schema: &'a Value,
    keywords: &[(String, Value)],
    members: &[Member<'a>],
) -> Result<Vec<Pair<'a>>>
    ensures { PairsFor (each_additional (value_of schema.now) (fields_view keywords.now) (members_view members.now)) result }
{
    let mut pairs = Vec::new(alloc);
    for member in members {
        if is_additional(alloc, patterns, keywords, member.name)? {
            let value = member.value;
            pairs.push(Pair { schema, value })?;
        }
    }
    Ok(pairs)
}

/// Whether a member is additional, be it the last with its name or not.
fn has_additional(
    alloc: Global,
    patterns: &[Pattern],
    keywords: &[(String, Value)],
    members: &[(String, Value)],
) -> Result<bool>
    ensures { MatchResult result (λ b. b ≡ has_additional (fields_view keywords.now) (fields_view members.now)) LacksMemory }
{
    for (name, _) in members {
        if is_additional(alloc, patterns, keywords, name.as_str())? {
            return Ok(true);
        }
    }
    Ok(false)
}

/// What `additionalProperties` asks.
fn additional_on<'a>(
    alloc: Global,
    patterns: &[Pattern],
    schema: &'a Value,
    keywords: &[(String, Value)],
    value: &'a Value,
) -> Result<Asked<'a>>
    ensures { AsksFor (additional_on (value_of schema.now) (fields_view keywords.now) (value_of value.now)) result }
{
    match value {
        Value::Object(members) => {
            if !has_additional(alloc, patterns, keywords, members)? {
                return Ok(all_of(Vec::new(alloc)));
            }
            let members = latest(alloc, members)?;
            Ok(all_of(each_additional(alloc, patterns, schema, keywords, &members)?))
        }
        _ => Ok(Asked::Settled(true)),
    }
}

/// The schema of a pattern, on the members with a name that it matches.
fn each_matched<'a>(
    alloc: Global,
    patterns: &[Pattern],
    pattern: &str,
    schema: &'a Value,
    members: &[Member<'a>],
) -> Result<Vec<Pair<'a>>>
    ensures { PairsFor (each_matched (chars pattern.now) (value_of schema.now) (members_view members.now)) result }
{
    let mut pairs = Vec::new(alloc);
    for member in members {
        if fits(alloc, patterns, pattern, member.name)? {
            let value = member.value;
            pairs.push(Pair { schema, value })?;
        }
    }
    Ok(pairs)
}

/// The same, but none where a later pattern is the same.
fn of_pattern<'a>(
    alloc: Global,
    patterns: &[Pattern],
    pattern: &'a (String, Value),
    after: &[(String, Value)],
    members: &[Member<'a>],
) -> Result<Vec<Pair<'a>>>
    ensures { PairsFor (of_pattern (chars (string_bytes pattern.now.0)) (value_of pattern.now.1) (fields_view after.now) (members_view members.now)) result }
{
    let source = pattern.0.as_str();
    if is_named(after, source) {
        return Ok(Vec::new(alloc));
    }
    each_matched(alloc, patterns, source, &pattern.1, members)
}

/// The schema of each pattern, on the members with a name that it matches.
fn by_pattern<'a>(
    alloc: Global,
    patterns: &[Pattern],
    schemas: &'a [(String, Value)],
    members: &[Member<'a>],
) -> Result<Vec<Pair<'a>>>
    ensures { PairsFor (by_pattern (fields_view schemas.now) (members_view members.now)) result }
{
    let mut pairs = Vec::new(alloc);
    for (index, schema) in schemas.iter().enumerate() {
        let found = of_pattern(alloc, patterns, schema, &schemas[index + 1..], members)?;
        pairs.extend_from_slice(&found)?;
    }
    Ok(pairs)
}

/// The same, on the last member with each name.
fn matched_on<'a>(
    alloc: Global,
    patterns: &[Pattern],
    schemas: &'a [(String, Value)],
    members: &'a [(String, Value)],
) -> Result<Asked<'a>>
    ensures { AsksFor (all_on (by_pattern (fields_view schemas.now) (latest (fields_view members.now)))) result }
{
    let members = latest(alloc, members)?;
    Ok(all_of(by_pattern(alloc, patterns, schemas, &members)?))
}

/// What `patternProperties` asks.
fn patterns_on<'a>(
    alloc: Global,
    patterns: &[Pattern],
    schemas: &'a Value,
    value: &'a Value,
) -> Result<Asked<'a>>
    ensures { AsksFor (patterns_on (value_of schemas.now) (value_of value.now)) result }
{
    match (schemas, value) {
        (Value::Object(schemas), Value::Object(members)) => {
            matched_on(alloc, patterns, schemas, members)
        }
        _ => Ok(Asked::Settled(true)),
    }
}

/// The schemas, on the elements at the same indices.
fn by_index<'a>(alloc: Global, schemas: &'a [Value], items: &'a [Value]) -> Result<Vec<Pair<'a>>>
    ensures { PairsFor (by_index (items_view schemas.now) (items_view items.now)) result }
{
    let mut pairs = Vec::new(alloc);
    for (schema, value) in schemas.iter().zip(items) {
        pairs.push(Pair { schema, value })?;
    }
    Ok(pairs)
}

/// What `prefixItems` asks.
fn prefix_on<'a>(alloc: Global, schemas: &'a Value, value: &'a Value) -> Result<Asked<'a>>
    ensures { AsksFor (prefix_on (value_of schemas.now) (value_of value.now)) result }
{
    match (schemas, value) {
        (Value::Array(schemas), Value::Array(items)) => Ok(all_of(by_index(
            alloc, schemas, items,
        )?)),
        _ => Ok(Asked::Settled(true)),
    }
}

/// How many schemas there are for the elements in front.
pub fn schemas_in_front(schemas: Option<&Value>) -> usize
    ensures { result ≡ schemas_in_front (part_view schemas.entry) }
{
    match schemas {
        Some(Value::Array(schemas)) => elements_len(schemas),
        _ => 0,
    }
}

/// The elements without so many in front.
fn items_after(items: &[Value], count: usize) -> &[Value]
    ensures { items_view result.now ≡ items_after count (items_view items.now) }
{
    if count <= items.len() {
        &items[count..]
    } else {
        &[]
    }
}

/// The schema, on each of the elements without so many in front.
fn elements_after<'a>(
    alloc: Global,
    schema: &'a Value,
    count: usize,
    value: &'a Value,
) -> Result<Asked<'a>>
    ensures { AsksFor (elements_after (value_of schema.now) count (value_of value.now)) result }
{
    match value {
        Value::Array(items) => Ok(all_of(each_item(alloc, schema, items_after(items, count))?)),
        _ => Ok(Asked::Settled(true)),
    }
}

/// What `items` asks.
fn items_on<'a>(
    alloc: Global,
    schema: &'a Value,
    keywords: &[(String, Value)],
    value: &'a Value,
) -> Result<Asked<'a>>
    ensures { AsksFor (items_on (value_of schema.now) (fields_view keywords.now) (value_of value.now)) result }
{
    if schema.is_array() {
        return prefix_on(alloc, schema, value);
    }
    let count = schemas_in_front(find(keywords, "prefixItems"));
    elements_after(alloc, schema, count, value)
}

/// What `additionalItems` asks, after these `items`.
fn additional_items_on<'a>(
    alloc: Global,
    schema: &'a Value,
    items: Option<&Value>,
    value: &'a Value,
) -> Result<Asked<'a>>
    ensures { AsksFor (additional_items_on (value_of schema.now) (part_view items.entry) (value_of value.now)) result }
{
    match items {
        Some(Value::Array(schemas)) => elements_after(alloc, schema, elements_len(schemas), value),
        _ => Ok(Asked::Settled(true)),
    }
}

/// What `allOf` asks.
fn all_of_on<'a>(alloc: Global, schemas: &'a Value, value: &'a Value) -> Result<Asked<'a>>
    ensures { AsksFor (all_of_on (value_of schemas.now) (value_of value.now)) result }
{
    match schemas {
        Value::Array(schemas) => Ok(all_of(each_schema(alloc, schemas, value)?)),
        _ => Ok(Asked::Settled(true)),
    }
}

/// What `anyOf` asks.
fn any_of_on<'a>(alloc: Global, schemas: &'a Value, value: &'a Value) -> Result<Asked<'a>>
    ensures { AsksFor (any_of_on (value_of schemas.now) (value_of value.now)) result }
{
    match schemas {
        Value::Array(schemas) => Ok(any_of(each_schema(alloc, schemas, value)?)),
        _ => Ok(Asked::Settled(true)),
    }
}

/// What `oneOf` asks.
fn one_of_on<'a>(alloc: Global, schemas: &'a Value, value: &'a Value) -> Result<Asked<'a>>
    ensures { AsksFor (one_of_on (value_of schemas.now) (value_of value.now)) result }
{
    match schemas {
        Value::Array(schemas) => Ok(Asked::Within(1, 1, each_schema(alloc, schemas, value)?)),
        _ => Ok(Asked::Settled(true)),
    }
}

/// Whether the schema of a name is applied: no later one has the name, there is a member with it, and it is no array of names.
pub fn is_dependent(
    name: &str,
    schema: &Value,
    after: &[(String, Value)],
    members: &[(String, Value)],
) -> bool
    ensures { result ≡ is_dependent (chars name.now) (value_of schema.now) (fields_view after.now) (fields_view members.now) }
{
    !is_named(after, name) && is_named(members, name) && !schema.is_array()
}

/// The schema of each name that there is a member for, on the whole value.
fn dependent_schemas<'a>(
    alloc: Global,
    schemas: &'a [(String, Value)],
    members: &[(String, Value)],
    value: &'a Value,
) -> Result<Vec<Pair<'a>>>
    ensures { PairsFor (dependent_schemas (fields_view schemas.now) (fields_view members.now) (value_of value.now)) result }
{
    let mut pairs = Vec::new(alloc);
    for (index, dependent) in schemas.iter().enumerate() {
        let schema = &dependent.1;
        if is_dependent(dependent.0.as_str(), schema, &schemas[index + 1..], members) {
            pairs.push(Pair { schema, value })?;
        }
    }
    Ok(pairs)
}

/// What `dependentSchemas` asks.
fn dependent_on<'a>(alloc: Global, schemas: &'a Value, value: &'a Value) -> Result<Asked<'a>>
    ensures { AsksFor (dependent_on (value_of schemas.now) (value_of value.now)) result }
{
    match (schemas, value) {
        (Value::Object(schemas), Value::Object(members)) => Ok(all_of(dependent_schemas(
            alloc, schemas, members, value,
        )?)),
        _ => Ok(Asked::Settled(true)),
    }
}

/// What `dependencies` asks.
fn dependencies_on<'a>(alloc: Global, schemas: &'a Value, value: &'a Value) -> Result<Asked<'a>>
    ensures { AsksFor (dependencies_on (value_of schemas.now) (value_of value.now)) result }
{
    if has_all_dependents(schemas, value) {
        dependent_on(alloc, schemas, value)
    } else {
        Ok(Asked::Settled(false))
    }
}

/// What `$ref` asks, with this target.
fn refers_on<'a>(alloc: Global, target: Option<&'a Value>, value: &'a Value) -> Result<Asked<'a>>
    ensures { AsksFor (refers_on (part_view target.entry) (value_of value.now)) result }
{
    match target {
        Some(schema) => Ok(all_of(one(alloc, schema, value)?)),
        None => Ok(Asked::Settled(false)),
    }
}

/// What a keyword says by itself.
pub fn asserts(
    alloc: Global,
    patterns: &[Pattern],
    root: &Value,
    assertion: Assertion,
    argument: &Value,
    value: &Value,
) -> Result<bool>
    ensures { MatchResult result (λ b. b ≡ asserts (value_of root.now) assertion (value_of argument.now) (value_of value.now)) IsRefusal }
{
    match assertion {
        Assertion::Type => Ok(is_of_type(argument, value)),
        Assertion::Enum => is_in_enum(alloc, argument, value),
        Assertion::Const => same(alloc, argument, value),
        Assertion::MultipleOf => is_multiple_of(alloc, argument, value),
        Assertion::Maximum => is_at_most(alloc, value, argument),
        Assertion::ExclusiveMaximum => is_below(alloc, value, argument),
        Assertion::Minimum => is_at_most(alloc, argument, value),
        Assertion::ExclusiveMinimum => is_below(alloc, argument, value),
        Assertion::MaxLength => count_at_most(alloc, characters_in(value), argument),
        Assertion::MinLength => count_at_least(alloc, characters_in(value), argument),
        Assertion::Pattern => is_matching(alloc, patterns, argument, value),
        Assertion::Format => format_holds(alloc, patterns, root, argument, value),
        Assertion::MaxItems => count_at_most(alloc, elements_in(value), argument),
        Assertion::MinItems => count_at_least(alloc, elements_in(value), argument),
        Assertion::UniqueItems => has_distinct(alloc, argument, value),
        Assertion::MaxProperties => count_at_most(alloc, names_in(alloc, value)?, argument),
        Assertion::MinProperties => count_at_least(alloc, names_in(alloc, value)?, argument),
        Assertion::Required => Ok(has_required(argument, value)),
        Assertion::DependentRequired => Ok(has_all_dependents(argument, value)),
    }
}

/// Which pairs a keyword asks for: none of one that asks otherwise (`applicator_holds`).
pub fn applies<'a>(
    alloc: Global,
    patterns: &[Pattern],
    root: &'a Value,
    keywords: &'a [(String, Value)],
    applicator: Applicator,
    argument: &'a Value,
    value: &'a Value,
) -> Result<Asked<'a>>
    ensures { AsksFor (pairs_asked (value_of root.now) (fields_view keywords.now) applicator (value_of argument.now) (value_of value.now)) result }
{
    match applicator {
        Applicator::AllOf => all_of_on(alloc, argument, value),
        Applicator::AnyOf => any_of_on(alloc, argument, value),
        Applicator::OneOf => one_of_on(alloc, argument, value),
        Applicator::Not => Ok(Asked::Within(0, 0, one(alloc, argument, value)?)),
        Applicator::DependentSchemas => dependent_on(alloc, argument, value),
        Applicator::Dependencies => dependencies_on(alloc, argument, value),
        Applicator::PrefixItems => prefix_on(alloc, argument, value),
        Applicator::Items => items_on(alloc, argument, keywords, value),
        Applicator::AdditionalItems => {
            additional_items_on(alloc, argument, find(keywords, "items"), value)
        }
        Applicator::Properties => properties_on(alloc, argument, value),
        Applicator::PatternProperties => patterns_on(alloc, patterns, argument, value),
        Applicator::AdditionalProperties => additional_on(
            alloc, patterns, argument, keywords, value,
        ),
        Applicator::Ref => refers_on(alloc, target_of(root, argument), value),
        Applicator::If => Ok(Asked::Settled(true)),
        Applicator::Contains => Ok(Asked::Settled(true)),
        Applicator::PropertyNames => Ok(Asked::Settled(true)),
        Applicator::UnevaluatedProperties => Ok(Asked::Settled(true)),
        Applicator::UnevaluatedItems => Ok(Asked::Settled(true)),
    }
}
