//! Values that are equal: 1 is 1.0, and the order of members is of no matter. JSON Schema and JSON Patch (RFC 6902) compare so.

ghost use Rattle.std.specs.Prelude.{◌≡◌, MatchResult};
ghost use Rattle.std.specs.Str.{chars};
ghost use Rattle.json5_grammar.specs.Language.Numbers.{decimal, whole};
ghost use Rattle.json5_types.specs.Errors.{LacksMemory};
ghost use Rattle.json5_types.specs.ValueMeanings.{value_of, items_view, fields_view};
ghost use Rattle.json5_numbers.specs.Sameness.{same_decimals, same_number, same_datum, same_items, same_fields, has_field, has_fields, names_within};

use crate::DecimalExt;
use crate::members::{find, is_named};
use json5_types::decimal::Decimal;
use json5_types::error::Result;
use json5_types::value::Value;
use json5_types::whole::Whole;
use std::alloc::Global;
use std::cmp::Ordering;

/// Whether two numbers are equal; -0 is 0, and not-a-number is itself.
fn same_decimals(number: &Decimal, other: &Decimal) -> bool
    ensures { result ≡ same_decimals number.now other.now }
{
    number == other || matches!(number.compare(other), Some(Ordering::Equal))
}

/// Whether a decimal has the value of a whole number.
fn is_whole(alloc: Global, number: Whole, other: &Decimal) -> Result<bool>
    ensures { MatchResult result (λ b. b ≡ same_number (whole number) (decimal other.now)) LacksMemory }
{
    let number = Decimal::from_whole(alloc, number)?;
    Ok(same_decimals(&number, other))
}

/// Returns whether the two values are equal: numbers by their size, so that 1 is 1.0 and -0 is 0, strings by their characters,
/// arrays element by element, and objects by the values of their keys, in any order. Of equal keys the last counts. NaN is NaN.
/// Comparing takes memory only for whole numbers beside decimals, and only those of more than 19 digits.
///
/// ```text
/// same(alloc, &value, &Value::from(1u8))?    // true of 1, 1.0 and 10e-1
/// ```
///
/// # Errors
///
/// - `OutOfMemory`, without a position, where a request for memory was refused.
#[cycle(same)]
pub fn same(alloc: Global, value: &Value, other: &Value) -> Result<bool>
    ensures { MatchResult result (λ b. b ≡ same_datum (value_of value.now) (value_of other.now)) LacksMemory }
{
    match (value, other) {
        (Value::Null, Value::Null) => Ok(true),
        (Value::Bool(truth), Value::Bool(other)) => Ok(truth == other),
        (Value::Whole(number), Value::Whole(other)) => Ok(number == other),
        (Value::Whole(number), Value::Decimal(other)) => is_whole(alloc, *number, other),
        (Value::Decimal(number), Value::Whole(other)) => is_whole(alloc, *other, number),
        (Value::Decimal(number), Value::Decimal(other)) => Ok(same_decimals(number, other)),
        (Value::String(text), Value::String(other)) => Ok(text.as_str() == other.as_str()),
        (Value::Array(items), Value::Array(others)) => same_items(alloc, items, others),
        (Value::Object(members), Value::Object(others)) => same_members(alloc, members, others),
        _ => Ok(false),
    }
}

/// Whether the elements are equal, one by one.
#[cycle(same)]
fn same_items(alloc: Global, items: &[Value], others: &[Value]) -> Result<bool>
    ensures { MatchResult result (λ b. b ≡ same_items (items_view items.now) (items_view others.now)) LacksMemory }
{
    if items.len() != others.len() {
        return Ok(false);
    }
    for (item, other) in items.iter().zip(others) {
        if !same(alloc, item, other)? {
            return Ok(false);
        }
    }
    Ok(true)
}

/// Whether the members have the same keys, and equal values.
#[cycle(same)]
fn same_members(
    alloc: Global,
    members: &[(String, Value)],
    others: &[(String, Value)],
) -> Result<bool>
    ensures { MatchResult result (λ b. b ≡ same_fields (fields_view members.now) (fields_view others.now)) LacksMemory }
{
    if !names_within(others, members) {
        return Ok(false);
    }
    has_members(alloc, members, others)
}

/// Whether each member is among the others, with an equal value.
#[cycle(same)]
fn has_members(
    alloc: Global,
    members: &[(String, Value)],
    others: &[(String, Value)],
) -> Result<bool>
    ensures { MatchResult result (λ b. b ≡ has_fields (fields_view members.now) (fields_view others.now)) LacksMemory }
{
    for (index, member) in members.iter().enumerate() {
        if !has_member(
            alloc,
            member.0.as_str(),
            &member.1,
            &members[index + 1..],
            others,
        )? {
            return Ok(false);
        }
    }
    Ok(true)
}

/// Whether this member is among the others, with an equal value, unless a later one has its key.
#[cycle(same)]
fn has_member(
    alloc: Global,
    key: &str,
    value: &Value,
    after: &[(String, Value)],
    others: &[(String, Value)],
) -> Result<bool>
    ensures { MatchResult result (λ b. b ≡ has_field (chars key.now) (value_of value.now) (fields_view after.now) (fields_view others.now)) LacksMemory }
{
    if is_named(after, key) {
        return Ok(true);
    }
    match find(others, key) {
        Some(other) => same(alloc, value, other),
        None => Ok(false),
    }
}

/// Whether each key is one of the others' keys.
fn names_within(members: &[(String, Value)], others: &[(String, Value)]) -> bool
    ensures { result ≡ names_within (fields_view members.now) (fields_view others.now) }
{
    for (name, _) in members {
        if !is_named(others, name.as_str()) {
            return false;
        }
    }
    true
}
