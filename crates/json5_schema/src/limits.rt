//! Limits of numbers and of counts. No digit is rounded.

ghost use Rattle.std.specs.Prelude.{◌≡◌, ◌&&◌, nat_eq, MatchResult};
ghost use Rattle.json5_types.specs.Errors.{LacksMemory};
ghost use Rattle.json5_grammar.specs.Language.Numbers.{whole};
ghost use Rattle.json5_types.specs.ValueMeanings.{number, value_of, items_view, fields_view};
ghost use Rattle.json5_types.specs.ValueKinds.{items_len, fields_len};
ghost use Rattle.json5_schema.specs.Conformance.{is_not_above, at_most, is_below, characters_in, elements_in, latest, names_in, count_at_most, count_at_least, is_enough, is_few, less};
ghost use Rattle.json5_schema.specs.Views.{part_view};
ghost use Rattle.json5_numbers.specs.NumberTexts.{decimal_of_whole};
ghost use Rattle.json5_numbers.specs.Orders.{decimal_cmp};

use crate::members::latest;
use json5_numbers::{DecimalExt, same};
use json5_types::decimal::Decimal;
use json5_types::error::Result;
use json5_types::value::Value;
use json5_types::whole::Whole;
use std::alloc::Global;
use std::cmp::Ordering;

/// Whether the number is at most the other.
fn is_not_above(number: &Decimal, other: &Decimal) -> bool
    ensures { result ≡ is_not_above (decimal_cmp number.now other.now) }
{
    matches!(
        number.compare(other),
        Some(Ordering::Less | Ordering::Equal)
    )
}

/// Whether the one whole number is at most the other.
fn are_in_order(first: Whole, second: Whole) -> bool
    ensures { result ≡ at_most (number (whole first)) (number (whole second)) }
{
    match (first.as_u128(), second.as_u128()) {
        (Some(first), Some(second)) => first <= second,
        (Some(_), None) => false,
        (None, Some(_)) => true,
        // both are below zero
        (None, None) => first.as_i128().unwrap_or(0) <= second.as_i128().unwrap_or(0),
    }
}

/// Whether the whole number is at most the decimal.
#[inline(never)]
fn is_whole_at_most(alloc: Global, number: Whole, other: &Decimal) -> Result<bool>
    ensures { MatchResult result (λ b. b ≡ is_not_above (decimal_cmp (decimal_of_whole number) other.now)) LacksMemory }
{
    Ok(is_not_above(&Decimal::from_whole(alloc, number)?, other))
}

/// Whether the decimal is at most the whole number.
#[inline(never)]
fn is_at_most_whole(alloc: Global, number: &Decimal, other: Whole) -> Result<bool>
    ensures { MatchResult result (λ b. b ≡ is_not_above (decimal_cmp number.now (decimal_of_whole other))) LacksMemory }
{
    Ok(is_not_above(number, &Decimal::from_whole(alloc, other)?))
}

/// Whether the number is at most the other; true where one of them is no number.
pub fn is_at_most(alloc: Global, number: &Value, other: &Value) -> Result<bool>
    ensures { MatchResult result (λ b. b ≡ at_most (value_of number.now) (value_of other.now)) LacksMemory }
{
    match (number, other) {
        (Value::Whole(number), Value::Whole(other)) => Ok(are_in_order(*number, *other)),
        (Value::Whole(number), Value::Decimal(other)) => is_whole_at_most(alloc, *number, other),
        (Value::Decimal(number), Value::Whole(other)) => is_at_most_whole(alloc, number, *other),
        (Value::Decimal(number), Value::Decimal(other)) => Ok(is_not_above(number, other)),
        _ => Ok(true),
    }
}

/// Whether the number is below the other; true where one of them is no number.
pub fn is_below(alloc: Global, number: &Value, other: &Value) -> Result<bool>
    ensures { MatchResult result (λ b. b ≡ is_below (value_of number.now) (value_of other.now)) LacksMemory }
{
    if !is_at_most(alloc, number, other)? {
        return Ok(false);
    }
    Ok(!same(alloc, number, other)?)
}

/// The number of characters, if it is a string.
pub fn characters_in(value: &Value) -> Option<usize>
    ensures { result ≡ characters_in (value_of value.now) }
{
    match value {
        Value::String(text) => Some(text.as_str().chars().count()),
        _ => None,
    }
}

/// The number of elements.
pub fn elements_len(items: &[Value]) -> usize
    ensures { result ≡ items_len (items_view items.now) }
{
    items.len()
}

/// The number of elements, if it is an array.
pub fn elements_in(value: &Value) -> Option<usize>
    ensures { result ≡ elements_in (value_of value.now) }
{
    match value {
        Value::Array(items) => Some(elements_len(items)),
        _ => None,
    }
}

/// The number of members of which none later has the name.
fn names_len(alloc: Global, members: &[(String, Value)]) -> Result<usize>
    ensures { MatchResult result (λ n. n ≡ fields_len (latest (fields_view members.now))) LacksMemory }
{
    let members = latest(alloc, members)?;
    Ok(members.len())
}

/// The number of names, if it is an object.
pub fn names_in(alloc: Global, value: &Value) -> Result<Option<usize>>
    ensures { MatchResult result (λ n. n ≡ names_in (value_of value.now)) LacksMemory }
{
    match value {
        Value::Object(members) => Ok(Some(names_len(alloc, members)?)),
        _ => Ok(None),
    }
}

/// Whether so many are at most the limit; true where nothing is counted.
pub fn count_at_most(alloc: Global, count: Option<usize>, limit: &Value) -> Result<bool>
    ensures { MatchResult result (λ b. b ≡ count_at_most count (value_of limit.now)) LacksMemory }
{
    match count {
        Some(count) => is_at_most(alloc, &Value::from(count), limit),
        None => Ok(true),
    }
}

/// Whether so many are at least the limit; true where nothing is counted.
pub fn count_at_least(alloc: Global, count: Option<usize>, limit: &Value) -> Result<bool>
    ensures { MatchResult result (λ b. b ≡ count_at_least count (value_of limit.now)) LacksMemory }
{
    match count {
        Some(count) => is_at_most(alloc, limit, &Value::from(count)),
        None => Ok(true),
    }
}

/// Whether so many are enough: as many as this number, or one.
fn is_enough(alloc: Global, least: Option<&Value>, count: usize) -> Result<bool>
    ensures { MatchResult result (λ b. b ≡ is_enough (part_view least.entry) count) LacksMemory }
{
    match least {
        Some(least) => count_at_least(alloc, Some(count), least),
        None => Ok(count >= 1),
    }
}

/// Whether so many are no more than this number.
fn is_few(alloc: Global, most: Option<&Value>, count: usize) -> Result<bool>
    ensures { MatchResult result (λ b. b ≡ is_few (part_view most.entry) count) LacksMemory }
{
    match most {
        Some(most) => count_at_most(alloc, Some(count), most),
        None => Ok(true),
    }
}

/// Whether so many are enough, and no more than can be.
pub fn is_counted(
    alloc: Global,
    least: Option<&Value>,
    most: Option<&Value>,
    count: usize,
) -> Result<bool>
    ensures { MatchResult result (λ b. b ≡ (is_enough (part_view least.entry) count && is_few (part_view most.entry) count)) LacksMemory }
{
    if !is_enough(alloc, least, count)? {
        return Ok(false);
    }
    is_few(alloc, most, count)
}

/// One less, if it holds.
pub fn less(holds: bool, count: usize) -> usize
    ensures { result ≡ less holds count }
{
    if holds {
        count.saturating_sub(1)
    } else {
        count
    }
}

/// Whether one more is too many.
pub fn is_full(holds: bool, most: usize) -> bool
    ensures { result ≡ (holds && nat_eq most 0) }
{
    holds && most == 0
}
