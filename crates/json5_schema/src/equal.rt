//! Values that are equal to others, for `enum` and `uniqueItems`.

ghost use Rattle.std.specs.Prelude.{◌≡◌, not, MatchResult, OnOk};
ghost use Rattle.json5_types.specs.Errors.{LacksMemory};
ghost use Rattle.json5_types.specs.ValueMeanings.{item, value_of, items_view};
ghost use Rattle.json5_schema.specs.CanonicalForms.{SeesForms};
ghost use Rattle.json5_schema.specs.Conformance.{is_among, is_in_enum, are_distinct, has_distinct};

use crate::canonical::canonical_form;
use json5_numbers::same;
use json5_types::error::Result;
use json5_types::value::Value;
use std::alloc::Global;
use std::collections::BTreeSet;

/// Whether the value is equal to one of these.
pub fn is_among(alloc: Global, value: &Value, others: &[Value]) -> Result<bool>
    ensures { MatchResult result (λ b. b ≡ is_among (value_of value.now) (items_view others.now)) LacksMemory }
{
    for other in others {
        if same(alloc, value, other)? {
            return Ok(true);
        }
    }
    Ok(false)
}

/// What `enum` asserts.
pub fn is_in_enum(alloc: Global, values: &Value, value: &Value) -> Result<bool>
    ensures { MatchResult result (λ b. b ≡ is_in_enum (value_of values.now) (value_of value.now)) LacksMemory }
{
    match values {
        Value::Array(values) => is_among(alloc, value, values),
        _ => Ok(true),
    }
}

/// So many elements are compared with each other, which takes less time than their canonical forms.
const FEW: usize = 16;

/// Whether no two of a few values are equal.
fn few_are_distinct(alloc: Global, values: &[Value]) -> Result<bool>
    ensures { MatchResult result (λ b. b ≡ are_distinct (items_view values.now)) LacksMemory }
{
    for (index, value) in values.iter().enumerate() {
        if is_among(alloc, value, &values[index + 1..])? {
            return Ok(false);
        }
    }
    Ok(true)
}

/// Whether no two of the elements are equal. Each is looked up by its canonical form among those behind it.
fn are_distinct(alloc: Global, items: &[Value]) -> Result<bool>
    ensures { MatchResult result (λ b. b ≡ are_distinct (items_view items.now)) LacksMemory }
{
    let mut seen = BTreeSet::new(alloc);
    let mut index = items.len();
    while index > 0 {
        index -= 1;
        if !is_new(alloc, &items[index], &items[index + 1..], &mut seen)? {
            return Ok(false);
        }
    }
    Ok(true)
}

/// Whether none of the elements behind it is equal, of which the forms were seen. Its own is seen from then on.
///
/// Where its form was seen, the elements are compared one by one: that ends the search, unless values that aren't equal
/// have one form. So its speed rests on the forms telling values apart, and its answer doesn't.
fn is_new(
    alloc: Global,
    value: &Value,
    after: &[Value],
    seen: &mut BTreeSet<Vec<u8>>,
) -> Result<bool>
    requires { SeesForms seen.old (items_view after.now) }
    ensures value { MatchResult result (λ b. b ≡ not (is_among (value_of value.now) (items_view after.now))) LacksMemory }
    ensures seen { OnOk result (SeesForms seen.new (item (value_of value.now) (items_view after.now))) }
{
    if seen.insert(canonical_form(alloc, value)?)? {
        return Ok(true);
    }
    Ok(!is_among(alloc, value, after)?)
}

/// What `uniqueItems` asserts.
pub fn has_distinct(alloc: Global, wanted: &Value, value: &Value) -> Result<bool>
    ensures { MatchResult result (λ b. b ≡ has_distinct (value_of wanted.now) (value_of value.now)) LacksMemory }
{
    match (wanted, value) {
        (Value::Bool(true), Value::Array(items)) if items.len() <= FEW => {
            few_are_distinct(alloc, items)
        }
        (Value::Bool(true), Value::Array(items)) => are_distinct(alloc, items),
        _ => Ok(true),
    }
}
