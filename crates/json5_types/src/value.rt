//! Values of any kind.

ghost use Rattle.std.specs.Prelude.{◌≡◌, ◌↔◌, IsTrue};
ghost use Rattle.std.specs.Cmp.{on_equiv, partial_equiv_from_equiv};
ghost use Rattle.json5_types.specs.ValueMeanings.{value_of, items_view, fields_view};
ghost use Rattle.json5_types.specs.ValueEquality.{datum_eq, items_eq, fields_eq};

use crate::decimal::Decimal;
use crate::whole::Whole;

/// What a JSON5 text holds (JSON5 section 2): null, a boolean, a number, a string, an array or an object, with equal keys kept.
///
/// Two values are equal when they mean the same: whole numbers and decimals are never equal, not-a-number equals itself,
/// and two strings are equal when their characters are, however they were spelled.
///
/// ```text
/// let value: Value = json5::from_str(alloc, "{a: [1, 2.5, null]}")?;    // an Object of one member, whose value is an Array
/// ```
///
/// # Errors
///
/// A call that reads or passes over a value of any kind refuses with
/// - `ExpectedValue` at a character that begins no value, where one is expected.
/// - `ExpectedComma` at a character after an element or a member that is neither a comma nor the closing bracket.
/// - `ExpectedIdentifier` at a character that begins no key, where one may begin.
/// - `ExpectedColon` at a character after a key that is no colon.
/// - `TooDeep` at the bracket past the limit.
/// - `EofParsingValue` where the text ends before a value; `EofParsingArray` where it ends after an element; `EofParsingObject`
///   where it ends before a key or a colon, or after a member.
/// - The codes of a comment, a literal, a number, a string or an identifier that is at fault, at their positions.
/// - `OutOfMemory` where a request for memory was refused.
///
/// Where the text ends, the position is that of the innermost bracket that the value opened; there is none outside of all.
#[derive(Debug, Drop)]
pub enum Value {
    /// `null`.
    Null,
    /// `true` or `false`.
    Bool(bool),
    /// A whole number from `i128::MIN` to `u128::MAX`, written without a point and an exponent.
    Whole(Whole),
    /// Any other number.
    Decimal(Decimal),
    /// The text of a string, without the quotes and with its escapes replaced.
    String(String),
    /// The elements of an array, in their order.
    Array(Vec<Value>),
    /// The members of an object, in their order, each a key's text and its value; equal keys are kept.
    Object(Vec<(String, Value)>),
}

impl PartialEq for Value {
    ghost use Rattle.json5_types.specs.ValueMeanings.{value_of};
    ghost use Rattle.json5_types.specs.ValueEquality.{datum_eq, datum_equivalence};

    ghost eq = { λ x y. datum_eq (value_of x) (value_of y) };

    ghost laws = { partial_equiv_from_equiv (on_equiv value_of datum_equivalence) };

    #[tactic(auto, using(crate::proofs::ValuesCompared::values_compared))]
    fn eq(&self, other: &Self) -> bool
        ensures gives { result ≡ datum_eq (value_of self.now) (value_of other.now) }
        ensures same { IsTrue result ↔ (value_of self.now ≡ value_of other.now) }
    {
        equal(self, other)
    }
}

/// Whether the two values mean the same.
#[cycle(equal)]
#[tactic(auto, using(crate::proofs::ValuesCompared::values_compared))]
fn equal(value: &Value, other: &Value) -> bool
    ensures { result ≡ datum_eq (value_of value.now) (value_of other.now) }
{
    match (value, other) {
        (Value::Null, Value::Null) => true,
        (Value::Bool(truth), Value::Bool(other)) => truth == other,
        (Value::Whole(number), Value::Whole(other)) => number == other,
        (Value::Decimal(number), Value::Decimal(other)) => number == other,
        (Value::String(text), Value::String(other)) => text.as_str() == other.as_str(),
        (Value::Array(items), Value::Array(others)) => equal_items(items, others),
        (Value::Object(fields), Value::Object(others)) => equal_fields(fields, others),
        _ => false,
    }
}

/// Whether the elements mean the same, one by one.
#[cycle(equal)]
fn equal_items(items: &[Value], others: &[Value]) -> bool
    ensures { result ≡ items_eq (items_view items.now) (items_view others.now) }
{
    if items.len() != others.len() {
        return false;
    }
    for (item, other) in items.iter().zip(others) {
        if !equal(item, other) {
            return false;
        }
    }
    true
}

/// Whether the members have the same keys and mean the same, one by one.
#[cycle(equal)]
fn equal_fields(fields: &[(String, Value)], others: &[(String, Value)]) -> bool
    ensures { result ≡ fields_eq (fields_view fields.now) (fields_view others.now) }
{
    if fields.len() != others.len() {
        return false;
    }
    for (field, other) in fields.iter().zip(others) {
        if field.0.as_str() != other.0.as_str() {
            return false;
        }
        if !equal(&field.1, &other.1) {
            return false;
        }
    }
    true
}

impl Eq for Value {
    ghost use Rattle.json5_types.specs.ValueMeanings.{value_of};
    ghost use Rattle.json5_types.specs.ValueEquality.{datum_equivalence};

    ghost laws = { on_equiv value_of datum_equivalence };
}
