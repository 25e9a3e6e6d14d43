//! The kinds of values that `type` names.

ghost use Rattle.std.specs.Prelude.{◌≡◌};
ghost use Rattle.json5_types.specs.ValueMeanings.{value_of, items_view};
ghost use Rattle.json5_schema.specs.Keywords.{kind_named};
ghost use Rattle.json5_schema.specs.Conformance.{usual_name, is_integral, is_of_kind, is_of_named, is_of_some, is_of_type};

use json5_types::decimal::Decimal;
use json5_types::value::Value;

/// What `type` can name.
#[derive(Clone, Copy)]
pub enum Kind {
    Null,
    Boolean,
    Object,
    Array,
    Number,
    Integer,
    Text,
    Unknown,
}

/// The kind with this name.
pub fn kind_named(name: &str) -> Kind
    ensures { result ≡ kind_named name.now }
{
    match name {
        "null" => Kind::Null,
        "boolean" => Kind::Boolean,
        "object" => Kind::Object,
        "array" => Kind::Array,
        "number" => Kind::Number,
        "integer" => Kind::Integer,
        "string" => Kind::Text,
        _ => Kind::Unknown,
    }
}

/// Whether the decimal is finite and has no part behind the point.
pub fn is_integral(number: &Decimal) -> bool
    ensures { result ≡ is_integral number.now }
{
    !number.is_infinite() && !number.is_nan() && number.exponent() >= 0
}

/// Whether the value is of this kind.
pub fn is_of_kind(kind: Kind, value: &Value) -> bool
    ensures { result ≡ is_of_kind kind (value_of value.now) }
{
    match (kind, value) {
        (Kind::Null, Value::Null) => true,
        (Kind::Boolean, Value::Bool(_)) => true,
        (Kind::Object, Value::Object(_)) => true,
        (Kind::Array, Value::Array(_)) => true,
        (Kind::Number, Value::Whole(_)) => true,
        (Kind::Number, Value::Decimal(_)) => true,
        (Kind::Integer, Value::Whole(_)) => true,
        (Kind::Integer, Value::Decimal(number)) => is_integral(number),
        (Kind::Text, Value::String(_)) => true,
        _ => false,
    }
}

/// The usual name of the value's kind.
fn usual_name(value: &Value) -> &'static str
    ensures { result.now ≡ usual_name (value_of value.now) }
{
    match value {
        Value::Null => "null",
        Value::Bool(_) => "boolean",
        Value::Whole(_) => "integer",
        Value::Decimal(_) => "number",
        Value::String(_) => "string",
        Value::Array(_) => "array",
        Value::Object(_) => "object",
    }
}

/// Whether the value is of the kind with this name, which mostly is its usual one.
fn is_called(name: &str, value: &Value) -> bool
    ensures { result ≡ is_of_kind (kind_named name.now) (value_of value.now) }
{
    name == usual_name(value) || is_of_kind(kind_named(name), value)
}

/// Whether the value is of the kind that this text names.
fn is_of_named(name: &Value, value: &Value) -> bool
    ensures { result ≡ is_of_named (value_of name.now) (value_of value.now) }
{
    match name {
        Value::String(name) => is_called(name.as_str(), value),
        _ => false,
    }
}

/// Whether the value is of one of the kinds.
fn is_of_some(names: &[Value], value: &Value) -> bool
    ensures { result ≡ is_of_some (items_view names.now) (value_of value.now) }
{
    for name in names {
        if is_of_named(name, value) {
            return true;
        }
    }
    false
}

/// What `type` asserts.
pub fn is_of_type(names: &Value, value: &Value) -> bool
    ensures { result ≡ is_of_type (value_of names.now) (value_of value.now) }
{
    match names {
        Value::Array(names) => is_of_some(names, value),
        _ => is_of_named(names, value),
    }
}
