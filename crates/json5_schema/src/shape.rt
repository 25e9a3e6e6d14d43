//! What the argument of a keyword has to be.

ghost use Rattle.std.specs.Prelude.{◌≡◌, ◌&&◌, ◌^◌, pos, int_le, int_lt};
ghost use Rattle.json5_grammar.specs.Language.Numbers.{decimal};
ghost use Rattle.json5_types.specs.NumberDecimals.{digits_in};
ghost use Rattle.json5_types.specs.ValueMeanings.{number, value_of, items_view, fields_view};
ghost use Rattle.json5_schema.specs.Refusals.{are_few_digits, has_few_digits};
ghost use Rattle.json5_schema.specs.Shapes.{applicator_shape, assertion_shape, other_shape, shape_named, are_texts, is_names, are_named_names, is_named_names, is_known_kind, is_kind, are_kinds, is_kinds, is_count, is_divisor, has_item, holding_of, has_outline};

use crate::keyword::{Applicator, Assertion, Keyword, keyword_named};
use crate::kind::{Kind, is_integral, kind_named};
use json5_types::decimal::Decimal;
use json5_types::value::Value;
use json5_types::whole::Whole;

/// What the argument of a keyword has to be.
#[derive(Clone, Copy, Debug)]
pub enum Shape {
    /// A schema: an object, or a boolean.
    Schema,
    /// An array of at least one schema.
    Schemas,
    /// A schema, or an array of schemas.
    SchemaOrSchemas,
    /// An object of schemas.
    NamedSchemas,
    /// An object of schemas and arrays of names.
    NamedSchemasOrNames,
    /// An object of arrays of names.
    NamedNames,
    /// An array of strings.
    Names,
    /// The name of a kind, or an array of them.
    Kinds,
    Array,
    Boolean,
    Number,
    /// A number without a fraction and not below zero.
    Count,
    /// A number above zero, whose digits are below 2^64.
    Divisor,
    /// A string that begins with `#`.
    Reference,
    /// A name for a schema; of `$id` behind `#`.
    Anchor,
    /// A string that is a regular expression.
    Pattern,
    /// An object of schemas, whose keys are regular expressions.
    PatternSchemas,
    /// The name of a format, which is asserted.
    Format,
    /// The keyword isn't decided.
    Undecided,
    /// The keyword asks nothing of a value.
    Any,
}

/// Where the schemas of an argument stand.
#[derive(Clone, Copy)]
pub(crate) enum Holding {
    Nothing,
    Alone,
    Elements,
    AloneOrElements,
    Members,
    MembersOrNames,
}

impl Shape {
    /// Returns the shape in words.
    pub fn as_str(self) -> &'static str {
        match self {
            Shape::Schema => "a schema: an object, or true or false",
            Shape::Schemas => "an array of at least one schema",
            Shape::SchemaOrSchemas => "a schema, or an array of schemas",
            Shape::NamedSchemas => "an object of schemas",
            Shape::NamedSchemasOrNames => "an object of schemas and arrays of names",
            Shape::NamedNames => "an object of arrays of names",
            Shape::Names => "an array of names",
            Shape::Kinds => "the name of a type, or an array of them",
            Shape::Array => "an array",
            Shape::Boolean => "true or false",
            Shape::Number => "a number",
            Shape::Count => "a whole number that isn't below zero",
            Shape::Divisor => "a number above zero, of at most 19 digits",
            Shape::Reference => "a reference",
            Shape::Anchor => "a name: a letter, and then letters, digits, `-`, `_`, `.` or `:`",
            Shape::Pattern => "a regular expression",
            Shape::PatternSchemas => "an object of schemas, with regular expressions for keys",
            Shape::Format => "the name of a format",
            Shape::Undecided => "another keyword",
            Shape::Any => "anything",
        }
    }
}

/// What the argument of the keyword with this name has to be.
pub(crate) fn shape_of(name: &str) -> Shape
    ensures { result ≡ shape_named name.now }
{
    match keyword_named(name) {
        Keyword::Assertion(assertion) => assertion_shape(assertion),
        Keyword::Applicator(applicator) => applicator_shape(applicator),
        Keyword::Annotation => other_shape(name),
    }
}

/// What the argument of a keyword has to be that says by itself whether a value is as it is wanted.
fn assertion_shape(assertion: Assertion) -> Shape
    ensures { result ≡ assertion_shape assertion }
{
    match assertion {
        Assertion::Type => Shape::Kinds,
        Assertion::Enum => Shape::Array,
        Assertion::Const => Shape::Any,
        Assertion::MultipleOf => Shape::Divisor,
        Assertion::Maximum => Shape::Number,
        Assertion::ExclusiveMaximum => Shape::Number,
        Assertion::Minimum => Shape::Number,
        Assertion::ExclusiveMinimum => Shape::Number,
        Assertion::MaxLength => Shape::Count,
        Assertion::MinLength => Shape::Count,
        Assertion::Pattern => Shape::Pattern,
        Assertion::Format => Shape::Any,
        Assertion::MaxItems => Shape::Count,
        Assertion::MinItems => Shape::Count,
        Assertion::UniqueItems => Shape::Boolean,
        Assertion::MaxProperties => Shape::Count,
        Assertion::MinProperties => Shape::Count,
        Assertion::Required => Shape::Names,
        Assertion::DependentRequired => Shape::NamedNames,
    }
}

/// What the argument of a keyword has to be that applies schemas.
fn applicator_shape(applicator: Applicator) -> Shape
    ensures { result ≡ applicator_shape applicator }
{
    match applicator {
        Applicator::AllOf => Shape::Schemas,
        Applicator::AnyOf => Shape::Schemas,
        Applicator::OneOf => Shape::Schemas,
        Applicator::Not => Shape::Schema,
        Applicator::If => Shape::Schema,
        Applicator::DependentSchemas => Shape::NamedSchemas,
        Applicator::Dependencies => Shape::NamedSchemasOrNames,
        Applicator::PrefixItems => Shape::Schemas,
        Applicator::Items => Shape::SchemaOrSchemas,
        Applicator::AdditionalItems => Shape::Schema,
        Applicator::Contains => Shape::Schema,
        Applicator::Properties => Shape::NamedSchemas,
        Applicator::PatternProperties => Shape::PatternSchemas,
        Applicator::AdditionalProperties => Shape::Schema,
        Applicator::PropertyNames => Shape::Schema,
        Applicator::UnevaluatedProperties => Shape::Schema,
        Applicator::UnevaluatedItems => Shape::Schema,
        Applicator::Ref => Shape::Reference,
    }
}

/// What the argument of another word has to be.
fn other_shape(name: &str) -> Shape
    ensures { result ≡ other_shape name.now }
{
    match name {
        "then" => Shape::Schema,
        "else" => Shape::Schema,
        "contentSchema" => Shape::Schema,
        "$defs" => Shape::NamedSchemas,
        "definitions" => Shape::NamedSchemas,
        "maxContains" => Shape::Count,
        "minContains" => Shape::Count,
        "$anchor" => Shape::Anchor,
        "$dynamicRef" => Shape::Undecided,
        "$dynamicAnchor" => Shape::Undecided,
        "$recursiveRef" => Shape::Undecided,
        "$recursiveAnchor" => Shape::Undecided,
        _ => Shape::Any,
    }
}

/// Whether all of these are strings.
fn are_names(names: &[Value]) -> bool
    ensures { result ≡ are_texts (items_view names.now) }
{
    for name in names {
        if !name.is_string() {
            return false;
        }
    }
    true
}

/// Whether it is an array of strings.
pub(crate) fn is_names(argument: &Value) -> bool
    ensures { result ≡ is_names (value_of argument.now) }
{
    match argument {
        Value::Array(names) => are_names(names),
        _ => false,
    }
}

/// Whether all of these are arrays of strings.
fn are_named_names(members: &[(String, Value)]) -> bool
    ensures { result ≡ are_named_names (fields_view members.now) }
{
    for (_, names) in members {
        if !is_names(names) {
            return false;
        }
    }
    true
}

/// Whether it is an object of arrays of strings.
fn is_named_names(argument: &Value) -> bool
    ensures { result ≡ is_named_names (value_of argument.now) }
{
    match argument {
        Value::Object(members) => are_named_names(members),
        _ => false,
    }
}

/// Whether it is one of those that `type` can name.
fn is_known(kind: Kind) -> bool
    ensures { result ≡ is_known_kind kind }
{
    !matches!(kind, Kind::Unknown)
}

/// Whether it is the name of a kind.
fn is_kind(name: &Value) -> bool
    ensures { result ≡ is_kind (value_of name.now) }
{
    match name {
        Value::String(name) => is_known(kind_named(name.as_str())),
        _ => false,
    }
}

/// Whether all of these are names of kinds.
fn are_kinds(names: &[Value]) -> bool
    ensures { result ≡ are_kinds (items_view names.now) }
{
    for name in names {
        if !is_kind(name) {
            return false;
        }
    }
    true
}

/// Whether it is the name of a kind, or an array of them.
fn is_kinds(argument: &Value) -> bool
    ensures { result ≡ is_kinds (value_of argument.now) }
{
    match argument {
        Value::Array(names) => are_kinds(names),
        _ => is_kind(argument),
    }
}

/// Whether a whole number isn't below zero.
fn is_whole_count(number: Whole) -> bool
    ensures { result ≡ int_le (pos 0) number }
{
    number.as_u128().is_some()
}

/// Whether a decimal has no fraction and isn't below zero.
fn is_decimal_count(given: &Decimal) -> bool
    ensures { result ≡ is_count (number (decimal given.now)) }
{
    is_integral(given) && (!given.is_negative() || given.digits().is_empty())
}

/// Whether it is a number without a fraction and not below zero.
fn is_count(argument: &Value) -> bool
    ensures { result ≡ is_count (value_of argument.now) }
{
    match argument {
        Value::Whole(number) => is_whole_count(*number),
        Value::Decimal(number) => is_decimal_count(number),
        _ => false,
    }
}

/// Whether a whole number is above zero.
fn is_whole_divisor(number: Whole) -> bool
    ensures { result ≡ int_lt (pos 0) number }
{
    match number.as_u128() {
        Some(number) => 0 < number,
        None => false,
    }
}

/// Whether a decimal is above zero.
fn is_decimal_divisor(given: &Decimal) -> bool
    ensures { result ≡ is_divisor (number (decimal given.now)) }
{
    !given.is_negative() && !given.digits().is_empty()
}

/// Whether it is a number above zero.
fn is_divisor(argument: &Value) -> bool
    ensures { result ≡ is_divisor (value_of argument.now) }
{
    match argument {
        Value::Whole(number) => is_whole_divisor(*number),
        Value::Decimal(number) => is_decimal_divisor(number),
        _ => false,
    }
}

/// Whether a whole number isn't below zero, but below 2^64.
fn is_small(number: Whole) -> bool
    ensures { result ≡ (int_le (pos 0) number && int_lt number (pos (2 ^ 64))) }
{
    match number.as_u128() {
        Some(number) => number <= 0xFFFF_FFFF_FFFF_FFFF,
        None => false,
    }
}

/// Whether the digits of a decimal are below 2^64.
fn is_short(number: &Decimal) -> bool
    ensures { result ≡ are_few_digits (digits_in number.now) }
{
    number.digits().parse::<u64>().is_ok()
}

/// Whether the digits of a number are below 2^64.
pub(crate) fn has_few_digits(number: &Value) -> bool
    ensures { result ≡ has_few_digits (value_of number.now) }
{
    match number {
        Value::Whole(number) => is_small(*number),
        Value::Decimal(number) => is_short(number),
        _ => false,
    }
}

/// Whether it is an array of one element at least.
fn has_item(argument: &Value) -> bool
    ensures { result ≡ has_item (value_of argument.now) }
{
    match argument {
        Value::Array(items) => !items.is_empty(),
        _ => false,
    }
}

/// Where schemas stand in an argument of this shape.
pub(crate) fn holding_of(shape: Shape) -> Holding
    ensures { result ≡ holding_of shape }
{
    match shape {
        Shape::Schema => Holding::Alone,
        Shape::Schemas => Holding::Elements,
        Shape::SchemaOrSchemas => Holding::AloneOrElements,
        Shape::NamedSchemas => Holding::Members,
        Shape::PatternSchemas => Holding::Members,
        Shape::NamedSchemasOrNames => Holding::MembersOrNames,
        _ => Holding::Nothing,
    }
}

/// Whether the argument has the shape, whatever stands in an array or an object of schemas.
pub(crate) fn is_of_shape(shape: Shape, argument: &Value) -> bool
    ensures { result ≡ has_outline shape (value_of argument.now) }
{
    match shape {
        Shape::Schema => true,
        Shape::Schemas => has_item(argument),
        Shape::SchemaOrSchemas => true,
        Shape::NamedSchemas => argument.is_object(),
        Shape::NamedSchemasOrNames => argument.is_object(),
        Shape::PatternSchemas => argument.is_object(),
        Shape::NamedNames => is_named_names(argument),
        Shape::Names => is_names(argument),
        Shape::Kinds => is_kinds(argument),
        Shape::Array => argument.is_array(),
        Shape::Boolean => argument.is_boolean(),
        Shape::Number => argument.is_number(),
        Shape::Count => is_count(argument),
        Shape::Divisor => is_divisor(argument),
        Shape::Reference => argument.is_string(),
        Shape::Anchor => argument.is_string(),
        Shape::Pattern => argument.is_string(),
        Shape::Format => argument.is_string(),
        Shape::Undecided => false,
        Shape::Any => true,
    }
}
