//! Schemas of null, booleans, numbers, strings and values of any kind, and of options and lists.

ghost use Rattle.std.specs.Prelude.{IfErr, IfOk, negsuc, pos, ◌-◌, ◌^◌, ◌≡◌};
ghost use Rattle.json5_types.specs.Errors.{LacksMemory};
ghost use Rattle.json5_types.specs.ValueMeanings.{Fields, fields_view, item, items_view, no_item, value_of};
ghost use Rattle.json5_settings.specs.DescribedSchemas.{any_schema, boolean_schema, list_schema, null_schema, number_schema, option_schema, text_schema, whole_schema};

use crate::described::{Described, Keywords, integers, keyword_alone, naturals, with_kind};
use json5_tokens::input::Input;
use json5_types::decimal::Decimal;
use json5_types::error::Result;
use json5_types::value::Value;
use std::alloc::Global;

/// Null.
impl<I: Input> Described<I> for () {
    ghost keywords = { null_schema };

    #[tactic(auto, using(crate::proofs::KeywordsPut::values_say))]
    fn keywords(alloc: Global) -> Result<Keywords> {
        null_alone(alloc)
    }
}

/// A boolean.
impl<I: Input> Described<I> for bool {
    ghost keywords = { boolean_schema };

    #[tactic(auto, using(crate::proofs::KeywordsPut::values_say))]
    fn keywords(alloc: Global) -> Result<Keywords> {
        with_kind(alloc, "boolean", Vec::new(alloc))
    }
}

/// A number of any kind.
impl<I: Input> Described<I> for Decimal {
    ghost keywords = { number_schema };

    #[tactic(auto, using(crate::proofs::KeywordsPut::values_say))]
    fn keywords(alloc: Global) -> Result<Keywords> {
        with_kind(alloc, "number", Vec::new(alloc))
    }
}

/// A string.
impl<I: Input> Described<I> for String {
    ghost keywords = { text_schema };

    #[tactic(auto, using(crate::proofs::KeywordsPut::values_say))]
    fn keywords(alloc: Global) -> Result<Keywords> {
        with_kind(alloc, "string", Vec::new(alloc))
    }
}

/// Any value.
impl<I: Input> Described<I> for Value {
    ghost keywords = { any_schema };

    #[tactic(auto, using(crate::proofs::KeywordsPut::values_say))]
    fn keywords(alloc: Global) -> Result<Keywords> {
        Ok(Vec::new(alloc))
    }
}

/// Null, or what the type's schema says.
impl<I: Input, T: Described<I>> Described<I> for Option<T> {
    ghost keywords = { option_schema T.keywords };

    fn keywords(alloc: Global) -> Result<Keywords> {
        null_or(alloc, T::keywords(alloc))
    }
}

/// A list of what the type's schema says.
impl<I: Input, T: Described<I>> Described<I> for Vec<T> {
    ghost keywords = { list_schema T.keywords };

    fn keywords(alloc: Global) -> Result<Keywords> {
        list_of(alloc, T::keywords(alloc))
    }
}

/// A whole number in the type's range. So are those below.
impl<I: Input> Described<I> for u8 {
    ghost keywords = { whole_schema (pos 0) (pos (2 ^ 8 - 1)) };

    fn keywords(alloc: Global) -> Result<Keywords> {
        naturals(alloc, u8::MAX as u128)
    }
}

impl<I: Input> Described<I> for u16 {
    ghost keywords = { whole_schema (pos 0) (pos (2 ^ 16 - 1)) };

    fn keywords(alloc: Global) -> Result<Keywords> {
        naturals(alloc, u16::MAX as u128)
    }
}

impl<I: Input> Described<I> for u32 {
    ghost keywords = { whole_schema (pos 0) (pos (2 ^ 32 - 1)) };

    fn keywords(alloc: Global) -> Result<Keywords> {
        naturals(alloc, u32::MAX as u128)
    }
}

impl<I: Input> Described<I> for u64 {
    ghost keywords = { whole_schema (pos 0) (pos (2 ^ 64 - 1)) };

    fn keywords(alloc: Global) -> Result<Keywords> {
        naturals(alloc, u64::MAX as u128)
    }
}

impl<I: Input> Described<I> for u128 {
    ghost keywords = { whole_schema (pos 0) (pos (2 ^ 128 - 1)) };

    fn keywords(alloc: Global) -> Result<Keywords> {
        naturals(alloc, u128::MAX)
    }
}

impl<I: Input> Described<I> for usize {
    ghost keywords = { whole_schema (pos 0) (pos (2 ^ 64 - 1)) };

    fn keywords(alloc: Global) -> Result<Keywords> {
        naturals(alloc, usize::MAX as u128)
    }
}

impl<I: Input> Described<I> for i8 {
    ghost keywords = { whole_schema (negsuc (2 ^ 7 - 1)) (pos (2 ^ 7 - 1)) };

    fn keywords(alloc: Global) -> Result<Keywords> {
        integers(alloc, i8::MAX as u128)
    }
}

impl<I: Input> Described<I> for i16 {
    ghost keywords = { whole_schema (negsuc (2 ^ 15 - 1)) (pos (2 ^ 15 - 1)) };

    fn keywords(alloc: Global) -> Result<Keywords> {
        integers(alloc, i16::MAX as u128)
    }
}

impl<I: Input> Described<I> for i32 {
    ghost keywords = { whole_schema (negsuc (2 ^ 31 - 1)) (pos (2 ^ 31 - 1)) };

    fn keywords(alloc: Global) -> Result<Keywords> {
        integers(alloc, i32::MAX as u128)
    }
}

impl<I: Input> Described<I> for i64 {
    ghost keywords = { whole_schema (negsuc (2 ^ 63 - 1)) (pos (2 ^ 63 - 1)) };

    fn keywords(alloc: Global) -> Result<Keywords> {
        integers(alloc, i64::MAX as u128)
    }
}

impl<I: Input> Described<I> for i128 {
    ghost keywords = { whole_schema (negsuc (2 ^ 127 - 1)) (pos (2 ^ 127 - 1)) };

    fn keywords(alloc: Global) -> Result<Keywords> {
        integers(alloc, i128::MAX as u128)
    }
}

impl<I: Input> Described<I> for isize {
    ghost keywords = { whole_schema (negsuc (2 ^ 63 - 1)) (pos (2 ^ 63 - 1)) };

    fn keywords(alloc: Global) -> Result<Keywords> {
        integers(alloc, isize::MAX as u128)
    }
}

/// The keywords of null.
fn null_alone(alloc: Global) -> Result<Keywords>
    ensures made { IfOk result (λ made. fields_view made.items ≡ null_schema) }
    ensures refused { IfErr result LacksMemory }
{
    with_kind(alloc, "null", Vec::new(alloc))
}

/// The keywords of null or of what these say.
#[tactic(auto, using(crate::proofs::KeywordsPut::keyword_views))]
fn null_or(alloc: Global, some: Result<Keywords>) -> Result<Keywords>
    ensures made { (kw : Fields) → IfOk some (λ made. fields_view made.items ≡ kw) → IfOk result (λ made. fields_view made.items ≡ option_schema kw) }
    ensures refused { IfErr some LacksMemory → IfErr result LacksMemory }
{
    let some = some?;
    let null = null_alone(alloc)?;
    let schemas = two(alloc, Value::Object(null), Value::Object(some))?;
    keyword_alone(alloc, "anyOf", Value::Array(schemas))
}

/// A list of two.
#[tactic(auto, using(crate::proofs::KeywordsPut::keyword_views))]
fn two(alloc: Global, first: Value, second: Value) -> Result<Vec<Value>>
    ensures made { IfOk result (λ made. items_view made.items ≡ item (value_of first) (item (value_of second) no_item)) }
    ensures refused { IfErr result LacksMemory }
{
    let mut values = Vec::new(alloc);
    values.push(first)?;
    values.push(second)?;
    Ok(values)
}

/// The keywords of a list of what these say.
#[tactic(auto, using(crate::proofs::KeywordsPut::keyword_views))]
fn list_of(alloc: Global, element: Result<Keywords>) -> Result<Keywords>
    ensures made { (kw : Fields) → IfOk element (λ made. fields_view made.items ≡ kw) → IfOk result (λ made. fields_view made.items ≡ list_schema kw) }
    ensures refused { IfErr element LacksMemory → IfErr result LacksMemory }
{
    let element = element?;
    let keywords = keyword_alone(alloc, "items", Value::Object(element))?;
    with_kind(alloc, "array", keywords)
}
