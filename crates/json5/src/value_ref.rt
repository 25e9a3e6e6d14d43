//! Values of any kind whose texts are borrowed.

ghost use Rattle.std.specs.Prelude.{◌≡◌, MatchResult};
ghost use Rattle.std.specs.Str.{chars};
ghost use Rattle.json5_grammar.specs.Language.Documents.{max_depth};
ghost use Rattle.json5_types.specs.Cows.{cow_bytes};
ghost use Rattle.json5_types.specs.Errors.{LacksMemory};
ghost use Rattle.json5_types.specs.ValueMeanings.{value_of, items_view, fields_view};
ghost use Rattle.json5.specs.ValueRefs.{ReadsRef, ref_of, refs_view, members_view};

use crate::value_ref_walks::walked;
use json5_read::read_document_within;
use json5_types::cow_str::CowStr;
use json5_types::decimal::Decimal;
use json5_types::error::Result;
use json5_types::nesting::Limit;
use json5_types::value::Value;
use json5_types::whole::Whole;
use std::alloc::Global;

/// What a JSON5 text holds, as [`Value`] has it, but strings and keys are borrowed from the text where they are spelled without an
/// escape. So most of them take no memory, and the value lives no longer than the text. No clause says which are borrowed.
///
/// ```text
/// let value = ValueRef::from_str(alloc, text)?;
/// value.get("host")?.as_str()    // Some of `localhost`, a part of the text `{host: 'localhost'}`
/// to_string(alloc, &value)?      // as of the `Value` that means the same, and without making it
/// ```
///
/// A layout, and JSON, are written of a `Value` alone: [`to_owned`](ValueRef::to_owned) makes one, and copies each text.
#[derive(Debug, Drop)]
pub enum ValueRef<'de> {
    /// `null`.
    Null,
    /// `true` or `false`.
    Bool(bool),
    /// A whole number from `i128::MIN` to `u128::MAX`, written without a point and an exponent.
    Whole(Whole),
    /// Any other number.
    Decimal(Decimal),
    /// The text of a string, without the quotes and with its escapes replaced.
    String(CowStr<'de>),
    /// The elements of an array, in their order.
    Array(Vec<ValueRef<'de>>),
    /// The members of an object, in their order, each a key's text and its value; equal keys are kept.
    Object(Vec<(CowStr<'de>, ValueRef<'de>)>),
}

impl<'de> ValueRef<'de> {
    /// Reads a document, nested at most 128 deep. It is [`from_str_within`](ValueRef::from_str_within) at the full limit.
    ///
    /// ```text
    /// let value = ValueRef::from_str(alloc, "{a: [1, 2.5, null]}")?;    // an Object of one member, whose value is an Array
    /// ```
    ///
    /// # Errors
    ///
    /// As [`from_str_within`](ValueRef::from_str_within).
    pub fn from_str(alloc: Global, text: &'de str) -> Result<ValueRef<'de>>
        ensures { ReadsRef max_depth (chars text.now) result }
    {
        ValueRef::from_str_within(alloc, Limit::full(), text)
    }

    /// Reads a document, with no more brackets open at once than the limit.
    ///
    /// Returns Ok exactly when the text is such a document, and then what its tree means, unless memory runs out. Any other text
    /// is refused with its fault.
    ///
    /// ```text
    /// let value = ValueRef::from_str_within(alloc, Limit::new(16).unwrap(), text)?;
    /// ```
    ///
    /// # Errors
    ///
    /// Those of `json5::from_str_within` for a [`Value`], at the same positions. Each open bracket takes up to half a KiB of stack.
    pub fn from_str_within(alloc: Global, limit: Limit, text: &'de str) -> Result<ValueRef<'de>>
        ensures { ReadsRef limit (chars text.now) result }
    {
        match walked(alloc, limit, text) {
            Some(value) => Ok(value),
            None => unborrowed(alloc, &read_document_within(alloc, limit, text)?),
        }
    }

    /// Returns a value that means the same and owns its texts.
    ///
    /// ```text
    /// let kept = ValueRef::from_str(alloc, text)?.to_owned(alloc)?;    // a Value, which may outlive the text
    /// ```
    ///
    /// # Errors
    ///
    /// - `OutOfMemory`, without a position, where a request for memory was refused.
    pub fn to_owned(&self, alloc: Global) -> Result<Value>
        ensures { MatchResult result (λ v. value_of v ≡ ref_of self.now) LacksMemory }
    {
        owned(alloc, self)
    }
}

/// A copy that owns its texts.
#[cycle(owned)]
fn owned(alloc: Global, value: &ValueRef<'_>) -> Result<Value>
    ensures { MatchResult result (λ v. value_of v ≡ ref_of value.now) LacksMemory }
{
    match value {
        ValueRef::Null => Ok(Value::Null),
        ValueRef::Bool(truth) => Ok(Value::Bool(*truth)),
        ValueRef::Whole(number) => Ok(Value::Whole(*number)),
        ValueRef::Decimal(number) => Ok(Value::Decimal(number.clone(alloc)?)),
        ValueRef::String(text) => Ok(Value::String(String::from_str(alloc, text.as_str())?)),
        ValueRef::Array(items) => Ok(Value::Array(owned_items(alloc, items)?)),
        ValueRef::Object(members) => Ok(Value::Object(owned_members(alloc, members)?)),
    }
}

/// Copies of the elements, in their order.
#[cycle(owned)]
fn owned_items(alloc: Global, items: &[ValueRef<'_>]) -> Result<Vec<Value>>
    ensures { MatchResult result (λ v. items_view v.items ≡ refs_view items.now) LacksMemory }
{
    let mut copies = Vec::with_capacity(alloc, items.len())?;
    for item in items {
        copies.push(owned(alloc, item)?)?;
    }
    Ok(copies)
}

/// Copies of the members, in their order.
#[cycle(owned)]
fn owned_members(
    alloc: Global,
    members: &[(CowStr<'_>, ValueRef<'_>)],
) -> Result<Vec<(String, Value)>>
    ensures { MatchResult result (λ v. fields_view v.items ≡ members_view members.now) LacksMemory }
{
    let mut copies = Vec::with_capacity(alloc, members.len())?;
    for (key, value) in members {
        let key = String::from_str(alloc, key.as_str())?;
        copies.push((key, owned(alloc, value)?))?;
    }
    Ok(copies)
}

/// A copy that borrows nothing.
#[cycle(unborrowed)]
fn unborrowed<'de>(alloc: Global, value: &Value) -> Result<ValueRef<'de>>
    ensures { MatchResult result (λ v. ref_of v ≡ value_of value.now) LacksMemory }
{
    match value {
        Value::Null => Ok(ValueRef::Null),
        Value::Bool(truth) => Ok(ValueRef::Bool(*truth)),
        Value::Whole(number) => Ok(ValueRef::Whole(*number)),
        Value::Decimal(number) => Ok(ValueRef::Decimal(number.clone(alloc)?)),
        Value::String(text) => Ok(ValueRef::String(unborrowed_text(alloc, text.as_str())?)),
        Value::Array(items) => Ok(ValueRef::Array(unborrowed_items(alloc, items)?)),
        Value::Object(fields) => Ok(ValueRef::Object(unborrowed_members(alloc, fields)?)),
    }
}

/// A copy of the text.
fn unborrowed_text<'de>(alloc: Global, text: &str) -> Result<CowStr<'de>>
    ensures { MatchResult result (λ t. cow_bytes t ≡ text.now) LacksMemory }
{
    Ok(CowStr::Owned(String::from_str(alloc, text)?))
}

/// Copies of the elements, in their order.
#[cycle(unborrowed)]
fn unborrowed_items<'de>(alloc: Global, items: &[Value]) -> Result<Vec<ValueRef<'de>>>
    ensures { MatchResult result (λ v. refs_view v.items ≡ items_view items.now) LacksMemory }
{
    let mut copies = Vec::with_capacity(alloc, items.len())?;
    for item in items {
        copies.push(unborrowed(alloc, item)?)?;
    }
    Ok(copies)
}

/// Copies of the members, in their order.
#[cycle(unborrowed)]
fn unborrowed_members<'de>(
    alloc: Global,
    fields: &[(String, Value)],
) -> Result<Vec<(CowStr<'de>, ValueRef<'de>)>>
    ensures { MatchResult result (λ v. members_view v.items ≡ fields_view fields.now) LacksMemory }
{
    let mut copies = Vec::with_capacity(alloc, fields.len())?;
    for (key, value) in fields {
        let key: CowStr<'de> = unborrowed_text(alloc, key.as_str())?;
        let value: ValueRef<'de> = unborrowed(alloc, value)?;
        copies.push((key, value))?;
    }
    Ok(copies)
}
