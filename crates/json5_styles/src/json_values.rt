//! Values that JSON has.

ghost use Rattle.std.specs.Prelude.{◌≡◌, ◌&&◌, MatchOption, IfErr};
ghost use Rattle.json5_grammar.specs.Language.Numbers.{decimal};
ghost use Rattle.json5_types.specs.Errors.{LacksMemory};
ghost use Rattle.json5_types.specs.ValueLookups.{fits};
ghost use Rattle.json5_types.specs.ValueMeanings.{array, object, value_of, items_view, fields_view};
ghost use Rattle.json5_styles.specs.JsonTexts.{is_json, is_json_number};
ghost use Rattle.json5_styles.specs.Writable.{is_plain, items_are_plain, is_spelled, is_writable, IsFull, IsInside};

use crate::layout::Spelling;
use json5_types::decimal::Decimal;
use json5_types::error::Result;
use json5_types::nesting::Limit;
use json5_types::value::Value;
use std::alloc::Global;

/// How many more brackets may be open at once, if they are counted.
type Room = Option<u8>;

/// Says whether JSON has the value: it has no infinity and no not-a-number.
pub fn is_json(value: &Value) -> bool
    ensures { result ≡ is_json (value_of value.now) }
{
    is_writable(value, Spelling::Json, None)
}

/// Whether the value can be written: no more than 128 brackets are open at once, and the spelling has its numbers.
pub(crate) fn can_be_written(value: &Value, spelling: Spelling) -> bool
    ensures { result ≡ (fits (value_of value.now) && is_spelled spelling (is_json (value_of value.now))) }
{
    is_writable(value, spelling, Some(Limit::full().get()))
}

/// Whether the spelling has the number: JSON has no infinity and no not-a-number.
#[inline(always)]
fn has_number(spelling: Spelling, number: &Decimal) -> bool
    ensures { result ≡ is_spelled spelling (is_json_number (decimal number.now)) }
{
    match spelling {
        Spelling::Json5 => true,
        Spelling::Json => !number.is_infinite() && !number.is_nan(),
    }
}

/// The room within one more bracket, unless it is the one too many.
#[inline(always)]
fn inside(room: Room) -> Option<Room>
    ensures { MatchOption result (IsFull room) (IsInside room) }
{
    match room {
        None => Some(None),
        Some(0) => None,
        Some(left) => Some(Some(left - 1)),
    }
}

/// Whether the value opens no bracket and has no decimal.
#[inline(always)]
fn is_plain(value: &Value) -> bool
    ensures { result ≡ is_plain (value_of value.now) }
{
    !matches!(
        value,
        Value::Decimal(_) | Value::Array(_) | Value::Object(_)
    )
}

/// Whether each element opens no bracket and has no decimal.
#[inline(always)]
fn are_plain(items: &[Value]) -> bool
    ensures { result ≡ items_are_plain (items_view items.now) }
{
    for item in items {
        if !is_plain(item) {
            return false;
        }
    }
    true
}

/// Whether the brackets are within the room, and the spelling has the numbers. It is one walk for both, which doesn't go
/// into an array of plain elements.
#[cycle(writable)]
#[inline(always)]
fn is_writable(value: &Value, spelling: Spelling, room: Room) -> bool
    ensures { result ≡ is_writable spelling room (value_of value.now) }
{
    match value {
        Value::Decimal(number) => has_number(spelling, number),
        Value::Array(items) => {
            if are_plain(items) {
                inside(room).is_some()
            } else {
                items_are_writable(items, spelling, room)
            }
        }
        Value::Object(fields) => fields_are_writable(fields, spelling, room),
        _ => true,
    }
}

/// The same of an array of these elements.
#[cycle(writable)]
fn items_are_writable(items: &[Value], spelling: Spelling, room: Room) -> bool
    ensures { result ≡ is_writable spelling room (array (items_view items.now)) }
{
    let Some(left) = inside(room) else {
        return false;
    };
    for item in items {
        if !is_writable(item, spelling, left) {
            return false;
        }
    }
    true
}

/// The same of an object of these members.
#[cycle(writable)]
fn fields_are_writable(fields: &[(String, Value)], spelling: Spelling, room: Room) -> bool
    ensures { result ≡ is_writable spelling room (object (fields_view fields.now)) }
{
    let Some(left) = inside(room) else {
        return false;
    };
    for (_, value) in fields {
        if !is_writable(value, spelling, left) {
            return false;
        }
    }
    true
}

/// The path of the first number that JSON hasn't, if there is one: `.server.limits[0]`, and nothing for the value itself.
#[cycle(path)]
pub(crate) fn path_in(alloc: Global, value: &Value) -> Result<Option<String>>
    ensures { IfErr result LacksMemory }
{
    match value {
        Value::Decimal(number) if !has_number(Spelling::Json, number) => Ok(Some(String::new(
            alloc,
        ))),
        Value::Array(items) => path_in_items(alloc, items),
        Value::Object(fields) => path_in_fields(alloc, fields),
        _ => Ok(None),
    }
}

/// The path in the first element that has one.
#[cycle(path)]
fn path_in_items(alloc: Global, items: &[Value]) -> Result<Option<String>>
    ensures { IfErr result LacksMemory }
{
    for (index, item) in items.iter().enumerate() {
        if let Some(rest) = path_in(alloc, item)? {
            return Ok(Some(format!(in alloc; "[{index}]{rest}")?));
        }
    }
    Ok(None)
}

/// The path in the first member that has one.
#[cycle(path)]
fn path_in_fields(alloc: Global, fields: &[(String, Value)]) -> Result<Option<String>>
    ensures { IfErr result LacksMemory }
{
    for (key, value) in fields {
        if let Some(rest) = path_in(alloc, value)? {
            return Ok(Some(format!(in alloc; ".{key}{rest}")?));
        }
    }
    Ok(None)
}
