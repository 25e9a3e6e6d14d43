//! The values of TOML texts.

ghost use Rattle.std.specs.Prelude.{◌≡◌, false, MatchResult};
ghost use Rattle.json5_types.specs.Errors.{LacksMemory};
ghost use Rattle.json5_types.specs.ValueMeanings.{value_of, items_view, fields_view};
ghost use Rattle.toml.specs.View.{view, table_view, items_view as toml_items_view};
ghost use Rattle.json5_convert.specs.Toml.{data_of, data_items, data_members, undated, undated_items, undated_members, IsOfToml, RefusesToml, IsFaultOf};

use json5_numbers::from_f64;
use json5_types::error::{Error, Result};
use json5_types::value::Value;
use json5_types::whole::Whole;
use json5_types::{ErrorCode, Position};
use std::alloc::Global;
use toml::de;

/// Returns the value of a TOML document: an object for each table, in the order of the keys' bytes, since the kit's reader
/// keeps no other; a date or a time is a string of its text. Comments are dropped.
///
/// ```text
/// from_toml(alloc, "[server]\nport = 80\nsince = 2024-05-01\n")?    // {server: {port: 80, since: '2024-05-01'}}
/// ```
///
/// # Errors
///
/// - A custom fault where the text is no TOML 1.1, or nests values more than 80 deep, at its position.
/// - `OutOfMemory`, without a position, where a request for memory was refused.
pub fn from_toml(alloc: Global, text: &str) -> Result<Value>
    ensures { MatchResult result (λ v. IsOfToml text.now (value_of v)) (RefusesToml text.now) }
{
    match toml::table_from_str(alloc, text) {
        Ok(table) => Ok(Value::Object(fields_in(alloc, &table)?)),
        Err(error) => Err(fault_of(alloc, text, &error)),
    }
}

/// The value of a part.
#[cycle(value)]
fn value_in(alloc: Global, part: &toml::Value) -> Result<Value>
    ensures { MatchResult result (λ v. data_of false (value_of v) ≡ undated (view part.now)) LacksMemory }
{
    match part {
        toml::Value::String(text) => Ok(Value::String(String::from_str(alloc, text.as_str())?)),
        toml::Value::Integer(number) => Ok(Value::Whole(Whole::from_i128(i128::from(*number)))),
        toml::Value::Float(number) => Ok(Value::Decimal(from_f64(alloc, *number)?)),
        toml::Value::Boolean(truth) => Ok(Value::Bool(*truth)),
        toml::Value::Datetime(time) => Ok(Value::String(format!(in alloc; "{time}")?)),
        toml::Value::Array(items) => Ok(Value::Array(items_in(alloc, items)?)),
        toml::Value::Table(table) => Ok(Value::Object(fields_in(alloc, table)?)),
    }
}

/// The values of the elements, in their order.
#[cycle(value)]
fn items_in(alloc: Global, items: &[toml::Value]) -> Result<Vec<Value>>
    ensures { MatchResult result (λ v. data_items false (items_view v.items) ≡ undated_items (toml_items_view items.now)) LacksMemory }
{
    let mut values = Vec::with_capacity(alloc, items.len())?;
    for item in items {
        values.push(value_in(alloc, item)?)?;
    }
    Ok(values)
}

/// The members of a table, in the order of their keys.
#[cycle(value)]
fn fields_in(alloc: Global, table: &toml::Table) -> Result<Vec<(String, Value)>>
    ensures { MatchResult result (λ v. data_members false (fields_view v.items) ≡ undated_members (table_view table.now)) LacksMemory }
{
    let mut fields = Vec::with_capacity(alloc, table.len())?;
    for (key, part) in table.iter() {
        let key = String::from_str(alloc, key.as_str())?;
        fields.push((key, value_in(alloc, part)?))?;
    }
    Ok(fields)
}

/// Why the text is refused.
fn fault_of(alloc: Global, text: &str, error: &de::Error) -> Error
    ensures { IsFaultOf error.now result }
{
    let Some(span) = error.span() else {
        return Error::new(ErrorCode::OutOfMemory);
    };
    match Error::custom_at(alloc, position_at(text, span.start), error.message()) {
        Ok(fault) => fault,
        Err(no_memory) => no_memory,
    }
}

/// The position of an offset in a TOML text, whose lines end with a line feed.
fn position_at(text: &str, offset: usize) -> Position {
    let before = text.get(..offset).unwrap_or(text);
    let mut position = Position { line: 0, column: 0 };
    for c in before.chars() {
        if c == '\n' {
            position = Position {
                line: position.line.saturating_add(1),
                column: 0,
            };
        } else {
            position.column = position.column.saturating_add(1);
        }
    }
    position
}
