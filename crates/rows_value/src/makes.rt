//! Values that are made.

use crate::answers::{Answer, Shown, unknown};
use crate::values::Row;
use json5::{Decimal, Deserialize, Result, Value, from_str};
use std::alloc::Global;

/// Reads the row's text as the type with the name in its words, and makes a value of that.
pub fn answer(alloc: Global, row: Row<'_>) -> Answer {
    if row.call == "text" {
        return shown(alloc, Value::text(alloc, row.value));
    }
    match row.words {
        "bool" => made::<bool>(alloc, row.value),
        "u8" => made::<u8>(alloc, row.value),
        "u16" => made::<u16>(alloc, row.value),
        "u32" => made::<u32>(alloc, row.value),
        "u64" => made::<u64>(alloc, row.value),
        "u128" => made::<u128>(alloc, row.value),
        "i8" => made::<i8>(alloc, row.value),
        "i16" => made::<i16>(alloc, row.value),
        "i32" => made::<i32>(alloc, row.value),
        "i64" => made::<i64>(alloc, row.value),
        "i128" => made::<i128>(alloc, row.value),
        _ => other(alloc, row),
    }
}

fn other(alloc: Global, row: Row<'_>) -> Answer {
    match row.words {
        "usize" => shown(alloc, of_usize(row.value)),
        "isize" => shown(alloc, of_isize(row.value)),
        "Whole" => shown(alloc, of_whole(alloc, row.value)),
        "Decimal" => made::<Decimal>(alloc, row.value),
        "String" => made::<String>(alloc, row.value),
        "Vec<Value>" => made::<Vec<Value>>(alloc, row.value),
        "Vec<(String, Value)>" => made::<Vec<(String, Value)>>(alloc, row.value),
        _ => unknown(alloc),
    }
}

/// What a value is that is made of the text's.
fn made<'t, T: Deserialize<&'t str> + Into<Value>>(alloc: Global, text: &'t str) -> Answer {
    let content: T = from_str(alloc, text)?;
    shown(alloc, Ok(content.into()))
}

fn of_usize(text: &str) -> Result<Value> {
    Ok(Value::from(text.parse::<usize>().unwrap_or(0)))
}

fn of_isize(text: &str) -> Result<Value> {
    Ok(Value::from(text.parse::<isize>().unwrap_or(0)))
}

fn of_whole(alloc: Global, text: &str) -> Result<Value> {
    let value: Value = from_str(alloc, text)?;
    match value.as_whole() {
        Some(number) => Ok(Value::from(number)),
        None => Ok(Value::Null),
    }
}

fn shown(alloc: Global, value: Result<Value>) -> Answer {
    let value = value?;
    Ok(format!(in alloc; "{:?}", Shown(&value))?)
}
