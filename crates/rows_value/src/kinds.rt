//! What a value is.

use crate::answers::{Answer, found, unknown};
use crate::values::Row;
use json5::Value;
use std::alloc::Global;

/// Asks the value what it is.
pub fn answer(alloc: Global, row: Row<'_>, value: &Value) -> Answer {
    match row.call {
        "is" => kinds_of(alloc, value),
        "len" => found(alloc, value.len()),
        "as_u64" => found(alloc, value.as_u64()),
        "as_i64" => found(alloc, value.as_i64()),
        "as_u128" => found(alloc, value.as_u128()),
        "as_i128" => found(alloc, value.as_i128()),
        _ => unknown(alloc),
    }
}

/// The kinds that it is of.
fn kinds_of(alloc: Global, value: &Value) -> Answer {
    let mut names = String::new(alloc);
    for (holds, name) in [
        (value.is_null(), "null "),
        (value.is_boolean(), "boolean "),
        (value.is_number(), "number "),
        (value.is_whole(), "whole "),
        (value.is_decimal(), "decimal "),
        (value.is_string(), "string "),
        (value.is_array(), "array "),
        (value.is_object(), "object "),
    ] {
        if holds {
            names.push_str(name)?;
        }
    }
    Ok(String::from_str(alloc, names.as_str().trim_end())?)
}
