//! What is found in a value.

use crate::answers::{Answer, Shown, found, unknown};
use crate::values::Row;
use json5::{Value, from_str};
use std::alloc::Global;
use std::collections::HashMap;

/// Looks something up in the value.
pub fn answer(alloc: Global, row: Row<'_>, value: &Value) -> Answer {
    match row.call {
        "get" => found(alloc, value.get(row.key).map(Shown)),
        "get_at" => match row.key.parse::<usize>() {
            Ok(index) => found(alloc, value.get(index).map(Shown)),
            Err(_) => unknown(alloc),
        },
        "pointer" => found(alloc, value.pointer(row.rest).map(Shown)),
        "entries" => entries(alloc, value),
        "hash" => in_map(alloc, value, from_str(alloc, row.rest)?),
        _ => unknown(alloc),
    }
}

/// The members, each after a blank.
fn entries(alloc: Global, value: &Value) -> Answer {
    let entries = value.entries();
    let count = entries.len();
    let mut line = format!(in alloc; "{count}")?;
    for (key, value) in entries {
        write!(line, " {key:?}: {:?}", Shown(value))?;
    }
    Ok(line)
}

/// Whether a map finds the value, whose only key is the other one.
fn in_map(alloc: Global, value: &Value, other: Value) -> Answer {
    let mut map = HashMap::new(alloc);
    map.insert(other, 0u8)?;
    found(alloc, Some(map.contains_key(value)))
}
