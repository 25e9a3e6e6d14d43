//! What a `ValueRef` of a row's text answers.

use crate::answers::{Answer, Shown, found, unknown};
use crate::values::Row;
use json5::{Error, Value, ValueRef};
use std::alloc::Global;

/// The answer, if a `ValueRef` is equal to the value and gives the same.
pub fn same(alloc: Global, row: Row<'_>, value: &Value, answer: Answer) -> Answer {
    let borrowed = ValueRef::from_str(alloc, row.value)?;
    if borrowed.equals(value) && answer == asked(alloc, row, &borrowed) {
        return answer;
    }
    Err(Error::custom(alloc, "a ValueRef gives something else")?)
}

fn asked(alloc: Global, row: Row<'_>, value: &ValueRef<'_>) -> Answer {
    match row.call {
        "len" => found(alloc, value.len()),
        "as_u64" => found(alloc, value.as_u64()),
        "as_i64" => found(alloc, value.as_i64()),
        "get" => shown(alloc, value.get(row.key)),
        "get_at" => match row.key.parse::<usize>() {
            Ok(index) => shown(alloc, value.at(index)),
            Err(_) => unknown(alloc),
        },
        "pointer" => shown(alloc, value.pointer(row.rest)),
        "entries" => entries(alloc, value),
        _ => unknown(alloc),
    }
}

fn shown(alloc: Global, value: Option<&ValueRef<'_>>) -> Answer {
    let Some(value) = value else {
        return found(alloc, None::<u8>);
    };
    let owned = value.to_owned(alloc)?;
    found(alloc, Some(Shown(&owned)))
}

/// The members, each after a blank.
fn entries(alloc: Global, value: &ValueRef<'_>) -> Answer {
    let entries = value.entries();
    let count = entries.len();
    let mut line = format!(in alloc; "{count}")?;
    for (key, value) in entries {
        write!(
            line,
            " {:?}: {:?}",
            key.as_str(),
            Shown(&value.to_owned(alloc)?)
        )?;
    }
    Ok(line)
}
