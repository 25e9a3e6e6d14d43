//! Values that are changed. The answer is what the call returns, and then the value.

use crate::answers::{Answer, Shown, fault, found, unknown, wrapped};
use crate::values::Row;
use json5::{Result, Value, from_str, member_mut};
use std::alloc::Global;

/// Changes the value.
pub fn answer(alloc: Global, row: Row<'_>, value: Value) -> Answer {
    let mut value = value;
    let returned = match changed(alloc, row, &mut value) {
        Ok(returned) => returned,
        Err(error) => fault(alloc, &error)?,
    };
    Ok(format!(in alloc; "{returned}, {:?}", Shown(&value))?)
}

/// What the call returns.
fn changed(alloc: Global, row: Row<'_>, value: &mut Value) -> Answer {
    match row.call {
        "insert" => inserted(alloc, row, value),
        "remove" => of_value(alloc, value.remove(row.key)),
        "push" => done(alloc, value.push(from_str(alloc, row.key)?)),
        "take" => of_value(alloc, Some(value.take())),
        "merge" => done(alloc, value.merge(from_str(alloc, row.key)?)),
        "as_array_mut" => nested(alloc, value),
        "as_object_mut" => popped(alloc, value),
        _ => replaced(alloc, row, value),
    }
}

/// A value, or `none`.
fn of_value(alloc: Global, value: Option<Value>) -> Answer {
    found(alloc, value.as_ref().map(Shown))
}

/// `done`, if nothing was refused.
fn done(alloc: Global, returned: Result<()>) -> Answer {
    returned?;
    Ok(String::from_str(alloc, "done")?)
}

/// Puts a member into the value.
fn inserted(alloc: Global, row: Row<'_>, value: &mut Value) -> Answer {
    let key = String::from_str(alloc, row.key)?;
    let new = from_str(alloc, row.other)?;
    let old = value.insert(key, new)?;
    of_value(alloc, old)
}

/// Puts each element into an array of its own.
fn nested(alloc: Global, value: &mut Value) -> Answer {
    let Some(items) = value.as_array_mut() else {
        return found::<u8>(alloc, None);
    };
    for item in items.iter_mut() {
        let inner = item.take();
        *item = wrapped(alloc, inner)?;
    }
    done(alloc, Ok(()))
}

/// Takes the last member out.
fn popped(alloc: Global, value: &mut Value) -> Answer {
    let last = match value.as_object_mut() {
        Some(fields) => fields.pop(),
        None => return found::<u8>(alloc, None),
    };
    match last {
        Some((key, _)) => found(alloc, Some(key.as_str())),
        None => found(alloc, Some("")),
    }
}

/// Replaces the value at a place.
fn replaced(alloc: Global, row: Row<'_>, value: &mut Value) -> Answer {
    let new = from_str(alloc, row.other)?;
    let is_there = match row.call {
        "member_mut" => put_at_member(value, row.key, new),
        "get_mut" => put_at_key(value, row.key, new),
        "get_mut_at" => put_at_index(value, row.key, new),
        "pointer_mut" => put_at_pointer(value, row.key, new),
        _ => return unknown(alloc),
    };
    if is_there {
        done(alloc, Ok(()))
    } else {
        found::<u8>(alloc, None)
    }
}

fn put_at_member(value: &mut Value, key: &str, new: Value) -> bool {
    if let Some(place) = member_of(value, key) {
        *place = new;
        return true;
    }
    false
}

fn member_of<'v>(value: &'v mut Value, key: &str) -> Option<&'v mut Value> {
    member_mut(value.as_object_mut()?, key)
}

fn put_at_key(value: &mut Value, key: &str, new: Value) -> bool {
    if let Some(place) = value.get_mut(key) {
        *place = new;
        return true;
    }
    false
}

fn put_at_index(value: &mut Value, index: &str, new: Value) -> bool {
    let index: usize = index.parse().unwrap_or(0);
    if let Some(place) = value.get_mut(index) {
        *place = new;
        return true;
    }
    false
}

fn put_at_pointer(value: &mut Value, path: &str, new: Value) -> bool {
    if let Some(place) = value.pointer_mut(path) {
        *place = new;
        return true;
    }
    false
}
