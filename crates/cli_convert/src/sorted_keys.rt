//! Members in the order of their keys.

use json5_types::error::Result;
use json5_types::value::Value;
use std::alloc::Global;

/// The value with the members of each object in the order of their keys: by the code points of their characters, and equal
/// keys as they stood.
#[cycle(sorted)]
pub(crate) fn sorted(alloc: Global, value: &Value) -> Result<Value> {
    match value {
        Value::Array(items) => Ok(Value::Array(sorted_items(alloc, items)?)),
        Value::Object(fields) => Ok(Value::Object(sorted_fields(alloc, fields)?)),
        other => other.clone(alloc),
    }
}

#[cycle(sorted)]
fn sorted_items(alloc: Global, items: &[Value]) -> Result<Vec<Value>> {
    let mut made = Vec::with_capacity(alloc, items.len())?;
    for item in items {
        made.push(sorted(alloc, item)?)?;
    }
    Ok(made)
}

#[cycle(sorted)]
fn sorted_fields(alloc: Global, fields: &[(String, Value)]) -> Result<Vec<(String, Value)>> {
    let mut made = Vec::with_capacity(alloc, fields.len())?;
    for (key, value) in fields {
        let key = String::from_str(alloc, key.as_str())?;
        made.push((key, sorted(alloc, value)?))?;
    }
    made.sort_by(|one: &(String, Value), other: &(String, Value)| one.0.cmp(&other.0))?;
    Ok(made)
}
