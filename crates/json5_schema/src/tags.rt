//! Which of several schemas an object is meant for: one that names the value of a member, as `kind: {const: 'circle'}`.
//!
//! Plain code, of which no promise is made but that it is safe and ends: change it by the rows of schemas, which judge it.

use crate::asked::target_of;
use crate::equal::is_among;
use crate::found::Found;
use json5_numbers::members::find;
use json5_numbers::same;
use json5_types::error::Result;
use json5_types::value::Value;
use std::alloc::Global;

/// Whether the schema names the value that a member has, by `const` or `enum`.
#[cycle(names)]
pub fn names_member(
    alloc: Global,
    root: &Value,
    schema: &Value,
    members: &[(String, Value)],
    depth: usize,
    found: &mut Found,
) -> Result<bool> {
    if depth == 0 || !found.goes_on() {
        return Ok(false);
    }
    if names_one(alloc, root, schema.get("properties"), members)? {
        return Ok(true);
    }
    if let Some(target) = referred(root, schema) {
        if names_member(alloc, root, target, members, depth - 1, found)? {
            return Ok(true);
        }
    }
    match schema.get("allOf") {
        Some(Value::Array(parts)) => one_names(alloc, root, parts, members, depth - 1, found),
        _ => Ok(false),
    }
}

/// Whether one of the schemas does.
#[cycle(names)]
fn one_names(
    alloc: Global,
    root: &Value,
    schemas: &[Value],
    members: &[(String, Value)],
    depth: usize,
    found: &mut Found,
) -> Result<bool> {
    for schema in schemas {
        if names_member(alloc, root, schema, members, depth, found)? {
            return Ok(true);
        }
    }
    Ok(false)
}

/// What the schema refers to, if it does.
fn referred<'a>(root: &'a Value, schema: &Value) -> Option<&'a Value> {
    target_of(root, schema.get("$ref")?)
}

/// Whether one of these properties names the value of its member.
fn names_one(
    alloc: Global,
    root: &Value,
    properties: Option<&Value>,
    members: &[(String, Value)],
) -> Result<bool> {
    let Some(properties) = properties else {
        return Ok(false);
    };
    for (key, property) in properties.entries() {
        if let Some(value) = find(members, key.as_str()) {
            let property = referred(root, property).unwrap_or(property);
            if names(alloc, property, value)? {
                return Ok(true);
            }
        }
    }
    Ok(false)
}

/// Whether the schema names the value.
fn names(alloc: Global, schema: &Value, value: &Value) -> Result<bool> {
    match (schema.get("const"), schema.get("enum")) {
        (Some(named), _) => same(alloc, named, value),
        (None, Some(Value::Array(named))) => is_among(alloc, value, named),
        _ => Ok(false),
    }
}
