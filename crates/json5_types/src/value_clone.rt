//! Copies of values.

ghost use Rattle.std.specs.Prelude.{◌≡◌, MatchResult};
ghost use Rattle.json5_types.specs.Errors.{LacksMemory};
ghost use Rattle.json5_types.specs.ValueMeanings.{value_of, items_view, fields_view};
ghost use Rattle.json5_types.specs.ValueLookups.{CopiesValue};

use crate::error::{Error, Result};
use crate::value::Value;
use json5_grammar::error_code::ErrorCode;
use std::alloc::Global;

impl Value {
    /// Returns an equal value, which owns its memory.
    ///
    /// ```text
    /// let Some(server) = settings.get("server") else { .. };
    /// let copy = server.clone(alloc)?;    // it may outlive `settings`
    /// ```
    ///
    /// # Errors
    ///
    /// None has a position.
    /// - `TooDeep` where more than 128 brackets are open at once in it: see [`fits`](Value::fits).
    /// - `OutOfMemory` where a request for memory was refused.
    pub fn clone(&self, alloc: Global) -> Result<Value>
        ensures { CopiesValue (value_of self.now) result }
    {
        if !self.fits() {
            return Err(Error::new(ErrorCode::TooDeep));
        }
        copy(alloc, self)
    }
}

/// A copy of the value, with copies of all that it holds.
#[cycle(copy)]
fn copy(alloc: Global, value: &Value) -> Result<Value>
    ensures { MatchResult result (λ v. value_of v ≡ value_of value.now) LacksMemory }
{
    match value {
        Value::Null => Ok(Value::Null),
        Value::Bool(truth) => Ok(Value::Bool(*truth)),
        Value::Whole(number) => Ok(Value::Whole(*number)),
        Value::Decimal(number) => Ok(Value::Decimal(number.clone(alloc)?)),
        Value::String(text) => Ok(Value::String(String::from_str(alloc, text.as_str())?)),
        Value::Array(items) => Ok(Value::Array(copy_items(alloc, items)?)),
        Value::Object(fields) => Ok(Value::Object(copy_fields(alloc, fields)?)),
    }
}

/// Copies of the elements, in their order.
#[cycle(copy)]
fn copy_items(alloc: Global, items: &[Value]) -> Result<Vec<Value>>
    ensures { MatchResult result (λ v. items_view v.items ≡ items_view items.now) LacksMemory }
{
    let mut copies = Vec::with_capacity(alloc, items.len())?;
    for item in items {
        copies.push(copy(alloc, item)?)?;
    }
    Ok(copies)
}

/// Copies of the members, in their order.
#[cycle(copy)]
fn copy_fields(alloc: Global, fields: &[(String, Value)]) -> Result<Vec<(String, Value)>>
    ensures { MatchResult result (λ v. fields_view v.items ≡ fields_view fields.now) LacksMemory }
{
    let mut copies = Vec::with_capacity(alloc, fields.len())?;
    for (key, value) in fields {
        let key = String::from_str(alloc, key.as_str())?;
        copies.push((key, copy(alloc, value)?))?;
    }
    Ok(copies)
}
