//! The parts of a literal. `json5!` calls these.

ghost use Rattle.std.specs.Prelude.{◌≡◌, OnOk, IfErr};
ghost use Rattle.std.specs.Str.{chars};
ghost use Rattle.json5_types.specs.Errors.{LacksMemory};
ghost use Rattle.json5_types.specs.ValueChanges.{items_then};
ghost use Rattle.json5_types.specs.ValueMeanings.{value_of, items_view, fields_view};
ghost use Rattle.json5_macro.specs.Literals.{fields_then};

use json5_types::error::Result;
use json5_types::value::Value;
use std::alloc::Global;

/// Adds an element. `json5!` calls this.
///
/// # Errors
///
/// - `OutOfMemory`, without a position, where a request for memory was refused.
pub fn list_push(items: &mut Vec<Value>, item: Value) -> Result<()>
    ensures added { OnOk result (items_view items.new.items ≡ items_then (items_view items.old.items) (value_of item)) }
    ensures refused { IfErr result LacksMemory }
{
    Ok(items.push(item)?)
}

/// Adds a member, also if there is one with this key. `json5!` calls this.
///
/// # Errors
///
/// - `OutOfMemory`, without a position, where a request for memory was refused.
pub fn object_put(
    fields: &mut Vec<(String, Value)>,
    alloc: Global,
    key: &str,
    value: Value,
) -> Result<()>
    ensures added { OnOk result (fields_view fields.new.items ≡ fields_then (fields_view fields.old.items) (chars key.now) (value_of value)) }
    ensures refused { IfErr result LacksMemory }
{
    let name = String::from_str(alloc, key)?;
    Ok(fields.push((name, value))?)
}
