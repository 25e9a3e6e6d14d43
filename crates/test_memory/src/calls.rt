//! Formatting, clones, custom faults, and values of any kind.

use crate::inputs::{README, SETTINGS};
use crate::print;
use crate::reads::taken;
use json5::{Decimal, Deserializer, Error, Position, Result, Value, format, from_str, to_string};
use std::alloc::Global;
use std::io::{self, Write};

/// What is written of the clone of a value.
fn value_clone(alloc: Global) -> Result<String> {
    let value: Value = from_str(alloc, "{a:[1,1.5,'x',null,true],b:{}}")?;
    let copy = value.clone(alloc)?;
    to_string(alloc, &(copy == value, copy))
}

fn decimal_clone(alloc: Global) -> Result<String> {
    let decimal: Decimal = from_str(alloc, "-1.5")?;
    let copy = decimal.clone(alloc)?;
    to_string(alloc, &(copy == decimal, copy))
}

fn error_clone(alloc: Global) -> Result<String> {
    let fault = Error::custom(alloc, "of mine")?;
    Err(fault.clone(alloc)?)
}

fn custom(alloc: Global) -> Result<String> {
    Err(Error::custom(alloc, "missing field `a`")?)
}

fn custom_at(alloc: Global) -> Result<String> {
    let place = Position { line: 1, column: 2 };
    Err(Error::custom_at(alloc, place, 17u8)?)
}

/// The text within two lists, by key and by index.
fn inner_text(value: &Value) -> Option<&str> {
    value.get("a")?.get(0usize)?.get(0usize)?.as_str()
}

/// What is found in a value of any kind.
fn found(alloc: Global) -> Result<String> {
    let value: Value = taken(alloc, "{a:[{b:'x'},'y'],a:[['z']]}")?;
    to_string(alloc, &(inner_text(&value), value.get("c").is_none()))
}

/// Values of any kind, one after another, by one reader.
fn values(alloc: Global) -> Result<String> {
    let mut de = Deserializer::from_str(alloc, "{a:[null,true,{b:-1,c:[.5,'d']}]} ['e\\n',NaN]");
    let first = de.deserialize_any()?;
    let second = de.deserialize_any()?;
    de.end()?;
    to_string(alloc, &(first, second))
}

fn print_faults<W: Write>(alloc: Global, out: &mut W) -> io::Result<()> {
    print(out, "Error::clone", error_clone(alloc))?;
    print(out, "Error::custom", custom(alloc))?;
    print(out, "Error::custom_at", custom_at(alloc))
}

/// Prints what each call returns.
pub(crate) fn print_all<W: Write>(alloc: Global, out: &mut W) -> io::Result<()> {
    print(out, "format", format(alloc, README))?;
    print(out, "format settings", format(alloc, SETTINGS))?;
    print(out, "Value::clone", value_clone(alloc))?;
    print(out, "Decimal::clone", decimal_clone(alloc))?;
    print_faults(alloc, out)?;
    print(out, "Value::get", found(alloc))?;
    print(out, "deserialize_any", values(alloc))
}
