//! Calls that make, change and write values.

use crate::print;
use json5::{
    AsF64, Decimal, DecimalExt, Layout, Result, Value, from_reader, from_slice, from_str,
    read_text, shown, to_json, to_json_in, to_string, to_string_in, to_vec,
};
use json5_macro::json5;
use std::alloc::Global;
use std::io::{self, Write};

fn made(alloc: Global) -> Result<String> {
    let text = Value::text(alloc, "made")?;
    to_string(alloc, &text)
}

/// A value that gets a member and an element.
fn changed(alloc: Global) -> Result<String> {
    let mut value: Value = from_str(alloc, "{a: 1}")?;
    value.insert(String::from_str(alloc, "a")?, Value::text(alloc, "new")?)?;
    value.insert(String::from_str(alloc, "b")?, Value::from(2u8))?;
    let mut items: Value = from_str(alloc, "[]")?;
    items.push(value)?;
    to_string_in(alloc, Layout::compact(), &items)
}

/// Settings over their defaults.
fn merged(alloc: Global) -> Result<String> {
    let mut value: Value = from_str(alloc, "{a: {x: 1, y: [2]}, b: 'kept'}")?;
    value.merge(from_str(alloc, "{a: {y: [3, 4], z: 'new'}, c: {}}")?)?;
    to_string_in(alloc, Layout::compact(), &value)
}

/// What is at a pointer, and how many members there are. Neither takes memory.
fn pointed(alloc: Global) -> Result<String> {
    let value: Value = from_str(alloc, "{'a/b': [{c: 7}]}")?;
    let found = value.pointer("/a~1b/0/c").and_then(|found| found.as_u64());
    to_string(alloc, &(found, value.entries().len() == 1))
}

fn of_bytes(alloc: Global, bytes: &[u8]) -> Result<String> {
    let value: Value = from_slice(alloc, bytes)?;
    to_string_in(alloc, Layout::compact(), &value)
}

fn of_reader(alloc: Global) -> Result<String> {
    let mut bytes: &[u8] = b"['a text of more than a few bytes', 'and a second']";
    read_text(alloc, &mut bytes)
}

fn laid_out(alloc: Global, layout: Layout) -> Result<String> {
    let value: Value = from_str(alloc, "{a: ['x\\n', {'b c': 1.50}], d: []}")?;
    to_string_in(alloc, layout, &value)
}

fn json(alloc: Global, text: &str) -> Result<String> {
    let value: Value = from_str(alloc, text)?;
    to_json(alloc, &value)
}

fn json_compact(alloc: Global) -> Result<String> {
    let value: Value = from_str(alloc, "{a: ['x\\x01', {'b c': 1.50}], d: []}")?;
    to_json_in(alloc, Layout::compact(), &value)
}

/// More digits than a word holds.
const LONG: &str = "0.1234567890123456789012345678901";

fn decimal_of_text(alloc: Global) -> Result<String> {
    to_string(alloc, &Decimal::parse(alloc, LONG)?)
}

/// Whether the nearest float of the long decimal is this one.
fn float_of_decimal(alloc: Global) -> Result<String> {
    let number: Decimal = from_str(alloc, LONG)?;
    to_string(alloc, &(number.as_f64(alloc)? == Some(0.12345678901234568)))
}

fn decimal_of_float(alloc: Global) -> Result<String> {
    to_string(alloc, &Decimal::from_f64(alloc, 0.1)?)
}

fn of_literal(alloc: Global) -> Result<String> {
    let value = json5!(in alloc; {a: [1, "b"], c: {}})?;
    Ok(format!(in alloc; "{}", shown(&value))?)
}

fn value_of_reader(alloc: Global) -> Result<String> {
    let mut bytes: &[u8] = b"{a: [1, 'b']}";
    to_string_in(alloc, Layout::compact(), &from_reader(alloc, &mut bytes)?)
}

/// The bytes that are written, read again.
fn in_bytes(alloc: Global) -> Result<String> {
    let bytes = to_vec(alloc, &"a text of more than a few bytes")?;
    from_slice(alloc, &bytes)
}

/// Prints what each call returns.
pub(crate) fn print_all<W: Write>(alloc: Global, out: &mut W) -> io::Result<()> {
    print(out, "a string", made(alloc))?;
    print(out, "members and elements", changed(alloc))?;
    print(out, "merged", merged(alloc))?;
    print(out, "a pointer", pointed(alloc))?;
    print(out, "bytes", of_bytes(alloc, b"{a: [1, '\xC3\xA4']}"))?;
    print(out, "no text", of_bytes(alloc, b"['\xC3']"))?;
    print(out, "a reader", of_reader(alloc))?;
    print(out, "four spaces", laid_out(alloc, Layout::indented(4)))?;
    print(out, "tabs", laid_out(alloc, Layout::tabbed()))?;
    print(
        out,
        "JSON",
        json(alloc, "{a: ['x', {\"b c\": 1e3}], d: {}}"),
    )?;
    print(out, "no JSON", json(alloc, "{a: [1, {b: Infinity}]}"))?;
    print(out, "JSON on one line", json_compact(alloc))?;
    print(out, "a decimal of a text", decimal_of_text(alloc))?;
    print(out, "a decimal's float", float_of_decimal(alloc))?;
    print(out, "a float's decimal", decimal_of_float(alloc))?;
    print(out, "a literal, shown", of_literal(alloc))?;
    print(out, "a value of a reader", value_of_reader(alloc))?;
    print(out, "in bytes", in_bytes(alloc))
}
