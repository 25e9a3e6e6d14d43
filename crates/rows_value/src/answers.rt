//! What calls return, as text.

use json5::{Error, Position, Result, Value};
use std::alloc::{AllocError, Global};
use std::fmt::{self, Debug};

/// The text of what a call gives, or its fault.
pub type Answer = Result<String>;

/// The fault of a row whose call is unknown.
pub fn unknown(alloc: Global) -> Answer {
    Err(Error::custom(alloc, "no such call")?)
}

/// The answer, or its fault as it is printed: `expected comma at line 1 column 4`.
pub fn by_message(alloc: Global, answer: Answer) -> std::result::Result<String, AllocError> {
    match answer {
        Ok(text) => Ok(text),
        Err(error) => format!(in alloc; "{error}"),
    }
}

/// The answer, with signs for characters that a line can't show, or its fault by code and position:
/// `ExpectedComma at 0:3`.
pub fn by_code(alloc: Global, answer: Answer) -> std::result::Result<String, AllocError> {
    match answer {
        Ok(text) => visible(alloc, text.as_str()),
        Err(error) => fault(alloc, &error),
    }
}

/// The fault by its code or message, and its position, counted from 0.
pub fn fault(alloc: Global, error: &Error) -> std::result::Result<String, AllocError> {
    let cause = cause(alloc, error)?;
    match error.position() {
        Some(Position { line, column }) => format!(in alloc; "{cause} at {line}:{column}"),
        None => format!(in alloc; "{cause} no place"),
    }
}

fn cause(alloc: Global, error: &Error) -> std::result::Result<String, AllocError> {
    let message = error.message();
    match error.code() {
        Some(code) => format!(in alloc; "{code:?}"),
        None => format!(in alloc; "custom {message:?}"),
    }
}

/// The text with a sign for each character that a line can't show.
fn visible(alloc: Global, text: &str) -> std::result::Result<String, AllocError> {
    let mut line = String::new(alloc);
    for c in text.chars() {
        match c {
            '\n' => line.push_str("⏎")?,
            '\t' => line.push_str("→")?,
            '\u{7f}' => line.push_str("⟨7F⟩")?,
            '\u{2028}' => line.push_str("⟨2028⟩")?,
            '\u{2029}' => line.push_str("⟨2029⟩")?,
            _ => line.push(c)?,
        }
    }
    Ok(line)
}

/// What was found, or `none`.
pub fn found<T: Debug + Drop>(alloc: Global, found: Option<T>) -> Answer {
    match found {
        Some(found) => Ok(format!(in alloc; "{found:?}")?),
        None => Ok(String::from_str(alloc, "none")?),
    }
}

/// The value as the only element of an array.
pub fn wrapped(alloc: Global, value: Value) -> Result<Value> {
    let mut items = Vec::new(alloc);
    items.push(value)?;
    Ok(Value::from(items))
}

/// A value of any kind: `null`, a boolean, a number as it is written, a text in quotes, an array, or the members of an object in
/// their order.
#[derive(Clone, Copy)]
pub struct Shown<'v>(pub &'v Value);

impl Debug for Shown<'_> {
    fn fmt<W: fmt::Write>(&self, f: &mut fmt::Formatter<W>) -> fmt::Result {
        write_value(self.0, f)
    }
}

#[cycle(value)]
fn write_value<W: fmt::Write>(value: &Value, f: &mut fmt::Formatter<W>) -> fmt::Result {
    match value {
        Value::Null => f.write_str("null"),
        Value::Bool(truth) => write!(f, "{truth}"),
        Value::Whole(number) => write!(f, "{number}"),
        Value::Decimal(number) => write!(f, "decimal {number}"),
        Value::String(text) => write!(f, "{text:?}"),
        Value::Array(items) => write_items(items, f),
        Value::Object(fields) => write_fields(fields, f),
    }
}

#[cycle(value)]
fn write_items<W: fmt::Write>(items: &[Value], f: &mut fmt::Formatter<W>) -> fmt::Result {
    f.write_str("[")?;
    for (place, item) in items.iter().enumerate() {
        write_separator(place, f)?;
        write_value(item, f)?;
    }
    f.write_str("]")
}

#[cycle(value)]
fn write_fields<W: fmt::Write>(
    fields: &[(String, Value)],
    f: &mut fmt::Formatter<W>,
) -> fmt::Result {
    f.write_str("{")?;
    for (place, (key, value)) in fields.iter().enumerate() {
        write_separator(place, f)?;
        write!(f, "{key:?}: ")?;
        write_value(value, f)?;
    }
    f.write_str("}")
}

/// A comma before all but the first.
fn write_separator<W: fmt::Write>(place: usize, f: &mut fmt::Formatter<W>) -> fmt::Result {
    f.write_str(if place == 0 { "" } else { ", " })
}
