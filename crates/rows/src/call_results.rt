//! What calls return, as text. Values are printed as Rust's `Debug` prints them, but for decimals.

use json5::{Decimal, Error, Position, Result, Value};
use std::alloc::{AllocError, Global};
use std::fmt::{self, Debug};

/// The text of what a call gives, or its fault.
pub type Answer = Result<String>;

/// What printing gives.
pub type Printed<T> = std::result::Result<T, AllocError>;

/// The text of what was given.
pub fn shown<T: Debug + Drop>(alloc: Global, given: Result<T>) -> Answer {
    let value = given?;
    Ok(format!(in alloc; "{value:?}")?)
}

/// The fault of a row whose call or type is unknown.
pub fn unknown(alloc: Global) -> Answer {
    Err(Error::custom(alloc, "no such type or call")?)
}

/// The answer, its fault as it is printed: `expected comma at line 1 column 4`.
pub fn by_message(alloc: Global, answer: Answer) -> Printed<String> {
    match answer {
        Ok(text) => Ok(text),
        Err(error) => format!(in alloc; "{error}"),
    }
}

/// The answer, its fault by code and position: `ExpectedComma at 0:3`.
pub fn by_code(alloc: Global, answer: Answer) -> Printed<String> {
    match answer {
        Ok(text) => Ok(text),
        Err(error) => code_and_place(alloc, &error),
    }
}

fn code_and_place(alloc: Global, error: &Error) -> Printed<String> {
    let cause = cause(alloc, error)?;
    match error.position() {
        Some(Position { line, column }) => format!(in alloc; "{cause} at {line}:{column}"),
        None => format!(in alloc; "{cause} no place"),
    }
}

fn cause(alloc: Global, error: &Error) -> Printed<String> {
    let message = error.message();
    match error.code() {
        Some(code) => format!(in alloc; "{code:?}"),
        None => format!(in alloc; "custom {message:?}"),
    }
}

/// The line and the column, counted from 0.
pub fn place(alloc: Global, position: Position) -> Printed<String> {
    let Position { line, column } = position;
    format!(in alloc; "{line}:{column}")
}

/// Appends the answer of one more call, after `; ` where it isn't the first.
pub fn push_answer(alloc: Global, answer: Answer, answers: &mut String) -> Printed<()> {
    let answer = by_code(alloc, answer)?;
    push_text(answer.as_str(), answers)
}

/// Appends one more text, after `; ` where it isn't the first.
pub fn push_text(text: &str, answers: &mut String) -> Printed<()> {
    if !answers.is_empty() {
        answers.push_str("; ")?;
    }
    answers.push_str(text)
}

/// A decimal by its digits and its exponent: `-15e-1`; zero has no digits.
#[derive(Drop)]
pub struct Digits(pub Decimal);

impl Debug for Digits {
    fn fmt<W: fmt::Write>(&self, f: &mut fmt::Formatter<W>) -> fmt::Result {
        write_digits(&self.0, f)
    }
}

fn write_digits<W: fmt::Write>(decimal: &Decimal, f: &mut fmt::Formatter<W>) -> fmt::Result {
    let sign = if decimal.is_negative() { "-" } else { "" };
    if decimal.is_infinite() {
        return write!(f, "{sign}infinity");
    }
    if decimal.is_nan() {
        return write!(f, "{sign}not a number");
    }
    let digits = decimal.digits();
    let exponent = decimal.exponent();
    write!(f, "{sign}{digits}e{exponent}")
}

/// A value of any kind: `null`, a boolean, a whole number, a decimal by its digits, a text in quotes, an array, or the members
/// of an object in their order.
#[derive(Drop)]
pub struct Any(pub Value);

impl Debug for Any {
    fn fmt<W: fmt::Write>(&self, f: &mut fmt::Formatter<W>) -> fmt::Result {
        write_any(&self.0, f)
    }
}

#[cycle(value)]
fn write_any<W: fmt::Write>(value: &Value, f: &mut fmt::Formatter<W>) -> fmt::Result {
    match value {
        Value::Null => f.write_str("null"),
        Value::Bool(truth) => write!(f, "{truth}"),
        Value::Whole(number) => write!(f, "{number}"),
        Value::Decimal(decimal) => write_digits(decimal, f),
        Value::String(text) => write!(f, "{text:?}"),
        Value::Array(items) => write_items(items, f),
        Value::Object(fields) => write_fields(fields, f),
    }
}

#[cycle(value)]
fn write_items<W: fmt::Write>(items: &[Value], f: &mut fmt::Formatter<W>) -> fmt::Result {
    f.write_str("[")?;
    for (place, item) in items.iter().enumerate() {
        write_separator(place, f)?;
        write_any(item, f)?;
    }
    f.write_str("]")
}

#[cycle(value)]
fn write_fields<W: fmt::Write>(
    fields: &[(String, Value)],
    f: &mut fmt::Formatter<W>,
) -> fmt::Result {
    f.write_str("{")?;
    for (place, (key, value)) in fields.iter().enumerate() {
        write_separator(place, f)?;
        write!(f, "{key:?}: ")?;
        write_any(value, f)?;
    }
    f.write_str("}")
}

/// A comma before all members but the first.
fn write_separator<W: fmt::Write>(place: usize, f: &mut fmt::Formatter<W>) -> fmt::Result {
    f.write_str(if place == 0 { "" } else { ", " })
}
