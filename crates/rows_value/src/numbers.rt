//! Calls that work with numbers.

use crate::answers::Answer;
use json5::{AsF64, Decimal, DecimalExt, Result, Value, from_str};
use std::alloc::Global;
use std::cmp::Ordering;

/// The value of a document, or else the string that the text is.
fn value(alloc: Global, text: &str) -> Result<Value> {
    match from_str(alloc, text) {
        Ok(value) => Ok(value),
        Err(_) => Value::text(alloc, text),
    }
}

/// The bits of a float.
fn bits(alloc: Global, number: Option<f64>) -> Result<String> {
    let Some(number) = number else {
        return Ok(String::from_str(alloc, "none")?);
    };
    if number.is_nan() {
        Ok(String::from_str(alloc, "nan")?)
    } else {
        Ok(format!(in alloc; "{:016x}", number.to_bits())?)
    }
}

/// The sign, the digits and the exponent.
fn shown(alloc: Global, number: &Decimal) -> Result<String> {
    if number.is_infinite() || number.is_nan() {
        return Ok(format!(in alloc; "{number}")?);
    }
    let sign = if number.is_negative() { "-" } else { "" };
    let digits = if number.digits().is_empty() {
        "0"
    } else {
        number.digits()
    };
    let exponent = number.exponent();
    Ok(format!(in alloc; "{sign}{digits}e{exponent}")?)
}

fn nearest(alloc: Global, text: &str) -> Result<String> {
    let value = value(alloc, text)?;
    bits(alloc, value.as_f64(alloc)?)
}

fn parsed(alloc: Global, text: &str) -> Result<String> {
    match Decimal::parse(alloc, text)? {
        Some(number) => shown(alloc, &number),
        None => Ok(String::from_str(alloc, "none")?),
    }
}

fn compared(alloc: Global, texts: &str) -> Result<&'static str> {
    let Some((first, second)) = texts.split_once(' ') else {
        return Ok("no pair");
    };
    let (first, second) = (
        Decimal::parse(alloc, first)?,
        Decimal::parse(alloc, second)?,
    );
    let (Some(number), Some(other)) = (first, second) else {
        return Ok("no numbers");
    };
    Ok(match number.compare(&other) {
        Some(Ordering::Less) => "less",
        Some(Ordering::Equal) => "equal",
        Some(Ordering::Greater) => "greater",
        None => "none",
    })
}

/// The decimal of the float that is nearest to the number.
fn printed(alloc: Global, text: &str) -> Result<String> {
    let value = value(alloc, text)?;
    match value.as_f64(alloc)? {
        Some(number) => {
            let decimal = Decimal::from_f64(alloc, number)?;
            shown(alloc, &decimal)
        }
        None => Ok(String::from_str(alloc, "no number")?),
    }
}

fn exact(alloc: Global, text: &str) -> Result<String> {
    match value(alloc, text)? {
        Value::Whole(number) => {
            let decimal = Decimal::from_whole(alloc, number)?;
            shown(alloc, &decimal)
        }
        _ => Ok(String::from_str(alloc, "no whole number")?),
    }
}

/// What the call with this name gives.
pub fn answer(alloc: Global, name: &str, text: &str) -> Answer {
    match name {
        "as_f64" => nearest(alloc, text),
        "parse" => parsed(alloc, text),
        "compare" => Ok(String::from_str(alloc, compared(alloc, text)?)?),
        "from_f64" => printed(alloc, text),
        _ => exact(alloc, text),
    }
}
