//! Calls that take a text or characters and read no value.

use crate::call_results::{Answer, Digits, place, shown, unknown};
use json5::char::{
    escape, is_json5_identifier, is_json5_identifier_start, is_json5_line_terminator,
    is_json5_whitespace,
};
use json5::{Decimal, Position};
use std::alloc::Global;

/// The characters that are of the class with this name.
pub fn characters(alloc: Global, class: &str, text: &str) -> Answer {
    let mut kept = String::new(alloc);
    for c in text.chars() {
        if is_in(class, c) {
            kept.push(c)?;
        }
    }
    shown(alloc, Ok(kept))
}

fn is_in(class: &str, c: char) -> bool {
    match class {
        "whitespace" => is_json5_whitespace(c),
        "line_terminator" => is_json5_line_terminator(c),
        "identifier_start" => is_json5_identifier_start(c),
        _ => is_json5_identifier(c),
    }
}

/// The position of an offset in bytes.
pub fn position(alloc: Global, offset: &str, text: &str) -> Answer {
    let offset = offset.parse::<usize>().unwrap_or(0);
    if !text.is_char_boundary(offset) {
        return unknown(alloc);
    }
    Ok(place(alloc, Position::from_offset(offset, text))?)
}

/// The decimal with these digits and this exponent.
pub fn finite(alloc: Global, exponent: &str, digits: &str) -> Answer {
    let exponent = exponent.parse::<i64>().unwrap_or(0);
    let (negative, digits) = match digits.strip_prefix('-') {
        Some(digits) => (true, digits),
        None => (false, digits),
    };
    let decimal = Decimal::finite(alloc, negative, digits, exponent)?;
    shown(alloc, Ok(decimal.map(Digits)))
}

/// The escape of the text's first character between quotes of the first word.
pub fn escaped(alloc: Global, quote: &str, text: &str) -> Answer {
    match (quote.chars().next(), text.chars().next()) {
        (Some(quote), Some(c)) => shown(alloc, Ok(escape(quote, c))),
        _ => unknown(alloc),
    }
}
