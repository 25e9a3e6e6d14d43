//! Numbers as JSON has them.
//!
//! Plain code: what it makes is read again.

use crate::faults::Result;
use json5_tokens::scanner::Scanner;
use json5_types::number::Number;
use json5_types::whole::Whole;
use std::alloc::Global;
use std::fmt::Write;

/// Whether the number in front is spelled as JSON has it: with digits on both sides of a point, no plus in front, and no
/// hexadecimal digits.
#[inline(always)]
pub(crate) fn is_json_number(text: &str) -> bool {
    let mut last = b'-';
    for byte in text.bytes() {
        match byte {
            b'0'..=b'9' => {}
            b'-' | b'+' | b'e' | b'E' => {
                if last == b'.' || last == b'-' && byte == b'+' {
                    return false;
                }
            }
            b'.' => {
                if !last.is_ascii_digit() {
                    return false;
                }
            }
            _ => return last.is_ascii_digit() && !matches!(byte, b'x' | b'X'),
        }
        last = byte;
    }
    last.is_ascii_digit()
}

/// Appends a number that JSON spells otherwise, as JSON has it: with the same digits, but that a hexadecimal one is in decimal
/// digits. Says whether JSON has it: infinity and not-a-number aren't appended.
pub(crate) fn push_number(alloc: Global, made: &mut String, token: &str) -> Result<bool> {
    let number = Scanner::new(alloc, token).number()?;
    push_read(made, token, &number)
}

/// The same of what was read of it.
fn push_read(made: &mut String, token: &str, number: &Number) -> Result<bool> {
    let (sign, digits) = parted(token);
    match number {
        Number::Whole(whole) => push_whole(made, sign, digits, *whole)?,
        Number::Decimal(decimal) if decimal.is_infinite() || decimal.is_nan() => return Ok(false),
        Number::Decimal(_) => push_decimal(made, sign, digits)?,
    }
    Ok(true)
}

/// The sign, if it is a minus, and the number without a sign.
fn parted(token: &str) -> (&'static str, &str) {
    if let Some(digits) = token.strip_prefix('-') {
        return ("-", digits);
    }
    match token.strip_prefix('+') {
        Some(digits) => ("", digits),
        None => ("", token),
    }
}

/// Appends a whole number of this sign and these digits, which may be hexadecimal.
fn push_whole(made: &mut String, sign: &str, digits: &str, whole: Whole) -> Result<()> {
    made.push_str(sign)?;
    if !digits.starts_with("0x") && !digits.starts_with("0X") {
        return Ok(made.push_str(digits)?);
    }
    let size = match whole.as_u128() {
        Some(size) => size,
        None => whole.as_i128().unwrap_or(0).unsigned_abs(),
    };
    Ok(write!(made, "{size}")?)
}

/// Appends a decimal of this sign, with digits on both sides of its point.
fn push_decimal(made: &mut String, sign: &str, digits: &str) -> Result<()> {
    made.push_str(sign)?;
    let Some((front, fraction)) = digits.split_once('.') else {
        return Ok(made.push_str(digits)?);
    };
    made.push_str(if front.is_empty() { "0" } else { front })?;
    made.push('.')?;
    if !matches!(fraction.bytes().next(), Some(b'0'..=b'9')) {
        made.push('0')?;
    }
    Ok(made.push_str(fraction)?)
}
