//! The texts of keys, each of which may be a document that is a number or a word.

use json5_grammar::error_code::ErrorCode;
use json5_read::kinds::{Literal, skip_literal};
use json5_tokens::scanner::Scanner;
use json5_types::error::{Error, Result};
use json5_types::number::Number;
use std::alloc::Global;

/// A number that stands alone in a text.
pub(crate) fn number_in(alloc: Global, text: &str) -> Result<Number> {
    let mut scanner = Scanner::new(alloc, text);
    scanner.skip_blank()?;
    let number = scanner.number()?;
    ended(scanner)?;
    Ok(number)
}

/// Whether a literal stands alone in a text.
pub(crate) fn literal_in(alloc: Global, text: &str, literal: Literal) -> Result<()> {
    let mut scanner = Scanner::new(alloc, text);
    scanner.skip_blank()?;
    skip_literal(&mut scanner, literal)?;
    ended(scanner)
}

/// Which of `true` and `false` stands alone in a text.
pub(crate) fn truth_in(alloc: Global, text: &str) -> Result<bool> {
    let Err(error) = literal_in(alloc, text, Literal::False) else {
        return Ok(false);
    };
    let Some(ErrorCode::ExpectedBool) = error.code() else {
        return Err(error);
    };
    literal_in(alloc, text, Literal::True)?;
    Ok(true)
}

/// Blanks alone are left.
fn ended(mut scanner: Scanner<&str>) -> Result<()> {
    scanner.skip_blank()?;
    if scanner.peek().is_some() {
        return Err(Error::new(ErrorCode::TrailingCharacters));
    }
    Ok(())
}

/// Whether a number has digits alone, behind a sign or between quotes.
pub(crate) fn is_of_digits(number: &str) -> bool {
    for byte in number.as_bytes() {
        if !matches!(*byte, b'0'..=b'9' | b'+' | b'-' | b'"' | b'\'') {
            return false;
        }
    }
    true
}
