//! The errors that a caller gets, with their words. Where memory for the words is refused, that is the error.

use crate::fault::{Fault, Long, Saying, Wanted, words};
use crate::texts::is_of_digits;
use json5_grammar::error_code::ErrorCode;
use json5_grammar::position::Position;
use json5_tokens::scanner::Scanner;
use json5_types::error::{Error, Result};
use json5_types::number::Number;
use std::alloc::Global;

/// The fault as the caller sees it.
pub(crate) fn told(alloc: Global, text: &str, fault: Fault) -> Error {
    let (at, message) = match fault {
        Fault::Bare(code) => return Error::new(code),
        Fault::Code(code, at) | Fault::Text(code, at) => {
            return Error::new_at(position(text, at), code);
        }
        Fault::Misfit(wanted, at) => return either(misfit(alloc, text, at, wanted)),
        Fault::Long(long) => match Box::into_inner(long) {
            Long::Scanned(error, base) => return scanned(text, error, base),
            Long::Said(saying, at, known) => {
                return either(said(alloc, text, saying, at, words(&known)));
            }
        },
        Fault::Misplaced(at) => (at, "a step was called out of its place"),
        Fault::Unread(at) => (at, "a type did not read its value to the end"),
        Fault::BorrowedBytes(at) => (at, "bytes can't be borrowed from a text"),
        Fault::WrongLength(at) => (at, "invalid length"),
    };
    custom(alloc, text, at, &[message])
}

/// The fault, or that memory for its words was refused.
fn either(told: Result<Error>) -> Error {
    match told {
        Ok(error) => error,
        Err(error) => error,
    }
}

/// What the scanner said, whose place counts from the offset.
fn scanned(text: &str, error: Error, base: usize) -> Error {
    match error.position() {
        Some(place) => error.at(after(position(text, base), place)),
        None => error,
    }
}

/// What is said with words.
fn said(alloc: Global, text: &str, saying: Saying, at: usize, known: &str) -> Result<Error> {
    match saying {
        Saying::UnknownVariant => unknown(alloc, text, at, "variant", known),
        Saying::UnknownKey => unknown(alloc, text, at, "field", known),
        Saying::Missing if known.is_empty() => misfit(alloc, text, at, Wanted::Another),
        Saying::Missing => Ok(custom(alloc, text, at, &["missing field `", known, "`"])),
        Saying::Duplicate => match given(named(alloc, text, at))? {
            Some(key) => Ok(custom(alloc, text, at, &["duplicate field `", key.as_str(), "`"])),
            None => Ok(custom(alloc, text, at, &["duplicate field `", known, "`"])),
        },
        Saying::OutOfRange => {
            let found = shown(alloc, text, at)?;
            let words = [
                "invalid value: ",
                found.as_str(),
                ", expected a whole number from ",
                known,
            ];
            Ok(custom(alloc, text, at, &words))
        }
        Saying::HoldsValue => {
            let name = named(alloc, text, at)?;
            let words = ["`", name.as_str(), "` holds a value: { ", known, " .. }"];
            Ok(custom(alloc, text, at, &words))
        }
        Saying::Custom => Ok(custom(alloc, text, at, &[known])),
    }
}

/// A custom fault at an offset, with these words.
fn custom(alloc: Global, text: &str, offset: usize, words: &[&str]) -> Error {
    match words.concat(alloc) {
        Ok(message) => Error::from_text(message).at(position(text, offset)),
        Err(_) => Error::new(ErrorCode::OutOfMemory),
    }
}

/// The position of an offset in bytes.
fn position(text: &str, offset: usize) -> Position {
    match text.split_at_checked(offset) {
        Some((before, _)) => Position::after(before),
        None => Position::after(text),
    }
}

/// The position that is so far after another.
fn after(base: Position, then: Position) -> Position {
    let column = if then.line == 0 { base.column } else { 0 };
    Position {
        line: base.line.saturating_add(then.line),
        column: column.saturating_add(then.column),
    }
}

/// A value, or else a key, at the offset that isn't what was wanted.
fn misfit(alloc: Global, text: &str, at: usize, wanted: Wanted) -> Result<Error> {
    let after = expected(wanted);
    if let (Wanted::Alone, Ok(key)) = (wanted, named(alloc, text, at)) {
        let words = [
            "expected one key alone: `",
            key.as_str(),
            "` is one too many",
        ];
        return Ok(custom(alloc, text, at, &words));
    }
    if let Some(value) = given(shown(alloc, text, at))? {
        return Ok(custom(alloc, text, at, &["invalid value: ", value.as_str(), after]));
    }
    match given(named(alloc, text, at))? {
        Some(key) => {
            let words = ["invalid value: key `", key.as_str(), "`", after];
            Ok(custom(alloc, text, at, &words))
        }
        None => Ok(custom(alloc, text, at, &["invalid value"])),
    }
}

/// What was wanted, as the end of a message.
fn expected(wanted: Wanted) -> &'static str {
    match wanted {
        Wanted::Null => ", expected null",
        Wanted::Integer => ", expected an integer",
        Wanted::Character => ", expected a character",
        Wanted::BorrowedText => ", expected a text without an escape",
        Wanted::InRange | Wanted::Alone | Wanted::Another => "",
    }
}

/// A name at the offset that is none of those of fields or variants.
fn unknown(alloc: Global, text: &str, at: usize, what: &str, expected: &str) -> Result<Error> {
    let Some(found) = given(named(alloc, text, at))? else {
        return Ok(custom(alloc, text, at, &["unknown ", what]));
    };
    let comma = if expected.is_empty() { "" } else { ", " };
    let has_none = expected.ends_with(' ');
    let kind = if has_none { what } else { "" };
    let more = if has_none { "s" } else { "" };
    let words = [
        "unknown ",
        what,
        " `",
        found.as_str(),
        "`",
        comma,
        expected,
        kind,
        more,
    ];
    Ok(custom(alloc, text, at, &words))
}

/// What was found, if it was, or that memory for it was refused.
fn given(found: Result<String>) -> Result<Option<String>> {
    match found {
        Ok(found) => Ok(Some(found)),
        Err(error) => match error.code() {
            Some(ErrorCode::OutOfMemory) => Err(error),
            _ => Ok(None),
        },
    }
}

/// The value at the offset, as a fault names it.
fn shown(alloc: Global, text: &str, offset: usize) -> Result<String> {
    let mut scanner = Scanner::new(alloc, text.get(offset..).unwrap_or(""));
    let shown = match scanner.peek() {
        Some('"' | '\'') => format!(in alloc; "string {:?}", scanner.string_owned()?.as_str()),
        Some('n') => String::from_str(alloc, "null"),
        Some('t' | 'f') => String::from_str(alloc, "boolean"),
        Some('[') => String::from_str(alloc, "array"),
        Some('{') => String::from_str(alloc, "object"),
        _ => {
            let number = scanner.number()?;
            let written = scanner.input().get(..scanner.offset()).unwrap_or("");
            match number {
                Number::Whole(whole) => format!(in alloc; "integer `{whole}`"),
                _ if is_of_digits(written) => format!(in alloc; "integer `{written}`"),
                _ => format!(in alloc; "decimal `{written}`"),
            }
        }
    };
    Ok(shown?)
}

/// The text of the string or the key at the offset.
fn named(alloc: Global, text: &str, offset: usize) -> Result<String> {
    let mut scanner = Scanner::new(alloc, text.get(offset..).unwrap_or(""));
    let key = scanner.key()?;
    Ok(String::from_str(alloc, scanner.text_of(&key))?)
}
