//! What a report says of a fault, in a person's words.
//!
//! Plain code, of which no promise is made but that it is safe and ends: change it by the rows of reports, which judge it.

use crate::around::Around;
use crate::fault::Fault;
use crate::found::Found;
use crate::lexemes::{Kind, first_token};
use crate::words::{RANGES, meaning};
use json5_types::ErrorCode;
use std::alloc::{AllocError, Global};

/// The message: the fault's own, with what was found where something else was expected.
pub(crate) fn message_of(alloc: Global, fault: &Fault<'_>) -> Result<String, AllocError> {
    let Some(code) = fault.code else {
        return custom_message(alloc, fault);
    };
    if let Some(words) = end_words(code) {
        let is_empty = first_token(fault.text).kind == Kind::End
            && code != ErrorCode::EofParsingComment;
        let last = Around::of(fault.text, fault.text.len()).last;
        let is_text = last.is_some_and(|token| token.kind == Kind::Text);
        let words = match fault.word() {
            _ if is_empty => "expected value",
            _ if is_text || code == ErrorCode::EofParsingComment => words,
            "[" if words.starts_with("unfinished") => "unfinished array",
            "{" if words.starts_with("unfinished") => "unfinished object",
            _ => words,
        };
        return format!(in alloc; "{words}, found {}", Found::End);
    }
    if names_found(code) {
        return format!(in alloc; "{code}, found {}", fault.found);
    }
    String::from_str(alloc, fault.message)
}

/// What is said where the text ends too early; none for other codes.
fn end_words(code: ErrorCode) -> Option<&'static str> {
    match code {
        ErrorCode::EofParsingArray => Some("unfinished array"),
        ErrorCode::EofParsingBool => Some("expected bool"),
        ErrorCode::EofParsingComment => Some("unfinished comment"),
        ErrorCode::EofParsingEscapeSequence => Some("unfinished escape sequence"),
        ErrorCode::EofParsingIdentifier => Some("expected identifier"),
        ErrorCode::EofParsingNull => Some("expected null"),
        ErrorCode::EofParsingNumber => Some("expected number"),
        ErrorCode::EofParsingObject => Some("unfinished object"),
        ErrorCode::EofParsingString => Some("unfinished string"),
        ErrorCode::EofParsingValue => Some("expected value"),
        _ => None,
    }
}

/// Whether the message goes on with what was found.
fn names_found(code: ErrorCode) -> bool {
    matches!(
        code,
        ErrorCode::ExpectedBool
            | ErrorCode::ExpectedClosingBrace
            | ErrorCode::ExpectedClosingBracket
            | ErrorCode::ExpectedColon
            | ErrorCode::ExpectedComma
            | ErrorCode::ExpectedComment
            | ErrorCode::ExpectedIdentifier
            | ErrorCode::ExpectedNull
            | ErrorCode::ExpectedNumber
            | ErrorCode::ExpectedOpeningBrace
            | ErrorCode::ExpectedOpeningBracket
            | ErrorCode::ExpectedString
            | ErrorCode::ExpectedStringOrObject
            | ErrorCode::ExpectedValue
            | ErrorCode::TrailingCharacters
    )
}

/// A custom message, in a person's words: with a range in place of an integer type, a number as it is written, and a name
/// in place of a variant. Control characters show as U+FFFD.
fn custom_message(alloc: Global, fault: &Fault<'_>) -> Result<String, AllocError> {
    let message = fault.message;
    if let Some(rest) = message.strip_prefix("unknown variant ") {
        return seen_text(alloc, "unknown name ", rest);
    }
    if let Some((word, rest)) = unknown_key(fault) {
        let mut seen = seen_text(alloc, "unknown field `", word)?;
        seen.push('`')?;
        seen.push_str(rest)?;
        return Ok(seen);
    }
    if message.starts_with("invalid type: unit variant") {
        return String::from_str(alloc, "expected a name with a value, found the name alone");
    }
    let (found, expected) = message.rsplit_once(", expected ").unwrap_or((message, ""));
    let is_decimal = found.contains(": decimal");
    let range = match range_in(message) {
        Some((least, most)) => format!(in alloc;
            ", expected a whole number from {least} to {most}"
        )?,
        None if is_decimal && expected == "an integer" => String::from_str(
            alloc,
            ", expected a whole number",
        )?,
        None => return seen_text(alloc, "", message),
    };
    let word = fault.word();
    if !is_decimal || word.is_empty() {
        return format!(in alloc; "{found}{range}");
    }
    let is_of_digits = !word.contains(|c: char| !c.is_ascii_digit());
    let kind = if is_of_digits { "integer" } else { "decimal" };
    format!(in alloc; "invalid value: {kind} `{word}`{range}")
}

/// The key without quotes that begins with the name of an unknown field and goes on, and the rest of the message.
fn unknown_key<'t>(fault: &Fault<'t>) -> Option<(&'t str, &'t str)> {
    let (name, rest) = fault
        .message
        .strip_prefix("unknown field `")?
        .split_once('`')?;
    let word = fault.word();
    if word.len() > name.len() && word.starts_with(name) {
        return Some((word, rest));
    }
    None
}

/// The text after these words, with U+FFFD for its control characters.
fn seen_text(alloc: Global, words: &str, text: &str) -> Result<String, AllocError> {
    let mut seen = String::from_str(alloc, words)?;
    for c in text.chars() {
        seen.push(if c.is_control() { '\u{fffd}' } else { c })?;
    }
    Ok(seen)
}

/// The range of the integers that the message names, or whose type it names.
pub(crate) fn range_in(message: &str) -> Option<(&str, &str)> {
    let (_, expected) = message.rsplit_once(", expected ")?;
    let range = match meaning(&RANGES, expected) {
        Some(range) => range,
        None => expected.strip_prefix("a whole number from ")?,
    };
    range.split_once(" to ")
}
