//! What was found at a place of a text.
//!
//! Plain code, of which no promise is made but that it is safe and ends: change it by the rows of reports, which judge it.

use crate::path::name_len;
use json5_tokens::char::is_json5_identifier_start;
use std::fmt;

/// What begins at an offset.
#[derive(Clone, Copy, Debug)]
pub(crate) enum Found<'t> {
    End,
    String,
    Number,
    Object,
    Array,
    /// `true`, `false` or `null`.
    Literal(&'t str),
    Name(&'t str),
    Character(char),
}

impl<'t> Found<'t> {
    /// What begins at the offset. `is_inside` says that a token is cut there, so that only its character counts.
    pub(crate) fn at(text: &'t str, offset: usize, is_inside: bool) -> Found<'t> {
        let rest = text.get(offset..).unwrap_or("");
        let Some(first) = rest.chars().next() else {
            return Found::End;
        };
        if is_inside {
            return Found::Character(first);
        }
        match first {
            '"' | '\'' => Found::String,
            '{' => Found::Object,
            '[' => Found::Array,
            '0'..='9' => Found::Number,
            '+' | '-' | '.' if begins_number(rest) => Found::Number,
            _ if is_json5_identifier_start(first) => found_name(rest),
            _ => Found::Character(first),
        }
    }
}

/// Whether a number goes on behind the sign or the point.
fn begins_number(text: &str) -> bool {
    let is_number = matches!(
        text.as_bytes().get(1),
        Some(b'0'..=b'9' | b'.' | b'I' | b'N')
    );
    is_number && !text.starts_with("..")
}

/// What the name at the front is.
fn found_name(text: &str) -> Found<'_> {
    let name = text.get(..name_len(text)).unwrap_or("");
    match name {
        "true" | "false" | "null" => Found::Literal(name),
        "Infinity" | "NaN" => Found::Number,
        _ => Found::Name(name),
    }
}

impl fmt::Display for Found<'_> {
    fn fmt<W: fmt::Write>(&self, f: &mut fmt::Formatter<W>) -> fmt::Result {
        match self {
            Found::End => f.write_str("the end of the file"),
            Found::String => f.write_str("a string"),
            Found::Number => f.write_str("a number"),
            Found::Object => f.write_str("an object"),
            Found::Array => f.write_str("an array"),
            Found::Literal(word) => f.write_str(word),
            Found::Name(name) => write!(f, "the name {name}"),
            Found::Character(c) if crate::widths::is_seen(*c) => write!(f, "'{c}'"),
            Found::Character(c) => write!(f, "U+{:04X}", *c as u32),
        }
    }
}
