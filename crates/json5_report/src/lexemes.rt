//! The lexemes of a text that may be faulty: its tokens and its comments, one after another.
//!
//! Plain code, of which no promise is made but that it is safe and ends: change it by the rows of reports, which judge it.

use crate::lookalikes::is_other_sign;
use json5_tokens::char::{is_json5_line_terminator, is_json5_whitespace};

/// What kind of lexeme it is.
#[derive(Clone, Copy, Debug, PartialEq, Eq)]
pub(crate) enum Kind {
    /// `[` or `{`.
    Open,
    /// `]` or `}`.
    Close,
    Colon,
    Comma,
    /// A string. One that isn't closed ends with its line.
    Text,
    /// Any other run of characters: a number, a literal, a name, or what is none of them.
    Word,
    Comment,
    /// The end of the text.
    End,
}

/// A lexeme, from one offset to another.
#[derive(Clone, Copy, Debug)]
pub(crate) struct Lexeme {
    pub(crate) kind: Kind,
    pub(crate) start: usize,
    pub(crate) end: usize,
}

impl Lexeme {
    /// The characters of the lexeme.
    pub(crate) fn of(self, text: &str) -> &str {
        text.get(self.start..self.end).unwrap_or("")
    }

    /// Whether it is the bracket that closes this one.
    pub(crate) fn closes(self, text: &str, open: Lexeme) -> bool {
        matches!((open.of(text), self.of(text)), ("[", "]") | ("{", "}"))
    }

    /// Whether the offset lies in it, past its first character.
    pub(crate) fn holds(self, offset: usize) -> bool {
        self.start < offset && offset < self.end
    }
}

/// The lexeme in front, from this offset on.
pub(crate) fn lexeme_at(text: &str, from: usize) -> Lexeme {
    let rest = text.get(from..).unwrap_or("");
    let blanks = rest.find(|c| !is_json5_whitespace(c)).unwrap_or(rest.len());
    let rest = rest.get(blanks..).unwrap_or("");
    let (kind, len) = kind_and_len(rest);
    let start = from.saturating_add(blanks);
    Lexeme {
        kind,
        start,
        end: start.saturating_add(len),
    }
}

/// The first token of the text.
pub(crate) fn first_token(text: &str) -> Lexeme {
    let mut token = lexeme_at(text, 0);
    for _ in 0..text.len() {
        if token.kind != Kind::Comment {
            break;
        }
        token = lexeme_at(text, token.end);
    }
    token
}

/// The kind and the length of the lexeme that the text begins with.
fn kind_and_len(text: &str) -> (Kind, usize) {
    match text.chars().next() {
        None => (Kind::End, 0),
        Some('[' | '{') => (Kind::Open, 1),
        Some(']' | '}') => (Kind::Close, 1),
        Some(':') => (Kind::Colon, 1),
        Some(c) if is_other_sign(c) => (Kind::Word, c.len_utf8()),
        Some(',') => (Kind::Comma, 1),
        Some(quote @ ('"' | '\'')) => (Kind::Text, string_len(text, quote)),
        Some('/') if text.starts_with("//") => (Kind::Comment, line_len(text)),
        Some('/') if text.starts_with("/*") => (Kind::Comment, block_len(text)),
        Some(_) => (Kind::Word, word_len(text)),
    }
}

/// How long the line in front is, without its end.
pub(crate) fn line_len(text: &str) -> usize {
    text.find(is_json5_line_terminator).unwrap_or(text.len())
}

/// How long the string is that the text begins with; up to the end of its line if it isn't closed.
fn string_len(text: &str, quote: char) -> usize {
    // The opening quote itself is passed over as an escaped character is.
    let mut is_escaped = true;
    for (index, c) in text.char_indices() {
        if is_escaped {
            is_escaped = c == '\r'
                && text
                    .get(index.saturating_add(1)..)
                    .unwrap_or("")
                    .starts_with('\n');
            continue;
        }
        if c == quote {
            return index.saturating_add(1);
        }
        if matches!(c, '\n' | '\r') {
            return index;
        }
        is_escaped = c == '\\';
    }
    text.len()
}

/// How long the `/* */` comment is that the text begins with.
fn block_len(text: &str) -> usize {
    match text.get(2..).unwrap_or("").find("*/") {
        Some(index) => index.saturating_add(4),
        None => text.len(),
    }
}

/// How long the word is that the text begins with; it has a character at least.
fn word_len(text: &str) -> usize {
    for (index, c) in text.char_indices() {
        if index > 0 && ends_word(c, text.get(index..).unwrap_or("")) {
            return index;
        }
    }
    text.len()
}

/// Whether the character, which this begins with, is in no word, unless it is the first: a slash that begins a comment is.
fn ends_word(c: char, rest: &str) -> bool {
    match c {
        '[' | ']' | '{' | '}' | ':' | ',' | '"' | '\'' | ';' | '=' | '#' => true,
        '/' => rest.starts_with("//") || rest.starts_with("/*"),
        _ => is_json5_whitespace(c) || is_other_sign(c),
    }
}
