//! Texts that stand without quotes.
//!
//! Plain code, of which no promise is made but that it is safe and ends: change it by the rows of reports, which judge it.

use crate::fault::Fault;
use crate::lexemes::{Kind, Lexeme, lexeme_at};
use json5_tokens::char::is_json5_line_terminator;

/// The text from the offset on, up to a comma, a bracket, a comment or the end of the line; none if no quotes can be put
/// around it.
pub(crate) fn bare_text(fault: &Fault<'_>, start: usize) -> Option<Lexeme> {
    let text = bare_front(fault.text.get(start..).unwrap_or(""));
    let end = start.saturating_add(text.len());
    let behind = lexeme_at(fault.text, end);
    if text.is_empty() || text.contains('\'') && text.contains('"') || behind.kind == Kind::Open {
        return None;
    }
    Some(Lexeme {
        kind: Kind::Word,
        start,
        end,
    })
}

/// What is in front up to a comma, a bracket, a comment or the end of the line, without the blanks at its end. Brackets
/// that are opened right after a character belong to it.
fn bare_front(text: &str) -> &str {
    let mut before = ' ';
    let mut depth: usize = 0;
    for (index, c) in text.char_indices() {
        let rest = text.get(index..).unwrap_or("");
        let is_note = before == ' ' && (rest.starts_with("//") || rest.starts_with("/*"));
        let is_bracket = match c {
            '[' | '{' => before == ' ',
            ']' | '}' => depth == 0,
            _ => false,
        };
        if is_note || is_bracket || c == ',' || is_json5_line_terminator(c) {
            return text.get(..index).unwrap_or("").trim_end();
        }
        match c {
            '[' | '{' => depth = depth.saturating_add(1),
            ']' | '}' => depth = depth.saturating_sub(1),
            _ => {}
        }
        before = c;
    }
    text.trim_end()
}

/// The values from the offset on that commas part, up to a key, a bracket or the end of the line.
pub(crate) fn values_at(fault: &Fault<'_>, start: usize) -> Lexeme {
    let mut end = value_end(fault, start);
    for _ in start..fault.text.len() {
        let comma = lexeme_at(fault.text, end);
        let next = lexeme_at(fault.text, comma.end);
        let behind = fault.text.get(end..next.start).unwrap_or("");
        let is_value = matches!(next.kind, Kind::Text | Kind::Word) && !fault.is_key(next);
        if comma.kind != Kind::Comma || !is_value || behind.contains(is_json5_line_terminator) {
            break;
        }
        end = value_end(fault, next.start);
    }
    Lexeme {
        kind: Kind::Word,
        start,
        end,
    }
}

/// Where the text in quotes or without them ends that begins at the offset.
fn value_end(fault: &Fault<'_>, start: usize) -> usize {
    let token = lexeme_at(fault.text, start);
    if token.kind == Kind::Text {
        return token.end;
    }
    match bare_text(fault, start) {
        Some(text) => text.end,
        None => token.end,
    }
}
