//! Comments that ask to leave something as it is.

use crate::layout::lexemes::{Kind, lexeme_at};

/// Whether the comment asks that what follows it be left as it is: its first word is `json5-tidy-ignore` or `prettier-ignore`.
pub(crate) fn is_ignore(comment: &[u8]) -> bool {
    begins_with(comment, b"json5-tidy-ignore") || begins_with(comment, b"prettier-ignore")
}

/// Whether a comment before the value asks that the whole text be left as it is.
pub fn leaves_text(bytes: &[u8]) -> bool {
    let mut at = 0;
    loop {
        let next = lexeme_at(bytes, at);
        if next.is_end() || !matches!(next.kind, Kind::Line | Kind::Block) {
            return false;
        }
        if begins_with(next.of(bytes), b"json5-tidy-ignore-file") {
            return true;
        }
        at = next.end;
    }
}

/// Whether the first word of the comment is this one. A colon may follow it.
fn begins_with(comment: &[u8], word: &[u8]) -> bool {
    let Some((_, rest)) = comment.split_at_checked(2) else {
        return false;
    };
    let words = match rest.strip_prefix(b"*") {
        Some(words) => words,
        None => rest,
    };
    match words.trim_ascii_start().strip_prefix(word) {
        Some(rest) => ends_word(rest),
        None => false,
    }
}

/// Whether no letter, digit or hyphen stands in front.
fn ends_word(rest: &[u8]) -> bool {
    match rest.first() {
        Some(byte) => matches!(*byte, b' ' | b'\t' | b'\r' | b'\n' | b':' | b'*'),
        None => true,
    }
}
