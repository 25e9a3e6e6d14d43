//! Entries that are switched off: comments that would be entries without their marks, as `// port: 80,`.

use crate::gaps::between;
use crate::removing::joined;
use crate::spots::{Which, find_around};
use json5_lexemes::{Piece, Pieces};
use json5_read::check_document;
use json5_types::ErrorCode;
use json5_types::error::Result;
use std::alloc::Global;

/// Returns where the last switched-off entry between these offsets of a collection's text ends, or else the first offset.
/// Nothing but blanks and comments stands between them. An entry may go on over several `//` comments. Offsets are in bytes.
///
/// ```text
/// after_switched_off(alloc, "[/* 80, */ /* web */ 443]", 1, 21)?    // 10
/// ```
///
/// # Errors
///
/// `OutOfMemory` where there is no memory for what the comments say.
pub fn after_switched_off(alloc: Global, text: &str, from: usize, until: usize) -> Result<usize> {
    let mut after = from;
    let mut start = from;
    let mut begun = String::new(alloc);
    for _ in from..until {
        let Some(comment) = next_comment(text, start, until) else {
            return Ok(after);
        };
        start = comment.end;
        let all = joined(alloc, &[begun.as_str(), comment.words, "\n"])?;
        let ends = is_entry(alloc, text, all.as_str())?;
        if ends || is_entry(alloc, text, comment.words)? {
            after = comment.end;
        }
        begun = if comment.is_line && !ends {
            begun_by(alloc, text, comment.words, all)?
        } else {
            String::new(alloc)
        };
    }
    Ok(after)
}

/// A comment: what it says, and where it ends.
#[derive(Clone, Copy, Drop)]
struct Comment<'t> {
    words: &'t str,
    end: usize,
    /// Whether it is a `//` comment.
    is_line: bool,
}

/// The next comment between these offsets.
fn next_comment(text: &str, from: usize, until: usize) -> Option<Comment<'_>> {
    let mut pieces = Pieces::new(between(text, from, until));
    let mut start = from;
    for _ in from..until {
        let piece = pieces.next()?;
        let end = until.saturating_sub(pieces.as_str().len());
        match piece {
            Piece::Blank | Piece::LineEnd => start = end,
            Piece::Line => return Some(comment_of(text, start, end, end)),
            Piece::Block => return Some(comment_of(text, start, end.saturating_sub(2), end)),
        }
    }
    None
}

/// The comment between these offsets, whose words end at the first of the two ends.
fn comment_of(text: &str, start: usize, words_end: usize, end: usize) -> Comment<'_> {
    Comment {
        words: between(text, start.saturating_add(2), words_end),
        end,
        is_line: words_end == end,
    }
}

/// The words that begin an entry, up to these: all, or these alone, or none.
fn begun_by(alloc: Global, text: &str, words: &str, all: String) -> Result<String> {
    if begins_entry(alloc, text, all.as_str())? {
        return Ok(all);
    }
    let line = joined(alloc, &[words, "\n"])?;
    if begins_entry(alloc, text, line.as_str())? {
        return Ok(line);
    }
    Ok(String::new(alloc))
}

/// Whether the words would be entries of such a collection: members, or elements with a comma after the last one.
fn is_entry(alloc: Global, text: &str, words: &str) -> Result<bool> {
    let (open, close, others) = if text.starts_with('[') {
        ("[", "\n0]", 1)
    } else {
        ("{", "\n}", 0)
    };
    let made = joined(alloc, &[open, words, close])?;
    if check_document(alloc, made.as_str()).is_err() {
        return Ok(false);
    }
    let around = find_around(alloc, made.as_str(), Which::Index(usize::MAX))?;
    Ok(around.count > others)
}

/// Whether the words would begin entries of such a collection.
fn begins_entry(alloc: Global, text: &str, words: &str) -> Result<bool> {
    let made = joined(alloc, &[between(text, 0, 1), words])?;
    let Err(error) = check_document(alloc, made.as_str()) else {
        return Ok(false);
    };
    match error.code() {
        Some(ErrorCode::EofParsingArray) => Ok(true),
        Some(ErrorCode::EofParsingObject) => Ok(true),
        Some(ErrorCode::EofParsingValue) => Ok(true),
        _ => Ok(false),
    }
}
