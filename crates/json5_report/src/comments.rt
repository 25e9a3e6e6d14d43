//! What a report says of comments within comments.
//!
//! Plain code, of which no promise is made but that it is safe and ends: change it by the rows of reports, which judge it.

use crate::advice::Advice;
use crate::fault::{Fault, Remark};
use crate::lexemes::{Kind, Lexeme, lexeme_at};
use crate::parts::Part;

/// What is said of what follows a comment that another one within it ended, up to where it was to end.
pub(crate) fn nested_remark<'t>(fault: &Fault<'t>) -> Option<Remark<'t>> {
    if !may_nest(fault.text) {
        return None;
    }
    let comment = nested_before(fault.text, fault.offset)?;
    let end = end_behind(fault.text, comment.end)?;
    if end.saturating_add(1) < fault.offset {
        return None;
    }
    let line = fault.line_of(comment.end);
    Some(fault.remark(Advice::with(
        "comments are not nested: the first `*/` of line @ ended this one; remove that",
        Part::Number(line),
    )))
}

/// Whether two comments may begin in the text.
fn may_nest(text: &str) -> bool {
    match text.split_once("/*") {
        Some((_, rest)) => rest.contains("/*"),
        None => false,
    }
}

/// The last comment before the offset that another one begins in.
fn nested_before(text: &str, offset: usize) -> Option<Lexeme> {
    let mut found = None;
    let mut next = lexeme_at(text, 0);
    for _ in 0..text.len() {
        if next.start >= offset || next.kind == Kind::End {
            break;
        }
        let inner = next.of(text).strip_prefix("/*").unwrap_or("");
        if next.kind == Kind::Comment && inner.contains("/*") {
            found = Some(next);
        }
        next = lexeme_at(text, next.end);
    }
    found
}

/// Where a comment ends behind the offset that none begins before.
fn end_behind(text: &str, from: usize) -> Option<usize> {
    let mut next = lexeme_at(text, from);
    for _ in from..text.len() {
        let part = next.of(text);
        match (next.kind, part.find("*/")) {
            (Kind::Word, Some(index)) => return Some(next.start.saturating_add(index)),
            (Kind::Comment, _) if part.starts_with("/*") => return None,
            (Kind::End, _) => return None,
            _ => next = lexeme_at(text, next.end),
        }
    }
    None
}
