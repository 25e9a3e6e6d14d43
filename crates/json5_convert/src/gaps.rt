//! The blanks and comments between two tokens.
//!
//! Plain code: what it makes is read again.

use crate::spelling::{Blanks, Comments, Spelling};
use json5_tokens::byte_runs::line_len;
use std::alloc::AllocError;
use std::simd::prelude::*;

/// Whether the bytes between the offsets are surely blanks that JSON has.
#[inline(always)]
pub(crate) fn is_blank_in_json(bytes: &[u8], from: usize, to: usize) -> bool {
    match bytes.split_at_checked(from) {
        Some((_, front)) => json_blanks_len(front) >= to.saturating_sub(from),
        None => false,
    }
}

/// Whether JSON surely has the blanks of a gap around its comments.
pub(crate) fn has_json_blanks(gap: &str) -> bool {
    let mut rest = gap;
    for _ in 0..gap.len() {
        let (_, front) = parts(rest, json_blanks_len(rest.as_bytes()));
        if front.is_empty() {
            return true;
        }
        rest = match front.strip_prefix("//") {
            Some(comment) => parts(comment, line_len(comment.as_bytes())).1,
            None if front.len() < rest.len() => front,
            None => return false,
        };
    }
    gap.is_empty()
}

/// How many bytes in front JSON has as blanks; of many perhaps not all.
#[inline(always)]
fn json_blanks_len(bytes: &[u8]) -> usize {
    if bytes.len() >= 16 {
        return front_blanks_len(u8x16::from_slice(bytes));
    }
    few_blanks_len(bytes)
}

fn few_blanks_len(bytes: &[u8]) -> usize {
    for (place, byte) in bytes.iter().enumerate() {
        if !matches!(*byte, b' ' | b'\n' | b'\r' | b'\t') {
            return place;
        }
    }
    bytes.len()
}

#[inline(always)]
fn front_blanks_len(bytes: u8x16) -> usize {
    let blanks = bytes.simd_eq(u8x16::splat(b' '))
        | bytes.simd_eq(u8x16::splat(b'\n'))
        | bytes.simd_eq(u8x16::splat(b'\r'))
        | bytes.simd_eq(u8x16::splat(b'\t'));
    blanks.to_bitmask().trailing_ones() as usize
}

/// Appends the blanks and comments of a gap, as the spelling has them. The document may end with it.
pub(crate) fn push_gap(
    made: &mut String,
    spelling: Spelling,
    gap: &str,
    is_end: bool,
) -> Result<(), AllocError> {
    let mut rest = gap;
    for _ in 0..gap.len() {
        let Some(start) = rest.find('/') else {
            break;
        };
        let (blanks, comment) = parts(rest, start);
        let (comment, after) = parts(comment, comment_len(comment));
        rest = match spelling.comments {
            Comments::Kept => {
                push_blanks(made, spelling, blanks)?;
                made.push_str(comment)?;
                after
            }
            Comments::Dropped => drop_comment(made, spelling, blanks, after, is_end)?,
        };
    }
    push_blanks(made, spelling, rest)
}

/// The text up to the offset, and from it on.
fn parts(text: &str, at: usize) -> (&str, &str) {
    match text.split_at_checked(at) {
        Some(parts) => parts,
        None => (text, ""),
    }
}

/// How long the comment in front is.
fn comment_len(text: &str) -> usize {
    let (opening, inside) = parts(text, 2);
    if opening == "/*" {
        return match inside.find("*/") {
            Some(end) => end.saturating_add(4),
            None => text.len(),
        };
    }
    for (offset, c) in text.char_indices() {
        if is_line_end(c) {
            return offset;
        }
    }
    text.len()
}

/// Appends the blanks before a comment that goes, and returns what is left of the blanks after it: on a line of its own
/// it takes that line with it, and else the blanks between it and what stands beside it.
fn drop_comment<'t>(
    made: &mut String,
    spelling: Spelling,
    blanks: &str,
    after: &'t str,
    is_end: bool,
) -> Result<&'t str, AllocError> {
    let (_, rest) = parts(after, line_blanks_len(after));
    if !ends_line(rest, is_end) {
        push_blanks(made, spelling, blanks)?;
        return Ok(rest);
    }
    let (kept, _) = parts(blanks, solid_end(blanks));
    push_blanks(made, spelling, kept)?;
    if is_at_line_start(made.as_str()) {
        return Ok(parts(rest, line_end_len(rest)).1);
    }
    Ok(rest)
}

/// Appends blanks.
fn push_blanks(made: &mut String, spelling: Spelling, blanks: &str) -> Result<(), AllocError> {
    if let Blanks::Own = spelling.blanks {
        return made.push_str(blanks);
    }
    for c in blanks.chars() {
        match c {
            ' ' | '\t' | '\n' | '\r' => made.push(c)?,
            '\u{2028}' | '\u{2029}' => made.push('\n')?,
            '\u{FEFF}' => {}
            _ => made.push(' ')?,
        }
    }
    Ok(())
}

/// How many bytes of spaces and tabs are in front.
fn line_blanks_len(text: &str) -> usize {
    for (offset, c) in text.char_indices() {
        if !matches!(c, ' ' | '\t') {
            return offset;
        }
    }
    text.len()
}

/// Where the text ends without the spaces and tabs at its end.
fn solid_end(text: &str) -> usize {
    for (offset, c) in text.char_indices().rev() {
        if !matches!(c, ' ' | '\t') {
            return offset.saturating_add(c.len_utf8());
        }
    }
    0
}

/// Whether a line end is in front, or the end of the document.
fn ends_line(text: &str, is_end: bool) -> bool {
    match text.chars().next() {
        Some(c) => is_line_end(c),
        None => is_end,
    }
}

/// How many bytes the line end in front has.
fn line_end_len(text: &str) -> usize {
    if text.starts_with("\r\n") {
        return 2;
    }
    match text.chars().next() {
        Some(c) => c.len_utf8(),
        None => 0,
    }
}

/// Whether the text is empty or ends with a line.
fn is_at_line_start(text: &str) -> bool {
    match text.chars().next_back() {
        Some(c) => is_line_end(c),
        None => true,
    }
}

/// Whether the last line of a gap, which isn't its first, has blanks alone.
pub(crate) fn begins_last_line(gap: &str) -> bool {
    for c in gap.chars().rev() {
        if is_line_end(c) {
            return true;
        }
        if !matches!(c, ' ' | '\t') {
            return false;
        }
    }
    false
}

fn is_line_end(c: char) -> bool {
    matches!(c, '\n' | '\r' | '\u{2028}' | '\u{2029}')
}
