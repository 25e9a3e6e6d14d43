//! What goes from a collection's text with one of its entries.

use crate::gaps::{Gap, between};
use crate::lines::after_empty_line;
use crate::spots::{Around, Spot, Which, find_around};
use crate::switched_off::after_switched_off;
use json5_types::ErrorCode;
use json5_types::error::{Error, Result};
use std::alloc::Global;

/// What goes from a text: a part, and perhaps the comma before it. Offsets are in bytes.
///
/// ```text
/// Cut { index: 1, comma: true, start: 7, end: 12 }    // the ` b: 2` of `{ a: 1, b: 2 }`, and the comma before it
/// ```
#[derive(Clone, Copy, Drop)]
pub struct Cut {
    /// How many entries come before the one that goes.
    pub index: usize,
    /// Whether the comma before it goes.
    pub comma: bool,
    pub start: usize,
    pub end: usize,
}

/// Returns what goes from the collection's text with this entry: with its comma, the comments that belong to it, and
/// its line, if it has one to itself. A comment that would be an entry without its marks, as `// b: 2,`, belongs to none,
/// and neither does what stands above it.
///
/// ```text
/// cut_for(alloc, "{ a: 1, /* b */ b: 2 }", Which::Key("b"))?    // leaves { a: 1 }
/// ```
///
/// # Errors
///
/// - `Failed`, if there is no such entry.
/// - As reading, if the text is no value; `OutOfMemory` where there is no memory for a key with an escape.
pub fn cut_for(alloc: Global, text: &str, which: Which<'_>) -> Result<Cut> {
    found_cut(alloc, text, which, false)
}

/// Returns what goes with this entry where the comments before it stay. Those after it on its line go.
///
/// ```text
/// cut_alone_for(alloc, "{ a: 1, /* b */ b: 2 }", Which::Key("b"))?    // leaves { a: 1 /* b */ }
/// ```
///
/// # Errors
///
/// As [`cut_for`].
pub fn cut_alone_for(alloc: Global, text: &str, which: Which<'_>) -> Result<Cut> {
    found_cut(alloc, text, which, true)
}

/// What goes with this entry, where the comments before it go or stay.
fn found_cut(alloc: Global, text: &str, which: Which<'_>, keeps: bool) -> Result<Cut> {
    let around = find_around(alloc, text, which)?;
    match around.here {
        Some(here) => cut_of(alloc, text, around, here, keeps),
        None => Err(Error::new(ErrorCode::Failed)),
    }
}

/// The texts one after another.
pub(crate) fn joined(alloc: Global, parts: &[&str]) -> Result<String> {
    match parts.concat(alloc) {
        Ok(made) => Ok(made),
        Err(_) => Err(Error::new(ErrorCode::OutOfMemory)),
    }
}

/// What goes with the entry.
fn cut_of(alloc: Global, text: &str, around: Around, here: Spot, keeps: bool) -> Result<Cut> {
    let from = after_switched_off(alloc, text, around.from(), here.start)?;
    let until = match around.after {
        Some(spot) => spot.start,
        None => around.close,
    };
    let left = Gap::of(text, from, here.start);
    let right = Gap::of(text, here.full_end(), until);
    let (start, end) = if keeps && left.own < here.start {
        part_alone(around, here, left, right)
    } else {
        part(text, around, from, left, right)
    };
    if around.count == 1 && !has_comment(text, 1, start) && !has_comment(text, end, around.close) {
        return Ok(Cut {
            index: around.index,
            comma: false,
            start: 1,
            end: around.close,
        });
    }
    Ok(Cut {
        index: around.index,
        comma: takes_comma(around, here),
        start,
        end,
    })
}

/// Whether the comma before it goes: with a last entry that has none itself.
fn takes_comma(around: Around, here: Spot) -> bool {
    around.before.is_some() && around.after.is_none() && here.comma.is_none()
}

/// From where to where it goes, by the lines that it shares with others. What is before it ends at the offset.
fn part(text: &str, around: Around, from: usize, left: Gap, right: Gap) -> (usize, usize) {
    let is_last = around.after.is_none();
    match (left.line_end, right.line_end) {
        (Some(_), Some(_)) => lines(text, around, from, left, right),
        (_, None) if !is_last => (left.own, right.first),
        (Some(at), None) if left.tail == around.from() && left.lead == left.next_line => (
            at, right.tail,
        ),
        (Some(_), None) => (left.own, right.tail),
        (None, Some(_)) => (from, right.tail),
        (None, None) => (from, right.tail),
    }
}

/// From where to where it goes after comments that stay.
fn part_alone(around: Around, here: Spot, left: Gap, right: Gap) -> (usize, usize) {
    let follows_comment = left.mark > left.last_line;
    match right.line_end {
        Some(_) if !follows_comment => (left.last_line, right.next_line),
        None if around.after.is_some() => (here.start, right.first),
        _ if follows_comment => (left.mark, right.tail),
        _ => (here.start, right.tail),
    }
}

/// From where to where its lines go, with an empty line where two would meet or one would stand beside a bracket.
fn lines(text: &str, around: Around, from: usize, left: Gap, right: Gap) -> (usize, usize) {
    let is_after_empty = left.lead > left.next_line;
    let closes = around.after.is_none() && right.last_line == right.next_line;
    if closes && is_after_empty && !has_comment(text, left.next_line, left.lead) {
        return (left.next_line, right.next_line);
    }
    if is_after_empty || from == 1 {
        return (left.lead, after_empty_line(text, right.next_line));
    }
    (left.lead, right.next_line)
}

/// Whether a comment stands between these offsets, which hold blanks and comments alone.
fn has_comment(text: &str, from: usize, until: usize) -> bool {
    between(text, from, until).contains('/')
}
