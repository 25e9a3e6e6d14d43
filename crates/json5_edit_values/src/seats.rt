//! Where a value goes, and how lines are there.

use json5_edit::{Names, Step, ValueSpan, find};
use json5_edit_style::{
    Collection, entry_indentation, has_last_commas, indentation, line_end, step_of,
};
use json5_styles::Layout;
use std::alloc::{AllocError, Global};

/// Where a value goes.
#[derive(Clone, Copy, Drop)]
pub(crate) enum Goes {
    /// In the place of the value that the path leads to.
    Instead,
    /// To the end of the collection that the path leads to, after a key of so many bytes.
    Last(usize),
    /// Before this element of the array that the path leads to.
    Before(usize),
}

/// On how many lines a value stands.
#[derive(Clone, Copy, Drop)]
pub(crate) enum Lines {
    /// On one, if it is short, else on several.
    Fitting,
    Many,
    /// On one, without blanks.
    Tight,
}

/// How lines are where a value goes.
#[derive(Drop)]
pub(crate) struct Seat<'t> {
    pub(crate) lines: Lines,
    /// The blanks before the line on which it begins.
    pub(crate) indent: String,
    /// How many characters stand before it on that line.
    pub(crate) column: usize,
    /// The blanks of a level.
    pub(crate) step: String,
    pub(crate) line_end: &'t str,
    /// Whether a comma stands before a closing bracket on a line of its own, if the value has one there.
    pub(crate) has_last_commas: bool,
}

/// The seat of a value in this layout, or in that of the text.
pub(crate) fn seat_of<'t>(
    alloc: Global,
    text: &'t str,
    path: &[Step<'_>],
    goes: Goes,
    layout: Option<Layout>,
) -> Result<Seat<'t>, AllocError> {
    let mut seat = Seat {
        lines: lines_in(layout),
        indent: String::new(alloc),
        column: 0,
        step: step_in(alloc, text, layout)?,
        line_end: line_end(text),
        has_last_commas: !matches!(has_last_commas(alloc, text), Ok(Some(false))),
    };
    let Ok(Some(span)) = find(alloc, text, path) else {
        return Ok(seat);
    };
    match goes {
        Goes::Instead => {
            seat.indent.push_str(indentation(text, span.start))?;
            seat.column = column_of(text, span.start);
            if layout.is_none() && has_lines(text, span) {
                seat.lines = Lines::Many;
            }
        }
        Goes::Last(key) => {
            seat.indent = indentation_in(alloc, text, span, usize::MAX)?;
            seat.column = seat.indent.len().saturating_add(key);
        }
        Goes::Before(index) => {
            seat.indent = indentation_in(alloc, text, span, index)?;
            seat.column = seat.indent.len();
        }
    }
    Ok(seat)
}

fn lines_in(layout: Option<Layout>) -> Lines {
    match layout {
        None => Lines::Fitting,
        Some(Layout::Compact) => Lines::Tight,
        Some(_) => Lines::Many,
    }
}

/// The blanks of a level in the layout, or else in the text.
fn step_in(alloc: Global, text: &str, layout: Option<Layout>) -> Result<String, AllocError> {
    match layout {
        Some(Layout::Spaces(count)) => spaces(alloc, count),
        Some(Layout::Tabs) => String::from_str(alloc, "\t"),
        _ => String::from_str(alloc, step_of(alloc, text).unwrap_or("  ")),
    }
}

fn spaces(alloc: Global, count: u8) -> Result<String, AllocError> {
    let mut made = String::new(alloc);
    for _ in 0..count {
        made.push(' ')?;
    }
    Ok(made)
}

/// Whether the part has more than one line.
fn has_lines(text: &str, span: ValueSpan) -> bool {
    let part = text.get(span.start..span.end).unwrap_or("");
    part.contains('\n') || part.contains('\r')
}

/// How many characters of its line are before this offset.
fn column_of(text: &str, at: usize) -> usize {
    let before = text.get(0..at).unwrap_or("");
    match before.rsplit_once('\n') {
        Some((_, front)) => front.chars().count(),
        None => before.chars().count(),
    }
}

/// How the line is indented on which a new entry of the collection begins: before the one with this index, or at the end.
fn indentation_in(
    alloc: Global,
    text: &str,
    span: ValueSpan,
    index: usize,
) -> Result<String, AllocError> {
    let collection = Collection {
        document: text,
        start: span.start,
        end: span.end,
        names: Names::Quoted,
    };
    match entry_indentation(alloc, &collection, index) {
        Ok(indent) => Ok(indent),
        Err(_) => String::from_str(alloc, "  "),
    }
}
