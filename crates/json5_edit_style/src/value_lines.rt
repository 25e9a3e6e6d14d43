//! The lines of a value that is spelled already, as they stand where it goes.

use crate::gaps::between;
use crate::habits::step_of;
use crate::lines::{indentation, line_end};
use json5_types::ErrorCode;
use json5_types::error::{Error, Result};
use std::alloc::{AllocError, Global};

/// How the lines of a value are indented, but for the first, in bytes.
#[derive(Clone, Copy, Drop)]
struct Indents {
    /// The least that one has.
    base: usize,
    /// By how much more the next deeper ones have; 0 if all have the same.
    step: usize,
}

/// Returns the value with its lines as they are in the document: each but the first begins with these blanks, and its
/// levels are indented as the document's are. It may be another value then, if a line ends within a string.
///
/// ```text
/// relined(alloc, "{\n\ta: 1\n}", "\t", "{\n  b: 2\n}")?    // a tab before the last line, and two before the one before
/// ```
///
/// # Errors
///
/// As reading, if the document is none; `OutOfMemory` where there is no memory for the text.
pub fn relined(alloc: Global, document: &str, indent: &str, value: &str) -> Result<String> {
    let step = step_of(alloc, document)?;
    match put_lines(alloc, line_end(document), indent, step, value) {
        Ok(made) => Ok(made),
        Err(_) => Err(Error::new(ErrorCode::OutOfMemory)),
    }
}

fn put_lines(
    alloc: Global,
    line_end: &str,
    indent: &str,
    step: &str,
    value: &str,
) -> std::result::Result<String, AllocError> {
    let indents = indents_of(value);
    let mut made = String::new(alloc);
    for (count, line) in value.split('\n').enumerate() {
        let line = line.strip_suffix('\r').unwrap_or(line);
        if count == 0 {
            made.push_str(line)?;
        } else {
            made.push_str(line_end)?;
            push_line(&mut made, indents, indent, step, line)?;
        }
    }
    Ok(made)
}

/// Appends a line with other blanks in front; nothing, if it has no more than blanks.
fn push_line(
    made: &mut String,
    indents: Indents,
    indent: &str,
    step: &str,
    line: &str,
) -> std::result::Result<(), AllocError> {
    let own = indentation(line, 0).len();
    if own == line.len() {
        return Ok(());
    }
    made.push_str(indent)?;
    for _ in 0..levels(indents, own) {
        made.push_str(step)?;
    }
    made.push_str(between(line, own, line.len()))
}

/// How many levels a line is further in that has so many blanks.
fn levels(indents: Indents, own: usize) -> usize {
    let more = own.saturating_sub(indents.base);
    match indents.step {
        0 => 0,
        step => more / step,
    }
}

fn indents_of(value: &str) -> Indents {
    let mut base = usize::MAX;
    let mut next = usize::MAX;
    for line in value.split('\n').skip(1) {
        let line = line.strip_suffix('\r').unwrap_or(line);
        let own = indentation(line, 0).len();
        if own == line.len() {
            continue;
        }
        if own < base {
            next = base;
            base = own;
        } else if own > base && own < next {
            next = own;
        }
    }
    if next == usize::MAX {
        return Indents { base, step: 0 };
    }
    Indents {
        base,
        step: next.saturating_sub(base),
    }
}
